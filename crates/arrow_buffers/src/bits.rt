//! Single bits and whole bytes of bits: reads, writes, copies and counts.
ghost use Rattle.std.specs.Prelude.{◌≡◌, ℕ, ◌+◌, ◌-◌, ◌*◌, ◌/◌, ◌%◌, ◌<◌, ◌≤◌, ◌^◌, ◌≢◌, cond, nat_eq, length as count, replicate, ◌++◌, OnOk, OnErr};
ghost use Rattle.std.specs.Int.{bit_at as bit_in};
ghost use Rattle.arrow_buffers.specs.Bits.{bit_of, bits_of, ones_of};
ghost use Rattle.arrow_buffers.specs.Writes.{WritesBit, CopiesBits, FillsBits, AppendsBits};

use crate::Mem;

pub(crate) fn bit_at(bytes: &[u8], i: usize) -> bool
    requires { i < 8 * count bytes.now }
    ensures { result ≡ bit_of bytes.now i }
{
    (bytes[i / 8] >> (i % 8)) & 1 == 1
}

/// The eight bits from `i` on, as a byte.
fn byte_at(bytes: &[u8], i: usize) -> u8
    requires { i + 8 ≤ 8 * count bytes.now }
    ensures { (k : ℕ) → k < 8 → nat_eq (bit_in result k) 1 ≡ bit_of bytes.now (i + k) }
{
    let first = bytes[i / 8];
    if i % 8 == 0 {
        return first;
    }
    joined(first, bytes[i / 8 + 1], i % 8)
}

/// The eight bits from `shift` on of two bytes that follow each other.
fn joined(low: u8, high: u8, shift: usize) -> u8
    requires { shift < 8 }
    ensures { (k : ℕ) → k < 8 → bit_in result k ≡ bit_in (256 * high + low) (shift + k) }
{
    let both = 256 * u16::from(high) + u16::from(low);
    ((both >> shift) % 256) as u8
}

/// The byte with its bit `at` as given.
fn with_bit(byte: u8, at: usize, bit: bool) -> u8
    requires { at < 8 }
    ensures same { bit_in result at ≡ cond bit 1 0 }
    ensures others { (k : ℕ) → k ≢ at → k < 8 → bit_in result k ≡ bit_in byte k }
{
    let mask = 1 << at;
    if bit { byte | mask } else { byte & !mask }
}

/// A byte of eight equal bits.
fn byte_of(value: bool) -> u8
    ensures { result ≡ cond value 255 0 }
{
    if value { 255 } else { 0 }
}

pub(crate) fn write_bit(bytes: &mut Vec<u8>, i: usize, bit: bool)
    requires { i < 8 * count bytes.old.items }
    ensures len { count bytes.new.items ≡ count bytes.old.items }
    ensures bits { WritesBit bytes.old.items bytes.new.items i bit }
{
    let at = i / 8;
    bytes[at] = with_bit(bytes[at], i % 8, bit);
}

/// Writes `bit` from `start` up to `end`, one place at a time.
fn fill_bits(bytes: &mut Vec<u8>, start: usize, end: usize, bit: bool)
    requires { (start ≤ end) × (end ≤ 8 * count bytes.old.items) }
    ensures { FillsBits bytes.old.items bytes.new.items start end bit }
{
    for i in start..end {
        write_bit(bytes, i, bit);
    }
}

/// Writes `len` bits of `source` from `place` on, one at a time.
fn copy_each(bytes: &mut Vec<u8>, place: usize, source: &[u8], start: usize, len: usize)
    requires target { (place + len ≤ 8 * count bytes.old.items) × (place + len < 2 ^ 64) }
    requires source { (start + len ≤ 8 * count source.now) × (start + len < 2 ^ 64) }
    ensures { CopiesBits bytes.old.items bytes.new.items place source.now start len }
{
    for k in 0..len {
        let bit = bit_at(source, start + k);
        write_bit(bytes, place + k, bit);
    }
}

/// Writes `len` whole bytes from the byte `first` on, of the bits of `source` from `start` on.
fn copy_bytes(bytes: &mut Vec<u8>, first: usize, source: &[u8], start: usize, len: usize)
    requires target { first + len ≤ count bytes.old.items }
    requires source { (start + 8 * len ≤ 8 * count source.now) × (start + 8 * len < 2 ^ 64) }
    ensures { CopiesBits bytes.old.items bytes.new.items (8 * first) source.now start (8 * len) }
{
    for j in 0..len {
        let byte = byte_at(source, start + 8 * j);
        bytes[first + j] = byte;
    }
}

/// Writes `len` bits of `source` from `place` on, whole bytes at a time between the two ends.
fn copy_bits(bytes: &mut Vec<u8>, place: usize, source: &[u8], start: usize, len: usize)
    requires target { (place + len ≤ 8 * count bytes.old.items) × (place + len < 2 ^ 64) }
    requires source { (start + len ≤ 8 * count source.now) × (start + len < 2 ^ 64) }
    ensures { CopiesBits bytes.old.items bytes.new.items place source.now start len }
{
    let head = (8 - place % 8) % 8;
    if len < head + 8 {
        return copy_each(bytes, place, source, start, len);
    }
    let whole = (len - head) / 8;
    let front = head + 8 * whole;
    copy_each(bytes, place, source, start, head);
    copy_bytes(bytes, (place + head) / 8, source, start + head, whole);
    copy_each(bytes, place + front, source, start + front, len - front);
}

/// Writes `len` bits of `source` after the first `slots` ones.
pub(crate) fn append_bits(
    bytes: &mut Vec<u8>,
    slots: usize,
    source: &[u8],
    start: usize,
    len: usize,
) -> Mem<()>
    requires target { (slots ≤ 8 * count bytes.old.items) × (slots + len < 2 ^ 64) }
    requires source { (start + len ≤ 8 * count source.now) × (start + len < 2 ^ 64) }
    ensures ok { OnOk result
        (AppendsBits bytes.old.items bytes.new.items slots len (bits_of source.now start len)) }
    ensures err { OnErr result (bytes.new.items ≡ bytes.old.items) }
{
    bytes.resize((slots + len).div_ceil(8), 0)?;
    copy_bits(bytes, slots, source, start, len);
    Ok(())
}

/// Writes `len` equal bits after the first `slots` ones, whole bytes at a time past the first byte.
pub(crate) fn append_equal(bytes: &mut Vec<u8>, slots: usize, len: usize, bit: bool) -> Mem<()>
    requires { (slots ≤ 8 * count bytes.old.items) × (slots + len < 2 ^ 64) }
    ensures ok { OnOk result
        (AppendsBits bytes.old.items bytes.new.items slots len (replicate len bit)) }
    ensures err { OnErr result ((bits_of bytes.new.items 0 slots ≡ bits_of bytes.old.items 0 slots)
        × (slots ≤ 8 * count bytes.new.items)) }
{
    bytes.truncate(slots.div_ceil(8));
    bytes.resize((slots + len).div_ceil(8), byte_of(bit))?;
    fill_bits(bytes, slots, slots + (8 - slots % 8).min(len), bit);
    Ok(())
}

/// The count of set bits from `start` up to `end`, one at a time.
fn count_each(bytes: &[u8], start: usize, end: usize) -> usize
    requires { (start ≤ end) × (end ≤ 8 * count bytes.now) }
    ensures value { result ≡ ones_of bytes.now start (end - start) }
    ensures fits { result ≤ end - start }
{
    let mut total = 0;
    for i in start..end {
        let bit = bit_at(bytes, i);
        total += bit as usize;
    }
    total
}

/// The count of set bits in the bytes from `first` up to `last`.
fn count_bytes(bytes: &[u8], first: usize, last: usize) -> usize
    requires { (first ≤ last) × (last ≤ count bytes.now) × (8 * last < 2 ^ 64) }
    ensures value { result ≡ ones_of bytes.now (8 * first) (8 * (last - first)) }
    ensures fits { result ≤ 8 * (last - first) }
{
    let mut total = 0;
    for i in first..last {
        let byte = bytes[i];
        total += byte.count_ones() as usize;
    }
    total
}

/// The count of set bits from `start` up to `end`, whole bytes at a time between the two ends.
pub(crate) fn count_set(bytes: &[u8], start: usize, end: usize) -> usize
    requires { (start ≤ end) × (end ≤ 8 * count bytes.now) }
    ensures value { result ≡ ones_of bytes.now start (end - start) }
    ensures fits { result ≤ end - start }
{
    let first = start.div_ceil(8);
    let last = end / 8;
    if last <= first {
        return count_each(bytes, start, end);
    }
    let before = count_each(bytes, start, 8 * first);
    let whole = count_bytes(bytes, first, last);
    let after = count_each(bytes, 8 * last, end);
    before + whole + after
}
