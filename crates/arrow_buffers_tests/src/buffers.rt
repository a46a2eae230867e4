//! What no clause says: that calls succeed with ample memory, and that the clauses mean what lists
//! of bits do.
ghost use Rattle.std.specs.Prelude.{◌+◌, ◌<◌, ◌≤◌, length as count};

use arrow_buffers::{
    Bitmap, BitmapBuilder, Buffer, Mem, MutableBitmap, Offset, OffsetError, Offsets, OffsetsBuffer,
};
use std::alloc::Global;

const PATTERNS: [u64; 3] = [
    0xffff_ffff_ffff_ffff,
    0x0123_4567_89ab_cdef,
    0x8000_0001_7ffe_a5c3,
];

/// The bits of a number, the lowest first.
fn bits_of(pattern: u64) -> [bool; 64] {
    let mut bits = [false; 64];
    for i in 0..64 {
        bits[i] = (pattern >> i) & 1 == 1;
    }
    bits
}

/// Whether the bits from `start` on are those of the slice.
fn has_at(bitmap: &Bitmap, start: usize, bits: &[bool]) -> bool {
    if bitmap.len() < start || bitmap.len() - start < bits.len() {
        return false;
    }
    for i in 0..bits.len() {
        if bitmap.get_bit(start + i) != bits[i] {
            return false;
        }
    }
    true
}

/// Whether the bits are those of the slice, from the front and from the back.
fn gives(bitmap: &Bitmap, bits: &[bool]) -> bool {
    bitmap.iter().eq(bits.iter().copied()) && bitmap.iter().rev().eq(bits.iter().rev().copied())
}

/// Whether a window of `offset` and the length of the slice has its bits and counts.
fn is_window(window: &Bitmap, offset: usize, bits: &[bool]) -> bool {
    let lead = if bits.len() == 0 { 0 } else { offset % 8 };
    let set = bits.iter().filter(|bit| **bit).count();
    window.lead() == lead
        && window.set_bits() == set
        && has_at(window, 0, bits)
        && gives(window, bits)
}

/// Whether a bitmap has `front` set bits, those of the slice, and 20 unset ones.
fn is_joined(joined: &Bitmap, front: usize, bits: &[bool]) -> bool
    requires { front + count bits.now < 100 }
{
    let end = front + bits.len();
    joined.len() == end + 20
        && joined.set_bits() == front + bits.iter().filter(|bit| **bit).count()
        && has_at(joined, front, bits)
}

/// Whether a window of a bitmap has the bits and the counts of the same window of its bits.
fn has_window(
    alloc: Global,
    whole: &Bitmap,
    bits: &[bool],
    offset: usize,
    length: usize,
) -> Mem<bool>
    requires within { offset + length ≤ count whole.now.bits }
    requires in_bits { offset + length ≤ count bits.now }
{
    let mut window = whole.try_clone(alloc)?;
    window.slice(offset, length);
    let is_right = is_window(&window, offset, &bits[offset..offset + length])
        && window.byte_len() == (window.lead() + length).div_ceil(8)
        && window.unset_bits() + window.set_bits() == length;
    drop(window);
    Ok(is_right)
}

#[test]
fn windows_show_their_bits(rt: HostRuntime) -> Mem<()> {
    let alloc = rt.alloc();
    for pattern in PATTERNS {
        let bits = bits_of(pattern);
        let whole = Bitmap::from_bools(alloc, &bits)?;
        for offset in 0..16 {
            for length in 0..41 {
                let is_right = has_window(alloc, &whole, &bits, offset, length);
                assert!(rt; matches!(is_right, Ok(true)));
            }
        }
        drop(whole);
    }
    Ok(())
}

/// Appends `target` set bits, `length` bits from `offset` on, and 20 unset ones.
fn join(
    built: &mut MutableBitmap,
    target: usize,
    whole: &Bitmap,
    offset: usize,
    length: usize,
) -> Mem<()>
    requires { offset + length ≤ count whole.now.bits }
{
    built.extend_constant(target, true)?;
    built.extend_from_range(whole, offset, length)?;
    built.extend_constant(20, false)
}

/// Whether a copy between set and unset bits has the bits of its source.
fn has_copy(alloc: Global, target: usize, whole: &Bitmap, offset: usize, bits: &[bool]) -> Mem<bool>
    requires within { offset + count bits.now ≤ count whole.now.bits }
    requires few { target + count bits.now < 100 }
{
    let mut built = MutableBitmap::new(alloc);
    let joined = join(&mut built, target, whole, offset, bits.len());
    let frozen = built.freeze();
    joined?;
    let bitmap = frozen?;
    let is_right = is_joined(&bitmap, target, bits);
    drop(bitmap);
    Ok(is_right)
}

#[test]
fn copies_show_the_bits_of_their_source(rt: HostRuntime) -> Mem<()> {
    let alloc = rt.alloc();
    for pattern in PATTERNS {
        let bits = bits_of(pattern);
        let whole = Bitmap::from_bools(alloc, &bits)?;
        for offset in 0..16 {
            for length in 0..41 {
                for target in 0..8 {
                    let is_right = has_copy(
                        alloc,
                        target,
                        &whole,
                        offset,
                        &bits[offset..offset + length],
                    );
                    assert!(rt; matches!(is_right, Ok(true)));
                }
            }
        }
        drop(whole);
    }
    Ok(())
}

/// Bits grow to 12, and are cut to 6; whether they were 12.
fn grow_bits(built: &mut MutableBitmap) -> Mem<bool> {
    built.reserve(20)?;
    for bit in [true, true, false] {
        built.push(bit)?;
    }
    built.extend_constant(9, true)?;
    if built.len() != 12 {
        return Ok(false);
    }
    built.set(1, false);
    built.truncate(6);
    built.shrink_to_fit();
    Ok(true)
}

/// Whether a mask joined with set bits has these bits.
fn has_both(alloc: Global, mask: &Bitmap, all: &Bitmap, bits: &[bool]) -> Mem<bool> {
    if mask.len() != all.len() {
        return Ok(false);
    }
    let both = mask.and(alloc, all)?;
    let is_right = gives(&both, bits);
    drop(both);
    Ok(is_right)
}

#[test]
fn bits_grow_and_freeze(rt: HostRuntime) -> Mem<()> {
    let alloc = rt.alloc();
    let bits = [true, false, false, true, true, true];
    let all = Bitmap::new_with_value(alloc, true, 6)?;
    let mut built = MutableBitmap::new(alloc);
    let grown = grow_bits(&mut built);
    let mask = built.freeze()?;
    let is_mask = gives(&mask, &bits) && all.set_bits() == 6;
    let is_both = has_both(alloc, &mask, &all, &bits);
    drop(mask);
    drop(all);
    assert!(rt; grown? && is_mask && is_both?);
    Ok(())
}

/// Appends 21 set bits and the first bits of a bitmap, and keeps 23.
fn grow(built: &mut BitmapBuilder, source: &Bitmap, len: usize) -> Mem<()>
    requires { len ≤ count source.now.bits }
{
    built.reserve(30)?;
    built.extend_constant(20, true)?;
    built.push(true)?;
    built.extend_from_range(source, 0, len)?;
    built.truncate(23);
    Ok(())
}

/// Whether bits need a mask.
fn needs_mask(built: BitmapBuilder) -> Mem<bool> {
    let mask = built.into_opt_validity()?;
    let is_needed = mask.is_some();
    drop(mask);
    Ok(is_needed)
}

/// The count of bits that grew, and whether they need a mask.
fn masked(alloc: Global, source: &Bitmap, len: usize) -> Mem<(usize, bool)>
    requires { len ≤ count source.now.bits }
{
    let mut built = BitmapBuilder::new(alloc);
    let grown = grow(&mut built, source, len);
    let count = built.len();
    let is_needed = needs_mask(built);
    grown?;
    Ok((count, is_needed?))
}

#[test]
fn builders_give_a_mask_where_it_is_needed(rt: HostRuntime) -> Mem<()> {
    let alloc = rt.alloc();
    let source = Bitmap::from_bools(alloc, &[true, false])?;
    let one = masked(alloc, &source, 1);
    let two = masked(alloc, &source, 2);
    drop(source);
    assert!(rt; one? == (22, false) && two? == (23, true));
    let empty = BitmapBuilder::new(alloc).freeze()?;
    let count = empty.len();
    drop(empty);
    assert!(rt; count == 0);
    Ok(())
}

/// Cuts five items to the third and the fourth, in two steps; whether they were five.
fn cut(buffer: &mut Buffer<u16>) -> bool {
    if buffer.len() != 5 {
        return false;
    }
    buffer.slice(1, 3);
    buffer.slice(1, 2);
    true
}

#[test]
fn buffers_are_windows(rt: HostRuntime) -> Mem<()> {
    let alloc = rt.alloc();
    let items = Vec::from_slice(alloc, &[3u16, 1, 4, 1, 5])?;
    let whole = Buffer::from_vec(alloc, items)?;
    let mut buffer = whole.try_clone(alloc)?;
    let is_cut = cut(&mut buffer) && buffer.as_slice() == [4, 1].as_slice() && buffer.len() == 2;
    drop(buffer);
    let is_whole = whole.iter().len() == 5 && whole.as_slice() == [3, 1, 4, 1, 5].as_slice();
    drop(whole);
    assert!(rt; is_cut && is_whole);
    Ok(())
}

/// Appends slots in each way.
fn grow_offsets<O: Offset>(grown: &mut Offsets<O>) -> Result<(), OffsetError> {
    grown.reserve(6)?;
    grown.try_push(3)?;
    grown.extend_constant(2)?;
    grown.try_extend_from_lengths(&[1, 0, 4])?;
    grown.truncate(5);
    grown.shrink_to_fit();
    Ok(())
}

fn grown<O: Offset>(alloc: Global) -> Result<OffsetsBuffer<O>, OffsetError> {
    let mut grown = Offsets::<O>::new(alloc)?;
    let outcome = grow_offsets(&mut grown);
    let frozen = grown.freeze();
    outcome?;
    Ok(frozen?)
}

/// A slot of length 7, and two slots of another list.
fn extended<O: Offset>(
    alloc: Global,
    source: &OffsetsBuffer<O>,
) -> Result<OffsetsBuffer<O>, OffsetError>
    requires { 4 < count source.now }
{
    let mut grown = Offsets::<O>::new(alloc)?;
    grown.try_push(7)?;
    grown.try_extend_from_slice(source, 2, 2)?;
    Ok(grown.freeze()?)
}

fn has_slots<O: Offset>(offsets: &OffsetsBuffer<O>, wanted: &[(usize, usize)]) -> bool {
    if offsets.len_proxy() != wanted.len() {
        return false;
    }
    for i in 0..wanted.len() {
        if offsets.start_end(i) != wanted[i] {
            return false;
        }
    }
    true
}

/// Whether a window of offsets has its slots.
fn has_window_slots<O: Offset>(
    alloc: Global,
    source: &OffsetsBuffer<O>,
) -> Result<bool, OffsetError>
    requires { 4 < count source.now }
{
    let mut window = source.try_clone(alloc)?;
    window.slice(1, 3);
    let is_right = has_slots(&window, &[(3, 3), (3, 3), (3, 4)]);
    drop(window);
    Ok(is_right)
}

/// Whether slots of another list have their place.
fn has_joined_slots<O: Offset>(
    alloc: Global,
    source: &OffsetsBuffer<O>,
) -> Result<bool, OffsetError>
    requires { 4 < count source.now }
{
    let joined = extended(alloc, source)?;
    let is_right = has_slots(&joined, &[(0, 7), (7, 7), (7, 8)]);
    drop(joined);
    Ok(is_right)
}

/// Whether offsets report their slots, through the bound.
fn has_all_slots<O: Offset>(alloc: Global) -> Result<bool, OffsetError> {
    let source = grown::<O>(alloc)?;
    if source.len_proxy() < 5 {
        return Ok(false);
    }
    let joined = has_joined_slots(alloc, &source);
    let window = has_window_slots(alloc, &source);
    drop(source);
    Ok(joined? && window?)
}

#[test]
fn offsets_report_their_slots(rt: HostRuntime) -> Result<(), OffsetError> {
    assert!(rt; has_all_slots::<i32>(rt.alloc())? && !i32::IS_LARGE);
    assert!(rt; has_all_slots::<i64>(rt.alloc())? && i64::IS_LARGE);
    Ok(())
}

/// The name of a refusal, or that the value was accepted.
fn outcome_name<T: Drop>(alloc: Global, outcome: Result<T, OffsetError>) -> Mem<String> {
    match outcome {
        Ok(_) => String::from_str(alloc, "accepted"),
        Err(error) => format!(in alloc; "{error}"),
    }
}

#[test]
fn offsets_are_refused_by_the_first_cause(rt: HostRuntime) -> Mem<()> {
    let alloc = rt.alloc();
    let cases: [(&[i32], &str); 7] = [
        (&[], "Empty"),
        (&[-1], "Negative"),
        (&[-2, 4, 1], "Negative"),
        (&[0, 3, 2], "NotMonotone"),
        (&[5, -1], "NotMonotone"),
        (&[2, 2, 9], "accepted"),
        (&[0, 2147483647], "accepted"),
    ];
    for (items, wanted) in cases {
        let items = Vec::from_slice(alloc, items)?;
        assert!(rt; outcome_name(alloc, Offsets::try_from_vec(items))?.as_str() == wanted);
    }
    Ok(())
}

/// Whether offsets report these causes at a slot of this length.
fn stops(alloc: Global, offsets: &mut Offsets<i32>, length: usize, wanted: &str) -> Mem<bool> {
    let first = outcome_name(alloc, offsets.try_push(length))?;
    let second = outcome_name(alloc, offsets.try_extend_from_lengths(&[1, length]))?;
    Ok(first.as_str() == wanted && second.as_str() == "Overflow")
}

#[test]
fn growth_stops_at_the_greatest_offset(rt: HostRuntime) -> Mem<()> {
    let alloc = rt.alloc();
    for (length, wanted) in [(2147483647, "accepted"), (2147483648, "Overflow")] {
        let mut offsets = Offsets::<i32>::new(alloc)?;
        let is_right = stops(alloc, &mut offsets, length, wanted);
        drop(offsets);
        assert!(rt; is_right?);
    }
    assert!(rt;
        outcome_name::<()>(alloc, Err(OffsetError::OutOfMemory))?.as_str() == "OutOfMemory"
    );
    Ok(())
}

/// Whether offsets grow by n slots.
fn grow_by(alloc: Global, n: usize) -> Mem<bool> {
    let mut grown = Offsets::<i32>::new(alloc)?;
    let is_grown = grown.extend_constant(n).is_ok() && grown.len_proxy() == n;
    drop(grown);
    Ok(is_grown)
}

#[test]
fn offsets_grow_by_each_small_count(rt: HostRuntime) -> Mem<()> {
    for n in 0..10 {
        let is_grown = grow_by(rt.alloc(), n)?;
        assert!(rt; is_grown);
    }
    Ok(())
}
