//! Binary values that follow one another and grow.
ghost use Rattle.std.specs.Prelude.{◌≡◌, ◌+◌, ◌-◌, ◌<◌, ◌≤◌, ◌^◌, [], length as count, map, take, drop, get_or, replicate, false, Some, IfErr, IfOk, OnErr, OnOk};
ghost use Rattle.std.specs.List.{concat};
ghost use Rattle.arrow_buffers.specs.Offsets.{AreOffsets, end_of};
ghost use Rattle.arrow_bytes.specs.Binaries.{slot_count, values_between, values_of};
ghost use Rattle.arrow_flat.specs.Pieces.{AreTextsIf};
ghost use Rattle.arrow_layout.specs.Cut.{part};
ghost use Rattle.arrow_grow_flat.specs.Spans.{AppendsValues, AreJoined, EndRefused, IsPrefixOf, slot_values};

use arrow_buffers::{Bitmap, OffsetError, Offsets};
use arrow_bytes::OffsetArray;
use arrow_flat::ViewType;
use arrow_meaning::{FlatNode, SizedOffset};
use arrow_types::{GrowError, Mem};

/// AppendsValues the values of n slots of an array, and empty ones for nulls, whose bytes are passed
/// over. Overflow exactly where the last offset would pass its type; a refused call leaves the
/// values.
pub(crate) fn extend_slots<K: ViewType, O: SizedOffset>(
    offsets: &mut Offsets<O>,
    values: &mut Vec<u8>,
    source: &OffsetArray<K, O>,
    start: usize,
    len: usize,
) -> Result<(), GrowError>
    requires joined { AreJoined O.number offsets.old values.old.items }
    requires reached { start + len ≤ slot_count source.now }
    ensures ok { let slots = part start len (slot_values O.number source.now) in OnOk result
        (AppendsValues O.number offsets.old values.old.items slots offsets.new values.new.items) }
    ensures texts { let slots = part start len (slot_values O.number source.now) in
        AreTextsIf K.IS_TEXT slots }
    ensures refused { let slots = part start len (slot_values O.number source.now) in IfErr result
        (EndRefused O.limit (count values.old.items + count (concat slots))) }
    ensures same_offsets { OnErr result (map O.number offsets.new ≡ map O.number offsets.old) }
    ensures same_values { OnErr result (values.new.items ≡ values.old.items) }
{
    OffsetArray::invariant(source);
    let slots = offsets.len_proxy();
    let bytes = values.len();
    let outcome = extend_by_mask(offsets, values, source, start, len);
    if outcome.is_err() {
        offsets.truncate(slots);
        values.truncate(bytes);
    }
    outcome
}

/// AppendsValues the values of n slots of an array, and empty ones for nulls.
fn extend_by_mask<K: ViewType, O: SizedOffset>(
    offsets: &mut Offsets<O>,
    values: &mut Vec<u8>,
    source: &OffsetArray<K, O>,
    start: usize,
    len: usize,
) -> Result<(), GrowError>
    requires joined { AreJoined O.number offsets.old values.old.items }
    requires reached { start + len ≤ slot_count source.now }
    ensures ok { let slots = part start len (slot_values O.number source.now) in OnOk result
        (AppendsValues O.number offsets.old values.old.items slots offsets.new values.new.items) }
    ensures refused { let slots = part start len (slot_values O.number source.now) in IfErr result
        (EndRefused O.limit (count values.old.items + count (concat slots))) }
    ensures offsets_stay { IsPrefixOf (map O.number offsets.old) (map O.number offsets.new) }
    ensures values_stay { IsPrefixOf values.old.items values.new.items }
{
    OffsetArray::invariant(source);
    match source.validity() {
        None => extend_values(offsets, values, source, start, len),
        Some(mask) => extend_runs(offsets, values, source, mask, start, len),
    }
}

/// AppendsValues the values of n slots of an array, those under nulls too: one copy of their bytes.
fn extend_values<K: ViewType, O: SizedOffset>(
    offsets: &mut Offsets<O>,
    values: &mut Vec<u8>,
    source: &OffsetArray<K, O>,
    start: usize,
    len: usize,
) -> Result<(), GrowError>
    requires joined { AreJoined O.number offsets.old values.old.items }
    requires reached { start + len ≤ slot_count source.now }
    ensures ok { let slots = part start len (values_of O.number source.now) in OnOk result
        (AppendsValues O.number offsets.old values.old.items slots offsets.new values.new.items) }
    ensures refused { let slots = part start len (values_of O.number source.now) in IfErr result
        (EndRefused O.limit (count values.old.items + count (concat slots))) }
    ensures offsets_stay { IsPrefixOf (map O.number offsets.old) (map O.number offsets.new) }
    ensures values_stay { IsPrefixOf values.old.items values.new.items }
{
    FlatNode::invariant(source);
    match offsets.try_extend_from_slice(source.offsets(), start, len) {
        Ok(()) => {}
        Err(OffsetError::Overflow) => return Err(GrowError::Overflow),
        Err(_) => return Err(GrowError::OutOfMemory),
    }
    values.extend_from_slice(bytes_of_slots(source, start, len))?;
    Ok(())
}

/// The bytes of n slots of an array, those under nulls too.
fn bytes_of_slots<K: ViewType, O: SizedOffset>(
    source: &OffsetArray<K, O>,
    start: usize,
    len: usize,
) -> &[u8]
    requires { start + len ≤ slot_count source.now }
    ensures { result.now ≡ concat (part start len (values_of O.number source.now)) }
{
    FlatNode::invariant(source);
    let values = source.values().as_slice();
    if len == 0 {
        return &values[..0];
    }
    let (from, _) = source.offsets().start_end(start);
    let (_, to) = source.offsets().start_end(start + len - 1);
    bytes_between(values, from, to)
}

/// The bytes from one place to another.
fn bytes_between(bytes: &[u8], from: usize, to: usize) -> &[u8]
    requires ordered { from ≤ to }
    requires within { to ≤ count bytes.now }
    ensures { result.now ≡ take (to - from) (drop from bytes.now) }
{
    &bytes[from..to]
}

/// AppendsValues the values of n slots of an array with a mask, run by run.
fn extend_runs<K: ViewType, O: SizedOffset>(
    offsets: &mut Offsets<O>,
    values: &mut Vec<u8>,
    source: &OffsetArray<K, O>,
    mask: &Bitmap,
    start: usize,
    len: usize,
) -> Result<(), GrowError>
    requires joined { AreJoined O.number offsets.old values.old.items }
    requires reached { start + len ≤ slot_count source.now }
    requires masked { source.now.mask ≡ Some mask.now }
    requires covered { count mask.now.bits ≡ slot_count source.now }
    ensures ok { let slots = part start len (slot_values O.number source.now) in OnOk result
        (AppendsValues O.number offsets.old values.old.items slots offsets.new values.new.items) }
    ensures refused { let slots = part start len (slot_values O.number source.now) in IfErr result
        (EndRefused O.limit (count values.old.items + count (concat slots))) }
    ensures offsets_stay { IsPrefixOf (map O.number offsets.old) (map O.number offsets.new) }
    ensures values_stay { IsPrefixOf values.old.items values.new.items }
{
    prove!(source.len() >= start + len);
    let end = start + len;
    let mut from = start;
    while from < end {
        from = extend_run(offsets, values, source, mask, from, end)?;
    }
    Ok(())
}

/// AppendsValues the values of the slots before `end` that are all valid or all null as the one at
/// `from` is, and returns where they end.
fn extend_run<K: ViewType, O: SizedOffset>(
    offsets: &mut Offsets<O>,
    values: &mut Vec<u8>,
    source: &OffsetArray<K, O>,
    mask: &Bitmap,
    from: usize,
    end: usize,
) -> Result<usize, GrowError>
    requires joined { AreJoined O.number offsets.old values.old.items }
    requires some { from < end }
    requires reached { end ≤ slot_count source.now }
    requires masked { source.now.mask ≡ Some mask.now }
    requires covered { count mask.now.bits ≡ slot_count source.now }
    ensures run { IfOk result (λ to. (from < to) × (to ≤ end)) }
    ensures ok { IfOk result (λ to. let slots = part from (to - from)
        (slot_values O.number source.now) in
        AppendsValues O.number offsets.old values.old.items slots offsets.new values.new.items) }
    ensures refused { let slots = part from (end - from) (slot_values O.number source.now) in
        IfErr result (EndRefused O.limit (count values.old.items + count (concat slots))) }
    ensures offsets_stay { IsPrefixOf (map O.number offsets.old) (map O.number offsets.new) }
    ensures values_stay { IsPrefixOf values.old.items values.new.items }
{
    let to = run_end(mask, from, end);
    if mask.get_bit(from) {
        extend_values(offsets, values, source, from, to - from)?;
    } else {
        extend_empty(offsets, values, to - from)?;
    }
    Ok(to)
}

/// AppendsValues empty values.
pub(crate) fn extend_empty<O: SizedOffset>(
    offsets: &mut Offsets<O>,
    values: &Vec<u8>,
    additional: usize,
) -> Mem<()>
    requires joined { AreJoined O.number offsets.old values.now.items }
    ensures ok { OnOk result (AppendsValues O.number offsets.old values.now.items
        (replicate additional []) offsets.new values.now.items) }
    ensures err { OnErr result (offsets.new ≡ offsets.old) }
    ensures offsets_stay { IsPrefixOf (map O.number offsets.old) (map O.number offsets.new) }
{
    offsets.extend_constant(additional)?;
    Ok(())
}

/// Where the bits before `end` that are equal to the one at `from` end.
fn run_end(mask: &Bitmap, from: usize, end: usize) -> usize
    requires some { from < end }
    requires reached { end ≤ count mask.now.bits }
    ensures within { (from < result) × (result ≤ end) }
    ensures equal { part from (result - from) mask.now.bits
        ≡ replicate (result - from) (get_or mask.now.bits from false) }
{
    let bit = mask.get_bit(from);
    let mut to = from + 1;
    while to < end && mask.get_bit(to) == bit {
        to += 1;
    }
    to
}

/// For proofs alone: what offsets keep.
pub(crate) fn offsets_invariant<O: SizedOffset>(offsets: &Offsets<O>)
    ensures sound { AreOffsets O.limit (map O.number offsets.now) }
    ensures few { count offsets.now ≤ 2 ^ 64 }
{
    offsets.len_proxy();
}
