//! The positions that keys of dictionaries name, and the keys of positions.
ghost use Rattle.std.specs.Prelude.{◌≡◌, ◌+◌, ◌++◌, ◌^◌, ◌<◌, ◌≤◌, length as len, map, pos, replicate, None, Some, IfOk, OnOk};
ghost use Rattle.std.specs.List.{AllByRecursion};
ghost use Rattle.arrow_types.specs.Capacity.{key_capacity};
ghost use Rattle.arrow_types.specs.Seen.{seen};
ghost use Rattle.arrow_types.specs.Types.{integer_type};
ghost use Rattle.arrow_flat.specs.Primitives.{MaskHasLength};
ghost use Rattle.arrow_layout.specs.Denote.{validity_of};
ghost use Rattle.arrow_layout.specs.Layouts.{length_of, type_of};
ghost use Rattle.arrow_meaning.specs.Nodes.{AreKeysBelow, key_layout, key_number, key_numbers, key_type_of, primitive_layout};
ghost use Rattle.arrow_canon.specs.Picks.{span};
ghost use Rattle.arrow_canon.specs.Runs.{places, places_of, AreWithin, IsWithin};
ghost use Rattle.arrow_gather.specs.Distincts.{value_place, value_places};

use arrow_buffers::{Bitmap, Buffer};
use arrow_canon::{Run, count_slots};
use arrow_choice::DictionaryKey;
use arrow_flat::PrimitiveArray;
use arrow_meaning::{KeyNode, NodeKey};
use arrow_types::{ArrowDataType, Mem};
use std::alloc::{AllocError, Global};

/// The position of the value that the key of each picked slot names, none for a null and for a
/// filling. Keys under nulls are not read.
pub(crate) fn value_positions(
    alloc: Global,
    keys: &KeyNode,
    runs: &[Run],
) -> Mem<Vec<Option<usize>>>
    requires named { let ks = key_layout keys.now in AreKeysBelow (2 ^ 64) (validity_of ks) ks }
    requires within { AreWithin (length_of (key_layout keys.now)) runs.now }
    ensures { IfOk result (λ v. v.items ≡ value_places (key_layout keys.now) (places runs.now)) }
{
    match keys {
        KeyNode::Int8(keys) => positions_of_runs(alloc, keys, runs),
        KeyNode::Int16(keys) => positions_of_runs(alloc, keys, runs),
        KeyNode::Int32(keys) => positions_of_runs(alloc, keys, runs),
        KeyNode::Int64(keys) => positions_of_runs(alloc, keys, runs),
        KeyNode::Int128(keys) => positions_of_runs(alloc, keys, runs),
        KeyNode::UInt8(keys) => positions_of_runs(alloc, keys, runs),
        KeyNode::UInt16(keys) => positions_of_runs(alloc, keys, runs),
        KeyNode::UInt32(keys) => positions_of_runs(alloc, keys, runs),
        KeyNode::UInt64(keys) => positions_of_runs(alloc, keys, runs),
    }
}

/// The same of keys of one type.
fn positions_of_runs<K: NodeKey>(
    alloc: Global,
    keys: &PrimitiveArray<K>,
    runs: &[Run],
) -> Mem<Vec<Option<usize>>>
    requires named { let ks = primitive_layout K.parts keys.now in
        AreKeysBelow (2 ^ 64) (validity_of ks) ks }
    requires within { AreWithin (len keys.now.values) runs.now }
    ensures { IfOk result (λ v.
        v.items ≡ value_places (primitive_layout K.parts keys.now) (places runs.now)) }
{
    let Some(count) = count_slots(runs) else {
        return Err(AllocError);
    };
    let mut positions = Vec::new(alloc);
    positions.reserve(count)?;
    for run in runs {
        push_run(&mut positions, keys, *run)?;
    }
    Ok(positions)
}

/// Appends the positions of a run.
fn push_run<K: NodeKey>(
    positions: &mut Vec<Option<usize>>,
    keys: &PrimitiveArray<K>,
    run: Run,
) -> Mem<()>
    requires named { let ks = primitive_layout K.parts keys.now in
        AreKeysBelow (2 ^ 64) (validity_of ks) ks }
    requires within { IsWithin (len keys.now.values) run }
    ensures { OnOk result (positions.new.items ≡ positions.old.items
        ++ value_places (primitive_layout K.parts keys.now) (places_of run)) }
{
    match run {
        Run::Slots { start, length } => {
            push_slots(positions, keys, start, length)?;
            Ok(())
        }
        Run::Fill { count } => {
            push_fill(positions, count)?;
            Ok(())
        }
    }
}

/// Appends the positions of n slots.
fn push_slots<K: NodeKey>(
    positions: &mut Vec<Option<usize>>,
    keys: &PrimitiveArray<K>,
    start: usize,
    length: usize,
) -> Mem<()>
    requires named { let ks = primitive_layout K.parts keys.now in
        AreKeysBelow (2 ^ 64) (validity_of ks) ks }
    requires within { start + length ≤ len keys.now.values }
    ensures { OnOk result (positions.new.items ≡ positions.old.items
        ++ value_places (primitive_layout K.parts keys.now) (span start length)) }
{
    let _slots = keys.len();
    for i in start..start + length {
        positions.push(position_at(keys, i))?;
    }
    Ok(())
}

/// Appends n fillings.
fn push_fill(positions: &mut Vec<Option<usize>>, count: usize) -> Mem<()>
    ensures { OnOk result (positions.new.items ≡ positions.old.items ++ replicate count None) }
{
    let Some(end) = positions.len().checked_add(count) else {
        return Err(AllocError);
    };
    positions.resize(end, None)
}

/// The position of the value that the key of a slot names, none for a null.
fn position_at<K: NodeKey>(keys: &PrimitiveArray<K>, i: usize) -> Option<usize>
    requires named { let ks = primitive_layout K.parts keys.now in
        AreKeysBelow (2 ^ 64) (validity_of ks) ks }
    requires within { i < len keys.now.values }
    ensures { result ≡ value_place (primitive_layout K.parts keys.now) (Some i) }
{
    keys.invariant();
    if keys.is_valid(i) {
        keys.value(i).to_position()
    } else {
        None
    }
}

/// The keys of positions, of the type of the source's keys.
pub(crate) fn key_node(
    alloc: Global,
    keys: &KeyNode,
    positions: &[usize],
    validity: Option<Bitmap>,
) -> Mem<KeyNode>
    requires small { AllByRecursion (λ k. k < key_capacity (key_type_of keys.now)) positions.now }
    requires mask { MaskHasLength validity (len positions.now) }
    ensures of_type { IfOk result (λ n.
        type_of (key_layout n) ≡ integer_type (key_type_of keys.now)) }
    ensures mask { IfOk result (λ n. validity_of (key_layout n) ≡ validity) }
    ensures numbers { IfOk result (λ n. key_numbers (key_layout n) ≡ map pos positions.now) }
    ensures kind { IfOk result (λ n. key_type_of n ≡ key_type_of keys.now) }
{
    match keys {
        KeyNode::Int8(_) => key_array(alloc, positions, validity).map(KeyNode::Int8),
        KeyNode::Int16(_) => key_array(alloc, positions, validity).map(KeyNode::Int16),
        KeyNode::Int32(_) => key_array(alloc, positions, validity).map(KeyNode::Int32),
        KeyNode::Int64(_) => key_array(alloc, positions, validity).map(KeyNode::Int64),
        KeyNode::Int128(_) => key_array(alloc, positions, validity).map(KeyNode::Int128),
        KeyNode::UInt8(_) => key_array(alloc, positions, validity).map(KeyNode::UInt8),
        KeyNode::UInt16(_) => key_array(alloc, positions, validity).map(KeyNode::UInt16),
        KeyNode::UInt32(_) => key_array(alloc, positions, validity).map(KeyNode::UInt32),
        KeyNode::UInt64(_) => key_array(alloc, positions, validity).map(KeyNode::UInt64),
    }
}

/// The keys of positions, of one type.
fn key_array<K: DictionaryKey>(
    alloc: Global,
    positions: &[usize],
    validity: Option<Bitmap>,
) -> Mem<PrimitiveArray<K>>
    requires small { AllByRecursion (λ k. k < key_capacity K.KEY_TYPE) positions.now }
    requires mask { MaskHasLength validity (len positions.now) }
    ensures of_type { IfOk result (λ a. seen a.dtype ≡ integer_type K.KEY_TYPE) }
    ensures mask { IfOk result (λ a. a.mask ≡ validity) }
    ensures numbers { IfOk result (λ a.
        map key_number (map K.parts a.values) ≡ map pos positions.now) }
{
    let values = key_values(alloc, positions)?;
    let values = Buffer::from_vec(alloc, values)?;
    Ok(PrimitiveArray::new(ArrowDataType::from(K::KEY_TYPE), values, validity))
}

/// The keys of positions.
fn key_values<K: DictionaryKey>(alloc: Global, positions: &[usize]) -> Mem<Vec<K>>
    requires { AllByRecursion (λ k. k < key_capacity K.KEY_TYPE) positions.now }
    ensures { IfOk result (λ v. map key_number (map K.parts v.items) ≡ map pos positions.now) }
{
    let mut keys = Vec::new(alloc);
    keys.reserve(positions.len())?;
    for position in positions {
        keys.push(key_at(*position))?;
    }
    Ok(keys)
}

/// The key of a position.
fn key_at<K: DictionaryKey>(position: usize) -> K
    requires { position < key_capacity K.KEY_TYPE }
    ensures { key_number (K.parts result) ≡ pos position }
{
    match K::from_usize(position) {
        Some(key) => key,
        None => unreachable!(),
    }
}
