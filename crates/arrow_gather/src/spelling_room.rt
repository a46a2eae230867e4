//! The room that the spellings of values take together.
ghost use Rattle.std.specs.Prelude.{◌<◌};
ghost use Rattle.arrow_layout.specs.Layouts.{length_of};
ghost use Rattle.arrow_canon.specs.Picks.{ArePlaces};

use crate::distinct_values::{Source, source_at};
use crate::position_table::PositionTable;
use arrow_meaning::ArrayRef;
use arrow_scalar::spelling_length;
use arrow_types::Mem;
use std::alloc::{AllocError, Global};
use std::collections::BTreeMap;

/// Asks for the room that the spellings of the values at these positions take together, a value
/// that stands at one place counted once, and gives it back: what no memory holds is refused before
/// the first is built.
pub(crate) fn ask_for_room(alloc: Global, array: &ArrayRef, positions: &[Option<usize>]) -> Mem<()>
    requires { ArePlaces (length_of array.now) positions.now }
{
    let length = room_of_spellings(alloc, array, positions)?;
    let mut room: Vec<u8> = Vec::new(alloc);
    room.reserve(length)
}

/// The count of the bytes of these spellings.
fn room_of_spellings(alloc: Global, array: &ArrayRef, positions: &[Option<usize>]) -> Mem<usize>
    requires { ArePlaces (length_of array.now) positions.now }
{
    let mut counted = PositionTable::new(alloc, array.len().min(positions.len()))?;
    let mut sources = BTreeMap::new(alloc);
    let mut length = 0;
    for position in positions {
        if let Some(i) = position {
            length = length_with(alloc, &mut counted, &mut sources, array, *i, length)?;
        }
    }
    Ok(length)
}

/// The count with the spelling of slot i, whose value counts once.
fn length_with(
    alloc: Global,
    counted: &mut PositionTable<()>,
    sources: &mut BTreeMap<Source, ()>,
    array: &ArrayRef,
    i: usize,
    length: usize,
) -> Mem<usize>
    requires { i < length_of array.now }
{
    if counted.get(i).is_some() {
        return Ok(length);
    }
    counted.set(i, ());
    let source = source_at(array, i);
    if sources.contains_key(&source) {
        return Ok(length);
    }
    sources.insert(source, ())?;
    match length.checked_add(spelling_length(alloc, array, i)?) {
        Some(length) => Ok(length),
        None => Err(AllocError),
    }
}
