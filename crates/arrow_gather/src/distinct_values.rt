//! The distinct values among the slots of an array, in the order in which they are met.
ghost use Rattle.std.specs.Prelude.{◌≡◌, ◌<◌, ◌++◌, ◌∷◌, [], List, not, IfOk, OnOk};
ghost use Rattle.arrow_buffers.specs.Bits.{plain, needed_mask};
ghost use Rattle.arrow_flat.specs.Slots.{Slot, is_valid, null};
ghost use Rattle.arrow_layout.specs.Canon.{distinct, seen_with};
ghost use Rattle.arrow_layout.specs.Denote.{denote};
ghost use Rattle.arrow_layout.specs.Layouts.{Layout, length_of};
ghost use Rattle.arrow_layout.specs.Spelling.{slot_bytes};
ghost use Rattle.arrow_scalar.specs.Spellings.{slot_at};
ghost use Rattle.arrow_gather.specs.Met as met;
ghost use Rattle.arrow_canon.specs.Picks.{pick, picks, IsPlace, ArePlaces};
ghost use Rattle.arrow_gather.specs.Met.{AreKeyed, AreKeysOf, AreMet, IsKeyOf};

use crate::dictionary::DictionaryParts;
use crate::position_table::PositionTable;
use crate::spelling_room::ask_for_room;
use arrow_buffers::MutableBitmap;
use arrow_canon::Run;
use arrow_meaning::{ArrayRef, Node};
use arrow_scalar::slot_bytes;
use arrow_types::Mem;
use arrow_views::View;
use std::alloc::Global;
use std::collections::BTreeMap;

/// The most bytes of a value that its view holds itself.
const MOST_INLINE: u32 = 12;

/// Where a value stands. Values that stand at one place are equal.
#[derive(Clone, Copy, PartialEq, Eq, PartialOrd, Ord)]
pub(crate) enum Source {
    /// The value of a slot.
    Slot(usize),
    /// The bytes of a buffer that long views name.
    Bytes {
        buffer: u32,
        offset: u32,
        length: u32,
    },
}

/// The distinct values that were met among the slots of an array, by the order in which they were
/// met first.
pub(crate) struct DistinctValues {
    /// What became of each place that was met: the position of its value, none where it is null.
    known: BTreeMap<Source, Option<usize>>,
    /// The position of each value, by its spelling.
    spelled: BTreeMap<Vec<u8>, usize>,
    /// The slots where each value was met first.
    firsts: Vec<Run>,
}

/// By hand: where a value may end there is one call to prove then, not the drop of each field.
impl Drop for DistinctValues {
    fn drop(self) {
        let DistinctValues {
            known: _,
            spelled: _,
            firsts: _,
        } = self;
    }
}

impl DistinctValues {
    /// No values.
    pub(crate) fn new(alloc: Global) -> DistinctValues
        ensures { (l : Layout) → AreMet l [] result }
    {
        DistinctValues {
            known: BTreeMap::new(alloc),
            spelled: BTreeMap::new(alloc),
            firsts: Vec::new(alloc),
        }
    }

    /// The slots where each value was met first.
    pub(crate) fn into_firsts(self) -> Vec<Run>
        ensures { result ≡ self.firsts }
    {
        let DistinctValues {
            known: _,
            spelled: _,
            firsts,
        } = self;
        firsts
    }

    /// The position of the value at a position among the distinct ones, where it stands last if it
    /// wasn't met before; none for a null, and where there is no position. The table has the keys of
    /// positions that were met, as far as it reaches.
    fn key_at(
        &mut self,
        alloc: Global,
        array: &ArrayRef,
        keys: &mut PositionTable<Option<usize>>,
        position: Option<usize>,
    ) -> Mem<Option<usize>>
        requires { IsPlace (length_of array.now) position }
        ensures met { OnOk result ((d : List Slot) → AreMet array.now d self.old
            → AreKeysOf array.now d keys.old
            → AreMet array.now (seen_with d (pick null (denote array.now) position)) self.new) }
        ensures known { OnOk result ((d : List Slot) → AreMet array.now d self.old
            → AreKeysOf array.now d keys.old
            → AreKeysOf array.now (seen_with d (pick null (denote array.now) position)) keys.new) }
        ensures key { IfOk result (λ k. (d : List Slot) → AreMet array.now d self.old
            → AreKeysOf array.now d keys.old
            → IsKeyOf (seen_with d (pick null (denote array.now) position))
            (pick null (denote array.now) position) k) }
    {
        let Some(i) = position else {
            return Ok(None);
        };
        if let Some(key) = keys.get(i) {
            return Ok(key);
        }
        let key = self.key_of(alloc, array, i)?;
        keys.set(i, key);
        Ok(key)
    }

    /// The position of the value of slot i among the distinct ones, where it stands last if it wasn't
    /// met before; none for a null.
    fn key_of(&mut self, alloc: Global, array: &ArrayRef, i: usize) -> Mem<Option<usize>>
        requires { i < length_of array.now }
        ensures met { OnOk result ((d : List Slot) → AreMet array.now d self.old
            → AreMet array.now (seen_with d (slot_at array.now i)) self.new) }
        ensures key { IfOk result (λ k. (d : List Slot) → AreMet array.now d self.old
            → IsKeyOf (seen_with d (slot_at array.now i)) (slot_at array.now i) k) }
    {
        array.invariant();
        if !array.is_valid(i) {
            return Ok(None);
        }
        let source = source_at(array, i);
        if let Some(key) = self.known.get(&source) {
            return Ok(*key);
        }
        let key = self.spelled_key(alloc, array, i)?;
        self.known.insert(source, key)?;
        Ok(key)
    }

    /// The same by the spelling of the slot, which isn't null by the mask.
    fn spelled_key(&mut self, alloc: Global, array: &ArrayRef, i: usize) -> Mem<Option<usize>>
        requires { i < length_of array.now }
        ensures met { OnOk result ((d : List Slot) → AreMet array.now d self.old
            → AreMet array.now (seen_with d (slot_at array.now i)) self.new) }
        ensures key { IfOk result (λ k. (d : List Slot) → AreMet array.now d self.old
            → IsKeyOf (seen_with d (slot_at array.now i)) (slot_at array.now i) k) }
    {
        array.invariant();
        let spelling = slot_bytes(alloc, array, i)?;
        if is_null(spelling.as_slice()) {
            return Ok(None);
        }
        if let Some(key) = self.spelled.get(spelling.as_slice()) {
            return Ok(Some(*key));
        }
        let key = self.spelled.len();
        self.firsts.push(Run::Slots {
            start: i,
            length: 1,
        })?;
        self.spelled.insert(spelling, key)?;
        Ok(Some(key))
    }
}

/// The keys of slots, and the distinct values that they name.
pub(crate) struct KeyedSlots {
    /// The distinct values.
    values: DistinctValues,
    /// The key of each slot, 0 for a null.
    keys: Vec<usize>,
    /// A set bit for each slot that isn't null.
    validity: MutableBitmap,
}

/// By hand, as that of the distinct values.
impl Drop for KeyedSlots {
    fn drop(self) {
        let KeyedSlots {
            values: _,
            keys: _,
            validity: _,
        } = self;
    }
}

impl KeyedSlots {
    /// No slots.
    fn new(alloc: Global) -> KeyedSlots
        ensures { (l : Layout) → AreKeyed l [] result }
    {
        KeyedSlots {
            values: DistinctValues::new(alloc),
            keys: Vec::new(alloc),
            validity: MutableBitmap::new(alloc),
        }
    }

    /// Appends the slot of the array at a position, or a null where there is none. The table has the
    /// keys of positions that were met.
    fn push(
        &mut self,
        alloc: Global,
        array: &ArrayRef,
        keys: &mut PositionTable<Option<usize>>,
        position: Option<usize>,
    ) -> Mem<()>
        requires { IsPlace (length_of array.now) position }
        ensures keyed { OnOk result ((s : List Slot) → AreKeyed array.now s self.old
            → AreKeysOf array.now (distinct s) keys.old
            → AreKeyed array.now (s ++ pick null (denote array.now) position ∷ []) self.new) }
        ensures known { OnOk result ((s : List Slot) → AreKeyed array.now s self.old
            → AreKeysOf array.now (distinct s) keys.old
            → AreKeysOf array.now (distinct (s ++ pick null (denote array.now) position ∷ []))
            keys.new) }
    {
        let key = self.values.key_at(alloc, array, keys, position)?;
        self.keys.push(key.unwrap_or(0))?;
        self.validity.push(key.is_some())?;
        Ok(())
    }

    /// Appends the slots of the array at positions, and a null where there is none.
    fn extend(&mut self, alloc: Global, array: &ArrayRef, positions: &[Option<usize>]) -> Mem<()>
        requires { ArePlaces (length_of array.now) positions.now }
        ensures { OnOk result ((s : List Slot) → AreKeyed array.now s self.old
            → AreKeyed array.now (s ++ picks null (denote array.now) positions.now) self.new) }
    {
        let mut keys = PositionTable::new(alloc, array.len().min(positions.len()))?;
        self.keys.reserve(positions.len())?;
        for position in positions {
            self.push(alloc, array, &mut keys, *position)?;
        }
        Ok(())
    }

    /// The slots of the array at positions, and a null where there is none.
    pub(crate) fn of_positions(
        alloc: Global,
        array: &ArrayRef,
        positions: &[Option<usize>],
    ) -> Mem<KeyedSlots>
        requires { ArePlaces (length_of array.now) positions.now }
        ensures { IfOk result (λ b.
            AreKeyed array.now (picks null (denote array.now) positions.now) b) }
    {
        ask_for_room(alloc, array, positions)?;
        let mut slots = KeyedSlots::new(alloc);
        slots.extend(alloc, array, positions)?;
        Ok(slots)
    }

    /// The slots where each distinct value was met first, the keys and the mask.
    pub(crate) fn into_parts(self) -> Mem<DictionaryParts>
        ensures firsts { IfOk result (λ p. p.firsts ≡ self.values.firsts) }
        ensures keys { IfOk result (λ p. p.keys ≡ self.keys) }
        ensures mask { IfOk result (λ p. p.validity ≡ needed_mask (plain self.validity)) }
    {
        let KeyedSlots {
            values,
            keys,
            validity,
        } = self;
        let validity = validity.freeze()?.into_opt_validity();
        Ok(DictionaryParts {
            firsts: values.into_firsts(),
            keys,
            validity,
        })
    }
}

/// Whether these bytes spell a null.
fn is_null(spelling: &[u8]) -> bool
    ensures { (x : Slot) → spelling.now ≡ slot_bytes x → result ≡ not (is_valid x) }
{
    spelling == [0].as_slice()
}

/// Where the value of a slot stands.
pub(crate) fn source_at(array: &ArrayRef, i: usize) -> Source
    requires { i < length_of array.now }
    ensures { result ≡ met.source_at array.now i }
{
    match array.node() {
        Node::BinaryView(values) => source_of(&values.views().as_slice()[i], i),
        Node::Utf8View(values) => source_of(&values.views().as_slice()[i], i),
        _ => Source::Slot(i),
    }
}

/// Where the value of a view stands that is that of slot i.
fn source_of(view: &View, i: usize) -> Source
    ensures { result ≡ met.source_of view.now i }
{
    if view.length() <= MOST_INLINE {
        return Source::Slot(i);
    }
    Source::Bytes {
        buffer: view.buffer(),
        offset: view.offset(),
        length: view.length(),
    }
}
