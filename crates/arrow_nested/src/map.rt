//! Arrays of maps: lists of entries, which are structs of a key and a value.
ghost use Rattle.std.specs.Prelude.{◌≡◌, ◌↔◌, ◌+◌, ◌<◌, ◌≤◌, length as count, slice_get, true, Some, IfOk, IsTrue, MatchResult};
ghost use Rattle.arrow_types.specs.Carried.{IsPair};
ghost use Rattle.arrow_buffers.specs.Offsets.{end_of};
ghost use Rattle.arrow_layout.specs.Layouts.{Layout, length_of};
ghost use Rattle.arrow_layout.specs.WellFormed.{WellFormed};
ghost use Rattle.arrow_meaning.specs.Nodes.{IsStoredAs, list_layout, list_offsets};
ghost use Rattle.arrow_nested.specs.Lists.{DeclaresPair, IsLists, MapFits, MapRefused, list_child, list_values, valid_list_values};
ghost use Rattle.arrow_types.specs.Seen.{seen};
ghost use Rattle.arrow_types.specs.declared.datatype.PhysicalType.TheVariants as physical;

use crate::parts::{
    child_field, covers_slots, declares_child, ends_within, list_child, part_between,
};
use arrow_buffers::{Bitmap, OffsetsBuffer};
use arrow_flat::stored::is_stored_in;
use arrow_flat::{MadeSlotsIter, MadeValuesIter, MakingAccessor, Splitable, TryClone, validity};
use arrow_meaning::{ArrayRef, MaskedArray, Node, TypedArray, copy_of, halves_of};
use arrow_types::{ArrowDataType, Mem, PhysicalType, PolarsError, PolarsResult, Reason};
use std::alloc::{AllocError, Global};
use std::marker::Model;

/// An array of maps, seen as its layout.
///
/// The Arrow Columnar Format lays it out as lists of its entries, with offsets of 32 bits.
pub struct MapArray {
    array: ArrayRef,
}

/// By hand: a place where a value may end then has one call to prove, and not the drop of each
/// field.
impl Drop for MapArray {
    fn drop(self) {
        let MapArray { array: _ } = self;
    }
}

impl Model for MapArray {
    ghost use Rattle.arrow_layout.specs.Layouts.{Layout};
    ghost use Rattle.arrow_layout.specs.LayoutCode.{layout_code};
    ghost use Rattle.arrow_meaning.specs.Nodes.{IsStoredAs};
    ghost use Rattle.arrow_types.specs.declared.datatype.PhysicalType.TheVariants as physical;

    ghost Value = { Layout };

    ghost coded = { layout_code };

    ghost view = { λ a. a.array };

    ghost invariant = { λ a. IsStoredAs physical.Map a.array };
}

impl MapArray {
    /// The array of these parts.
    ///
    /// Refused as ComputeError: OffsetPastValues where the last offset passes the entries' length,
    /// then WrongLogicalType where the type without outer extensions isn't Map, then EntriesNotPair
    /// where the entries' type isn't a struct of two fields, written without an extension, then
    /// ChildTypeDiffers where the whole type of `field` isn't that of the entries, then MaskLength
    /// where a mask is there and hasn't one bit a slot. Else refused only when out of memory.
    pub fn try_new(
        alloc: Global,
        dtype: ArrowDataType,
        offsets: OffsetsBuffer<i32>,
        field: ArrayRef,
        validity: Option<Bitmap>,
    ) -> PolarsResult<MapArray>
        ensures accepted { let l = list_layout (λ o. o) dtype offsets field validity in
            MatchResult result (λ a. (a ≡ l) × MapFits l) (λ e. MapRefused e l) }
        ensures well_formed { IfOk result (λ a. WellFormed a) }
    {
        check_parts(&dtype, &offsets, &field, &validity)?;
        Ok(MapArray::new(alloc, dtype, offsets, field, validity)?)
    }

    /// The array of parts that pass the tests of `try_new`.
    pub fn new(
        alloc: Global,
        dtype: ArrowDataType,
        offsets: OffsetsBuffer<i32>,
        field: ArrayRef,
        validity: Option<Bitmap>,
    ) -> Mem<MapArray>
        requires { MapFits (list_layout (λ o. o) dtype offsets field validity) }
        ensures same { IfOk result (λ a. a ≡ list_layout (λ o. o) dtype offsets field validity) }
        ensures well_formed { IfOk result (λ a. WellFormed a) }
    {
        field.invariant();
        validity::invariant(&validity);
        offsets.len_proxy();
        let node = Node::Map {
            dtype,
            offsets,
            child: field,
            validity,
        };
        let array = ArrayRef::from_node(alloc, node)?;
        array.invariant();
        Ok(MapArray { array })
    }

    /// For proofs alone: what the array keeps.
    pub fn invariant(&self)
        ensures lists { IsLists self.now }
        ensures well_formed { WellFormed self.now }
    {
        self.array.invariant();
    }

    /// Where the entries of each slot begin, and where those of the last one end.
    pub fn offsets(&self) -> &OffsetsBuffer<i32>
        ensures same { result.now ≡ list_offsets self.now }
        ensures slots { length_of self.now + 1 ≡ count result.now }
    {
        self.invariant();
        match self.array.node() {
            Node::Map { offsets, .. } => offsets,
            _ => unreachable!(),
        }
    }

    /// The entries of all slots, and what else stands in the child.
    pub fn field(&self) -> &ArrayRef
        ensures same { result.now ≡ list_child self.now }
        ensures within { end_of (list_offsets self.now) ≤ length_of result.now }
    {
        self.invariant();
        list_child(&self.array)
    }

    /// The entries of a slot, under a null too.
    pub fn value(&self, alloc: Global, i: usize) -> Mem<ArrayRef>
        requires { i < length_of self.now }
        ensures { IfOk result (λ a. slice_get (list_values self.now) i ≡ Some a) }
    {
        part_between(alloc, self.offsets(), self.field(), i)
    }

    /// The entries of each slot in order, `None` for a null, from both ends. Out of memory passes
    /// the slot.
    pub fn iter(&self, alloc: Global) -> MadeSlotsIter<&MapArray, ArrayRef, AllocError, ArrayRef>
        ensures { result ≡ valid_list_values self.now }
    {
        MadeSlotsIter::new(alloc, self)
    }

    /// The entries of each slot in order, those under nulls too, from both ends. Out of memory
    /// passes the slot.
    pub fn values_iter(
        &self,
        alloc: Global,
    ) -> MadeValuesIter<&MapArray, ArrayRef, AllocError, ArrayRef>
        ensures { result ≡ list_values self.now }
    {
        MapValuesIter::new(alloc, self)
    }
}

/// The tests of the parts, in their order.
fn check_parts(
    dtype: &ArrowDataType,
    offsets: &OffsetsBuffer<i32>,
    field: &ArrayRef,
    validity: &Option<Bitmap>,
) -> PolarsResult<()>
    ensures { let l = list_layout (λ o. o) dtype.now offsets.now field.now validity.now in
        MatchResult result (λ done. MapFits l) (λ e. MapRefused e l) }
{
    if !ends_within(offsets, field.len()) {
        return Err(PolarsError::ComputeError(Reason::OffsetPastValues));
    }
    if !is_stored_in(dtype, PhysicalType::Map) {
        return Err(PolarsError::ComputeError(Reason::WrongLogicalType));
    }
    if !declares_pair(dtype) {
        return Err(PolarsError::ComputeError(Reason::EntriesNotPair));
    }
    if !declares_child(dtype, field.dtype()) {
        return Err(PolarsError::ComputeError(Reason::ChildTypeDiffers));
    }
    if !covers_slots(validity, offsets) {
        return Err(PolarsError::ComputeError(Reason::MaskLength));
    }
    Ok(())
}

/// Whether the entries are declared a struct of two fields, with no extension around it.
#[tactic(auto, using(arrow_flat::proofs::TypeViews::seen_types))]
fn declares_pair(dtype: &ArrowDataType) -> bool
    ensures { IsTrue result ↔ (DeclaresPair (seen dtype.now)) }
{
    match child_field(dtype) {
        Some(field) => is_pair(&field.dtype),
        None => false,
    }
}

/// Whether a type is a struct of two fields, with no extension around it.
#[tactic(auto, using(arrow_flat::proofs::TypeViews::seen_types))]
fn is_pair(dtype: &ArrowDataType) -> bool
    ensures { IsTrue result ↔ (IsPair (seen dtype.now)) }
{
    match dtype {
        ArrowDataType::Struct(fields) => fields.len() == 2,
        _ => false,
    }
}

/// Law of maps, whose body does nothing: the parts of each well-formed layout of them pass the
/// tests of `MapArray::try_new`. What maps read is what their layouts denote, by `lists_denote`.
pub fn maps_are_accepted()
    ensures shape { (l : Layout) → WellFormed l → IsStoredAs physical.Map l → IsLists l }
    ensures fits { (l : Layout) → WellFormed l → IsStoredAs physical.Map l → MapFits l }
{}

impl TypedArray for MapArray {
    ghost layout = { λ a. a };

    ghost physical = { physical.Map };

    fn from_array(array: ArrayRef) -> Result<MapArray, ArrayRef> {
        if is_stored_in(array.dtype(), PhysicalType::Map) {
            Ok(MapArray { array })
        } else {
            Err(array)
        }
    }

    fn boxed(self) -> ArrayRef {
        let MapArray { array } = self;
        array
    }

    fn as_ref_array(&self) -> &ArrayRef {
        &self.array
    }
}

impl MaskedArray for MapArray {}

impl TryClone for MapArray {
    fn try_clone(&self, alloc: Global) -> Mem<MapArray> {
        copy_of(alloc, self)
    }
}

impl Splitable for MapArray {
    ghost use Rattle.std.specs.Prelude.{◌≤◌, ◌-◌};
    ghost use Rattle.arrow_layout.specs.Cut.{cut};
    ghost use Rattle.arrow_layout.specs.Layouts.{length_of};

    ghost HasBound = { λ a n. n ≤ length_of a };

    ghost front = { λ a n. cut a 0 n };

    ghost rest = { λ a n. cut a n (length_of a - n) };

    fn check_bound(&self, offset: usize) -> bool {
        offset <= TypedArray::len(self)
    }

    fn split_at(&self, alloc: Global, offset: usize) -> Mem<(MapArray, MapArray)> {
        halves_of(alloc, self, offset)
    }
}

impl<'a> MakingAccessor<ArrayRef, AllocError, ArrayRef> for &'a MapArray {
    ghost use Rattle.arrow_layout.specs.Denote.{validity_of};

    ghost stands = { λ x y. x ≡ y };

    ghost values = { λ a. list_values a.now };

    ghost mask = { λ a. validity_of a.now };

    ghost can_make = { λ a i. true };

    fn len(self) -> usize {
        self.invariant();
        self.array.len()
    }

    fn is_valid(self, i: usize) -> bool {
        self.invariant();
        self.array.is_valid(i)
    }

    fn value(self, alloc: Global, i: usize) -> Result<ArrayRef, AllocError> {
        self.invariant();
        MapArray::value(self, alloc, i)
    }
}

/// The entries of the slots of a map array, `None` for a null.
pub type MapIter<'a> = MadeSlotsIter<&'a MapArray, ArrayRef, AllocError, ArrayRef>;

/// The entries of the slots of a map array, those under nulls too.
pub type MapValuesIter<'a> = MadeValuesIter<&'a MapArray, ArrayRef, AllocError, ArrayRef>;
