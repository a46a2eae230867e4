//! Arrays of lists, with offsets of 32 or of 64 bits, and their iterators.
ghost use Rattle.std.specs.Prelude.{Bool, ◌≡◌, ◌+◌, ◌<◌, ◌≤◌, length as count, map, slice_get, codes, true, Some, None, IfOk, MatchResult};
ghost use Rattle.arrow_buffers.specs.Offsets.{end_of};
ghost use Rattle.arrow_flat.specs.Slots.{slot_or_null};
ghost use Rattle.arrow_layout.specs.Denote.{denote, under};
ghost use Rattle.arrow_layout.specs.Layouts.{Layout, length_of, type_of};
ghost use Rattle.arrow_layout.specs.WellFormed.{WellFormed};
ghost use Rattle.arrow_meaning.specs.Nodes.{IsStoredAs, list_layout, list_offsets, physical_list};
ghost use Rattle.arrow_nested.specs.Lists.{HaveType, IsLists, ListFits, ListRefused, child_field, child_type, items_slot, list_child, list_type, list_values, non_null_values, valid_list_values};
ghost use Rattle.arrow_types.specs.Seen.{seen, seen_field};
ghost use Rattle.arrow_types.specs.TypeData as T;
ghost use Rattle.arrow_types.specs.Types.{physical_of};
ghost use Rattle.arrow_types.specs.declared.error.PolarsError.TheVariants.{ComputeError};
ghost use Rattle.arrow_types.specs.declared.error.Reason.TheVariants.{WrongLogicalType};

use crate::NonNullValuesIter;
use crate::parts::{
    child_field, covers_slots, declares_child, ends_within, list_child, part_between, physical_list,
};
use arrow_buffers::{Bitmap, OffsetsBuffer};
use arrow_flat::stored::is_stored_in;
use arrow_flat::{MadeSlotsIter, MadeValuesIter, MakingAccessor, Splitable, TryClone, validity};
use arrow_meaning::{ArrayRef, MaskedArray, NodeOffset, TypedArray, copy_of, halves_of};
use arrow_types::{
    ArrowDataType, Boxed, Field, Mem, PlSmallStr, PolarsError, PolarsResult, Reason,
};
use std::alloc::{AllocError, Global};
use std::marker::{Model, PhantomData};

/// An array of lists, seen as its layout.
///
/// The Arrow Columnar Format's variable-size list layout: slot i has the child's items from offset
/// i up to offset i + 1.
pub struct ListArray<O: NodeOffset> {
    array: ArrayRef,
    offset: PhantomData<O>,
}

/// By hand: a place where a value may end then has one call to prove, and not the drop of each
/// field.
impl<O: NodeOffset> Drop for ListArray<O> {
    fn drop(self) {
        let ListArray {
            array: _,
            offset: _,
        } = self;
    }
}

impl<O: NodeOffset> Model for ListArray<O> {
    ghost use Rattle.arrow_layout.specs.Layouts.{Layout};
    ghost use Rattle.arrow_layout.specs.LayoutCode.{layout_code};
    ghost use Rattle.arrow_meaning.specs.Nodes.{IsStoredAs, physical_list};

    ghost Value = { Layout };

    ghost coded = { layout_code };

    ghost view = { λ a. a.array };

    ghost invariant = { λ a. IsStoredAs (physical_list O.IS_LARGE) a.array };
}

impl<O: NodeOffset> ListArray<O> {
    /// The array of these parts.
    ///
    /// Refused as ComputeError: OffsetPastValues where the last offset passes the values' length,
    /// then MaskLength where a mask is there and hasn't one bit a slot, then WrongLogicalType where
    /// the type without outer extensions isn't one of lists with such offsets, then
    /// ChildTypeDiffers where the values' whole type isn't the field's. Else refused only when out
    /// of memory.
    pub fn try_new(
        alloc: Global,
        dtype: ArrowDataType,
        offsets: OffsetsBuffer<O>,
        values: ArrayRef,
        validity: Option<Bitmap>,
    ) -> PolarsResult<ListArray<O>>
        ensures accepted { let l = list_layout O.number dtype offsets values validity in
            MatchResult result
            (λ a. (a ≡ l) × ListFits (physical_list O.IS_LARGE) l)
            (λ e. ListRefused e (physical_list O.IS_LARGE) l) }
        ensures well_formed { IfOk result (λ a. WellFormed a) }
    {
        try_from_parts(alloc, &dtype, &offsets, &values, &validity)
    }

    /// The array of parts that pass the tests of `try_new`.
    pub fn new(
        alloc: Global,
        dtype: ArrowDataType,
        offsets: OffsetsBuffer<O>,
        values: ArrayRef,
        validity: Option<Bitmap>,
    ) -> Mem<ListArray<O>>
        requires { ListFits (physical_list O.IS_LARGE)
            (list_layout O.number dtype offsets values validity) }
        ensures same { IfOk result (λ a. a ≡ list_layout O.number dtype offsets values validity) }
        ensures well_formed { IfOk result (λ a. WellFormed a) }
    {
        from_parts(alloc, &dtype, &offsets, &values, &validity)
    }

    /// For proofs alone: what the array keeps.
    pub fn invariant(&self)
        ensures lists { IsLists self.now }
        ensures well_formed { WellFormed self.now }
    {
        self.array.invariant();
    }

    /// Where the items of each slot begin in the values, and where those of the last one end.
    pub fn offsets(&self) -> &OffsetsBuffer<O>
        ensures same { map O.number result.now ≡ list_offsets self.now }
        ensures slots { length_of self.now + 1 ≡ count result.now }
    {
        self.invariant();
        match O::list_offsets(self.array.node()) {
            Some(offsets) => offsets,
            None => unreachable!(),
        }
    }

    /// The items of all slots, and what else stands in the child.
    pub fn values(&self) -> &ArrayRef
        ensures same { result.now ≡ list_child self.now }
        ensures within { end_of (list_offsets self.now) ≤ length_of result.now }
    {
        self.invariant();
        list_child(&self.array)
    }

    /// The items of a slot, under a null too.
    pub fn value(&self, alloc: Global, i: usize) -> Mem<ArrayRef>
        requires { i < length_of self.now }
        ensures { IfOk result (λ a. slice_get (list_values self.now) i ≡ Some a) }
    {
        part_between(alloc, self.offsets(), self.values(), i)
    }

    /// The items of a slot, `None` where it is null.
    pub fn get(&self, alloc: Global, i: usize) -> Mem<Option<ArrayRef>>
        requires { i < length_of self.now }
        ensures { IfOk result (λ a. slice_get (valid_list_values self.now) i ≡ Some a) }
    {
        self.invariant();
        MakingAccessor::get(self, alloc, i)
    }

    /// The items of each slot in order, `None` for a null, from both ends. Out of memory passes
    /// the slot.
    pub fn iter(
        &self,
        alloc: Global,
    ) -> MadeSlotsIter<&ListArray<O>, ArrayRef, AllocError, ArrayRef>
        ensures { result ≡ valid_list_values self.now }
    {
        MadeSlotsIter::new(alloc, self)
    }

    /// The items of each slot in order, those under nulls too, from both ends. Out of memory
    /// passes the slot.
    pub fn values_iter(
        &self,
        alloc: Global,
    ) -> MadeValuesIter<&ListArray<O>, ArrayRef, AllocError, ArrayRef>
        ensures { result ≡ list_values self.now }
    {
        MadeValuesIter::new(alloc, self)
    }

    /// The items of each slot that isn't null, in order and from both ends. Out of memory passes
    /// the slot.
    pub fn non_null_values_iter(&self, alloc: Global) -> NonNullValuesIter<O>
        ensures { result ≡ non_null_values self.now }
    {
        NonNullValuesIter::new(alloc, self)
    }

    /// The type of lists with such offsets of items of this type, in a nullable field `item`.
    #[tactic(auto, using(arrow_flat::proofs::TypeViews::seen_types))]
    pub fn default_datatype(alloc: Global, dtype: ArrowDataType) -> Mem<ArrowDataType>
        ensures { IfOk result (λ t. seen t
            ≡ list_type O.IS_LARGE (T.field (codes "item") (seen dtype) true None)) }
    {
        let name = PlSmallStr::try_from_str(alloc, "item")?;
        let field = Boxed::new(alloc, Field::new(name, dtype, true))?;
        if O::IS_LARGE {
            Ok(ArrowDataType::LargeList(field))
        } else {
            Ok(ArrowDataType::List(field))
        }
    }

    /// The field of the items, through extensions. Refused as ComputeError(WrongLogicalType)
    /// exactly where the type isn't one of lists with such offsets. Takes no memory.
    pub fn try_get_child(dtype: &ArrowDataType) -> PolarsResult<&Field>
        ensures { MatchResult result
            (λ f. (physical_of (seen dtype.now) ≡ Some (physical_list O.IS_LARGE))
            × (child_field (seen dtype.now) ≡ Some (seen_field f.now)))
            (λ e. (e ≡ ComputeError WrongLogicalType)
            × (physical_of (seen dtype.now) ≡ Some (physical_list O.IS_LARGE) → ⊥)) }
    {
        if !is_stored_in(dtype, physical_list(O::IS_LARGE)) {
            return Err(PolarsError::ComputeError(Reason::WrongLogicalType));
        }
        Ok(ListArray::<O>::get_child_field(dtype))
    }

    /// The field of the items of a type of lists with such offsets, through extensions.
    pub fn get_child_field(dtype: &ArrowDataType) -> &Field
        requires { physical_of (seen dtype.now) ≡ Some (physical_list O.IS_LARGE) }
        ensures { child_field (seen dtype.now) ≡ Some (seen_field result.now) }
    {
        match child_field(dtype) {
            Some(field) => field,
            None => unreachable!(),
        }
    }

    /// The type of the items of a type of lists with such offsets, through extensions around it.
    pub fn get_child_type(dtype: &ArrowDataType) -> &ArrowDataType
        requires { physical_of (seen dtype.now) ≡ Some (physical_list O.IS_LARGE) }
        ensures { child_type (seen dtype.now) ≡ Some (seen result.now) }
    {
        &ListArray::<O>::get_child_field(dtype).dtype
    }
}

/// The array over shared copies of these parts, refused as `ListArray::try_new` is.
fn try_from_parts<O: NodeOffset>(
    alloc: Global,
    dtype: &ArrowDataType,
    offsets: &OffsetsBuffer<O>,
    values: &ArrayRef,
    validity: &Option<Bitmap>,
) -> PolarsResult<ListArray<O>>
    ensures accepted { let l = list_layout O.number dtype.now offsets.now values.now validity.now in
        MatchResult result
        (λ a. (a ≡ l) × ListFits (physical_list O.IS_LARGE) l)
        (λ e. ListRefused e (physical_list O.IS_LARGE) l) }
    ensures well_formed { IfOk result (λ a. WellFormed a) }
{
    check_parts(dtype, offsets, values, validity)?;
    Ok(from_parts(alloc, dtype, offsets, values, validity)?)
}

/// The array over shared copies of parts that pass the tests.
fn from_parts<O: NodeOffset>(
    alloc: Global,
    dtype: &ArrowDataType,
    offsets: &OffsetsBuffer<O>,
    values: &ArrayRef,
    validity: &Option<Bitmap>,
) -> Mem<ListArray<O>>
    requires { ListFits (physical_list O.IS_LARGE)
        (list_layout O.number dtype.now offsets.now values.now validity.now) }
    ensures same { IfOk result (λ a.
        a ≡ list_layout O.number dtype.now offsets.now values.now validity.now) }
    ensures well_formed { IfOk result (λ a. WellFormed a) }
{
    values.invariant();
    validity::invariant(validity);
    offsets.len_proxy();
    let node = O::list_node(alloc, dtype, offsets, values, validity)?;
    let array = ArrayRef::from_node(alloc, node)?;
    array.invariant();
    Ok(ListArray {
        array,
        offset: PhantomData,
    })
}

/// The tests of the parts, in their order.
fn check_parts<O: NodeOffset>(
    dtype: &ArrowDataType,
    offsets: &OffsetsBuffer<O>,
    values: &ArrayRef,
    validity: &Option<Bitmap>,
) -> PolarsResult<()>
    ensures { let l = list_layout O.number dtype.now offsets.now values.now validity.now in
        MatchResult result
        (λ done. ListFits (physical_list O.IS_LARGE) l)
        (λ e. ListRefused e (physical_list O.IS_LARGE) l) }
{
    if !ends_within(offsets, values.len()) {
        return Err(PolarsError::ComputeError(Reason::OffsetPastValues));
    }
    if !covers_slots(validity, offsets) {
        return Err(PolarsError::ComputeError(Reason::MaskLength));
    }
    if !is_stored_in(dtype, physical_list(O::IS_LARGE)) {
        return Err(PolarsError::ComputeError(Reason::WrongLogicalType));
    }
    if !declares_child(dtype, values.dtype()) {
        return Err(PolarsError::ComputeError(Reason::ChildTypeDiffers));
    }
    Ok(())
}

/// Law of lists, large lists and maps, whose body does nothing: `get` and `iter` read the slots
/// that the layout denotes, `value` and `values_iter` those with the mask left aside, and each
/// array that they give has the child's type.
pub fn lists_denote()
    ensures slots { (l : Layout) → IsLists l → WellFormed l
        → denote l ≡ map (slot_or_null items_slot) (valid_list_values l) }
    ensures values { (l : Layout) → IsLists l → WellFormed l
        → under l ≡ map items_slot (list_values l) }
    ensures types { (l : Layout) → IsLists l → HaveType (type_of (list_child l)) (list_values l) }
    ensures slot_count { (l : Layout) → IsLists l → count (list_values l) ≡ length_of l }
{}

/// Law of lists and large lists, whose body does nothing: the parts of each well-formed layout of
/// them pass the tests of `ListArray::try_new`.
pub fn lists_are_accepted()
    ensures shape { (large : Bool) (l : Layout) → WellFormed l
        → IsStoredAs (physical_list large) l → IsLists l }
    ensures fits { (large : Bool) (l : Layout) → WellFormed l
        → IsStoredAs (physical_list large) l → ListFits (physical_list large) l }
{}

impl<O: NodeOffset> TypedArray for ListArray<O> {
    ghost layout = { λ a. a };

    ghost physical = { physical_list O.IS_LARGE };

    fn from_array(array: ArrayRef) -> Result<ListArray<O>, ArrayRef> {
        if is_stored_in(array.dtype(), physical_list(O::IS_LARGE)) {
            Ok(ListArray {
                array,
                offset: PhantomData,
            })
        } else {
            Err(array)
        }
    }

    fn boxed(self) -> ArrayRef {
        let ListArray { array, offset: _ } = self;
        array
    }

    fn as_ref_array(&self) -> &ArrayRef {
        &self.array
    }
}

impl<O: NodeOffset> MaskedArray for ListArray<O> {}

impl<O: NodeOffset> TryClone for ListArray<O> {
    fn try_clone(&self, alloc: Global) -> Mem<ListArray<O>> {
        copy_of(alloc, self)
    }
}

impl<O: NodeOffset> Splitable for ListArray<O> {
    ghost use Rattle.std.specs.Prelude.{◌≤◌, ◌-◌};
    ghost use Rattle.arrow_layout.specs.Cut.{cut};
    ghost use Rattle.arrow_layout.specs.Layouts.{length_of};

    ghost HasBound = { λ a n. n ≤ length_of a };

    ghost front = { λ a n. cut a 0 n };

    ghost rest = { λ a n. cut a n (length_of a - n) };

    fn check_bound(&self, offset: usize) -> bool {
        offset <= TypedArray::len(self)
    }

    fn split_at(&self, alloc: Global, offset: usize) -> Mem<(ListArray<O>, ListArray<O>)> {
        halves_of(alloc, self, offset)
    }
}

impl<'a, O: NodeOffset> MakingAccessor<ArrayRef, AllocError, ArrayRef> for &'a ListArray<O> {
    ghost use Rattle.arrow_layout.specs.Denote.{validity_of};

    ghost stands = { λ x y. x ≡ y };

    ghost values = { λ a. list_values a.now };

    ghost mask = { λ a. validity_of a.now };

    ghost can_make = { λ a i. true };

    fn len(self) -> usize {
        self.invariant();
        self.array.len()
    }

    fn is_valid(self, i: usize) -> bool {
        self.invariant();
        self.array.is_valid(i)
    }

    fn value(self, alloc: Global, i: usize) -> Result<ArrayRef, AllocError> {
        self.invariant();
        ListArray::value(self, alloc, i)
    }
}

/// The items of the slots of a list array, `None` for a null.
pub type ListIter<'a, O> = MadeSlotsIter<&'a ListArray<O>, ArrayRef, AllocError, ArrayRef>;

/// The items of the slots of a list array, those under nulls too.
pub type ListValuesIter<'a, O> = MadeValuesIter<&'a ListArray<O>, ArrayRef, AllocError, ArrayRef>;
