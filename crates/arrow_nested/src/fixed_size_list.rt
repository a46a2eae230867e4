//! Arrays of lists of one size each.
ghost use Rattle.arrow_meaning.specs.Nodes.{list_size};
ghost use Rattle.std.specs.Prelude.{◌≡◌, ℕ, ◌+◌, ◌*◌, ◌-◌, ◌<◌, ◌≤◌, ◌^◌, codes, true, map, slice_get, IfOk, MatchOption, MatchResult, None, Option, Some};
ghost use Rattle.arrow_buffers.specs.Bits.{Bits};
ghost use Rattle.arrow_flat.specs.Primitives.{MaskHasLength};
ghost use Rattle.arrow_flat.specs.Slots.{slot_or_null};
ghost use Rattle.arrow_layout.specs.Cut.{cut};
ghost use Rattle.arrow_layout.specs.Denote.{denote, under, validity_of};
ghost use Rattle.arrow_layout.specs.Forms.{fixed_size_lists_of, form_of};
ghost use Rattle.arrow_layout.specs.Layouts.{Layout, fixed_size_lists, length_of, type_of};
ghost use Rattle.arrow_layout.specs.Paths.{child_at};
ghost use Rattle.arrow_layout.specs.WellFormed.{WellFormed};
ghost use Rattle.arrow_nested.specs.FixedSizeLists.{PartsFit, Refused, RefusedAt, size_by, slots, values_of};
ghost use Rattle.arrow_nested.specs.Lists.{items_slot};
ghost use Rattle.arrow_types.specs.Seen.{seen};
ghost use Rattle.arrow_types.specs.TypeData as T;
ghost use Rattle.arrow_types.specs.TypeData.{TypeData};

use arrow_buffers::Bitmap;
use arrow_flat::stored::is_stored_in;
use arrow_flat::validity::{self, is_valid, mask_fits};
use arrow_flat::{MadeSlotsIter, MadeValuesIter, MakingAccessor, Splitable, TryClone};
use arrow_meaning::{ArrayRef, MaskedArray, Node, TypedArray, copy_of, halves_of};
use arrow_types::{ArrowDataType, Mem, PhysicalType, PolarsError, PolarsResult, Reason, is_same};
use std::alloc::{AllocError, Global};
use std::marker::Model;

/// An array of lists of one size each, seen as its layout.
///
/// The Arrow Columnar Format's Fixed-Size List Layout: list `i` has the `size` slots of the child
/// from slot `size * i` on.
pub struct FixedSizeListArray {
    array: ArrayRef,
}

/// By hand: a place where a value may end then has one call to prove.
impl Drop for FixedSizeListArray {
    fn drop(self) {
        let FixedSizeListArray { array: _ } = self;
    }
}

impl Model for FixedSizeListArray {
    ghost use Rattle.arrow_layout.specs.LayoutCode.{layout_code};
    ghost use Rattle.arrow_layout.specs.Layouts.{Layout};
    ghost use Rattle.arrow_meaning.specs.Nodes.{IsStoredAs};
    ghost use Rattle.arrow_types.specs.declared.datatype.PhysicalType.TheVariants as physical;

    ghost Value = { Layout };

    ghost coded = { layout_code };

    ghost view = { λ a. a.array };

    ghost invariant = { λ a. IsStoredAs physical.FixedSizeList a.array };
}

/// Each slot's list in order, `None` for a null, from both ends.
pub type FixedSizeListIter<'a> = MadeSlotsIter<
    &'a FixedSizeListArray,
    ArrayRef,
    AllocError,
    ArrayRef,
>;

/// Each slot's list in order, those under nulls too, from both ends.
pub type FixedSizeListValuesIter<'a> = MadeValuesIter<
    &'a FixedSizeListArray,
    ArrayRef,
    AllocError,
    ArrayRef,
>;

/// The parts of an array of fixed-size lists.
#[derive(Clone, Copy)]
struct ListParts<'a> {
    dtype: &'a ArrowDataType,
    size: usize,
    length: usize,
    child: &'a ArrayRef,
    validity: &'a Option<Bitmap>,
}

impl FixedSizeListArray {
    /// The array of `length` lists over `values`, whose type declares the size of a list.
    ///
    /// Refused as ComputeError for the first of these: WrongLogicalType where the type is another,
    /// ChildTypeDiffers where the values haven't the whole type of the field, NotMultiple where the
    /// size isn't 0 and doesn't divide the count of values, LengthDiffers where the size isn't 0
    /// and the values make another count of lists, ZeroWidthValues where the size is 0 and there
    /// are values, and MaskLength where a mask is there and hasn't one bit a list.
    pub fn try_new(
        alloc: Global,
        dtype: ArrowDataType,
        length: usize,
        values: ArrayRef,
        validity: Option<Bitmap>,
    ) -> PolarsResult<FixedSizeListArray>
        ensures { MatchResult result
            (λ a. PartsFit (seen dtype) length values validity
            × (a ≡ fixed_size_lists
            (seen dtype) validity (size_by (form_of (seen dtype))) length values))
            (λ e. Refused e (seen dtype) length values validity) }
    {
        match check_parts(&dtype, length, &values, &validity) {
            Ok(()) => Ok(FixedSizeListArray::new(alloc, dtype, length, values, validity)?),
            Err(reason) => Err(PolarsError::ComputeError(reason)),
        }
    }

    /// The array of parts that fit together: the type is one of fixed-size lists over the type of
    /// the values, which are as many as the lists' items, and a mask has one bit a list.
    pub fn new(
        alloc: Global,
        dtype: ArrowDataType,
        length: usize,
        values: ArrayRef,
        validity: Option<Bitmap>,
    ) -> Mem<FixedSizeListArray>
        requires { PartsFit (seen dtype) length values validity }
        ensures { IfOk result (λ a. a ≡ fixed_size_lists
            (seen dtype) validity (size_by (form_of (seen dtype))) length values) }
    {
        let size = size_in(&dtype);
        values.invariant();
        validity::invariant(&validity);
        let array = ArrayRef::from_node(
            alloc,
            Node::FixedSizeList {
                dtype,
                size,
                length,
                child: values,
                validity,
            },
        )?;
        Ok(FixedSizeListArray { array })
    }

    /// The type of lists of `size` items of this type, in a nullable field `item`.
    pub fn default_datatype(alloc: Global, dtype: ArrowDataType, size: usize) -> Mem<ArrowDataType>
        ensures { IfOk result (λ t.
            seen t ≡ T.fixed_size_list (T.field (codes "item") (seen dtype) true None) size) }
    {
        dtype.to_fixed_size_list(alloc, size, true)
    }

    /// The parts of its node.
    fn parts(&self) -> ListParts<'_>
        ensures same { fixed_size_lists (seen result.dtype.now) result.validity.now
            result.size result.length result.child.now ≡ self.now }
        ensures sound { WellFormed self.now }
    {
        match self.array.node() {
            Node::FixedSizeList {
                dtype,
                size,
                length,
                child,
                validity,
            } => ListParts {
                dtype,
                size: *size,
                length: *length,
                child,
                validity,
            },
            _ => unreachable!(),
        }
    }

    /// The count of items of a list.
    pub fn size(&self) -> usize
        ensures { result ≡ list_size self.now }
    {
        self.parts().size
    }

    /// The array of the items of all lists, those under nulls too.
    pub fn values(&self) -> &ArrayRef
        ensures { result.now ≡ child_at 0 self.now }
    {
        self.parts().child
    }

    /// The list at a slot, under a null too: a part of the values.
    pub fn value(&self, alloc: Global, i: usize) -> Mem<ArrayRef>
        requires { i < length_of self.now }
        ensures { IfOk result (λ a.
            a ≡ cut (child_at 0 self.now) (i * list_size self.now) (list_size self.now)) }
    {
        let parts = self.parts();
        parts.child.sliced(alloc, i * parts.size, parts.size)
    }

    /// The list at a slot, `None` where it is null.
    pub fn get(&self, alloc: Global, i: usize) -> Mem<Option<ArrayRef>>
        requires { i < length_of self.now }
        ensures { IfOk result (λ found. slice_get (slots self.now) i ≡ Some found) }
    {
        MakingAccessor::get(self, alloc, i)
    }

    /// Each slot's list in order, `None` for a null, from both ends.
    pub fn iter(&self, alloc: Global) -> FixedSizeListIter<'_>
        ensures { result ≡ slots self.now }
    {
        FixedSizeListIter::new(alloc, self)
    }

    /// Each slot's list in order, those under nulls too, from both ends.
    pub fn values_iter(&self, alloc: Global) -> FixedSizeListValuesIter<'_>
        ensures { result ≡ values_of self.now }
    {
        FixedSizeListValuesIter::new(alloc, self)
    }
}

impl TypedArray for FixedSizeListArray {
    ghost use Rattle.arrow_types.specs.declared.datatype.PhysicalType.TheVariants as physical;

    ghost layout = { λ a. a };

    ghost physical = { physical.FixedSizeList };

    fn from_array(array: ArrayRef) -> Result<FixedSizeListArray, ArrayRef> {
        if is_stored_in(array.dtype(), PhysicalType::FixedSizeList) {
            Ok(FixedSizeListArray { array })
        } else {
            Err(array)
        }
    }

    fn boxed(self) -> ArrayRef {
        let FixedSizeListArray { array } = self;
        array
    }

    fn as_ref_array(&self) -> &ArrayRef {
        &self.array
    }
}

impl MaskedArray for FixedSizeListArray {}

impl<'a> MakingAccessor<ArrayRef, AllocError, ArrayRef> for &'a FixedSizeListArray {
    ghost use Rattle.std.specs.Prelude.{◌≡◌, true};
    ghost use Rattle.arrow_layout.specs.Denote.{validity_of};
    ghost use Rattle.arrow_nested.specs.FixedSizeLists.{values_of};

    ghost stands = { λ a l. a ≡ l };

    ghost values = { λ a. values_of a.now };

    ghost mask = { λ a. validity_of a.now };

    ghost can_make = { λ a i. true };

    fn len(self) -> usize {
        self.parts().length
    }

    fn is_valid(self, i: usize) -> bool {
        is_valid(self.parts().validity, i)
    }

    fn value(self, alloc: Global, i: usize) -> Mem<ArrayRef> {
        FixedSizeListArray::value(self, alloc, i)
    }
}

impl TryClone for FixedSizeListArray {
    fn try_clone(&self, alloc: Global) -> Mem<FixedSizeListArray> {
        copy_of(alloc, self)
    }
}

impl Splitable for FixedSizeListArray {
    ghost use Rattle.std.specs.Prelude.{◌≤◌, ◌-◌};
    ghost use Rattle.arrow_layout.specs.Cut.{cut};
    ghost use Rattle.arrow_layout.specs.Layouts.{length_of};

    ghost HasBound = { λ a n. n ≤ length_of a };

    ghost front = { λ a n. cut a 0 n };

    ghost rest = { λ a n. cut a n (length_of a - n) };

    fn check_bound(&self, offset: usize) -> bool {
        offset <= TypedArray::len(self)
    }

    fn split_at(
        &self,
        alloc: Global,
        offset: usize,
    ) -> Mem<(FixedSizeListArray, FixedSizeListArray)> {
        halves_of(alloc, self, offset)
    }
}

/// The type of the items and the size of a list that a type of fixed-size lists declares, through
/// extensions; None for another type.
#[tactic(auto, using(arrow_flat::proofs::TypeViews::seen_types))]
fn declared_items(dtype: &ArrowDataType) -> Option<(&ArrowDataType, usize)>
    ensures { MatchOption result
        ((k : ℕ) (u : TypeData) → form_of (seen dtype.now) ≡ fixed_size_lists_of k u → ⊥)
        (λ d. form_of (seen dtype.now) ≡ fixed_size_lists_of d.1 (seen d.0.now)) }
{
    match dtype {
        ArrowDataType::FixedSizeList(field, size) => Some((&field.get().dtype, *size)),
        ArrowDataType::Extension(extension) => declared_items(&extension.get().inner),
        _ => None,
    }
}

/// The size of a list that a type of fixed-size lists declares, 0 for another type.
fn size_in(dtype: &ArrowDataType) -> usize
    ensures { result ≡ size_by (form_of (seen dtype.now)) }
{
    match declared_items(dtype) {
        Some((_, size)) => size,
        None => 0,
    }
}

/// That the parts fit together, or the first test that fails.
fn check_parts(
    dtype: &ArrowDataType,
    length: usize,
    values: &ArrayRef,
    validity: &Option<Bitmap>,
) -> Result<(), Reason>
    ensures { MatchResult result
        (λ done. PartsFit (seen dtype.now) length values.now validity.now)
        (λ reason. RefusedAt reason (form_of (seen dtype.now)) length values.now validity.now) }
{
    let Some((item, size)) = declared_items(dtype) else {
        return Err(Reason::WrongLogicalType);
    };
    if !is_same(item, values.dtype()) {
        return Err(Reason::ChildTypeDiffers);
    }
    if size != 0 && values.len() % size != 0 {
        return Err(Reason::NotMultiple);
    }
    if size != 0 && values.len() / size != length {
        return Err(Reason::LengthDiffers);
    }
    if size == 0 && !values.is_empty() {
        return Err(Reason::ZeroWidthValues);
    }
    if !mask_fits(validity, length) {
        return Err(Reason::MaskLength);
    }
    Ok(())
}

/// Every well-formed layout of fixed-size lists is accepted: its parts fit.
pub fn fixed_size_lists_are_accepted()
    ensures fit { (t : TypeData) (m : Option Bits) (k n : ℕ) (l : Layout)
        → WellFormed (fixed_size_lists t m k n l) → PartsFit t n l m }
    ensures same_size { (t : TypeData) (m : Option Bits) (k n : ℕ) (l : Layout)
        → WellFormed (fixed_size_lists t m k n l) → size_by (form_of t) ≡ k }
{}

/// `get` and `iter` read the slots that a layout of fixed-size lists denotes, `value` and
/// `values_iter` those with the mask left aside: a slot's items are the slots of its list.
pub fn fixed_size_lists_denote()
    ensures slots { (t : TypeData) (m : Option Bits) (k n : ℕ) (l : Layout)
        → WellFormed (fixed_size_lists t m k n l)
        → denote (fixed_size_lists t m k n l)
        ≡ map (slot_or_null items_slot) (slots (fixed_size_lists t m k n l)) }
    ensures values { (t : TypeData) (m : Option Bits) (k n : ℕ) (l : Layout)
        → WellFormed (fixed_size_lists t m k n l)
        → under (fixed_size_lists t m k n l)
        ≡ map items_slot (values_of (fixed_size_lists t m k n l)) }
{}
