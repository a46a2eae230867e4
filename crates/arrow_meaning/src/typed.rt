//! What the typed arrays share: each is a struct around an array of one physical type.
ghost use Rattle.std.specs.Prelude.{◌≡◌, ◌↔◌, ◌+◌, ◌-◌, ◌<◌, ◌≤◌, not, IfErr, IfOk, IsTrue, MatchOption, MatchResult, OnErr, None, OnOk, Option, Some};
ghost use Rattle.std.specs.Option.{option_copied};
ghost use Rattle.arrow_flat.specs.Primitives.{MaskHasLength};
ghost use Rattle.arrow_types.specs.Carried.{IsCarried};
ghost use Rattle.arrow_types.specs.Seen.{seen};
ghost use Rattle.arrow_types.specs.Types.{physical_of};
ghost use Rattle.arrow_types.specs.declared.datatype.PhysicalType.{PhysicalType};
ghost use Rattle.arrow_layout.specs.Cut.{cut};
ghost use Rattle.arrow_layout.specs.Denote.{validity_of};
ghost use Rattle.arrow_layout.specs.Layouts.{Layout, length_of, type_of};
ghost use Rattle.arrow_layout.specs.Masks.{null_count_of, valid_in, with_mask};
ghost use Rattle.arrow_meaning.specs.Nodes.{IsStoredAs};
ghost use Rattle.arrow_layout.specs.NullLayout.{null_layout};
ghost use Rattle.arrow_layout.specs.NullsFit.{NullsFit};
ghost use Rattle.arrow_meaning.specs.Refusals.{MaskRefused, NullsRefused, TakesMask, TypeRefused};

use crate::{ArrayRef, new_empty_array, new_null_array};
use arrow_buffers::Bitmap;
use arrow_types::{ArrowDataType, Mem, PolarsResult};
use std::alloc::Global;

/// An array of one physical type.
pub trait TypedArray: Drop + Sized {
    ghost layout: { Self → Layout };

    ghost physical: { PhysicalType };

    /// The array as this type, and the array back exactly where the layout is another. Takes no
    /// memory.
    fn from_array(array: ArrayRef) -> Result<Self, ArrayRef>
        ensures { MatchResult result (λ x. layout x ≡ array)
            (λ a. (a ≡ array) × (IsStoredAs physical array → ⊥)) };

    /// The array of any layout. Takes no memory.
    fn boxed(self) -> ArrayRef
        ensures same { result ≡ layout self }
        ensures kind { IsStoredAs physical result };

    /// The array of any layout, borrowed. Takes no memory.
    fn as_ref_array(&self) -> &ArrayRef
        ensures same { result.now ≡ layout self.now }
        ensures kind { IsStoredAs physical result.now };

    /// Another owner of the array as this type, None exactly where the layout is another.
    final fn of(alloc: Global, array: &ArrayRef) -> Mem<Option<Self>>
        ensures { IfOk result (λ found.
            MatchOption found (IsStoredAs physical array.now → ⊥) (λ x. layout x ≡ array.now)) }
    {
        let copy = array.try_clone(alloc)?;
        match Self::from_array(copy) {
            Ok(typed) => Ok(Some(typed)),
            Err(_) => Ok(None),
        }
    }

    /// An array of the type without slots, where the type is stored so. Refused as
    /// `new_empty_array` is.
    final fn new_empty(alloc: Global, dtype: ArrowDataType) -> PolarsResult<Self>
        requires { physical_of (seen dtype) ≡ Some physical }
        ensures ok { IfOk result (λ x. layout x ≡ null_layout (seen dtype) 0) }
        ensures carried { IfOk result (λ x. IsCarried (seen dtype)) }
        ensures refused { IfErr result (λ e. TypeRefused e (seen dtype)) }
    {
        match Self::from_array(new_empty_array(alloc, dtype)?) {
            Ok(typed) => Ok(typed),
            Err(_) => unreachable!(),
        }
    }

    /// An array of the type with `length` slots that say nothing, where the type is stored so.
    /// Refused as `new_null_array` is.
    final fn new_null(alloc: Global, dtype: ArrowDataType, length: usize) -> PolarsResult<Self>
        requires { physical_of (seen dtype) ≡ Some physical }
        ensures ok { IfOk result (λ x. layout x ≡ null_layout (seen dtype) length) }
        ensures carried { IfOk result (λ x. IsCarried (seen dtype)) }
        ensures fits { IfOk result (λ x. NullsFit (seen dtype) length) }
        ensures refused { IfErr result (λ e. NullsRefused e (seen dtype) length) }
    {
        match Self::from_array(new_null_array(alloc, dtype, length)?) {
            Ok(typed) => Ok(typed),
            Err(_) => unreachable!(),
        }
    }

    /// The whole type, extensions included.
    final fn dtype(&self) -> &ArrowDataType
        ensures { seen result.now ≡ type_of (layout self.now) }
    {
        self.as_ref_array().dtype()
    }

    /// The count of slots.
    final fn len(&self) -> usize
        ensures { result ≡ length_of (layout self.now) }
    {
        self.as_ref_array().len()
    }

    /// Whether there is no slot.
    final fn is_empty(&self) -> bool
        ensures { IsTrue result ↔ (length_of (layout self.now) ≡ 0) }
    {
        self.as_ref_array().is_empty()
    }

    /// The mask, where there is one: a set bit for each slot that isn't null.
    final fn validity(&self) -> Option<&Bitmap>
        ensures { option_copied result ≡ validity_of (layout self.now) }
    {
        self.as_ref_array().validity()
    }

    /// The count of nulls: all slots of a null array, and else those whose bit in the mask is
    /// unset.
    final fn null_count(&self) -> usize
        ensures { result ≡ null_count_of (layout self.now) }
    {
        self.as_ref_array().null_count()
    }

    /// Whether there are nulls.
    final fn has_nulls(&self) -> bool
        ensures { IsTrue result ↔ (0 < null_count_of (layout self.now)) }
    {
        self.as_ref_array().has_nulls()
    }

    /// Whether the slot isn't null: by the mask, and false for a null array.
    final fn is_valid(&self, i: usize) -> bool
        requires { i < length_of (layout self.now) }
        ensures { result ≡ valid_in (layout self.now) i }
    {
        self.as_ref_array().is_valid(i)
    }

    /// Whether the slot is null: by the mask, and true for a null array.
    final fn is_null(&self, i: usize) -> bool
        requires { i < length_of (layout self.now) }
        ensures { result ≡ not (valid_in (layout self.now) i) }
    {
        self.as_ref_array().is_null(i)
    }

    /// Keeps the `length` slots from `offset` on; a mask without nulls is dropped. Out of memory
    /// leaves the array.
    final fn slice(&mut self, alloc: Global, offset: usize, length: usize) -> Mem<()>
        requires { offset + length ≤ length_of (layout self.old) }
        ensures cut { OnOk result (layout self.new ≡ cut (layout self.old) offset length) }
        ensures kept { OnErr result (layout self.new ≡ layout self.old) }
    {
        *self = part_of(alloc, self, offset, length)?;
        Ok(())
    }

    /// The `length` slots from `offset` on; a mask without nulls is dropped.
    final fn sliced(self, alloc: Global, offset: usize, length: usize) -> Mem<Self>
        requires { offset + length ≤ length_of (layout self) }
        ensures { IfOk result (λ x. layout x ≡ cut (layout self) offset length) }
    {
        part_of(alloc, &self, offset, length)
    }
}

/// Another owner of a typed array.
pub fn copy_of<T: TypedArray>(alloc: Global, array: &T) -> Mem<T>
    ensures { IfOk result (λ x. T.layout x ≡ T.layout array.now) }
{
    match T::from_array(array.as_ref_array().try_clone(alloc)?) {
        Ok(typed) => Ok(typed),
        Err(_) => unreachable!(),
    }
}

/// The `length` slots of a typed array from `offset` on; a mask without nulls is dropped.
fn part_of<T: TypedArray>(alloc: Global, array: &T, offset: usize, length: usize) -> Mem<T>
    requires { offset + length ≤ length_of (T.layout array.now) }
    ensures { IfOk result (λ x. T.layout x ≡ cut (T.layout array.now) offset length) }
{
    match T::from_array(array.as_ref_array().sliced(alloc, offset, length)?) {
        Ok(typed) => Ok(typed),
        Err(_) => unreachable!(),
    }
}

/// The first `offset` slots of a typed array, and the others; a half's mask without nulls is
/// dropped.
pub fn halves_of<T: TypedArray>(alloc: Global, array: &T, offset: usize) -> Mem<(T, T)>
    requires { offset ≤ length_of (T.layout array.now) }
    ensures front { IfOk result (λ p. T.layout p.0 ≡ cut (T.layout array.now) 0 offset) }
    ensures rest { IfOk result (λ p.
        T.layout p.1 ≡ cut (T.layout array.now) offset (length_of (T.layout array.now) - offset)) }
{
    let left = array.len() - offset;
    let front = part_of(alloc, array, 0, offset)?;
    let rest = part_of(alloc, array, offset, left)?;
    Ok((front, rest))
}

/// A typed array that may have a mask: lists, fixed-size lists, structs, maps and dictionaries.
pub trait MaskedArray: TypedArray {
    /// Puts another mask, or none, in the mask's place. Refused as InvalidOperation(KeyRange)
    /// exactly where a slot that is valid under the new mask has a key that names no value; a
    /// refusal leaves the array.
    final fn set_validity(&mut self, alloc: Global, validity: Option<Bitmap>) -> PolarsResult<()>
        requires { MaskHasLength validity (length_of (Self.layout self.old)) }
        ensures ok { OnOk result (Self.layout self.new
            ≡ with_mask validity (Self.layout self.old)) }
        ensures takes { OnOk result (TakesMask validity (Self.layout self.old)) }
        ensures kept { OnErr result (Self.layout self.new ≡ Self.layout self.old) }
        ensures refused { IfErr result (λ e. MaskRefused e validity (Self.layout self.old)) }
    {
        let masked = self.as_ref_array().with_validity(alloc, validity)?;
        match Self::from_array(masked) {
            Ok(typed) => *self = typed,
            Err(_) => unreachable!(),
        }
        Ok(())
    }

    /// The same values under another mask, or none; refused as `set_validity` is.
    final fn with_validity(self, alloc: Global, validity: Option<Bitmap>) -> PolarsResult<Self>
        requires { MaskHasLength validity (length_of (Self.layout self)) }
        ensures ok { IfOk result (λ x. (Self.layout x ≡ with_mask validity (Self.layout self))
            × TakesMask validity (Self.layout self)) }
        ensures refused { IfErr result (λ e. MaskRefused e validity (Self.layout self)) }
    {
        match Self::from_array(self.as_ref_array().with_validity(alloc, validity)?) {
            Ok(typed) => Ok(typed),
            Err(_) => unreachable!(),
        }
    }

    /// The mask, which the array has no more; refused as `set_validity` of no mask is.
    final fn take_validity(&mut self, alloc: Global) -> PolarsResult<Option<Bitmap>>
        ensures ok { IfOk result (λ m. m ≡ validity_of (Self.layout self.old)) }
        ensures bare { OnOk result (Self.layout self.new ≡ with_mask None (Self.layout self.old)) }
        ensures takes { OnOk result (TakesMask None (Self.layout self.old)) }
        ensures kept { OnErr result (Self.layout self.new ≡ Self.layout self.old) }
        ensures refused { IfErr result (λ e. MaskRefused e None (Self.layout self.old)) }
    {
        let taken = match self.validity() {
            None => None,
            Some(mask) => Some(mask.try_clone(alloc)?),
        };
        self.set_validity(alloc, None)?;
        Ok(taken)
    }
}
