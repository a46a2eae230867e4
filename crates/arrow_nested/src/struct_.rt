//! Arrays of structs.
ghost use Rattle.std.specs.Prelude.{◌≡◌, ◌↔◌, ℕ, ◌-◌, ◌≤◌, length as count, IfOk, IsTrue, MatchOption, MatchResult, Option};
ghost use Rattle.arrow_buffers.specs.Bits.{Bits};
ghost use Rattle.arrow_layout.specs.Cut.{cut};
ghost use Rattle.arrow_layout.specs.Denote.{validity_of};
ghost use Rattle.arrow_layout.specs.FitsHere.{HaveLengths};
ghost use Rattle.arrow_layout.specs.Forms.{fields_by, form_of, structs_of};
ghost use Rattle.arrow_layout.specs.Layouts.{Layouts, layouts, length_of, structs, type_of};
ghost use Rattle.arrow_layout.specs.Paths.{children_of};
ghost use Rattle.arrow_layout.specs.WellFormed.{WellFormed};
ghost use Rattle.arrow_nested.specs.Structs.{AreStructs, PartsFit, Refused, RefusedAt};
ghost use Rattle.arrow_types.specs.Seen.{seen, seen_fields};
ghost use Rattle.arrow_types.specs.TypeData.{TypeData};

use arrow_buffers::Bitmap;
use arrow_flat::stored::is_stored_in;
use arrow_flat::validity::{self, clone_mask, mask_fits};
use arrow_flat::{Splitable, TryClone};
use arrow_meaning::{
    ArrayRef, MaskedArray, Node, TypedArray, all_invariant, clone_all, copy_of, halves_of,
    have_types,
};
use arrow_types::{
    ArrowDataType, Field, Fields, Mem, PhysicalType, PolarsError, PolarsResult, Reason,
    clone_fields,
};
use std::alloc::Global;
use std::marker::Model;

/// An array of structs, seen as its layout.
///
/// The Arrow Columnar Format's Struct Layout: one child for each field, as long as the array.
pub struct StructArray {
    array: ArrayRef,
}

/// By hand: a place where a value may end then has one call to prove.
impl Drop for StructArray {
    fn drop(self) {
        let StructArray { array: _ } = self;
    }
}

impl Model for StructArray {
    ghost use Rattle.arrow_layout.specs.LayoutCode.{layout_code};
    ghost use Rattle.arrow_layout.specs.Layouts.{Layout};
    ghost use Rattle.arrow_meaning.specs.Nodes.{IsStoredAs};
    ghost use Rattle.arrow_types.specs.declared.datatype.PhysicalType.TheVariants as physical;

    ghost Value = { Layout };

    ghost coded = { layout_code };

    ghost view = { λ a. a.array };

    ghost invariant = { λ a. IsStoredAs physical.Struct a.array };
}

/// The parts of an array of structs.
#[derive(Clone, Copy)]
struct StructParts<'a> {
    dtype: &'a ArrowDataType,
    length: usize,
    children: &'a [ArrayRef],
    validity: &'a Option<Bitmap>,
}

impl StructArray {
    /// The array of `length` structs over `values`, one child for each field.
    ///
    /// Refused as ComputeError for the first of these: WrongLogicalType where the type is another,
    /// FieldCount where there are more or fewer children than fields, ChildTypeDiffers where a
    /// child hasn't the whole type of its field, ChildLength where a child has another length, and
    /// MaskLength where a mask is there and hasn't one bit a struct.
    pub fn try_new(
        alloc: Global,
        dtype: ArrowDataType,
        length: usize,
        values: Vec<ArrayRef>,
        validity: Option<Bitmap>,
    ) -> PolarsResult<StructArray>
        ensures { MatchResult result
            (λ a. PartsFit (seen dtype) length (layouts values.items) validity
            × (a ≡ structs (seen dtype) validity length (layouts values.items)))
            (λ e. Refused e (seen dtype) length (layouts values.items) validity) }
    {
        match check_parts(&dtype, length, &values, &validity) {
            Ok(()) => Ok(StructArray::new(alloc, dtype, length, values, validity)?),
            Err(reason) => Err(PolarsError::ComputeError(reason)),
        }
    }

    /// The array of parts that fit together: the type is one of structs, each field has one child
    /// of its type and of the array's length, and a mask has one bit a struct.
    pub fn new(
        alloc: Global,
        dtype: ArrowDataType,
        length: usize,
        values: Vec<ArrayRef>,
        validity: Option<Bitmap>,
    ) -> Mem<StructArray>
        requires { PartsFit (seen dtype) length (layouts values.items) validity }
        ensures { IfOk result (λ a.
            a ≡ structs (seen dtype) validity length (layouts values.items)) }
    {
        all_invariant(&values);
        validity::invariant(&validity);
        let array = ArrayRef::from_node(
            alloc,
            Node::Struct {
                dtype,
                length,
                children: values,
                validity,
            },
        )?;
        Ok(StructArray { array })
    }

    /// The fields that a type of structs declares, through extensions.
    pub fn get_fields(dtype: &ArrowDataType) -> &[Field]
        requires { AreStructs (form_of (seen dtype.now)) }
        ensures { seen_fields result.now ≡ fields_by (form_of (seen dtype.now)) }
    {
        match declared_fields(dtype) {
            Some(fields) => fields,
            None => unreachable!(),
        }
    }

    /// The parts of its node.
    fn parts(&self) -> StructParts<'_>
        ensures same { structs (seen result.dtype.now) result.validity.now
            result.length (layouts result.children.now) ≡ self.now }
        ensures sound { WellFormed self.now }
    {
        match self.array.node() {
            Node::Struct {
                dtype,
                length,
                children,
                validity,
            } => StructParts {
                dtype,
                length: *length,
                children,
                validity,
            },
            _ => unreachable!(),
        }
    }

    /// The children, one for each field.
    pub fn values(&self) -> &[ArrayRef]
        ensures { layouts result.now ≡ children_of self.now }
    {
        self.parts().children
    }

    /// The fields of its type.
    pub fn fields(&self) -> &[Field]
        ensures { seen_fields result.now ≡ fields_by (form_of (type_of self.now)) }
    {
        StructArray::get_fields(self.parts().dtype)
    }

    /// The fields, the length, the children and the mask, which the copies share with the array.
    pub fn into_data(self, alloc: Global) -> Mem<(Fields, usize, Vec<ArrayRef>, Option<Bitmap>)>
        ensures fields { IfOk result (λ d. seen_fields d.0 ≡ fields_by (form_of (type_of self))) }
        ensures length { IfOk result (λ d. d.1 ≡ length_of self) }
        ensures children { IfOk result (λ d. layouts d.2.items ≡ children_of self) }
        ensures validity { IfOk result (λ d. d.3 ≡ validity_of self) }
    {
        let parts = self.parts();
        let fields = clone_fields(alloc, StructArray::get_fields(parts.dtype))?;
        let children = clone_all(alloc, parts.children)?;
        let validity = clone_mask(alloc, parts.validity)?;
        Ok((fields, parts.length, children, validity))
    }
}

impl TypedArray for StructArray {
    ghost use Rattle.arrow_types.specs.declared.datatype.PhysicalType.TheVariants as physical;

    ghost layout = { λ a. a };

    ghost physical = { physical.Struct };

    fn from_array(array: ArrayRef) -> Result<StructArray, ArrayRef> {
        if is_stored_in(array.dtype(), PhysicalType::Struct) {
            Ok(StructArray { array })
        } else {
            Err(array)
        }
    }

    fn boxed(self) -> ArrayRef {
        let StructArray { array } = self;
        array
    }

    fn as_ref_array(&self) -> &ArrayRef {
        &self.array
    }
}

impl MaskedArray for StructArray {}

impl TryClone for StructArray {
    fn try_clone(&self, alloc: Global) -> Mem<StructArray> {
        copy_of(alloc, self)
    }
}

impl Splitable for StructArray {
    ghost use Rattle.std.specs.Prelude.{◌≤◌, ◌-◌};
    ghost use Rattle.arrow_layout.specs.Cut.{cut};
    ghost use Rattle.arrow_layout.specs.Layouts.{length_of};

    ghost HasBound = { λ a n. n ≤ length_of a };

    ghost front = { λ a n. cut a 0 n };

    ghost rest = { λ a n. cut a n (length_of a - n) };

    fn check_bound(&self, offset: usize) -> bool {
        offset <= TypedArray::len(self)
    }

    fn split_at(&self, alloc: Global, offset: usize) -> Mem<(StructArray, StructArray)> {
        halves_of(alloc, self, offset)
    }
}

/// The fields that a type of structs declares, through extensions; None for another type.
#[tactic(auto, using(arrow_flat::proofs::TypeViews::seen_types))]
fn declared_fields(dtype: &ArrowDataType) -> Option<&[Field]>
    ensures { MatchOption result (AreStructs (form_of (seen dtype.now)) → ⊥)
        (λ fields. form_of (seen dtype.now) ≡ structs_of (seen_fields fields.now)) }
{
    match dtype {
        ArrowDataType::Struct(fields) => Some(fields.as_slice()),
        ArrowDataType::Extension(extension) => declared_fields(&extension.get().inner),
        _ => None,
    }
}

/// That the parts fit together, or the first test that fails.
fn check_parts(
    dtype: &ArrowDataType,
    length: usize,
    values: &[ArrayRef],
    validity: &Option<Bitmap>,
) -> Result<(), Reason>
    ensures { MatchResult result
        (λ done. PartsFit (seen dtype.now) length (layouts values.now) validity.now)
        (λ reason. RefusedAt reason
        (form_of (seen dtype.now)) length (layouts values.now) validity.now) }
{
    let Some(fields) = declared_fields(dtype) else {
        return Err(Reason::WrongLogicalType);
    };
    if fields.len() != values.len() {
        return Err(Reason::FieldCount);
    }
    if !have_types(fields, values) {
        return Err(Reason::ChildTypeDiffers);
    }
    if !have_length(values, length) {
        return Err(Reason::ChildLength);
    }
    if !mask_fits(validity, length) {
        return Err(Reason::MaskLength);
    }
    Ok(())
}

/// Whether each child has this length.
fn have_length(values: &[ArrayRef], length: usize) -> bool
    ensures { IsTrue result ↔ HaveLengths (λ i. i ≡ length) (layouts values.now) }
{
    for value in values {
        if value.len() != length {
            return false;
        }
    }
    true
}

/// Every well-formed layout of structs is accepted: its parts fit.
pub fn structs_are_accepted()
    ensures { (t : TypeData) (m : Option Bits) (n : ℕ) (ls : Layouts)
        → WellFormed (structs t m n ls) → PartsFit t n ls m }
{}
