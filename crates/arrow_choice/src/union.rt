//! Arrays of unions: each slot is one of a child, which its type number selects.
ghost use Rattle.std.specs.Prelude.{◌≡◌, ◌↔◌, ◌+◌, ◌^◌, ◌<◌, IfOk, IfSome, IsTrue, MatchResult, Some, length as count, slice_get};
ghost use Rattle.std.specs.Option.{option_copied};
ghost use Rattle.arrow_types.specs.Seen.{seen, seen_fields};
ghost use Rattle.arrow_types.specs.declared.datatype.UnionMode.TheVariants.{Sparse};
ghost use Rattle.arrow_layout.specs.Forms.{fields_by, form_of, mode_by};
ghost use Rattle.arrow_layout.specs.Layouts.{layouts, length_of};
ghost use Rattle.arrow_layout.specs.Paths.{children_of};
ghost use Rattle.arrow_layout.specs.WellFormed.{WellFormed};
ghost use Rattle.arrow_meaning.specs.Nodes.{union_layout};
ghost use Rattle.arrow_meaning.specs.Refusals.{IsUnion};
ghost use Rattle.arrow_choice.specs.Unions.{AreUnionParts, IsUnionType, NamesSlot, Refused, given_parts, indices, slot_by, type_numbers, union_offsets, union_shift};

use crate::UnionIter;
use crate::union_parts::{
    check_parts, declared_fields, invariant, is_sparse, position, selected_field,
};
use arrow_buffers::Buffer;
use arrow_flat::stored::is_stored_in;
use arrow_flat::{Splitable, TryClone};
use arrow_meaning::{ArrayRef, Node, TypedArray, copy_of, halves_of};
use arrow_types::{ArrowDataType, Field, Mem, PhysicalType, PolarsResult};
use std::alloc::Global;
use std::marker::Model;

/// An array whose slots are each one of a child, seen as its layout.
///
/// The Arrow Columnar Format's dense union layout, where an offset names the slot of the child, and
/// its sparse union layout, where the child is read at the slot's own position.
#[derive(Drop)]
pub struct UnionArray {
    array: ArrayRef,
}

impl Model for UnionArray {
    ghost use Rattle.arrow_types.specs.declared.datatype.PhysicalType.TheVariants as physical;
    ghost use Rattle.arrow_layout.specs.Layouts.{Layout};
    ghost use Rattle.arrow_layout.specs.LayoutCode.{layout_code};
    ghost use Rattle.arrow_meaning.specs.Nodes.{IsStoredAs};

    ghost Value = { Layout };

    ghost coded = { layout_code };

    ghost view = { λ a. a.array };

    ghost invariant = { λ a. IsStoredAs physical.Union a.array };
}

/// The parts of a union, borrowed.
#[derive(Clone, Copy)]
struct Parts<'a> {
    types: &'a Buffer<i8>,
    offsets: &'a Option<Buffer<i32>>,
    fields: &'a [ArrayRef],
    shift: usize,
}

impl UnionArray {
    /// The union of these parts. With ids in the type, a type number selects the field at the last
    /// position at which it stands among them, and field 0 where it stands nowhere; without ids it
    /// is the field's position.
    ///
    /// Refused as ComputeError, by the first of these tests that fails: WrongLogicalType where the
    /// type isn't a union's, then FieldCount where the fields aren't as many as the type's,
    /// TooManyFields where they are more than 127, ChildTypeDiffers where a field's whole type
    /// isn't that of the type's, OffsetsLength where offsets are there and aren't as many as the
    /// type numbers, OffsetsMode where they are there for a sparse type or missing for a dense one,
    /// IdCount where ids are there and aren't as many as the fields, IdRange where an id isn't from
    /// 0 to 127, TypeRange where a type number is negative or, without ids, not below the count of
    /// fields, NotCarried where there are no fields, DenseOffset where an offset names no slot of
    /// the field that is selected, and SparseLength where there are no offsets and a field has
    /// fewer slots than there are type numbers.
    pub fn try_new(
        alloc: Global,
        dtype: ArrowDataType,
        types: Buffer<i8>,
        fields: Vec<ArrayRef>,
        offsets: Option<Buffer<i32>>,
    ) -> PolarsResult<UnionArray>
        ensures { MatchResult result
            (λ a. (a ≡ union_layout dtype types offsets (layouts fields.items) 0)
            × AreUnionParts (given_parts dtype types offsets fields.items))
            (λ e. Refused e (given_parts dtype types offsets fields.items)) }
    {
        check_parts(&dtype, types.as_slice(), &fields, &offsets)?;
        Ok(UnionArray::new(alloc, dtype, types, fields, offsets)?)
    }

    /// The union of parts that `try_new` refuses for no cause but memory.
    pub fn new(
        alloc: Global,
        dtype: ArrowDataType,
        types: Buffer<i8>,
        fields: Vec<ArrayRef>,
        offsets: Option<Buffer<i32>>,
    ) -> Mem<UnionArray>
        requires { AreUnionParts (given_parts dtype types offsets fields.items) }
        ensures { IfOk result (λ a. a ≡ union_layout dtype types offsets (layouts fields.items) 0) }
    {
        invariant(&types, &fields);
        let node = Node::Union {
            dtype,
            types,
            offsets,
            children: fields,
            shift: 0,
        };
        let array = ArrayRef::from_node(alloc, node)?;
        Ok(UnionArray { array })
    }

    /// The fields of a type of unions, through extensions.
    pub fn get_fields(dtype: &ArrowDataType) -> &[Field]
        requires { IsUnionType (seen dtype.now) }
        ensures { seen_fields result.now ≡ fields_by (form_of (seen dtype.now)) }
    {
        declared_fields(dtype)
    }

    /// Whether a type of unions is sparse, through extensions.
    pub fn is_sparse(dtype: &ArrowDataType) -> bool
        requires { IsUnionType (seen dtype.now) }
        ensures { IsTrue result ↔ (mode_by (form_of (seen dtype.now)) ≡ Sparse) }
    {
        is_sparse(dtype)
    }

    /// All parts.
    fn parts(&self) -> Parts<'_>
        ensures types { result.types.now ≡ type_numbers self.now }
        ensures offsets { result.offsets.now ≡ union_offsets self.now }
        ensures fields { layouts result.fields.now ≡ children_of self.now }
        ensures shift { result.shift ≡ union_shift self.now }
        ensures union { IsUnion self.now }
        ensures sound { WellFormed self.now }
        ensures counts { count result.types.now ≡ length_of self.now }
    {
        match self.array.node() {
            Node::Union {
                types,
                offsets,
                children,
                shift,
                ..
            } => Parts {
                types,
                offsets,
                fields: children,
                shift: *shift,
            },
            _ => unreachable!(),
        }
    }

    /// For proofs alone: what the array keeps.
    pub fn invariant(&self)
        ensures union { IsUnion self.now }
        ensures sound { WellFormed self.now }
    {
        self.parts();
    }

    /// The type number of each slot.
    pub fn types(&self) -> &Buffer<i8>
        ensures same { result.now ≡ type_numbers self.now }
        ensures counts { count result.now ≡ length_of self.now }
    {
        self.parts().types
    }

    /// The offset of each slot in the field that is selected, where the union is dense.
    pub fn offsets(&self) -> Option<&Buffer<i32>>
        ensures { option_copied result ≡ union_offsets self.now }
    {
        self.parts().offsets.as_ref()
    }

    /// The fields, which slices leave as they are.
    pub fn fields(&self) -> &[ArrayRef]
        ensures { layouts result.now ≡ children_of self.now }
    {
        self.parts().fields
    }

    /// The position of the field that a slot selects, and the slot there.
    pub fn index(&self, i: usize) -> (usize, usize)
        requires { i < length_of self.now }
        ensures index { slice_get (indices self.now) i ≡ Some result }
        ensures within { NamesSlot (children_of self.now) result }
    {
        let parts = self.parts();
        let field = selected_field(self.array.dtype(), parts.types.as_slice(), i);
        (field, slot_of(parts.offsets, parts.shift, i))
    }

    /// The position of the field and the slot there, of each slot in order, from both ends.
    pub fn iter(&self) -> UnionIter<'_>
        ensures { result ≡ indices self.now }
    {
        UnionIter::new(self)
    }
}

/// The slot of the child that a slot reads: at its offset, and without offsets at its own position,
/// from a shift on.
fn slot_of(offsets: &Option<Buffer<i32>>, shift: usize, i: usize) -> usize
    requires covered { IfSome offsets.now (λ os. i < count os) }
    requires small { i + shift < 2 ^ 64 }
    ensures { result ≡ slot_by offsets.now shift i }
{
    match offsets {
        Some(offsets) => position(offsets.as_slice()[i]),
        None => i + shift,
    }
}

impl TypedArray for UnionArray {
    ghost use Rattle.arrow_types.specs.declared.datatype.PhysicalType.TheVariants as physical;

    ghost layout = { λ a. a };

    ghost physical = { physical.Union };

    fn from_array(array: ArrayRef) -> Result<UnionArray, ArrayRef> {
        if is_stored_in(array.dtype(), PhysicalType::Union) {
            Ok(UnionArray { array })
        } else {
            Err(array)
        }
    }

    fn boxed(self) -> ArrayRef {
        self.array
    }

    fn as_ref_array(&self) -> &ArrayRef {
        &self.array
    }
}

impl TryClone for UnionArray {
    fn try_clone(&self, alloc: Global) -> Mem<UnionArray> {
        copy_of(alloc, self)
    }
}

impl Splitable for UnionArray {
    ghost use Rattle.std.specs.Prelude.{◌-◌, ◌≤◌};
    ghost use Rattle.arrow_layout.specs.Cut.{cut};
    ghost use Rattle.arrow_layout.specs.Layouts.{length_of};

    ghost HasBound = { λ a n. n ≤ length_of a };

    ghost front = { λ a n. cut a 0 n };

    ghost rest = { λ a n. cut a n (length_of a - n) };

    fn check_bound(&self, offset: usize) -> bool {
        offset <= self.len()
    }

    fn split_at(&self, alloc: Global, offset: usize) -> Mem<(UnionArray, UnionArray)> {
        halves_of(alloc, self, offset)
    }
}
