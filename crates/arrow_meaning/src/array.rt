//! Arrays of any layout.
ghost use Rattle.std.specs.Prelude.{◌≡◌, ◌↔◌, ◌+◌, ◌-◌, ◌<◌, ◌≤◌, true, false, not, IfOk, IfErr, OnOk, OnErr, MatchOption, MatchResult, Option, IsTrue};
ghost use Rattle.std.specs.Option.{option_copied};
ghost use Rattle.arrow_bytes.specs.Binaries.{layout_in};
ghost use Rattle.arrow_flat.specs.Primitives.{HasBit, MaskHasLength, unset_in, valid_at};
ghost use Rattle.arrow_types.specs.Seen.{seen};
ghost use Rattle.arrow_types.specs.declared.datatype.PhysicalType.TheVariants as physical;
ghost use Rattle.arrow_views.specs.ViewArrays.{physical_view};
ghost use Rattle.arrow_layout.specs.Cut.{cut};
ghost use Rattle.arrow_layout.specs.Denote.{validity_of};
ghost use Rattle.arrow_layout.specs.FitsHere.{AllWellFormed};
ghost use Rattle.arrow_layout.specs.Layouts.{layouts, length_of, type_of};
ghost use Rattle.arrow_layout.specs.Masks.{with_mask, null_count_of, valid_in};
ghost use Rattle.arrow_layout.specs.WellFormed.{WellFormed};
ghost use Rattle.arrow_meaning.specs.Nodes.{IsOfItsType, IsSoundNode, IsStoredAs, layout_of, node_physical, boolean_layout, primitive_layout, binary_layout, fixed_size_binary_layout, view_layout};
ghost use Rattle.arrow_meaning.specs.Refusals.{MaskRefused, TakesMask};

use crate::{Node, NodeNative, NodeOffset, NodeView};
use arrow_buffers::Bitmap;
use arrow_bytes::{BinaryArray, FixedSizeBinaryArray, Utf8Array};
use arrow_flat::{BooleanArray, PrimitiveArray, TryClone};
use arrow_types::{ArrowDataType, Mem, PolarsError, PolarsResult, Reason};
use arrow_views::BinaryViewArrayGeneric;
use std::alloc::Global;
use std::marker::Model;
use std::rc::Rc;

/// An array of any layout, which may be shared. Contracts see it as its `Layout`, which is well
/// formed.
#[cycle(array)]
pub struct ArrayRef {
    node: Rc<Node>,
}

/// By hand, so that each place where a value may end has one call to prove, and not the drop of
/// every field.
impl Drop for ArrayRef {
    #[cycle(array)]
    fn drop(self) {
        let ArrayRef { node: _ } = self;
    }
}

impl Model for ArrayRef {
    ghost use Rattle.arrow_layout.specs.Layouts.{Layout};
    ghost use Rattle.arrow_layout.specs.LayoutCode.{layout_code};
    ghost use Rattle.arrow_layout.specs.NodeCount.{node_count};
    ghost use Rattle.arrow_layout.specs.WellFormed.{WellFormed};

    ghost Value = { Layout };

    ghost coded = { layout_code };

    ghost use Rattle.arrow_meaning.specs.Nodes.{layout_of, IsOfItsType};

    ghost view = { λ a. layout_of a.node.value };

    ghost invariant = { λ a. WellFormed (layout_of a.node.value) × IsOfItsType a.node.value };

    ghost size = { node_count };

    ghost use Rattle.arrow_meaning.specs.NodesFall.{deep_le_node_count};

    ghost size_decreases = { λ a h. deep_le_node_count a.node.value };
}

impl ArrayRef {
    /// The array of this node, whose own conditions hold: of a flat array there are none beside its
    /// own, and of another layout they are those of the Arrow Columnar Format on its parts, and
    /// that the variant is the physical type.
    pub fn from_node(alloc: Global, node: Node) -> Mem<ArrayRef>
        requires { IsSoundNode node }
        ensures { IfOk result (λ a. a ≡ layout_of node) }
    {
        node.invariant();
        ArrayRef::from_sound(alloc, node)
    }

    /// The array of a node that is well formed as a whole.
    pub(crate) fn from_sound(alloc: Global, node: Node) -> Mem<ArrayRef>
        requires sound { WellFormed (layout_of node) }
        requires kind { IsOfItsType node }
        ensures { IfOk result (λ a. a ≡ layout_of node) }
    {
        Ok(ArrayRef {
            node: Rc::new(alloc, node)?,
        })
    }

    /// Its layout.
    pub fn node(&self) -> &Node
        ensures same { layout_of result.now ≡ self.now }
        ensures sound { WellFormed self.now }
        ensures kind { IsStoredAs (node_physical result.now) self.now }
    {
        self.node.as_ref()
    }

    /// For proofs alone: what every array keeps.
    pub fn invariant(&self)
        ensures { WellFormed self.now }
    {
        let _ = &self.node;
    }

    /// The array of bits, None exactly where the layout is another.
    pub fn as_boolean(&self) -> Option<&BooleanArray>
        ensures { MatchOption result (IsStoredAs physical.Boolean self.now → ⊥)
            (λ a. boolean_layout a.now ≡ self.now) }
    {
        match self.node() {
            Node::Boolean(array) => Some(array),
            _ => None,
        }
    }

    /// The array of values of the native type, None exactly where the layout is another.
    pub fn as_primitive<T: NodeNative>(&self) -> Option<&PrimitiveArray<T>>
        ensures { MatchOption result (IsStoredAs (physical.Primitive T.PRIMITIVE) self.now → ⊥)
            (λ a. primitive_layout T.parts a.now ≡ self.now) }
    {
        match self.node() {
            Node::Primitive(array) => T::of_primitive(array),
            _ => None,
        }
    }

    /// The array of binary values with these offsets, None exactly where the layout is another.
    pub fn as_binary<O: NodeOffset>(&self) -> Option<&BinaryArray<O>>
        ensures { MatchOption result (IsStoredAs (layout_in false O.IS_LARGE) self.now → ⊥)
            (λ a. binary_layout O.number a.now ≡ self.now) }
    {
        O::binary_of(self.node())
    }

    /// The array of strings with these offsets, None exactly where the layout is another.
    pub fn as_utf8<O: NodeOffset>(&self) -> Option<&Utf8Array<O>>
        ensures { MatchOption result (IsStoredAs (layout_in true O.IS_LARGE) self.now → ⊥)
            (λ a. binary_layout O.number a.now ≡ self.now) }
    {
        O::utf8_of(self.node())
    }

    /// The array of binary values of one size, None exactly where the layout is another.
    pub fn as_fixed_size_binary(&self) -> Option<&FixedSizeBinaryArray>
        ensures { MatchOption result (IsStoredAs physical.FixedSizeBinary self.now → ⊥)
            (λ a. fixed_size_binary_layout a.now ≡ self.now) }
    {
        match self.node() {
            Node::FixedSizeBinary(array) => Some(array),
            _ => None,
        }
    }

    /// The array of binary values or of strings by views, None exactly where the layout is another.
    pub fn as_view<T: NodeView>(&self) -> Option<&BinaryViewArrayGeneric<T>>
        ensures { MatchOption result (IsStoredAs (physical_view T.IS_TEXT) self.now → ⊥)
            (λ a. view_layout a.now ≡ self.now) }
    {
        T::view_of(self.node())
    }

    /// The count of slots.
    pub fn len(&self) -> usize
        ensures { result ≡ length_of self.now }
    {
        self.node().len()
    }

    /// Whether there is no slot.
    pub fn is_empty(&self) -> bool
        ensures { IsTrue result ↔ (length_of self.now ≡ 0) }
    {
        self.len() == 0
    }

    /// The whole type, extensions included.
    pub fn dtype(&self) -> &ArrowDataType
        ensures { seen result.now ≡ type_of self.now }
    {
        self.node().dtype()
    }

    /// The mask, where there is one: a set bit for each slot that isn't null.
    pub fn validity(&self) -> Option<&Bitmap>
        ensures { option_copied result ≡ validity_of self.now }
    {
        self.node().validity()
    }

    /// The count of nulls: all slots of a null array, and else those whose bit in the mask is
    /// unset.
    pub fn null_count(&self) -> usize
        ensures { result ≡ null_count_of self.now }
    {
        match self.node() {
            Node::Null { length, .. } => *length,
            node => null_count(node.validity()),
        }
    }

    /// Whether there are nulls.
    pub fn has_nulls(&self) -> bool
        ensures { IsTrue result ↔ (0 < null_count_of self.now) }
    {
        self.null_count() > 0
    }

    /// Whether the slot isn't null: by the mask, and false for a null array.
    pub fn is_valid(&self, i: usize) -> bool
        requires { i < length_of self.now }
        ensures { result ≡ valid_in self.now i }
    {
        match self.node() {
            Node::Null { .. } => false,
            node => is_valid(node.validity(), i),
        }
    }

    /// Whether the slot is null: by the mask, and true for a null array.
    pub fn is_null(&self, i: usize) -> bool
        requires { i < length_of self.now }
        ensures { result ≡ not (valid_in self.now i) }
    {
        !self.is_valid(i)
    }

    /// Keeps the `length` slots from `offset` on; a mask without nulls is dropped. Out of memory
    /// leaves the array.
    pub fn slice(&mut self, alloc: Global, offset: usize, length: usize) -> Mem<()>
        requires { offset + length ≤ length_of self.old }
        ensures cut { OnOk result (self.new ≡ cut self.old offset length) }
        ensures kept { OnErr result (self.new ≡ self.old) }
    {
        *self = self.sliced(alloc, offset, length)?;
        Ok(())
    }

    /// The first `offset` slots, and the others.
    pub fn split_at_boxed(&self, alloc: Global, offset: usize) -> Mem<(ArrayRef, ArrayRef)>
        requires { offset ≤ length_of self.now }
        ensures { IfOk result (λ p. (p.0 ≡ cut self.now 0 offset)
            × (p.1 ≡ cut self.now offset (length_of self.now - offset))) }
    {
        let first = self.sliced(alloc, 0, offset)?;
        let rest = self.sliced(alloc, offset, self.len() - offset)?;
        Ok((first, rest))
    }

    /// The same values under another mask, or none; a null array stays. Refused as
    /// InvalidOperation: UnionValidity exactly for a union, KeyRange exactly where a slot that is
    /// valid under the new mask has a key that names no value.
    pub fn with_validity(&self, alloc: Global, validity: Option<Bitmap>) -> PolarsResult<ArrayRef>
        requires { MaskHasLength validity (length_of self.now) }
        ensures ok { IfOk result (λ a. (a ≡ with_mask validity self.now)
            × TakesMask validity self.now) }
        ensures refused { IfErr result (λ e. MaskRefused e validity self.now) }
    {
        let node = self.node();
        check_mask(node, &validity)?;
        arrow_flat::validity::invariant(&validity);
        let mut masked = node.try_clone(alloc)?;
        masked.set_validity(validity);
        Ok(ArrayRef::from_sound(alloc, masked)?)
    }

    /// Another owner of the same array.
    pub fn try_clone(&self, _alloc: Global) -> Mem<ArrayRef>
        ensures { IfOk result (λ a. a ≡ self.now) }
    {
        Ok(ArrayRef {
            node: self.node.clone()?,
        })
    }

    /// Another owner of the same array, as upstream names it.
    pub fn to_boxed(&self, alloc: Global) -> Mem<ArrayRef>
        ensures { IfOk result (λ a. a ≡ self.now) }
    {
        self.try_clone(alloc)
    }
}

impl TryClone for ArrayRef {
    fn try_clone(&self, alloc: Global) -> Mem<ArrayRef> {
        ArrayRef::try_clone(self, alloc)
    }
}

/// The count of unset bits.
fn null_count(validity: Option<&Bitmap>) -> usize
    ensures { result ≡ unset_in (option_copied validity.entry) }
{
    match validity {
        Some(mask) => mask.unset_bits(),
        None => 0,
    }
}

/// Whether the bit of the slot is set.
fn is_valid(validity: Option<&Bitmap>, i: usize) -> bool
    requires { HasBit (option_copied validity) i }
    ensures { result ≡ valid_at (option_copied validity.entry) i }
{
    match validity {
        Some(mask) => mask.get_bit(i),
        None => true,
    }
}

/// That the node takes the mask: a union takes none, and under the mask each key that is valid
/// names a value.
fn check_mask(node: &Node, validity: &Option<Bitmap>) -> PolarsResult<()>
    requires { MaskHasLength validity.now (length_of (layout_of node.now)) }
    ensures ok { IfOk result (λ done. TakesMask validity.now (layout_of node.now)) }
    ensures refused { IfErr result (λ e. MaskRefused e validity.now (layout_of node.now)) }
{
    match node {
        Node::Union { .. } => Err(PolarsError::InvalidOperation(Reason::UnionValidity)),
        Node::Dictionary { keys, child, .. } => {
            if keys.name_values(validity, child.len()) {
                Ok(())
            } else {
                Err(PolarsError::InvalidOperation(Reason::KeyRange))
            }
        }
        _ => Ok(()),
    }
}

/// For proofs alone: what each of the arrays keeps.
pub fn all_invariant(arrays: &[ArrayRef])
    ensures { AllWellFormed (layouts arrays.now) }
{
    for array in arrays {
        array.invariant();
    }
}
