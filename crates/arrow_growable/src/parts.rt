//! What a growable of arrays with children has beside its mask and the growables of the children.
ghost use Rattle.std.specs.Prelude.{◌≡◌, ◌⊎◌, ◌<◌, ◌≤◌, [], length as count, IfOk, OnOk, IsErrOf};
ghost use Rattle.arrow_types.specs.Seen.{seen};
ghost use Rattle.arrow_types.specs.declared.datatype.PhysicalType.TheVariants as physical;
ghost use Rattle.arrow_types.specs.declared.error.GrowError.TheVariants as grow;
ghost use Rattle.arrow_layout.specs.Forms.{Form, form_of};
ghost use Rattle.arrow_layout.specs.Layouts.{Layouts, layouts, length_of, type_of};
ghost use Rattle.arrow_layout.specs.WellFormed.{WellFormed};
ghost use Rattle.arrow_meaning.specs.Nodes.{IsStoredAs, layout_of, node_physical};
ghost use Rattle.arrow_canon.specs.Runs.{AreWithin};
ghost use Rattle.arrow_growable.specs.ChildRuns.{AreChildRuns};
ghost use Rattle.arrow_growable.specs.Parts.{AreOfForm, HasParts, IsCountedKind, IsListKind, IsNestedKind, first_layout, layout_with, parts_physical};
ghost use Rattle.arrow_growable.specs.Taken.{HaveNoRoom, HaveTaken};

use crate::child_runs::ChildRuns;
use crate::counts::{extend_chunks, extend_structs};
use crate::list::extend_lists;
use arrow_buffers::{Bitmap, Offsets};
use arrow_canon::Run;
use arrow_meaning::{ArrayRef, Node};
use arrow_types::{ArrowDataType, GrowError, Mem};
use std::alloc::Global;

/// What a growable of arrays with children has beside its mask and the growables of the children.
#[derive(Drop)]
pub enum NestedParts {
    /// Where the items of each list end, by 32 bits.
    List(Offsets<i32>),
    /// Where the items of each list end, by 64 bits.
    LargeList(Offsets<i64>),
    /// Where the entries of each map end.
    Map(Offsets<i32>),
    /// The size of a list, and the count of lists.
    FixedSizeList {
        size: usize,
        length: usize,
    },
    /// The count of structs.
    Struct {
        length: usize,
    },
    /// The type numbers.
    SparseUnion {
        types: Vec<i8>,
    },
    /// The type numbers, the offsets, and how many slots each field has.
    DenseUnion {
        types: Vec<i8>,
        offsets: Vec<i32>,
        counts: Vec<usize>,
    },
}

/// Appends the parts of the lists, large lists or maps that runs pick out of an array, `copies`
/// times, and gives the runs of their items.
///
/// Overflow only where the slots with them have no room.
fn extend_list_parts(
    alloc: Global,
    parts: &mut NestedParts,
    node: &Node,
    runs: &[Run],
    copies: usize,
) -> Result<ChildRuns, GrowError>
    requires sound { WellFormed (layout_of node.now) }
    requires lists { IsListKind (node_physical node.now) }
    requires form { AreOfForm (form_of (type_of (layout_of node.now))) parts.old }
    requires kind { parts_physical parts.old ≡ node_physical node.now }
    requires within { AreWithin (length_of (layout_of node.now)) runs.now }
    requires some { 0 < copies }
    ensures kept { parts_physical parts.new ≡ parts_physical parts.old }
    ensures form { AreOfForm (form_of (type_of (layout_of node.now))) parts.new }
    ensures runs { IfOk result (AreChildRuns (layout_of node.now) runs.now) }
    ensures taken { OnOk result (HaveTaken (layout_of node.now) runs.now copies parts.old parts.new) }
    ensures overflow { IsErrOf result grow.Overflow
        → HaveNoRoom (layout_of node.now) runs.now copies parts.old }
{
    match node {
        Node::List {
            offsets,
            validity,
            ..
        } => match parts {
            NestedParts::List(ends) => {
                extend_lists(alloc, ends, offsets, validity.as_ref(), runs, copies)
            }
            _ => unreachable!(),
        },
        Node::LargeList {
            offsets,
            validity,
            ..
        } => match parts {
            NestedParts::LargeList(ends) => {
                extend_lists(alloc, ends, offsets, validity.as_ref(), runs, copies)
            }
            _ => unreachable!(),
        },
        Node::Map {
            offsets,
            validity,
            ..
        } => match parts {
            NestedParts::Map(ends) => {
                extend_lists(alloc, ends, offsets, validity.as_ref(), runs, copies)
            }
            _ => unreachable!(),
        },
        _ => unreachable!(),
    }
}

/// Appends the parts of the fixed-size lists or structs that runs pick out of an array, `copies`
/// times, and gives the runs of their children.
///
/// Overflow only where the slots with them have no room.
fn extend_counted_parts(
    alloc: Global,
    parts: &mut NestedParts,
    node: &Node,
    runs: &[Run],
    copies: usize,
) -> Result<ChildRuns, GrowError>
    requires sound { WellFormed (layout_of node.now) }
    requires counted { IsCountedKind (node_physical node.now) }
    requires form { AreOfForm (form_of (type_of (layout_of node.now))) parts.old }
    requires kind { parts_physical parts.old ≡ node_physical node.now }
    requires within { AreWithin (length_of (layout_of node.now)) runs.now }
    requires some { 0 < copies }
    ensures kept { parts_physical parts.new ≡ parts_physical parts.old }
    ensures form { AreOfForm (form_of (type_of (layout_of node.now))) parts.new }
    ensures runs { IfOk result (AreChildRuns (layout_of node.now) runs.now) }
    ensures taken { OnOk result (HaveTaken (layout_of node.now) runs.now copies parts.old parts.new) }
    ensures overflow { IsErrOf result grow.Overflow
        → HaveNoRoom (layout_of node.now) runs.now copies parts.old }
{
    match node {
        Node::FixedSizeList {
            size,
            length: slots,
            child,
            validity,
            ..
        } => match parts {
            NestedParts::FixedSizeList { length, .. } => {
                let _items = child.len();
                extend_chunks(
                    alloc,
                    length,
                    *size,
                    *slots,
                    validity.as_ref(),
                    runs,
                    copies,
                )
            }
            _ => unreachable!(),
        },
        Node::Struct {
            length: slots,
            validity,
            ..
        } => match parts {
            NestedParts::Struct { length } => {
                extend_structs(alloc, length, *slots, validity.as_ref(), runs, copies)
            }
            _ => unreachable!(),
        },
        _ => unreachable!(),
    }
}

/// Appends the parts of the slots that runs pick out of an array, `copies` times, and gives the
/// runs of its children.
///
/// Overflow only where the slots with them have no room.
pub fn extend_parts(
    alloc: Global,
    array: &ArrayRef,
    parts: &mut NestedParts,
    runs: &[Run],
    copies: usize,
) -> Result<ChildRuns, GrowError>
    requires form { AreOfForm (form_of (type_of array.now)) parts.old }
    requires kind { IsStoredAs (parts_physical parts.old) array.now }
    requires nested { IsNestedKind (parts_physical parts.old) }
    requires within { AreWithin (length_of array.now) runs.now }
    requires some { 0 < copies }
    ensures kept { parts_physical parts.new ≡ parts_physical parts.old }
    ensures form { AreOfForm (form_of (type_of array.now)) parts.new }
    ensures runs { IfOk result (AreChildRuns array.now runs.now) }
    ensures taken { OnOk result (HaveTaken array.now runs.now copies parts.old parts.new) }
    ensures overflow { IsErrOf result grow.Overflow
        → HaveNoRoom array.now runs.now copies parts.old }
{
    let node = array.node();
    match node {
        Node::List { .. } => extend_list_parts(alloc, parts, node, runs, copies),
        Node::LargeList { .. } => extend_list_parts(alloc, parts, node, runs, copies),
        Node::Map { .. } => extend_list_parts(alloc, parts, node, runs, copies),
        _ => extend_counted_parts(alloc, parts, node, runs, copies),
    }
}

/// The parts of no slots, of the same kind.
pub fn fresh_parts(alloc: Global, parts: &NestedParts) -> Mem<NestedParts>
    requires { IsNestedKind (parts_physical parts.now) }
    ensures kind { IfOk result (λ p. parts_physical p ≡ parts_physical parts.now) }
    ensures form { IfOk result (λ p. (f : Form) → AreOfForm f parts.now
        → AreOfForm f p × HasParts f [] p) }
{
    Ok(match parts {
        NestedParts::List(_) => NestedParts::List(Offsets::new(alloc)?),
        NestedParts::LargeList(_) => NestedParts::LargeList(Offsets::new(alloc)?),
        NestedParts::Map(_) => NestedParts::Map(Offsets::new(alloc)?),
        NestedParts::FixedSizeList { size, .. } => NestedParts::FixedSizeList {
            size: *size,
            length: 0,
        },
        NestedParts::Struct { .. } => NestedParts::Struct { length: 0 },
        _ => unreachable!(),
    })
}

/// The node of these parts over children, of which lists have one.
pub fn node_of_parts(
    alloc: Global,
    dtype: &ArrowDataType,
    parts: NestedParts,
    children: Vec<ArrayRef>,
    validity: Option<Bitmap>,
) -> Mem<Node>
    requires nested { IsNestedKind (parts_physical parts) }
    requires children { 0 < count children.items ⊎ (parts_physical parts ≡ physical.Struct) }
    ensures same { IfOk result (λ n. layout_of n
        ≡ layout_with (seen dtype.now) validity parts (layouts children.items)) }
    ensures kind { IfOk result (λ n. node_physical n ≡ parts_physical parts) }
{
    let dtype = dtype.try_clone(alloc)?;
    match parts {
        NestedParts::Struct { length } => Ok(Node::Struct {
            dtype,
            length,
            children,
            validity,
        }),
        parts => one_child_node(dtype, parts, first_child(children), validity),
    }
}

/// The first of children.
fn first_child(children: Vec<ArrayRef>) -> ArrayRef
    requires { 0 < count children.items }
    ensures { result ≡ first_layout (layouts children.items) }
{
    match children.into_iter().next() {
        Some(child) => child,
        None => unreachable!(),
    }
}

/// The node of the parts of lists over their child.
fn one_child_node(
    dtype: ArrowDataType,
    parts: NestedParts,
    child: ArrayRef,
    validity: Option<Bitmap>,
) -> Mem<Node>
    requires nested { IsNestedKind (parts_physical parts) }
    requires list { parts_physical parts ≡ physical.Struct → ⊥ }
    ensures same { IfOk result (λ n. (ls : Layouts) → first_layout ls ≡ child
        → layout_of n ≡ layout_with (seen dtype) validity parts ls) }
    ensures kind { IfOk result (λ n. node_physical n ≡ parts_physical parts) }
{
    Ok(match parts {
        NestedParts::List(ends) => Node::List {
            dtype,
            offsets: ends.freeze()?,
            child,
            validity,
        },
        NestedParts::LargeList(ends) => Node::LargeList {
            dtype,
            offsets: ends.freeze()?,
            child,
            validity,
        },
        NestedParts::Map(ends) => Node::Map {
            dtype,
            offsets: ends.freeze()?,
            child,
            validity,
        },
        NestedParts::FixedSizeList { size, length } => Node::FixedSizeList {
            dtype,
            size,
            length,
            child,
            validity,
        },
        _ => unreachable!(),
    })
}
