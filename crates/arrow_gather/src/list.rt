//! Canonical lists, large lists and maps.
ghost use Rattle.std.specs.Prelude.{◌≡◌, ◌≤◌, length as len, pred, sum, IfOk, IsErrOf};
ghost use Rattle.arrow_types.specs.Seen.{seen};
ghost use Rattle.arrow_types.specs.declared.error.GrowError.TheVariants as grow;
ghost use Rattle.arrow_flat.specs.Primitives.{MaskHasLength};
ghost use Rattle.arrow_layout.specs.Denote.{validity_of};
ghost use Rattle.arrow_layout.specs.Layouts.{lists};
ghost use Rattle.arrow_meaning.specs.Nodes.{layout_of, list_offsets, node_physical};
ghost use Rattle.arrow_canon.specs.Runs.{AreWithin};
ghost use Rattle.arrow_gather.specs.Lists.{AreListItems, IsListKind, kind_limit, offset_kind, offset_numbers, picked_counts};

use arrow_buffers::{Bitmap, OffsetsBuffer};
use arrow_canon::Run;
use arrow_items::list_parts;
use arrow_meaning::{ArrayRef, Node};
use arrow_types::{ArrowDataType, GrowError, Mem};
use std::alloc::Global;

/// The offsets of lists, large lists or maps.
#[derive(Drop)]
pub(crate) enum ListOffsets {
    List(OffsetsBuffer<i32>),
    LargeList(OffsetsBuffer<i64>),
    Map(OffsetsBuffer<i32>),
}

/// The runs of the items of canonical lists, their offsets and their mask.
#[derive(Drop)]
pub(crate) struct ListItems {
    pub(crate) items: Vec<Run>,
    pub(crate) offsets: ListOffsets,
    pub(crate) validity: Option<Bitmap>,
}

/// What canonical lists have of the slots that runs pick out of lists, large lists or maps.
///
/// Overflow exactly where an offset passes the range of its type.
pub(crate) fn list_items(alloc: Global, node: &Node, runs: &[Run]) -> Result<ListItems, GrowError>
    requires lists { IsListKind (node_physical node.now) }
    requires within { AreWithin (pred (len (list_offsets (layout_of node.now)))) runs.now }
    requires mask { let n = layout_of node.now in
        MaskHasLength (validity_of n) (pred (len (list_offsets n))) }
    ensures ok { IfOk result (AreListItems node.now runs.now) }
    ensures overflow { IsErrOf result grow.Overflow
        → kind_limit (node_physical node.now) ≤ sum (picked_counts node.now runs.now) }
{
    match node {
        Node::List {
            offsets,
            validity,
            ..
        } => {
            let parts = list_parts(alloc, offsets, validity.as_ref(), runs)?;
            Ok(ListItems {
                items: parts.items,
                offsets: ListOffsets::List(parts.offsets),
                validity: parts.validity,
            })
        }
        Node::LargeList {
            offsets,
            validity,
            ..
        } => {
            let parts = list_parts(alloc, offsets, validity.as_ref(), runs)?;
            Ok(ListItems {
                items: parts.items,
                offsets: ListOffsets::LargeList(parts.offsets),
                validity: parts.validity,
            })
        }
        Node::Map {
            offsets,
            validity,
            ..
        } => {
            let parts = list_parts(alloc, offsets, validity.as_ref(), runs)?;
            Ok(ListItems {
                items: parts.items,
                offsets: ListOffsets::Map(parts.offsets),
                validity: parts.validity,
            })
        }
        _ => unreachable!(),
    }
}

/// The node of these parts over a child.
pub(crate) fn list_node(
    alloc: Global,
    dtype: &ArrowDataType,
    parts: ListItems,
    child: ArrayRef,
) -> Mem<Node>
    ensures same { IfOk result (λ n. layout_of n
        ≡ lists (seen dtype.now) parts.validity (offset_numbers parts.offsets) child) }
    ensures kind { IfOk result (λ n. node_physical n ≡ offset_kind parts.offsets) }
{
    let ListItems {
        offsets,
        validity,
        ..
    } = parts;
    let dtype = dtype.try_clone(alloc)?;
    Ok(match offsets {
        ListOffsets::List(offsets) => Node::List {
            dtype,
            offsets,
            child,
            validity,
        },
        ListOffsets::LargeList(offsets) => Node::LargeList {
            dtype,
            offsets,
            child,
            validity,
        },
        ListOffsets::Map(offsets) => Node::Map {
            dtype,
            offsets,
            child,
            validity,
        },
    })
}
