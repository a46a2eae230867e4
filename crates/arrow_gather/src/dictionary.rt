//! Canonical dictionaries: each value that is picked stands once, in the order of first use.
ghost use Rattle.std.specs.Prelude.{◌≡◌, ◌<◌, length as len, pos, map, IfOk, MatchOption};
ghost use Rattle.std.specs.List.{AllByRecursion};
ghost use Rattle.arrow_types.specs.Capacity.{key_capacity};
ghost use Rattle.arrow_types.specs.Seen.{seen};
ghost use Rattle.arrow_types.specs.Types.{integer_type};
ghost use Rattle.arrow_types.specs.declared.datatype.PhysicalType.TheVariants as physical;
ghost use Rattle.arrow_flat.specs.Primitives.{MaskHasLength};
ghost use Rattle.arrow_flat.specs.Slots.{Slot};
ghost use Rattle.arrow_layout.specs.Canon.{distinct, key_in, mask_of};
ghost use Rattle.arrow_layout.specs.Denote.{denote, validity_of};
ghost use Rattle.arrow_layout.specs.Forms.{form_of, value_by};
ghost use Rattle.arrow_layout.specs.Layouts.{dictionaries, length_of};
ghost use Rattle.arrow_meaning.specs.Nodes.{AreKeysBelow, key_layout, key_type_of, layout_of, node_physical};
ghost use Rattle.arrow_choice.specs.Dictionaries.{IsDictionary};
ghost use Rattle.arrow_canon.specs.Picks.{picks};
ghost use Rattle.arrow_canon.specs.Runs.{places, AreWithin};
ghost use Rattle.arrow_gather.specs.Distincts.{picked_values};

use crate::dictionary_keys::{key_node, value_positions};
use crate::distinct_values::KeyedSlots;
use arrow_buffers::Bitmap;
use arrow_canon::Run;
use arrow_meaning::{ArrayRef, FlatNode, KeyNode, Node};
use arrow_types::{ArrowDataType, Mem};
use std::alloc::Global;

/// What a canonical dictionary has of picked slots: the runs of the distinct values, in the order
/// of first use, the position of each slot's value among them, 0 for a null, and the mask.
#[derive(Drop)]
pub(crate) struct DictionaryParts {
    pub(crate) firsts: Vec<Run>,
    pub(crate) keys: Vec<usize>,
    pub(crate) validity: Option<Bitmap>,
}

/// The parts of the slots that runs pick out of a dictionary. A slot whose value is null is a null,
/// and a key under a null is never read.
pub(crate) fn dictionary_parts(
    alloc: Global,
    keys: &KeyNode,
    child: &ArrayRef,
    runs: &[Run],
) -> Mem<DictionaryParts>
    requires keys { let ks = key_layout keys.now in
        AreKeysBelow (length_of child.now) (validity_of ks) ks }
    requires within { AreWithin (length_of (key_layout keys.now)) runs.now }
    ensures inside { IfOk result (λ p. AreWithin (length_of child.now) p.firsts.items) }
    ensures firsts { let s = picked_values (key_layout keys.now) child.now (places runs.now) in
        IfOk result (λ p. (filling : Slot)
        → picks filling (denote child.now) (places p.firsts.items) ≡ distinct s) }
    ensures keys { let s = picked_values (key_layout keys.now) child.now (places runs.now) in
        IfOk result (λ p. map pos p.keys.items ≡ map (key_in (distinct s)) s) }
    ensures mask { let s = picked_values (key_layout keys.now) child.now (places runs.now) in
        IfOk result (λ p. p.validity ≡ mask_of s) }
{
    keys.invariant();
    child.invariant();
    let positions = value_positions(alloc, keys, runs)?;
    let slots = KeyedSlots::of_positions(alloc, child, positions.as_slice())?;
    Ok(slots.into_parts()?)
}

/// The dictionary of these keys, stored in the type of the source's keys, over the values.
pub(crate) fn dictionary_node(
    alloc: Global,
    dtype: &ArrowDataType,
    keys: &KeyNode,
    parts: DictionaryParts,
    values: ArrayRef,
) -> Mem<Node>
    requires small { AllByRecursion (λ k. k < key_capacity (key_type_of keys.now)) parts.keys.items }
    requires mask { MaskHasLength parts.validity (len parts.keys.items) }
    ensures same { let u = integer_type (key_type_of keys.now) in
        let ks = map pos parts.keys.items in
        IfOk result (λ n. layout_of n ≡ dictionaries (seen dtype.now) u parts.validity ks values) }
    ensures kind { IfOk result (λ n. node_physical n ≡ physical.Dictionary (key_type_of keys.now)) }
{
    let DictionaryParts {
        firsts: _,
        keys: positions,
        validity,
    } = parts;
    let keys = key_node(alloc, keys, positions.as_slice(), validity)?;
    Ok(Node::Dictionary {
        dtype: dtype.try_clone(alloc)?,
        keys,
        child: values,
    })
}

/// The type that a dictionary declares for its values.
pub(crate) fn value_type(dtype: &ArrowDataType) -> &ArrowDataType
    requires { IsDictionary (seen dtype.now) }
    ensures { seen result.now ≡ value_by (form_of (seen dtype.now)) }
{
    match declared_type(dtype) {
        Some(values) => values,
        None => unreachable!(),
    }
}

/// The same of any type, None for one that isn't of dictionaries; extensions around it are looked
/// through.
#[tactic(auto, using(arrow_flat::proofs::TypeViews::seen_types))]
fn declared_type(dtype: &ArrowDataType) -> Option<&ArrowDataType>
    ensures { MatchOption result (IsDictionary (seen dtype.now) → ⊥)
        (λ v. seen v.now ≡ value_by (form_of (seen dtype.now))) }
{
    match dtype {
        ArrowDataType::Dictionary(_, values, _) => Some(values.get()),
        ArrowDataType::Extension(extension) => declared_type(&extension.get().inner),
        _ => None,
    }
}
