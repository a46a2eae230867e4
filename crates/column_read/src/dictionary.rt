//! Arrays of dictionaries from JSON values.
ghost use Rattle.std.specs.Prelude.{◌≡◌, ◌↔◌, map, length as count, Option, IfOk, IfSome, IsTrue};
ghost use Rattle.std.specs.Option.{option_zip};
ghost use Rattle.serde_json.specs.View.{view};
ghost use Rattle.arrow_types.specs.Seen.{seen};
ghost use Rattle.arrow_types.specs.Types.{integer_type};
ghost use Rattle.arrow_layout.specs.Forms.{form_of, dictionaries_of};
ghost use Rattle.arrow_flat.specs.Primitives.{MaskHasLength};
ghost use Rattle.arrow_layout.specs.Layouts.{Layout, dictionaries, length_of, type_of};
ghost use Rattle.arrow_meaning.specs.Nodes.{AreKeysBelow, key_number, key_primitive, primitive_layout};
ghost use Rattle.type_json.specs.Reads.{Reads};
ghost use Rattle.type_json.specs.declared.error.JsonError.TheVariants.{BadValue};
ghost use Rattle.column_grammar.specs.Values.{mask_in};
ghost use Rattle.column_grammar.specs.Reads.{dictionaries_from, singles_in};
ghost use Rattle.column_read.specs.Arrays.{IsArrayOf, IsReadOf, ReadsArray};
ghost use Rattle.column_read.specs.Parts.{key_parts_seen};

use crate::ReadNative;
use crate::array::ReadChild;
use crate::parts::PrimitiveParts;
use crate::primitive::values_in;
use crate::value::mask_in;
use arrow_buffers::Buffer;
use arrow_flat::PrimitiveArray;
use arrow_meaning::{ArrayRef, FlatNode, Node, NodeKey, name_values};
use arrow_types::{ArrowDataType, IntegerType, Mem};
use serde_json::Value;
use std::alloc::Global;
use type_json::JsonError;

/// The keys of a type under a mask.
#[tactic(auto, unfolding(column_grammar::specs::Reads::singles_in))]
fn key_parts<K: ReadNative>(
    alloc: Global,
    keys: &Value,
    mask: &Value,
) -> Result<PrimitiveParts<K>, JsonError>
    ensures { Reads BadValue (key_parts_seen K.parts)
        (option_zip (singles_in K.PRIMITIVE (view keys.now)) (mask_in (view mask.now))) result }
{
    let values = values_in::<K>(alloc, keys)?;
    let values = Buffer::from_vec(alloc, values)?;
    let validity = mask_in(alloc, mask)?;
    Ok(PrimitiveParts { values, validity })
}

/// The dictionary of these keys over values, None where it isn't well formed.
fn dictionary_array<K: NodeKey>(
    alloc: Global,
    dtype: &ArrowDataType,
    parts: PrimitiveParts<K>,
    values: ArrayRef,
) -> Mem<Option<ArrayRef>>
    requires form { form_of (seen dtype.now) ≡ dictionaries_of K.KEY_TYPE (type_of values) }
    requires key { K.PRIMITIVE ≡ key_primitive K.KEY_TYPE }
    ensures { IfOk result (λ a. IsArrayOf a (dictionaries (seen dtype.now) (integer_type K.KEY_TYPE)
        parts.validity (map key_number (map K.parts parts.values)) values)) }
{
    let plain = ArrowDataType::from(K::KEY_TYPE);
    let Ok(keys) = PrimitiveArray::<K>::try_new(plain, parts.values, parts.validity) else {
        return Ok(None);
    };
    if !are_names(alloc, &keys, values.len())? {
        return Ok(None);
    }
    dictionary_over_keys(alloc, dtype, &keys, values)
}

/// Whether each key that isn't null names one of `values` values.
fn are_names<K: NodeKey>(alloc: Global, keys: &PrimitiveArray<K>, values: usize) -> Mem<bool>
    requires { MaskHasLength keys.now.mask (count keys.now.values) }
    ensures { IfOk result (λ b. IsTrue b
        ↔ AreKeysBelow values keys.now.mask (primitive_layout K.parts keys.now)) }
{
    let validity = match keys.validity() {
        Some(mask) => Some(mask.try_clone(alloc)?),
        None => None,
    };
    Ok(name_values(keys, &validity, values))
}

/// The dictionary of keys whose names are all there.
fn dictionary_over_keys<K: NodeKey>(
    alloc: Global,
    dtype: &ArrowDataType,
    keys: &PrimitiveArray<K>,
    values: ArrayRef,
) -> Mem<Option<ArrayRef>>
    requires form { form_of (seen dtype.now) ≡ dictionaries_of K.KEY_TYPE (type_of values) }
    requires plain { seen keys.now.dtype ≡ integer_type K.KEY_TYPE }
    requires named { AreKeysBelow (length_of values) keys.now.mask
        (primitive_layout K.parts keys.now) }
    ensures { IfOk result (λ a. IsArrayOf a (dictionaries (seen dtype.now) (integer_type K.KEY_TYPE)
        keys.now.mask (map key_number (map K.parts keys.now.values)) values)) }
{
    FlatNode::invariant(keys);
    values.invariant();
    let dtype = dtype.try_clone(alloc)?;
    let key_node = K::key_node(alloc, keys)?;
    let node = Node::Dictionary {
        dtype,
        keys: key_node,
        child: values,
    };
    let array = ArrayRef::from_node(alloc, node)?;
    array.invariant();
    Ok(Some(array))
}

/// The dictionary over what was read of its values, with the keys and the mask that the values
/// beside them hold.
fn dictionary_of<K: NodeKey + ReadNative>(
    alloc: Global,
    dtype: &ArrowDataType,
    values: ReadChild<'_>,
) -> Result<Option<ArrayRef>, JsonError>
    requires key { K.PRIMITIVE ≡ key_primitive K.KEY_TYPE }
    requires form { IfSome values.child
        (λ a. form_of (seen dtype.now) ≡ dictionaries_of K.KEY_TYPE (type_of a)) }
    ensures { (found : Option Layout) → IsReadOf found values.entry.child
        → ReadsArray (dictionaries_from (seen dtype.now) K.KEY_TYPE
        (view values.entry.second.now, view values.entry.third.now) found) result }
{
    let parts = key_parts::<K>(alloc, values.second, values.third)?;
    let Some(values) = values.child else {
        return Ok(None);
    };
    let array = dictionary_array(alloc, dtype, parts, values)?;
    Ok(array)
}

/// The dictionary with keys of a type over what was read of its values, with the keys and the mask
/// that the values beside them hold.
pub(crate) fn dictionary_over(
    alloc: Global,
    dtype: &ArrowDataType,
    key: IntegerType,
    values: ReadChild<'_>,
) -> Result<Option<ArrayRef>, JsonError>
    requires { IfSome values.child
        (λ a. form_of (seen dtype.now) ≡ dictionaries_of key (type_of a)) }
    ensures { (found : Option Layout) → IsReadOf found values.entry.child
        → ReadsArray (dictionaries_from (seen dtype.now) key
        (view values.entry.second.now, view values.entry.third.now) found) result }
{
    match key {
        IntegerType::Int8 => dictionary_of::<i8>(alloc, dtype, values),
        IntegerType::Int16 => dictionary_of::<i16>(alloc, dtype, values),
        IntegerType::Int32 => dictionary_of::<i32>(alloc, dtype, values),
        IntegerType::Int64 => dictionary_of::<i64>(alloc, dtype, values),
        IntegerType::Int128 => dictionary_of::<i128>(alloc, dtype, values),
        IntegerType::UInt8 => dictionary_of::<u8>(alloc, dtype, values),
        IntegerType::UInt16 => dictionary_of::<u16>(alloc, dtype, values),
        IntegerType::UInt32 => dictionary_of::<u32>(alloc, dtype, values),
        IntegerType::UInt64 => dictionary_of::<u64>(alloc, dtype, values),
    }
}
