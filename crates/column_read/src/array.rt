//! The array of a type that a JSON value holds: one recursion over the type and the value.
ghost use Rattle.std.specs.Prelude.{◌≡◌, map, length as count, option_map, option_and_then, codes, None, MatchResult};
ghost use Rattle.serde_json.specs.View.{view};
ghost use Rattle.arrow_types.specs.Seen.{seen, seen_fields};
ghost use Rattle.arrow_types.specs.Types.{logical_of};
ghost use Rattle.arrow_layout.specs.Forms.{form_of};
ghost use Rattle.type_json.specs.TypeJson.{IsSpelled, AreSpelled};
ghost use Rattle.type_json.specs.Values.{three_members};
ghost use Rattle.type_json.specs.declared.error.JsonError.TheVariants.{BadValue};
ghost use Rattle.column_grammar.specs.Values.{items_in};
ghost use Rattle.column_grammar.specs.Reads.{data_by, data_in, children_in};
ghost use Rattle.column_read.specs.Arrays.{AreReadOf, ReadsArray, ReadsChild, ReadsChildren};

use crate::children::push_child;
use crate::dictionary::dictionary_over;
use crate::fixed_size_list::fixed_size_list_over;
use crate::flat_array::flat_array_in;
use crate::list::{list_over, map_over};
use crate::struct_::struct_over;
use crate::union::union_over;
use crate::value::{items, three_members};
use arrow_meaning::ArrayRef;
use arrow_types::{ArrowDataType, Field};
use serde_json::Value;
use std::alloc::Global;
use type_json::JsonError;

/// What was read of a child, and the two values beside it.
#[derive(Drop)]
pub(crate) struct ReadChild<'v> {
    pub(crate) child: Option<ArrayRef>,
    pub(crate) second: &'v Value,
    pub(crate) third: &'v Value,
}

/// What was read of the children, and the two values beside them.
#[derive(Drop)]
pub(crate) struct ReadChildren<'v> {
    pub(crate) children: Option<Vec<ArrayRef>>,
    pub(crate) second: &'v Value,
    pub(crate) third: &'v Value,
}

/// The array of a type that a value holds, None where what it holds isn't well formed. BadValue
/// exactly where the value isn't in the grammar of the type's data.
#[cycle(read)]
pub(crate) fn array_in(
    alloc: Global,
    dtype: &ArrowDataType,
    value: &Value,
) -> Result<Option<ArrayRef>, JsonError>
    requires { IsSpelled (seen dtype.now) }
    ensures { ReadsArray (data_in (seen dtype.now) (view value.now)) result }
{
    stored_in(alloc, dtype, dtype, value)
}

/// The same of a type that may have extensions around the one in which it is stored.
#[cycle(read)]
fn stored_in(
    alloc: Global,
    storage: &ArrowDataType,
    dtype: &ArrowDataType,
    value: &Value,
) -> Result<Option<ArrayRef>, JsonError>
    requires logical { logical_of (seen dtype.now) ≡ logical_of (seen storage.now) }
    requires spelled { IsSpelled (seen storage.now) }
    ensures { ReadsArray (data_by (form_of (seen storage.now)) (seen dtype.now) (view value.now))
        result }
{
    match storage {
        ArrowDataType::List(field) => {
            let list = child_in(alloc, &field.get().dtype, value, "mask", "offsets")?;
            list_over::<i32>(alloc, dtype, list)
        }
        ArrowDataType::LargeList(field) => {
            let list = child_in(alloc, &field.get().dtype, value, "mask", "offsets")?;
            list_over::<i64>(alloc, dtype, list)
        }
        ArrowDataType::Map(field, _) => {
            let entries = child_in(alloc, &field.get().dtype, value, "mask", "offsets")?;
            map_over(alloc, dtype, entries)
        }
        ArrowDataType::FixedSizeList(field, _) => {
            let list = child_in(alloc, &field.get().dtype, value, "length", "mask")?;
            fixed_size_list_over(alloc, dtype, list)
        }
        ArrowDataType::Struct(fields) => {
            let row = children_in(alloc, fields.as_slice(), value, "length", "mask")?;
            struct_over(alloc, dtype, row)
        }
        ArrowDataType::Union(union) => {
            let fields = union.get().fields.as_slice();
            let union = children_in(alloc, fields, value, "offsets", "types")?;
            union_over(alloc, dtype, union)
        }
        ArrowDataType::Dictionary(key, declared, _) => {
            let values = values_in(alloc, declared.get(), value)?;
            dictionary_over(alloc, dtype, *key, values)
        }
        ArrowDataType::Extension(extension) => {
            stored_in(alloc, &extension.get().inner, dtype, value)
        }
        _ => flat_array_in(alloc, dtype, value),
    }
}

/// What a value holds of a child, and the values at two more keys.
#[cycle(read)]
fn child_in<'v>(
    alloc: Global,
    dtype: &ArrowDataType,
    value: &'v Value,
    second: &str,
    third: &str,
) -> Result<ReadChild<'v>, JsonError>
    requires { IsSpelled (seen dtype.now) }
    ensures { ReadsChild (data_in (seen dtype.now))
        (three_members (codes "child") second.now third.now (view value.now)) result }
{
    let members = three_members(value, "child", second, third);
    let (child, second, third) = members.ok_or(JsonError::BadValue)?;
    let child = array_in(alloc, dtype, child)?;
    Ok(ReadChild {
        child,
        second,
        third,
    })
}

/// What a value holds of a dictionary's values, its keys and its mask.
#[cycle(read)]
fn values_in<'v>(
    alloc: Global,
    dtype: &ArrowDataType,
    value: &'v Value,
) -> Result<ReadChild<'v>, JsonError>
    requires { IsSpelled (seen dtype.now) }
    ensures { ReadsChild (data_in (seen dtype.now)) (option_map (λ p. (p.1.1, (p.0, p.1.0)))
        (three_members (codes "keys") (codes "mask") (codes "values") (view value.now))) result }
{
    let members = three_members(value, "keys", "mask", "values");
    let (second, third, values) = members.ok_or(JsonError::BadValue)?;
    let child = array_in(alloc, dtype, values)?;
    Ok(ReadChild {
        child,
        second,
        third,
    })
}

/// What a value holds of the children, one for each field, and the values at two more keys.
#[cycle(read)]
fn children_in<'v>(
    alloc: Global,
    fields: &[Field],
    value: &'v Value,
    second: &str,
    third: &str,
) -> Result<ReadChildren<'v>, JsonError>
    requires { AreSpelled (seen_fields fields.now) }
    ensures { ReadsChildren
        (λ d. option_and_then (children_in (seen_fields fields.now)) (items_in d))
        (three_members (codes "children") second.now third.now (view value.now)) result }
{
    let members = three_members(value, "children", second, third);
    let (children, second, third) = members.ok_or(JsonError::BadValue)?;
    let children = arrays_in(alloc, fields, children)?;
    Ok(ReadChildren {
        children,
        second,
        third,
    })
}

/// The arrays of the children that a list of values holds, one for each field; None where one of
/// them isn't well formed.
#[cycle(read)]
fn arrays_in(
    alloc: Global,
    fields: &[Field],
    value: &Value,
) -> Result<Option<Vec<ArrayRef>>, JsonError>
    requires { AreSpelled (seen_fields fields.now) }
    ensures { let found = option_and_then (children_in (seen_fields fields.now))
        (items_in (view value.now)) in
        MatchResult result (λ v. AreReadOf found (option_map (λ w. w.items) v))
        (λ e. e ≡ BadValue → found ≡ None) }
{
    let values = items(value).ok_or(JsonError::BadValue)?;
    if values.len() != fields.len() {
        return Err(JsonError::BadValue);
    }
    each_array(alloc, fields, values)
}

/// The arrays of as many children as fields.
#[cycle(read)]
fn each_array(
    alloc: Global,
    fields: &[Field],
    values: &[Value],
) -> Result<Option<Vec<ArrayRef>>, JsonError>
    requires spelled { AreSpelled (seen_fields fields.now) }
    requires many { count values.now ≡ count fields.now }
    ensures { let found = children_in (seen_fields fields.now) (map view values.now) in
        MatchResult result (λ v. AreReadOf found (option_map (λ w. w.items) v))
        (λ e. e ≡ BadValue → found ≡ None) }
{
    let mut children = Some(Vec::new(alloc));
    for i in 0..fields.len() {
        let child = array_in(alloc, &fields[i].dtype, &values[i])?;
        push_child(&mut children, child)?;
    }
    Ok(children)
}
