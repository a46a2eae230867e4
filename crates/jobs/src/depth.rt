//! How deep a type is.
ghost use Rattle.std.specs.Prelude.{◌≤◌, ◌↔◌, IsTrue};
ghost use Rattle.arrow_types.specs.Seen.{seen, seen_fields};
ghost use Rattle.arrow_types.specs.Depth.{depth_of, fields_depth};

use arrow_types::{ArrowDataType, Field};

/// Whether a type is no deeper than the limit. Goes no deeper itself.
#[cycle(depth)]
#[tactic(auto, using(crate::proofs::Depths::depths))]
pub fn is_within(dtype: &ArrowDataType, limit: usize) -> bool
    ensures { IsTrue result ↔ (depth_of (seen dtype.now) ≤ limit) }
{
    if limit == 0 {
        return false;
    }
    match dtype {
        ArrowDataType::List(field)
        | ArrowDataType::LargeList(field)
        | ArrowDataType::FixedSizeList(field, _)
        | ArrowDataType::Map(field, _) => is_within(&field.get().dtype, limit - 1),
        ArrowDataType::Struct(fields) => are_within(fields.as_slice(), limit - 1),
        ArrowDataType::Union(union) => are_within(union.get().fields.as_slice(), limit - 1),
        ArrowDataType::Dictionary(_, values, _) => is_within(values.get(), limit - 1),
        ArrowDataType::Extension(extension) => is_within(&extension.get().inner, limit - 1),
        _ => true,
    }
}

/// Whether the types of all fields are no deeper than the limit.
#[cycle(depth)]
#[tactic(auto, using(crate::proofs::Depths::depths))]
fn are_within(fields: &[Field], limit: usize) -> bool
    ensures { IsTrue result ↔ (fields_depth (seen_fields fields.now) ≤ limit) }
{
    for field in fields {
        if !is_within(&field.dtype, limit) {
            return false;
        }
    }
    true
}
