//! The number of a type's variant, by which types are compared and hashed.
ghost use Rattle.std.specs.Prelude.{◌≡◌};
ghost use Rattle.arrow_types.specs.Seen.{seen};
ghost use Rattle.arrow_types.specs.Types.{variant_number};

use crate::datatype::ArrowDataType;

/// The number of the variant, in the order in which the enum lists them.
pub(crate) fn variant_number(t: &ArrowDataType) -> u8
    ensures { result ≡ variant_number (seen t.now) }
{
    match t {
        ArrowDataType::Null => 0,
        ArrowDataType::Boolean => 1,
        ArrowDataType::Int8 => 2,
        ArrowDataType::Int16 => 3,
        ArrowDataType::Int32 => 4,
        ArrowDataType::Int64 => 5,
        ArrowDataType::Int128 => 6,
        ArrowDataType::UInt8 => 7,
        ArrowDataType::UInt16 => 8,
        ArrowDataType::UInt32 => 9,
        ArrowDataType::UInt64 => 10,
        ArrowDataType::Float16 => 11,
        ArrowDataType::Float32 => 12,
        ArrowDataType::Float64 => 13,
        ArrowDataType::Timestamp(_, _) => 14,
        ArrowDataType::Date32 => 15,
        ArrowDataType::Date64 => 16,
        ArrowDataType::Time32(_) => 17,
        ArrowDataType::Time64(_) => 18,
        ArrowDataType::Duration(_) => 19,
        ArrowDataType::Interval(_) => 20,
        ArrowDataType::Binary => 21,
        ArrowDataType::FixedSizeBinary(_) => 22,
        ArrowDataType::LargeBinary => 23,
        ArrowDataType::Utf8 => 24,
        ArrowDataType::LargeUtf8 => 25,
        ArrowDataType::BinaryView => 26,
        ArrowDataType::Utf8View => 27,
        ArrowDataType::List(_) => 28,
        ArrowDataType::LargeList(_) => 29,
        ArrowDataType::FixedSizeList(_, _) => 30,
        ArrowDataType::Struct(_) => 31,
        ArrowDataType::Map(_, _) => 32,
        ArrowDataType::Union(_) => 33,
        ArrowDataType::Dictionary(_, _, _) => 34,
        ArrowDataType::Decimal(_, _) => 35,
        ArrowDataType::Decimal256(_, _) => 36,
        ArrowDataType::Extension(_) => 37,
        ArrowDataType::Unknown => 38,
    }
}
