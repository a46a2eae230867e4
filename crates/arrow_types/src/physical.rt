ghost use Rattle.std.specs.Prelude.{◌≡◌, ◌++◌, IfOk, option_map};
ghost use Rattle.arrow_types.specs.Seen.{seen, seen_field, seen_fields};
ghost use Rattle.arrow_types.specs.Types.{physical_of, physical_interval, underlying_interval, integer_type, underlying, underlying_field, underlying_fields};

use crate::datatype::{
    ArrowDataType, Field, Fields, IntegerType, IntervalUnit, PhysicalType, PrimitiveType,
};
use crate::error::Mem;
use sqlite_items::Boxed;
use std::alloc::Global;

impl ArrowDataType {
    /// The layout of the type's columns, which for an extension is that of its inner type; None for
    /// `Unknown`.
    pub fn to_physical_type(&self) -> Option<PhysicalType>
        ensures { result ≡ physical_of (seen self.now) }
    {
        match self {
            ArrowDataType::Null => Some(PhysicalType::Null),
            ArrowDataType::Boolean => Some(PhysicalType::Boolean),
            ArrowDataType::Int8 => Some(PhysicalType::Primitive(PrimitiveType::Int8)),
            ArrowDataType::Int16 => Some(PhysicalType::Primitive(PrimitiveType::Int16)),
            ArrowDataType::Int32 => Some(PhysicalType::Primitive(PrimitiveType::Int32)),
            ArrowDataType::Int64 => Some(PhysicalType::Primitive(PrimitiveType::Int64)),
            ArrowDataType::Int128 => Some(PhysicalType::Primitive(PrimitiveType::Int128)),
            ArrowDataType::UInt8 => Some(PhysicalType::Primitive(PrimitiveType::UInt8)),
            ArrowDataType::UInt16 => Some(PhysicalType::Primitive(PrimitiveType::UInt16)),
            ArrowDataType::UInt32 => Some(PhysicalType::Primitive(PrimitiveType::UInt32)),
            ArrowDataType::UInt64 => Some(PhysicalType::Primitive(PrimitiveType::UInt64)),
            ArrowDataType::Float16 => Some(PhysicalType::Primitive(PrimitiveType::Float16)),
            ArrowDataType::Float32 => Some(PhysicalType::Primitive(PrimitiveType::Float32)),
            ArrowDataType::Float64 => Some(PhysicalType::Primitive(PrimitiveType::Float64)),
            ArrowDataType::Timestamp(_, _) => Some(PhysicalType::Primitive(PrimitiveType::Int64)),
            ArrowDataType::Date32 => Some(PhysicalType::Primitive(PrimitiveType::Int32)),
            ArrowDataType::Date64 => Some(PhysicalType::Primitive(PrimitiveType::Int64)),
            ArrowDataType::Time32(_) => Some(PhysicalType::Primitive(PrimitiveType::Int32)),
            ArrowDataType::Time64(_) => Some(PhysicalType::Primitive(PrimitiveType::Int64)),
            ArrowDataType::Duration(_) => Some(PhysicalType::Primitive(PrimitiveType::Int64)),
            ArrowDataType::Interval(interval) => Some(physical_interval(*interval)),
            ArrowDataType::Binary => Some(PhysicalType::Binary),
            ArrowDataType::FixedSizeBinary(_) => Some(PhysicalType::FixedSizeBinary),
            ArrowDataType::LargeBinary => Some(PhysicalType::LargeBinary),
            ArrowDataType::Utf8 => Some(PhysicalType::Utf8),
            ArrowDataType::LargeUtf8 => Some(PhysicalType::LargeUtf8),
            ArrowDataType::BinaryView => Some(PhysicalType::BinaryView),
            ArrowDataType::Utf8View => Some(PhysicalType::Utf8View),
            ArrowDataType::List(_) => Some(PhysicalType::List),
            ArrowDataType::LargeList(_) => Some(PhysicalType::LargeList),
            ArrowDataType::FixedSizeList(_, _) => Some(PhysicalType::FixedSizeList),
            ArrowDataType::Struct(_) => Some(PhysicalType::Struct),
            ArrowDataType::Map(_, _) => Some(PhysicalType::Map),
            ArrowDataType::Union(_) => Some(PhysicalType::Union),
            ArrowDataType::Dictionary(key, _, _) => Some(PhysicalType::Dictionary(*key)),
            ArrowDataType::Decimal(_, _) => Some(PhysicalType::Primitive(PrimitiveType::Int128)),
            ArrowDataType::Decimal256(_, _) => Some(PhysicalType::Primitive(PrimitiveType::Int256)),
            ArrowDataType::Extension(extension) => extension.get().inner.to_physical_type(),
            ArrowDataType::Unknown => None,
        }
    }

    /// The type of the numbers in the layout, with a nested type's fields kept; None where an
    /// interval of months, days and nanoseconds, a union or a map is met.
    #[cycle(underlying)]
    #[tactic(auto, using(crate::proofs::SeenAt::seen_rules, crate::proofs::Lists::list_rules))]
    pub fn underlying_physical_type(&self, alloc: Global) -> Mem<Option<ArrowDataType>>
        ensures { IfOk result (λ o. option_map seen o ≡ underlying (seen self.now)) }
    {
        match self {
            ArrowDataType::Date32 => Ok(Some(ArrowDataType::Int32)),
            ArrowDataType::Time32(_) => Ok(Some(ArrowDataType::Int32)),
            ArrowDataType::Timestamp(_, _) => Ok(Some(ArrowDataType::Int64)),
            ArrowDataType::Date64 => Ok(Some(ArrowDataType::Int64)),
            ArrowDataType::Time64(_) => Ok(Some(ArrowDataType::Int64)),
            ArrowDataType::Duration(_) => Ok(Some(ArrowDataType::Int64)),
            ArrowDataType::Interval(interval) => Ok(underlying_interval(*interval)),
            ArrowDataType::List(field) => match underlying_item(alloc, field.get())? {
                Some(item) => Ok(Some(ArrowDataType::List(item))),
                None => Ok(None),
            },
            ArrowDataType::LargeList(field) => match underlying_item(alloc, field.get())? {
                Some(item) => Ok(Some(ArrowDataType::LargeList(item))),
                None => Ok(None),
            },
            ArrowDataType::FixedSizeList(field, size) => match underlying_item(
                alloc,
                field.get(),
            )? {
                Some(item) => Ok(Some(ArrowDataType::FixedSizeList(item, *size))),
                None => Ok(None),
            },
            ArrowDataType::Struct(fields) => match underlying_fields(alloc, fields.as_slice())? {
                Some(fields) => Ok(Some(ArrowDataType::Struct(fields))),
                None => Ok(None),
            },
            ArrowDataType::Map(_, _) => Ok(None),
            ArrowDataType::Union(_) => Ok(None),
            ArrowDataType::Dictionary(key, _, _) => Ok(Some(ArrowDataType::from(*key))),
            ArrowDataType::Extension(extension) => extension
                .get()
                .inner
                .underlying_physical_type(alloc),
            _ => Ok(Some(self.try_clone(alloc)?)),
        }
    }
}

/// The underlying field of a list's items.
#[cycle(underlying)]
fn underlying_item(alloc: Global, field: &Field) -> Mem<Option<Boxed<Field>>>
    ensures { IfOk result (λ o. option_map seen_field o ≡ underlying_field (seen_field field.now)) }
{
    match underlying_field(alloc, field)? {
        Some(field) => Ok(Some(Boxed::new(alloc, field)?)),
        None => Ok(None),
    }
}

#[cycle(underlying)]
#[tactic(auto, using(crate::proofs::SeenAt::seen_rules, crate::proofs::Lists::list_rules))]
fn underlying_field(alloc: Global, field: &Field) -> Mem<Option<Field>>
    ensures { IfOk result (λ o. option_map seen_field o ≡ underlying_field (seen_field field.now)) }
{
    match field.dtype.underlying_physical_type(alloc)? {
        Some(dtype) => Ok(Some(field.with_dtype(alloc, dtype)?)),
        None => Ok(None),
    }
}

#[cycle(underlying)]
#[tactic(auto, using(crate::proofs::SeenAt::seen_rules, crate::proofs::Lists::list_rules))]
fn underlying_fields(alloc: Global, fields: &[Field]) -> Mem<Option<Fields>>
    ensures { IfOk result (λ o. option_map seen_fields o
        ≡ underlying_fields (seen_fields fields.now)) }
{
    let mut all = Fields::new(alloc);
    for field in fields {
        match underlying_field(alloc, field)? {
            Some(field) => all.push(field)?,
            None => return Ok(None),
        }
    }
    Ok(Some(all))
}

fn physical_interval(interval: IntervalUnit) -> PhysicalType
    ensures { result ≡ physical_interval interval }
{
    match interval {
        IntervalUnit::YearMonth => PhysicalType::Primitive(PrimitiveType::Int32),
        IntervalUnit::DayTime => PhysicalType::Primitive(PrimitiveType::DaysMs),
        IntervalUnit::MonthDayNano => PhysicalType::Primitive(PrimitiveType::MonthDayNano),
    }
}

#[tactic(auto, using(crate::proofs::SeenAt::seen_rules))]
fn underlying_interval(interval: IntervalUnit) -> Option<ArrowDataType>
    ensures { option_map seen result ≡ underlying_interval interval }
{
    match interval {
        IntervalUnit::YearMonth => Some(ArrowDataType::Int32),
        IntervalUnit::DayTime => Some(ArrowDataType::Int64),
        IntervalUnit::MonthDayNano => None,
    }
}

/// The type of the same name.
impl From<IntegerType> for ArrowDataType {
    ghost from_gives = { λ i t. seen t ≡ integer_type i };

    #[tactic(auto, using(crate::proofs::SeenAt::seen_rules))]
    fn from(integer: IntegerType) -> ArrowDataType {
        match integer {
            IntegerType::Int8 => ArrowDataType::Int8,
            IntegerType::Int16 => ArrowDataType::Int16,
            IntegerType::Int32 => ArrowDataType::Int32,
            IntegerType::Int64 => ArrowDataType::Int64,
            IntegerType::Int128 => ArrowDataType::Int128,
            IntegerType::UInt8 => ArrowDataType::UInt8,
            IntegerType::UInt16 => ArrowDataType::UInt16,
            IntegerType::UInt32 => ArrowDataType::UInt32,
            IntegerType::UInt64 => ArrowDataType::UInt64,
        }
    }
}
