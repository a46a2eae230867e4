ghost use Rattle.std.specs.Prelude.{◌≡◌, None, IfOk, codes, option_map};
ghost use Rattle.arrow_types.specs.Seen.{seen};
ghost use Rattle.arrow_types.specs.TypeData.{field_type};
ghost use Rattle.arrow_types.specs.TypeData as T;
ghost use Rattle.arrow_types.specs.Types.{logical_of, child_of, is_nested, is_view, is_numeric, primitive_type};
ghost use Rattle.arrow_types.specs.declared.datatype.ArrowDataType as A;

use crate::datatype::{ArrowDataType, Field, IntervalUnit, PrimitiveType};
use crate::error::Mem;
use crate::text::PlSmallStr;
use sqlite_items::Boxed;
use std::alloc::Global;

impl ArrowDataType {
    /// The type without outer extensions.
    #[tactic(auto, using(crate::proofs::SeenAt::seen_rules, crate::proofs::Others::logical_other))]
    pub fn to_logical_type(&self) -> &ArrowDataType
        ensures { seen result.now ≡ logical_of (seen self.now) }
    {
        match self {
            ArrowDataType::Extension(extension) => extension.get().inner.to_logical_type(),
            _ => self,
        }
    }

    /// The type of a list's items: of `List`, `LargeList` and `FixedSizeList`, else None.
    #[tactic(auto, using(crate::proofs::SeenAt::seen_rules, crate::proofs::Others::child_other))]
    pub fn inner_dtype(&self) -> Option<&ArrowDataType>
        ensures { option_map (λ t. seen t.now) result
            ≡ option_map field_type (child_of (seen self.now)) }
    {
        match self {
            ArrowDataType::List(field)
            | ArrowDataType::LargeList(field)
            | ArrowDataType::FixedSizeList(field, _) => Some(&field.get().dtype),
            _ => None,
        }
    }

    /// Whether other types stand inside: lists, structs, unions, maps, dictionaries and extensions.
    pub fn is_nested(&self) -> bool
        ensures { result ≡ is_nested (seen self.now) }
    {
        matches!(
            self,
            ArrowDataType::List(_)
                | ArrowDataType::LargeList(_)
                | ArrowDataType::FixedSizeList(_, _)
                | ArrowDataType::Struct(_)
                | ArrowDataType::Union(_)
                | ArrowDataType::Map(_, _)
                | ArrowDataType::Dictionary(_, _, _)
                | ArrowDataType::Extension(_)
        )
    }

    /// Whether it is `Utf8View` or `BinaryView`.
    pub fn is_view(&self) -> bool
        ensures { result ≡ is_view (seen self.now) }
    {
        matches!(self, ArrowDataType::Utf8View | ArrowDataType::BinaryView)
    }

    /// Whether it is a type of integers, `Float32`, `Float64` or a type of decimals.
    pub fn is_numeric(&self) -> bool
        ensures { result ≡ is_numeric (seen self.now) }
    {
        matches!(
            self,
            ArrowDataType::Int8
                | ArrowDataType::Int16
                | ArrowDataType::Int32
                | ArrowDataType::Int64
                | ArrowDataType::Int128
                | ArrowDataType::UInt8
                | ArrowDataType::UInt16
                | ArrowDataType::UInt32
                | ArrowDataType::UInt64
                | ArrowDataType::Float32
                | ArrowDataType::Float64
                | ArrowDataType::Decimal(_, _)
                | ArrowDataType::Decimal256(_, _)
        )
    }

    /// The type of lists of `size` items of this type, in a field `item`.
    #[tactic(auto, using(crate::proofs::SeenAt::seen_rules))]
    pub fn to_fixed_size_list(
        self,
        alloc: Global,
        size: usize,
        is_nullable: bool,
    ) -> Mem<ArrowDataType>
        ensures { IfOk result (λ t. seen t
            ≡ T.fixed_size_list (T.field (codes "item") (seen self) is_nullable None) size) }
    {
        let name = PlSmallStr::try_from_str(alloc, "item")?;
        let field = Boxed::new(alloc, Field::new(name, self, is_nullable))?;
        Ok(ArrowDataType::FixedSizeList(field, size))
    }

    /// The plain type of such numbers; None for `UInt128`, which no type has.
    pub fn from_primitive(p: PrimitiveType) -> Option<ArrowDataType>
        ensures { option_map seen result ≡ primitive_type p }
    {
        match p {
            PrimitiveType::Int8 => Some(ArrowDataType::Int8),
            PrimitiveType::Int16 => Some(ArrowDataType::Int16),
            PrimitiveType::Int32 => Some(ArrowDataType::Int32),
            PrimitiveType::Int64 => Some(ArrowDataType::Int64),
            PrimitiveType::Int128 => Some(ArrowDataType::Int128),
            PrimitiveType::UInt8 => Some(ArrowDataType::UInt8),
            PrimitiveType::UInt16 => Some(ArrowDataType::UInt16),
            PrimitiveType::UInt32 => Some(ArrowDataType::UInt32),
            PrimitiveType::UInt64 => Some(ArrowDataType::UInt64),
            PrimitiveType::Int256 => Some(ArrowDataType::Decimal256(32, 32)),
            PrimitiveType::UInt128 => None,
            PrimitiveType::Float16 => Some(ArrowDataType::Float16),
            PrimitiveType::Float32 => Some(ArrowDataType::Float32),
            PrimitiveType::Float64 => Some(ArrowDataType::Float64),
            PrimitiveType::DaysMs => Some(ArrowDataType::Interval(IntervalUnit::DayTime)),
            PrimitiveType::MonthDayNano => Some(ArrowDataType::Interval(
                IntervalUnit::MonthDayNano,
            )),
        }
    }
}

/// `Null`.
impl Default for ArrowDataType {
    ghost is_default = { λ t. t ≡ A.Null };

    fn default() -> ArrowDataType {
        ArrowDataType::Null
    }
}
