ghost use Rattle.std.specs.Prelude.{◌≡◌, ◌↔◌, IsTrue, if◌then◌else◌};

use crate::metadata::SharedMetadata;
use crate::text::PlSmallStr;
use sqlite_items::{Boxed, Items};

/// How a union holds its children: a slot of the selected child by an offset, or at the slot's own
/// position.
#[derive(Clone, Copy, Debug, PartialEq, Eq, Hash)]
pub enum UnionMode {
    Dense,
    Sparse,
}

/// What one step of a time is.
#[derive(Clone, Copy, Debug, PartialEq, Eq, Hash)]
pub enum TimeUnit {
    Second,
    Millisecond,
    Microsecond,
    Nanosecond,
}

/// Which numbers an interval has.
#[derive(Clone, Copy, Debug, PartialEq, Eq, Hash)]
pub enum IntervalUnit {
    /// Months.
    YearMonth,
    /// Days and milliseconds.
    DayTime,
    /// Months, days and nanoseconds.
    MonthDayNano,
}

/// The types of integers, which the keys of a dictionary have.
#[derive(Clone, Copy, Debug, PartialEq, Eq, Hash)]
pub enum IntegerType {
    Int8,
    Int16,
    Int32,
    Int64,
    Int128,
    UInt8,
    UInt16,
    UInt32,
    UInt64,
}

/// The types of numbers in a layout.
#[derive(Clone, Copy, Debug, PartialEq, Eq, Hash)]
pub enum PrimitiveType {
    Int8,
    Int16,
    Int32,
    Int64,
    Int128,
    UInt8,
    UInt16,
    UInt32,
    UInt64,
    Int256,
    UInt128,
    Float16,
    Float32,
    Float64,
    /// Days and milliseconds, an i32 each.
    DaysMs,
    /// Months and days, an i32 each, and nanoseconds, an i64.
    MonthDayNano,
}

/// The layout of a column, whatever its slots stand for.
#[derive(Clone, Copy, Debug, PartialEq, Eq, Hash)]
pub enum PhysicalType {
    Null,
    Boolean,
    Primitive(PrimitiveType),
    Binary,
    LargeBinary,
    FixedSizeBinary,
    Utf8,
    LargeUtf8,
    BinaryView,
    Utf8View,
    List,
    LargeList,
    FixedSizeList,
    Struct,
    Union,
    Map,
    /// By the type of its keys.
    Dictionary(IntegerType),
}

/// The fields of a struct or of a union.
pub type Fields = Items<Field>;

/// The type numbers by which a union's slots name its fields.
pub type Ids = Items<i32>;

/// What the slots of a column stand for.
#[cycle(datatype)]
#[derive(Debug, Drop)]
pub enum ArrowDataType {
    Null,
    Boolean,
    Int8,
    Int16,
    Int32,
    Int64,
    Int128,
    UInt8,
    UInt16,
    UInt32,
    UInt64,
    Float16,
    Float32,
    Float64,
    /// Steps since 1970, in a time zone where one is named.
    Timestamp(TimeUnit, Option<PlSmallStr>),
    /// Days since 1970.
    Date32,
    /// Milliseconds since 1970.
    Date64,
    /// Steps since midnight, in 32 bits.
    Time32(TimeUnit),
    /// Steps since midnight, in 64 bits.
    Time64(TimeUnit),
    Duration(TimeUnit),
    Interval(IntervalUnit),
    Binary,
    /// Values of that many bytes each.
    FixedSizeBinary(usize),
    LargeBinary,
    Utf8,
    LargeUtf8,
    BinaryView,
    Utf8View,
    List(Boxed<Field>),
    LargeList(Boxed<Field>),
    /// Lists of that many items each.
    FixedSizeList(Boxed<Field>, usize),
    Struct(Fields),
    /// Lists of entries, and whether their keys are sorted.
    Map(Boxed<Field>, bool),
    Union(Boxed<UnionType>),
    /// The type of the keys, that of the values, and whether the values are ordered.
    Dictionary(IntegerType, Boxed<ArrowDataType>, bool),
    /// Precision and scale, in 128 bits.
    Decimal(usize, usize),
    /// Precision and scale, in 256 bits.
    Decimal256(usize, usize),
    Extension(Boxed<ExtensionType>),
    Unknown,
}

/// A named part of a nested type.
#[cycle(datatype)]
#[derive(Debug, Drop)]
pub struct Field {
    pub name: PlSmallStr,
    pub dtype: ArrowDataType,
    pub is_nullable: bool,
    pub metadata: Option<SharedMetadata>,
}

/// The fields of a union, and how its slots select them.
#[cycle(datatype)]
#[derive(Debug, Drop)]
pub struct UnionType {
    pub fields: Fields,
    pub ids: Option<Ids>,
    pub mode: UnionMode,
}

/// A type under another name.
#[cycle(datatype)]
#[derive(Debug, Drop)]
pub struct ExtensionType {
    pub name: PlSmallStr,
    pub inner: ArrowDataType,
    pub metadata: Option<PlSmallStr>,
}

impl UnionMode {
    /// `Sparse` where `is_sparse`, else `Dense`.
    pub fn sparse(is_sparse: bool) -> UnionMode
        ensures { result ≡ (if is_sparse then UnionMode.Sparse else UnionMode.Dense) }
    {
        if is_sparse {
            UnionMode::Sparse
        } else {
            UnionMode::Dense
        }
    }

    /// Whether it is `Sparse`.
    pub fn is_sparse(&self) -> bool
        ensures { IsTrue result ↔ (self.now ≡ UnionMode.Sparse) }
    {
        matches!(self, UnionMode::Sparse)
    }

    /// Whether it is `Dense`.
    pub fn is_dense(&self) -> bool
        ensures { IsTrue result ↔ (self.now ≡ UnionMode.Dense) }
    {
        matches!(self, UnionMode::Dense)
    }
}

impl PhysicalType {
    /// Whether it is the layout of numbers of that type.
    pub fn eq_primitive(&self, p: PrimitiveType) -> bool
        ensures { IsTrue result ↔ (self.now ≡ PhysicalType.Primitive p) }
    {
        match self {
            PhysicalType::Primitive(own) => *own == p,
            _ => false,
        }
    }

    /// Whether it is a layout of numbers.
    pub fn is_primitive(&self) -> bool
        ensures { IsTrue result ↔ ((p : _) × (self.now ≡ PhysicalType.Primitive p)) }
    {
        matches!(self, PhysicalType::Primitive(_))
    }
}
