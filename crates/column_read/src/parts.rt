//! The parts of arrays without children as they are read, which may not fit together.

use arrow_buffers::{Bitmap, Buffer};
use arrow_flat::{DaysMs, MonthDayNano};
use arrow_views::View;

/// The parts of an array without children, by its layout.
#[derive(Drop)]
pub enum FlatParts {
    Boolean(BooleanParts),
    Primitive(PrimitiveData),
    Binary(BinaryParts<i32>),
    LargeBinary(BinaryParts<i64>),
    Utf8(BinaryParts<i32>),
    LargeUtf8(BinaryParts<i64>),
    FixedSizeBinary(FixedSizeBinaryParts),
    BinaryView(ViewParts),
    Utf8View(ViewParts),
}

/// The parts of a primitive column, by the type of its values.
#[derive(Drop)]
pub enum PrimitiveData {
    Int8(PrimitiveParts<i8>),
    Int16(PrimitiveParts<i16>),
    Int32(PrimitiveParts<i32>),
    Int64(PrimitiveParts<i64>),
    Int128(PrimitiveParts<i128>),
    UInt8(PrimitiveParts<u8>),
    UInt16(PrimitiveParts<u16>),
    UInt32(PrimitiveParts<u32>),
    UInt64(PrimitiveParts<u64>),
    DaysMs(PrimitiveParts<DaysMs>),
    MonthDayNano(PrimitiveParts<MonthDayNano>),
}

/// Bits under a mask.
#[derive(Drop)]
pub struct BooleanParts {
    pub values: Bitmap,
    pub validity: Option<Bitmap>,
}

/// Values of fixed width under a mask.
#[derive(Drop)]
pub struct PrimitiveParts<T> {
    pub values: Buffer<T>,
    pub validity: Option<Bitmap>,
}

/// Binary values or strings under a mask: where each begins in the bytes, and where the last one
/// ends.
#[derive(Drop)]
pub struct BinaryParts<O> {
    pub offsets: Vec<O>,
    pub values: Buffer<u8>,
    pub validity: Option<Bitmap>,
}

/// Binary values of one size under a mask.
#[derive(Drop)]
pub struct FixedSizeBinaryParts {
    pub size: usize,
    pub values: Buffer<u8>,
    pub validity: Option<Bitmap>,
}

/// Binary values or strings under a mask, by views: short ones in place and long ones in buffers.
///
/// The prefix of a view is computed: zeros where its range isn't in the buffers.
#[derive(Drop)]
pub struct ViewParts {
    pub views: Vec<View>,
    pub buffers: Vec<Buffer<u8>>,
    pub validity: Option<Bitmap>,
}

/// Where each list begins in its items, and where the last one ends, under a mask.
#[derive(Drop)]
pub struct ListParts<O> {
    pub offsets: Vec<O>,
    pub validity: Option<Bitmap>,
}

/// The count of structs, or of lists of one size, and their mask.
#[derive(Drop)]
pub struct SizedParts {
    pub length: usize,
    pub validity: Option<Bitmap>,
}

/// The offset of each slot of a dense union, none of a sparse one, and the type number of each.
#[derive(Drop)]
pub struct UnionParts {
    pub offsets: Option<Buffer<i32>>,
    pub types: Buffer<i8>,
}
