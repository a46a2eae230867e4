ghost use Rattle.std.specs.Prelude.{◌≡◌, IfOk};

use crate::datatype::{
    ArrowDataType, ExtensionType, Field, Fields, Ids, IntegerType, IntervalUnit, PhysicalType,
    PrimitiveType, TimeUnit, UnionMode, UnionType,
};
use crate::error::Mem;
use crate::metadata::SharedMetadata;
use crate::text::PlSmallStr;
use sqlite_items::Boxed;
use std::alloc::Global;

impl ArrowDataType {
    /// An equal type, which shares the texts.
    #[cycle(copy)]
    pub fn try_clone(&self, alloc: Global) -> Mem<ArrowDataType>
        ensures { IfOk result (λ t. t ≡ self.now) }
    {
        match self {
            ArrowDataType::Null => Ok(ArrowDataType::Null),
            ArrowDataType::Boolean => Ok(ArrowDataType::Boolean),
            ArrowDataType::Int8 => Ok(ArrowDataType::Int8),
            ArrowDataType::Int16 => Ok(ArrowDataType::Int16),
            ArrowDataType::Int32 => Ok(ArrowDataType::Int32),
            ArrowDataType::Int64 => Ok(ArrowDataType::Int64),
            ArrowDataType::Int128 => Ok(ArrowDataType::Int128),
            ArrowDataType::UInt8 => Ok(ArrowDataType::UInt8),
            ArrowDataType::UInt16 => Ok(ArrowDataType::UInt16),
            ArrowDataType::UInt32 => Ok(ArrowDataType::UInt32),
            ArrowDataType::UInt64 => Ok(ArrowDataType::UInt64),
            ArrowDataType::Float16 => Ok(ArrowDataType::Float16),
            ArrowDataType::Float32 => Ok(ArrowDataType::Float32),
            ArrowDataType::Float64 => Ok(ArrowDataType::Float64),
            ArrowDataType::Timestamp(unit, zone) => Ok(ArrowDataType::Timestamp(
                *unit,
                clone_text(alloc, zone)?,
            )),
            ArrowDataType::Date32 => Ok(ArrowDataType::Date32),
            ArrowDataType::Date64 => Ok(ArrowDataType::Date64),
            ArrowDataType::Time32(unit) => Ok(ArrowDataType::Time32(*unit)),
            ArrowDataType::Time64(unit) => Ok(ArrowDataType::Time64(*unit)),
            ArrowDataType::Duration(unit) => Ok(ArrowDataType::Duration(*unit)),
            ArrowDataType::Interval(interval) => Ok(ArrowDataType::Interval(*interval)),
            ArrowDataType::Binary => Ok(ArrowDataType::Binary),
            ArrowDataType::FixedSizeBinary(size) => Ok(ArrowDataType::FixedSizeBinary(*size)),
            ArrowDataType::LargeBinary => Ok(ArrowDataType::LargeBinary),
            ArrowDataType::Utf8 => Ok(ArrowDataType::Utf8),
            ArrowDataType::LargeUtf8 => Ok(ArrowDataType::LargeUtf8),
            ArrowDataType::BinaryView => Ok(ArrowDataType::BinaryView),
            ArrowDataType::Utf8View => Ok(ArrowDataType::Utf8View),
            ArrowDataType::List(field) => Ok(ArrowDataType::List(clone_field(alloc, field)?)),
            ArrowDataType::LargeList(field) => Ok(ArrowDataType::LargeList(clone_field(
                alloc, field,
            )?)),
            ArrowDataType::FixedSizeList(field, size) => Ok(ArrowDataType::FixedSizeList(
                clone_field(alloc, field)?,
                *size,
            )),
            ArrowDataType::Struct(fields) => Ok(ArrowDataType::Struct(clone_fields(
                alloc,
                fields.as_slice(),
            )?)),
            ArrowDataType::Map(field, is_sorted) => Ok(ArrowDataType::Map(
                clone_field(alloc, field)?,
                *is_sorted,
            )),
            ArrowDataType::Union(union) => Ok(ArrowDataType::Union(Boxed::new(
                alloc,
                union.get().try_clone(alloc)?,
            )?)),
            ArrowDataType::Dictionary(key, values, is_ordered) => Ok(ArrowDataType::Dictionary(
                *key,
                Boxed::new(alloc, values.get().try_clone(alloc)?)?,
                *is_ordered,
            )),
            ArrowDataType::Decimal(precision, scale) => Ok(ArrowDataType::Decimal(
                *precision, *scale,
            )),
            ArrowDataType::Decimal256(precision, scale) => Ok(ArrowDataType::Decimal256(
                *precision, *scale,
            )),
            ArrowDataType::Extension(extension) => Ok(ArrowDataType::Extension(Boxed::new(
                alloc,
                extension.get().try_clone(alloc)?,
            )?)),
            ArrowDataType::Unknown => Ok(ArrowDataType::Unknown),
        }
    }
}

impl Field {
    /// An equal field, which shares the texts and the metadata.
    #[cycle(copy)]
    pub fn try_clone(&self, alloc: Global) -> Mem<Field>
        ensures { IfOk result (λ f. f ≡ self.now) }
    {
        let dtype = self.dtype.try_clone(alloc)?;
        self.with_dtype(alloc, dtype)
    }

    /// The field with another type.
    pub(crate) fn with_dtype(&self, alloc: Global, dtype: ArrowDataType) -> Mem<Field>
        ensures { IfOk result (λ f. f ≡ record {
          name = self.now.name;
          dtype = dtype;
          is_nullable = self.now.is_nullable;
          metadata = self.now.metadata;
        }) }
    {
        let name = self.name.try_clone(alloc)?;
        let metadata = clone_metadata(alloc, &self.metadata)?;
        Ok(Field {
            name,
            dtype,
            is_nullable: self.is_nullable,
            metadata,
        })
    }
}

impl UnionType {
    /// An equal union, which shares the texts.
    #[cycle(copy)]
    pub fn try_clone(&self, alloc: Global) -> Mem<UnionType>
        ensures { IfOk result (λ u. u ≡ self.now) }
    {
        Ok(UnionType {
            fields: clone_fields(alloc, self.fields.as_slice())?,
            ids: clone_ids(alloc, &self.ids)?,
            mode: self.mode,
        })
    }
}

impl ExtensionType {
    /// An equal extension, which shares the texts.
    #[cycle(copy)]
    pub fn try_clone(&self, alloc: Global) -> Mem<ExtensionType>
        ensures { IfOk result (λ e. e ≡ self.now) }
    {
        Ok(ExtensionType {
            name: self.name.try_clone(alloc)?,
            inner: self.inner.try_clone(alloc)?,
            metadata: clone_text(alloc, &self.metadata)?,
        })
    }
}

#[cycle(copy)]
fn clone_field(alloc: Global, field: &Boxed<Field>) -> Mem<Boxed<Field>>
    ensures { IfOk result (λ f. f ≡ field.now) }
{
    Boxed::new(alloc, field.get().try_clone(alloc)?)
}

/// Equal fields, which share the texts.
#[cycle(copy)]
pub fn clone_fields(alloc: Global, fields: &[Field]) -> Mem<Fields>
    ensures { IfOk result (λ fs. fs ≡ fields.now) }
{
    let mut copy = Fields::new(alloc);
    for field in fields {
        copy.push(field.try_clone(alloc)?)?;
    }
    Ok(copy)
}

fn clone_ids(alloc: Global, ids: &Option<Ids>) -> Mem<Option<Ids>>
    ensures { IfOk result (λ o. o ≡ ids.now) }
{
    match ids {
        None => Ok(None),
        Some(ids) => Ok(Some(Ids::from_slice(alloc, ids.as_slice())?)),
    }
}

fn clone_text(alloc: Global, text: &Option<PlSmallStr>) -> Mem<Option<PlSmallStr>>
    ensures { IfOk result (λ o. o ≡ text.now) }
{
    match text {
        None => Ok(None),
        Some(text) => Ok(Some(text.try_clone(alloc)?)),
    }
}

fn clone_metadata(alloc: Global, metadata: &Option<SharedMetadata>) -> Mem<Option<SharedMetadata>>
    ensures { IfOk result (λ o. o ≡ metadata.now) }
{
    match metadata {
        None => Ok(None),
        Some(metadata) => Ok(Some(metadata.try_clone(alloc)?)),
    }
}

impl UnionMode {
    /// The same mode; takes no memory.
    pub fn try_clone(&self, _alloc: Global) -> Mem<UnionMode>
        ensures { result ≡ Ok self.now }
    {
        Ok(*self)
    }
}

impl TimeUnit {
    /// The same unit; takes no memory.
    pub fn try_clone(&self, _alloc: Global) -> Mem<TimeUnit>
        ensures { result ≡ Ok self.now }
    {
        Ok(*self)
    }
}

impl IntervalUnit {
    /// The same unit; takes no memory.
    pub fn try_clone(&self, _alloc: Global) -> Mem<IntervalUnit>
        ensures { result ≡ Ok self.now }
    {
        Ok(*self)
    }
}

impl IntegerType {
    /// The same type; takes no memory.
    pub fn try_clone(&self, _alloc: Global) -> Mem<IntegerType>
        ensures { result ≡ Ok self.now }
    {
        Ok(*self)
    }
}

impl PrimitiveType {
    /// The same type; takes no memory.
    pub fn try_clone(&self, _alloc: Global) -> Mem<PrimitiveType>
        ensures { result ≡ Ok self.now }
    {
        Ok(*self)
    }
}

impl PhysicalType {
    /// The same layout; takes no memory.
    pub fn try_clone(&self, _alloc: Global) -> Mem<PhysicalType>
        ensures { result ≡ Ok self.now }
    {
        Ok(*self)
    }
}
