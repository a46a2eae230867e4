//! The logical types of columns as plain data, with their tables, fields, dimensions and errors.
#![tactic(auto)]

mod copy;
mod datatype;
mod dictionary;
mod dimension;
mod error;
mod field;
mod hashing;
mod logical;
mod metadata;
mod physical;
mod reshape;
mod same;
mod schema;
mod text;
mod variant;

pub use copy::clone_fields;
pub use datatype::{
    ArrowDataType, ExtensionType, Field, Fields, Ids, IntegerType, IntervalUnit, PhysicalType,
    PrimitiveType, TimeUnit, UnionMode, UnionType,
};
pub use dimension::Dimension;
pub use error::{GatherError, GrowError, MakeError, Mem, PolarsError, PolarsResult, Reason};
pub use field::{DTYPE_CATEGORICAL, DTYPE_ENUM_VALUES};
pub use metadata::{Metadata, SharedMetadata, get_extension};
pub use reshape::ReshapeDimension;
pub use same::{are_same_fields, is_same, is_same_extension, is_same_field, is_same_union};
pub use schema::{ArrowSchema, ArrowSchemaRef, SchemaRef, is_same_schema};
pub use sqlite_items::{Boxed, Items};
pub use text::PlSmallStr;
