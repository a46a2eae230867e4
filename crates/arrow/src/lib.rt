//! The columns under the paths of polars-arrow: `arrow::array`, `arrow::bitmap`, `arrow::buffer`,
//! `arrow::datatypes` and `arrow::offset`, the canonical form in `arrow::canon`, and columns as
//! JSON in `arrow::json`.
#![tactic(auto)]

pub use arrow_types::{GatherError, GrowError, MakeError, Mem, PolarsError, PolarsResult, Reason};

/// Arrays, their builders and iterators, and what is common to them.
pub mod array {
    pub use arrow_bytes::BinaryArray;
    pub use arrow_bytes::FixedSizeBinaryArray;
    pub use arrow_bytes::GenericBinaryArray;
    pub use arrow_bytes::OffsetArray;
    pub use arrow_bytes::Utf8Array;
    pub use arrow_choice::DictValue;
    pub use arrow_choice::DictionaryArray;
    pub use arrow_choice::DictionaryIterTyped;
    pub use arrow_choice::DictionaryKey;
    pub use arrow_choice::DictionaryValuesIterTyped;
    pub use arrow_choice::KeysIter;
    pub use arrow_choice::KeysValuesIter;
    pub use arrow_choice::UnionArray;
    pub use arrow_choice::UnionIter;
    pub use arrow_equal::FlatSlots;
    pub use arrow_equal::NumberNative;
    pub use arrow_equal::SlotEq;
    pub use arrow_equal::equal;
    pub use arrow_equal::slots_same;
    pub use arrow_flat::ArrayAccessor;
    pub use arrow_flat::ArrayIter;
    pub use arrow_flat::ArrayValuesIter;
    pub use arrow_flat::BooleanArray;
    pub use arrow_flat::BooleanIter;
    pub use arrow_flat::ByteString;
    pub use arrow_flat::DaysMs;
    pub use arrow_flat::DaysMsArray;
    pub use arrow_flat::IdxArr;
    pub use arrow_flat::Int8Array;
    pub use arrow_flat::Int16Array;
    pub use arrow_flat::Int32Array;
    pub use arrow_flat::Int64Array;
    pub use arrow_flat::Int128Array;
    pub use arrow_flat::MadeSlotsIter;
    pub use arrow_flat::MadeValuesIter;
    pub use arrow_flat::MakingAccessor;
    pub use arrow_flat::MonthDayNano;
    pub use arrow_flat::MonthDayNanoArray;
    pub use arrow_flat::NativeType;
    pub use arrow_flat::PrimitiveArray;
    pub use arrow_flat::PrimitiveIter;
    pub use arrow_flat::PrimitiveValuesIter;
    pub use arrow_flat::Splitable;
    pub use arrow_flat::TryClone;
    pub use arrow_flat::UInt8Array;
    pub use arrow_flat::UInt16Array;
    pub use arrow_flat::UInt32Array;
    pub use arrow_flat::UInt64Array;
    pub use arrow_meaning::ArrayRef;
    pub use arrow_meaning::FlatArray;
    pub use arrow_meaning::KeyNode;
    pub use arrow_meaning::MaskedArray;
    pub use arrow_meaning::Node;
    pub use arrow_meaning::NodeKey;
    pub use arrow_meaning::NodeNative;
    pub use arrow_meaning::NodeOffset;
    pub use arrow_meaning::NodeView;
    pub use arrow_meaning::PrimitiveNode;
    pub use arrow_meaning::TypedArray;
    pub use arrow_meaning::new_empty_array;
    pub use arrow_meaning::new_null_array;
    pub use arrow_nested::FixedSizeListArray;
    pub use arrow_nested::FixedSizeListIter;
    pub use arrow_nested::FixedSizeListValuesIter;
    pub use arrow_nested::ListArray;
    pub use arrow_nested::ListIter;
    pub use arrow_nested::ListValuesIter;
    pub use arrow_nested::MapArray;
    pub use arrow_nested::MapIter;
    pub use arrow_nested::MapValuesIter;
    pub use arrow_nested::MutableNullArray;
    pub use arrow_nested::NonNullValuesIter;
    pub use arrow_nested::NullArray;
    pub use arrow_nested::StructArray;
    pub use arrow_push::MaskedBuilder;
    pub use arrow_push::MutableBooleanArray;
    pub use arrow_push::MutablePrimitiveArray;
    pub use arrow_push::NullableBuilder;
    pub use arrow_push::TryExtend;
    pub use arrow_push::TryExtendFromSelf;
    pub use arrow_push::TryPush;
    pub use arrow_push_bytes::ExtendFromLengths;
    pub use arrow_push_bytes::MutableBinaryArray;
    pub use arrow_push_bytes::MutableBinaryValuesArray;
    pub use arrow_push_bytes::MutableBinaryViewArray;
    pub use arrow_push_bytes::MutableFixedSizeBinaryArray;
    pub use arrow_push_bytes::MutableUtf8Array;
    pub use arrow_push_bytes::MutableUtf8ValuesArray;
    pub use arrow_push_bytes::NewSized;
    pub use arrow_scalar::same_layout;
    pub use arrow_scalar::slot_bytes;
    pub use arrow_views::BinaryValues;
    pub use arrow_views::BinaryViewArray;
    pub use arrow_views::BinaryViewArrayGeneric;
    pub use arrow_views::BinaryViewIter;
    pub use arrow_views::BinaryViewValuesIter;
    pub use arrow_views::Utf8ViewArray;
    pub use arrow_views::Utf8ViewIter;
    pub use arrow_views::Utf8ViewValuesIter;
    pub use arrow_views::View;
    pub use arrow_views::ViewBytes;
    pub use arrow_views::ViewPacker;
    pub use arrow_views::ViewStr;
    pub use arrow_views::ViewType;
    pub use arrow_views::pack_values;

    /// Arrays that grow by slots of others.
    pub mod growable {
        pub use arrow_grow_flat::{
            FlatGrowable, Growable, GrowableBinary, GrowableBinaryViewArray, GrowableBoolean,
            GrowableFixedSizeBinary, GrowableNull, GrowablePrimitive, GrowableUtf8, GrowableValues,
            GrowingBinaries, GrowingBooleans, GrowingFixedSizeBinaries, GrowingPrimitives,
            GrowingViews,
        };
    }
}

/// Validity bitmaps, and the values of arrays of booleans.
pub mod bitmap {
    pub use arrow_buffers::{Bitmap, BitmapBuilder, BitmapIter, MutableBitmap};
}

/// What is computed of arrays.
pub mod compute {
    /// Arrays one after another.
    pub mod concatenate {
        pub use arrow_grow_flat::concatenate_validities;
    }
}

/// Shared memory.
pub mod buffer {
    pub use arrow_buffers::Buffer;
}

/// Logical and physical types, fields and schemas.
pub mod datatypes {
    pub use arrow_types::{
        ArrowDataType, ArrowSchema, ArrowSchemaRef, Boxed, DTYPE_CATEGORICAL, DTYPE_ENUM_VALUES,
        Dimension, ExtensionType, Field, Fields, Ids, IntegerType, IntervalUnit, Items, Metadata,
        PhysicalType, PlSmallStr, PrimitiveType, ReshapeDimension, SchemaRef, SharedMetadata,
        TimeUnit, UnionMode, UnionType, get_extension,
    };
}

/// Offsets of binary values, strings and lists.
pub mod offset {
    pub use arrow_buffers::{Offset, OffsetError, Offsets, OffsetsBuffer};
}

/// The canonical form of columns.
pub mod canon {
    pub use arrow_canon::{
        Run, canonical_binary, canonical_boolean, canonical_fixed_size_binary, canonical_primitive,
        canonical_view, count_slots,
    };
    pub use arrow_gather::{Piece, canonical, is_canonical, laws, normalized};
}

/// Types and columns as JSON.
pub mod json {
    pub use column_json::{column_json, column_text};
    pub use column_read::{Column, LayoutError};
    pub use type_json::{JsonError, type_from_json, type_json};
}
