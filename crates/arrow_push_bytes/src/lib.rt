//! Builders of binary values and of strings: by offsets, of one size, and by views.
#![tactic(auto)]

mod binary;
mod byte_strings;
mod extend;
mod fixed_size_binary;
mod offset_values;
mod packed;
mod utf8;
mod view;

pub use byte_strings::ByteStrings;
pub use extend::ExtendFromLengths;
pub use fixed_size_binary::{FixedSizeBinaryValues, MutableFixedSizeBinaryArray, NewSized};
pub use offset_values::{
    MutableBinaryArray, MutableBinaryValuesArray, MutableUtf8Array, MutableUtf8ValuesArray,
    OffsetValues,
};
pub use view::{MutableBinaryViewArray, ViewValues};
