//! Flat arrays of binary values and of strings.
#![tactic(auto)]

mod binary;
mod fixed_size_binary;
mod generic;
mod offset_array;
mod piece;
mod stored;
mod utf8;

pub use fixed_size_binary::FixedSizeBinaryArray;
pub use generic::GenericBinaryArray;
pub use offset_array::{BinaryArray, OffsetArray, Utf8Array};
