//! Columns from JSON values: their types, the arrays of every layout that values hold, and the
//! slices beside them.
#![tactic(auto)]

mod array;
mod binary;
mod boolean;
mod children;
mod column;
mod dictionary;
mod error;
mod fixed_size_binary;
mod fixed_size_list;
mod flat_array;
mod list;
mod native;
mod null;
mod parts;
mod primitive;
mod struct_;
mod union;
mod value;
mod view;

pub use column::Column;
pub use error::LayoutError;
pub use native::{ReadNative, ReadOffset};
