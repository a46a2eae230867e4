//! Columns as JSON values and as text: the writer.
#![tactic(auto)]

mod native;
mod nested;
mod text;
mod view;
mod writer;

pub use native::JsonNative;
pub use view::view_json;
pub use writer::{
    binary_json, boolean_json, column_json, column_text, fixed_size_binary_json, primitive_json,
};
