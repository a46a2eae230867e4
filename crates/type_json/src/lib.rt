//! Types of columns as JSON values, both ways.
#![tactic(auto)]

mod error;
mod laws;
mod names;
mod reader;
mod values;
mod writer;

pub use error::JsonError;
pub use laws::{text_reads_back, type_reads_back, value_reads_back};
pub use reader::type_from_json;
pub use values::{int32_in, whole_in};
pub use writer::type_json;
