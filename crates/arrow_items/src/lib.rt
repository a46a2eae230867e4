//! What canonical arrays with children have of picked slots beside their children.
#![tactic(auto)]

mod append;
mod dense;
mod fixed_size_list;
mod joined;
mod kept;
mod list;
mod sparse;
mod struct_;
mod union;

pub use dense::{dense_runs, offsets_of_fields};
pub use fixed_size_list::{ItemParts, chunk_parts};
pub use list::{ListParts, list_parts};
pub use sparse::sparse_runs;
pub use struct_::struct_parts;
pub use union::{fields_of_types, filling_field, union_types};
