//! Laws of these arrays: what they read is what their layouts denote, and the parts of each
//! well-formed layout are accepted.
pub use crate::fixed_size_list::{fixed_size_lists_are_accepted, fixed_size_lists_denote};
pub use crate::list::{lists_are_accepted, lists_denote};
pub use crate::map::maps_are_accepted;
pub use crate::null::nulls_are_accepted;
pub use crate::struct_::structs_are_accepted;
