//! Arrays of nulls, lists, fixed-size lists, structs and maps: structs around an `ArrayRef` of
//! their layout.
#![tactic(auto)]

mod fixed_size_list;
pub mod laws;
mod list;
mod map;
mod non_null;
mod null;
mod parts;
mod struct_;

pub use fixed_size_list::{FixedSizeListArray, FixedSizeListIter, FixedSizeListValuesIter};
pub use list::{ListArray, ListIter, ListValuesIter};
pub use map::{MapArray, MapIter, MapValuesIter};
pub use non_null::NonNullValuesIter;
pub use null::{MutableNullArray, NullArray};
pub use struct_::StructArray;
