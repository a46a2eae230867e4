//! Arrays of binary values and of strings by views: sixteen bytes a slot, which hold a short value
//! or name where a long one is.
#![tactic(auto)]

mod binary_view;
mod check;
mod packer;
mod text;
mod text_ends;
mod utf8_view;
mod view;
mod view_array;

pub use arrow_flat::{ViewBytes, ViewStr, ViewType};
pub use binary_view::{BinaryViewIter, BinaryViewValuesIter};
pub use packer::{BinaryValues, ViewPacker, pack_values};
pub use utf8_view::{Utf8ViewIter, Utf8ViewValuesIter};
pub use view::View;
pub use view_array::{BinaryViewArray, BinaryViewArrayGeneric, Utf8ViewArray};
