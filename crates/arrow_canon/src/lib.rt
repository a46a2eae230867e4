//! The canonical array of slots that runs pick out of an array, for each layout without children.
#![tactic(auto)]

mod binary;
mod boolean;
mod fixed_size_binary;
mod joined;
mod mask;
mod normal;
mod primitive;
mod run;
mod view;

pub use binary::canonical_binary;
pub use boolean::canonical_boolean;
pub use fixed_size_binary::canonical_fixed_size_binary;
pub use mask::mask_of_runs;
pub use normal::canonical_values;
pub use primitive::canonical_primitive;
pub use run::{Run, count_slots};
pub use view::canonical_view;
