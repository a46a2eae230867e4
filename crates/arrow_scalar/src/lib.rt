//! Comparisons of arrays of any layout, and the spellings of their slots.
#![tactic(auto)]

mod children;
mod flat;
pub mod laws;
mod layout;
mod native;
mod nested;
mod parts;
mod slot_parts;
mod spelled_value;
mod spelling;
mod spelling_out;

pub use layout::same_layout;
pub use slot_parts::{SlotParts, parts_of};
pub use spelling::{slot_bytes, spelling_length};
