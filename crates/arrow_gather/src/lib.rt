//! The canonical array of slots that runs pick out of an array of any layout.
#![tactic(auto)]

mod canonical_test;
mod dictionary;
mod dictionary_keys;
mod distinct_values;
pub mod laws;
mod list;
mod made;
mod normal;
mod piece;
mod position_table;
mod spelling_room;

pub use canonical_test::is_canonical;
pub use normal::{canonical, normalized};
pub use piece::Piece;
