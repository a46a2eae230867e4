//! Equality of arrays of any layout by their slots.
#![tactic(auto)]

mod compare;
mod flat;
mod kinds;
pub mod laws;
mod numbers;
mod read;
mod slot_eq;
mod slot_parts;
mod union;

pub use compare::{equal, slots_same};
pub use flat::FlatSlots;
pub use numbers::NumberNative;
pub use slot_eq::SlotEq;
