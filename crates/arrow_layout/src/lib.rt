//! What the layouts of columns mean: the definitions, and the laws over them. A layout denotes a
//! list of slots.
#![tactic(auto)]

pub mod laws;
