//! The grammar of columns as JSON: what a value is, what is written for a column, and the laws of
//! both.
#![tactic(auto)]

pub mod laws;
