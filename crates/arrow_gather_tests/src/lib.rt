//! Canonical arrays of arrays with children: worked rows, and how much work arrays of many slots
//! are.
#![tactic(auto)]

mod dictionaries;
mod fixtures;
mod forms;
mod rows;
mod sizes;
