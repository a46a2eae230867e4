//! What no clause of the builders of binary values and of strings says.
#![tactic(auto)]

#[cfg(test)]
mod binary;
#[cfg(test)]
mod views;
