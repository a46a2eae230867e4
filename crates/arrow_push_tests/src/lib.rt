//! What no clause of the builders of numbers and of booleans says.
#![tactic(auto)]

#[cfg(test)]
mod flat;
