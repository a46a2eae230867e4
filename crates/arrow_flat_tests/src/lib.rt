//! What no clause of the arrays of numbers and of booleans says, and of the copies of types.
#![tactic(auto)]

#[cfg(test)]
mod copies;
#[cfg(test)]
mod flat;
