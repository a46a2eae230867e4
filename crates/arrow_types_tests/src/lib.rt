//! What no clause of the types and of their JSON says.
#![tactic(auto)]

#[cfg(test)]
mod spellings;
#[cfg(test)]
mod types;
