//! What no clause of columns as JSON says.
#![tactic(auto)]

#[cfg(test)]
mod fixtures;
#[cfg(test)]
mod nested;
#[cfg(test)]
mod reader;
#[cfg(test)]
mod writer;
