//! What no clause says: that `equal` takes layouts of one content as one array, and tells contents
//! apart that differ in one part.
#![tactic(auto)]

#[cfg(test)]
mod contents;
#[cfg(test)]
mod fixtures;
#[cfg(test)]
mod types;
