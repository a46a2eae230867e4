//! What no clause of `ArrayRef` and of the canonical arrays says.
#![tactic(auto)]

#[cfg(test)]
mod array;
#[cfg(test)]
mod canon;
#[cfg(test)]
mod fixtures;
#[cfg(test)]
mod nulls;
#[cfg(test)]
mod views;
