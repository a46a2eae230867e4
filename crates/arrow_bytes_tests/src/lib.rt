//! What no clause of the arrays of binary values and of strings says, with offsets, of one size,
//! and by views.
#![tactic(auto)]

#[cfg(test)]
mod binary;
#[cfg(test)]
mod halves;
#[cfg(test)]
mod packer;
#[cfg(test)]
mod views;
