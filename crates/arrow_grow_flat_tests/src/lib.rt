//! What no clause of arrow_grow_flat says.
#![tactic(auto)]

#[cfg(test)]
mod bytes;
#[cfg(test)]
mod concatenate;
#[cfg(test)]
mod flat;
#[cfg(test)]
mod null;
#[cfg(test)]
mod view;
