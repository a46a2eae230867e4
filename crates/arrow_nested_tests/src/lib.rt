//! What no clause of arrow_nested says.
#![tactic(auto)]

#[cfg(test)]
mod fixed_size_list;
#[cfg(test)]
mod list;
#[cfg(test)]
mod list_fixtures;
#[cfg(test)]
mod map;
#[cfg(test)]
mod null;
#[cfg(test)]
mod struct_;
#[cfg(test)]
mod struct_fixtures;
