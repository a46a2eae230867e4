//! What no clause of arrow_choice says.
#![tactic(auto)]

#[cfg(test)]
mod dictionary;
#[cfg(test)]
mod dictionary_fixtures;
#[cfg(test)]
mod union;
#[cfg(test)]
mod union_fixtures;
