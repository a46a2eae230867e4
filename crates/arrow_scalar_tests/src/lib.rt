//! What no clause says: that `same_layout` tells apart what differs in one part, and the bytes of
//! spellings.
#![tactic(auto)]

#[cfg(test)]
mod flat;
#[cfg(test)]
mod nested;
#[cfg(test)]
mod spelling;
