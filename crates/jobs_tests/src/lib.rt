//! What no clause of the jobs says: runs with ample memory, and their rows.
#![tactic(auto)]

#[cfg(test)]
mod nested;
#[cfg(test)]
mod runs;
