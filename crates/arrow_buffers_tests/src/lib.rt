//! Tests of buffers, bitmaps and offsets: what no clause of theirs says.
#![tactic(auto)]

#[cfg(test)]
mod buffers;
