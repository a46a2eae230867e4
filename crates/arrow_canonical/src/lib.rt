//! Whether an array is canonical, tested on the array itself.
#![tactic(auto)]

mod binary;
mod boolean;
mod canonical;
mod field;
mod fill;
mod fixed_size_binary;
mod mask;
mod primitive;
mod struct_;
mod union;
mod view;
mod zeros;

pub use canonical::test_canonical;
