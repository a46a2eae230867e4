//! Arrays of any layout: `Node`, and `ArrayRef`, a well-formed layout always.
#![tactic(auto)]

mod array;
mod binary;
mod boolean;
mod copy;
mod cut;
mod fields;
mod fixed_size_binary;
mod flat_node;
mod keys;
pub mod laws;
mod node;
mod null_array;
mod null_check;
mod null_flat;
mod null_parts;
mod offset;
mod primitive;
mod typed;
mod view;

pub use array::{ArrayRef, all_invariant};
pub use copy::clone_all;
pub use fields::have_types;
pub use flat_node::{FlatArray, FlatNode};
pub use keys::{KeyNode, NodeKey, name_values};
pub use node::Node;
pub use null_array::{new_empty_array, new_null_array};
pub use offset::{NodeOffset, SizedOffset};
pub use primitive::{NodeNative, PrimitiveNode};
pub use typed::{MaskedArray, TypedArray, copy_of, halves_of};
pub use view::NodeView;
