//! What growables of arrays over children are made of: the parts that they grow beside the growables
//! of the children, the runs that the children take, and the masks.
#![tactic(auto)]

mod child_runs;
mod counts;
mod flat_runs;
mod list;
mod masks;
mod parts;

pub use child_runs::{ChildRuns, ItemRuns};
pub use flat_runs::extend_flat;
pub use masks::{extend_taken_mask, take_mask};
pub use parts::{NestedParts, extend_parts, fresh_parts, node_of_parts};
