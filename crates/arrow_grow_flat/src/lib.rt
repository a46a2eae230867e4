//! Growables of arrays without children: what every growable does, a mask over any growing values,
//! and the growing values of each kind.
#![tactic(auto)]

mod binary;
mod boolean;
mod concatenate;
mod fixed_size_binary;
mod flat;
mod growable;
mod mask;
mod null;
mod primitive;
mod sources;
mod spans;
mod values;
mod view;

pub use binary::{GrowableBinary, GrowableUtf8, GrowingBinaries};
pub use boolean::{GrowableBoolean, GrowingBooleans};
pub use concatenate::concatenate_validities;
pub use fixed_size_binary::{GrowableFixedSizeBinary, GrowingFixedSizeBinaries};
pub use flat::FlatGrowable;
pub use growable::Growable;
pub use null::GrowableNull;
pub use primitive::{GrowablePrimitive, GrowingPrimitives};
pub use values::GrowableValues;
pub use view::{GrowableBinaryViewArray, GrowingViews};
