//! Buffers, bitmaps and offsets: windows over shared memory, and lists that grow into them.
#![tactic(auto)]

mod bitmap;
mod bits;
mod buffer;
mod builder;
mod error;
mod iter;
mod mutable;
mod offset;
mod offsets;
mod offsets_buffer;

pub use bitmap::Bitmap;
pub use buffer::Buffer;
pub use builder::BitmapBuilder;
pub use error::OffsetError;
pub use iter::BitmapIter;
pub use mutable::MutableBitmap;
pub use offset::Offset;
pub use offsets::Offsets;
pub use offsets_buffer::OffsetsBuffer;
use std::alloc::AllocError;

/// The answer of a call that fails only where memory runs out.
pub type Mem<T> = Result<T, AllocError>;
