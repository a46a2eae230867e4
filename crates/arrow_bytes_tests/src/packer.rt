//! What no clause says: that values are packed with ample memory, where the next value would pass
//! the limit into a new buffer.

use arrow_buffers::Buffer;
use arrow_types::Mem;
use arrow_views::{View, ViewPacker};
use std::alloc::Global;
use std::test::Fail;

const BYTES: &[u8] = b"twenty bytes of text";

/// Whether the views name the first and the second value of the first buffer, and the first of the
/// second.
fn are_packed(first: View, second: View, third: View) -> bool {
    first == View::new_long(20, *b"twen", 0, 0)
        && second == View::new_long(20, *b"twen", 0, 20)
        && third == View::new_long(13, *b"twen", 1, 0)
}

/// The buffers of two values of twenty bytes and one of thirteen, and whether their views name
/// them.
fn packed(alloc: Global) -> Mem<(Vec<Buffer<u8>>, bool)> {
    let mut packer = ViewPacker::new(alloc, 40)?;
    let first = packer.push(BYTES)?;
    let second = packer.push(BYTES)?;
    let third = packer.push(&BYTES[..13])?;
    let is_right = packer.buffer_count() == 2 && are_packed(first, second, third);
    Ok((packer.finish()?, is_right))
}

/// Whether there are two buffers, of 40 and 13 bytes.
fn have_lengths(buffers: &[Buffer<u8>]) -> bool {
    buffers.len() == 2 && buffers[0].len() == 40 && buffers[1].len() == 13
}

#[test]
fn buffers_end_at_the_limit(rt: HostRuntime) -> Result<(), Fail> {
    let (buffers, is_right) = packed(rt.alloc())?;
    let have_lengths = have_lengths(buffers.as_slice());
    drop(buffers);
    assert!(rt; is_right && have_lengths);
    Ok(())
}
