//! Canonical arrays of binary values of one size.
ghost use Rattle.std.specs.Prelude.{◌≡◌, ◌↔◌, IsTrue, length as count, replicate};
ghost use Rattle.arrow_flat.specs.Natives.{octets};

use crate::zeros::ZeroValues;
use arrow_bytes::FixedSizeBinaryArray;
use arrow_meaning::FlatNode;

impl ZeroValues for FixedSizeBinaryArray {
    fn len(&self) -> usize {
        FixedSizeBinaryArray::len(self)
    }

    fn is_valid(&self, i: usize) -> bool {
        FixedSizeBinaryArray::is_valid(self, i)
    }

    fn is_zero(&self, i: usize) -> bool {
        FlatNode::invariant(self);
        are_zero(self.value(i))
    }
}

/// Whether each byte is 0.
fn are_zero(bytes: &[u8]) -> bool
    ensures { IsTrue result ↔ (octets bytes.now ≡ replicate (count bytes.now) 0) }
{
    for i in 0..bytes.len() {
        if bytes[i] != 0 {
            return false;
        }
    }
    true
}
