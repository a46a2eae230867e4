//! What arrays of binary values and of strings have in common.
ghost use Rattle.std.specs.Prelude.{◌≡◌, ℕ, List, map};
ghost use Rattle.arrow_buffers.specs.Offsets.{AreOffsets};
ghost use Rattle.arrow_bytes.specs.Binaries.{EndsWithin};

use crate::OffsetArray;
use arrow_buffers::Offset;
use arrow_flat::ViewType;

/// An array whose slots are the bytes from each offset to the next.
pub trait GenericBinaryArray<O: Offset> {
    ghost bytes_of: { Self → List ℕ };

    ghost offsets_of: { Self → List O };

    /// The bytes of all slots, those under nulls too.
    fn values(&self) -> &[u8]
        ensures { result.now ≡ bytes_of self.now };

    /// Where each slot begins in the bytes, and where the last one ends.
    fn offsets(&self) -> &[O]
        ensures value { result.now ≡ offsets_of self.now }
        ensures sound { AreOffsets O.limit (map O.number (offsets_of self.now)) }
        ensures within { EndsWithin O.number (offsets_of self.now) (bytes_of self.now) };
}

impl<K: ViewType, O: Offset> GenericBinaryArray<O> for OffsetArray<K, O> {
    ghost bytes_of = { λ a. a.values };

    ghost offsets_of = { λ a. a.offsets };

    fn values(&self) -> &[u8] {
        OffsetArray::values(self).as_slice()
    }

    fn offsets(&self) -> &[O] {
        self.invariant();
        OffsetArray::offsets(self).as_slice()
    }
}
