//! What arrays of binary values answer.
ghost use Rattle.std.specs.Prelude.{◌≡◌, ◌<◌, slice_get, Some};
ghost use Rattle.std.specs.Option.{option_copied};
ghost use Rattle.arrow_bytes.specs.Binaries.{slot_count, values_of, slots};

use crate::OffsetArray;
use arrow_buffers::Offset;
use arrow_flat::{ArrayAccessor, ArrayIter, ArrayValuesIter, ByteString, ViewBytes};

impl<O: Offset> OffsetArray<ViewBytes, O> {
    /// The value at a slot, under a null too.
    pub fn value(&self, i: usize) -> &[u8]
        requires { i < slot_count self.now }
        ensures { slice_get (values_of O.number self.now) i ≡ Some result.now }
    {
        self.value_bytes(i)
    }

    /// The value at a slot, `None` where it is null.
    pub fn get(&self, i: usize) -> Option<&[u8]>
        requires { i < slot_count self.now }
        ensures { slice_get (slots O.number self.now) i ≡ Some (option_copied result) }
    {
        ArrayAccessor::<&[u8], ByteString>::get(self, i)
    }

    /// Each slot in order, `None` for a null, from both ends.
    pub fn iter(&self) -> ArrayIter<&OffsetArray<ViewBytes, O>, &[u8], ByteString>
        ensures { result ≡ slots O.number self.now }
    {
        ArrayIter::new(self)
    }

    /// Each value in order, those under nulls too, from both ends.
    pub fn values_iter(&self) -> ArrayValuesIter<&OffsetArray<ViewBytes, O>, &[u8], ByteString>
        ensures { result ≡ values_of O.number self.now }
    {
        ArrayValuesIter::new(self)
    }
}
