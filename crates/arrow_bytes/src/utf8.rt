//! What arrays of strings answer.
ghost use Rattle.std.specs.Prelude.{◌≡◌, ◌<◌, slice_get, Some};
ghost use Rattle.std.specs.Option.{option_copied};
ghost use Rattle.arrow_bytes.specs.Binaries.{slot_count, values_of, slots};

use crate::OffsetArray;
use arrow_buffers::Offset;
use arrow_flat::{ArrayAccessor, ArrayIter, ArrayValuesIter, ByteString, ViewStr};

impl<O: Offset> OffsetArray<ViewStr, O> {
    /// The value at a slot, under a null too.
    pub fn value(&self, i: usize) -> &str
        requires { i < slot_count self.now }
        ensures { slice_get (values_of O.number self.now) i ≡ Some result.now }
    {
        let bytes = self.value_bytes(i);
        // Each slot's bytes are UTF-8: the array keeps that.
        unsafe { std::str::from_utf8_unchecked(bytes) }
    }

    /// The value at a slot, `None` where it is null.
    pub fn get(&self, i: usize) -> Option<&str>
        requires { i < slot_count self.now }
        ensures { slice_get (slots O.number self.now) i ≡ Some (option_copied result) }
    {
        ArrayAccessor::<&str, ByteString>::get(self, i)
    }

    /// Each slot in order, `None` for a null, from both ends.
    pub fn iter(&self) -> ArrayIter<&OffsetArray<ViewStr, O>, &str, ByteString>
        ensures { result ≡ slots O.number self.now }
    {
        ArrayIter::new(self)
    }

    /// Each value in order, those under nulls too, from both ends.
    pub fn values_iter(&self) -> ArrayValuesIter<&OffsetArray<ViewStr, O>, &str, ByteString>
        ensures { result ≡ values_of O.number self.now }
    {
        ArrayValuesIter::new(self)
    }
}

impl<'a, O: Offset> ArrayAccessor<&'a str, ByteString> for &'a OffsetArray<ViewStr, O> {
    ghost use Rattle.std.specs.Prelude.{refl};

    ghost seen = { λ x. x.now };

    ghost seen_slot = { option_copied };

    ghost values = { λ a. values_of O.number a.now };

    ghost mask = { λ a. a.now.mask };

    fn len(self) -> usize {
        ArrayAccessor::<&[u8], ByteString>::len(self)
    }

    fn is_valid(self, i: usize) -> bool {
        ArrayAccessor::<&[u8], ByteString>::is_valid(self, i)
    }

    fn value(self, i: usize) -> &'a str {
        OffsetArray::<ViewStr, O>::value(self, i)
    }

    ghost of_value = { λ x. refl };

    ghost of_null = { refl };
}
