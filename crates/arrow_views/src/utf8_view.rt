//! What arrays of strings by views are read as.
ghost use Rattle.std.specs.Prelude.{◌≡◌, ◌<◌, length as count, slice_get, Some, refl};
ghost use Rattle.arrow_flat.specs.Natives.{octets};
ghost use Rattle.arrow_views.specs.ViewArrays.{values_of, slots, seen_octets};

use crate::{BinaryViewArrayGeneric, ViewStr};
use arrow_flat::validity::is_valid;
use arrow_flat::{ArrayAccessor, ArrayIter, ArrayValuesIter, ByteString};

/// The slots of an array of strings by views, `None` for a null.
pub type Utf8ViewIter<'a> = ArrayIter<&'a BinaryViewArrayGeneric<ViewStr>, &'a str, ByteString>;

/// The values of an array of strings by views, those under nulls too.
pub type Utf8ViewValuesIter<'a> = ArrayValuesIter<
    &'a BinaryViewArrayGeneric<ViewStr>,
    &'a str,
    ByteString,
>;

impl BinaryViewArrayGeneric<ViewStr> {
    /// The value at a slot, under a null too.
    pub fn value(&self, i: usize) -> &str
        requires { i < count self.now.views }
        ensures { slice_get (values_of self.now) i ≡ Some (octets result.now) }
    {
        let bytes = self.value_bytes(i);
        // Each slot's bytes are UTF-8: the array keeps that.
        unsafe { std::str::from_utf8_unchecked(bytes) }
    }

    /// The value at a slot, `None` where it is null.
    pub fn get(&self, i: usize) -> Option<&str>
        requires { i < count self.now.views }
        ensures { slice_get (slots self.now) i ≡ Some (seen_octets result) }
    {
        ArrayAccessor::get(self, i)
    }

    /// Each slot in order, `None` for a null, from both ends.
    pub fn iter(&self) -> Utf8ViewIter<'_>
        ensures { result ≡ slots self.now }
    {
        Utf8ViewIter::new(self)
    }

    /// Each value in order, those under nulls too, from both ends.
    pub fn values_iter(&self) -> Utf8ViewValuesIter<'_>
        ensures { result ≡ values_of self.now }
    {
        Utf8ViewValuesIter::new(self)
    }
}

impl<'a> ArrayAccessor<&'a str, ByteString> for &'a BinaryViewArrayGeneric<ViewStr> {
    ghost use Rattle.arrow_views.specs.ViewArrays.{lent_octets};

    ghost seen = { lent_octets };

    ghost seen_slot = { seen_octets };

    ghost values = { λ a. values_of a.now };

    ghost mask = { λ a. a.now.mask };

    fn len(self) -> usize {
        self.views.len()
    }

    fn is_valid(self, i: usize) -> bool {
        is_valid(&self.validity, i)
    }

    fn value(self, i: usize) -> &'a str {
        BinaryViewArrayGeneric::<ViewStr>::value(self, i)
    }

    ghost of_value = { λ x. refl };

    ghost of_null = { refl };
}
