//! What arrays of binary values by views are read as.
ghost use Rattle.std.specs.Prelude.{◌≡◌, ◌<◌, length as count, slice_get, Some, refl};
ghost use Rattle.arrow_flat.specs.Natives.{octets};
ghost use Rattle.arrow_views.specs.ViewArrays.{values_of, slots, seen_octets};

use crate::{BinaryViewArrayGeneric, ViewBytes};
use arrow_flat::validity::is_valid;
use arrow_flat::{ArrayAccessor, ArrayIter, ArrayValuesIter, ByteString};

/// The slots of an array of binary values by views, `None` for a null.
pub type BinaryViewIter<'a> = ArrayIter<
    &'a BinaryViewArrayGeneric<ViewBytes>,
    &'a [u8],
    ByteString,
>;

/// The values of an array of binary values by views, those under nulls too.
pub type BinaryViewValuesIter<'a> = ArrayValuesIter<
    &'a BinaryViewArrayGeneric<ViewBytes>,
    &'a [u8],
    ByteString,
>;

impl BinaryViewArrayGeneric<ViewBytes> {
    /// The value at a slot, under a null too.
    pub fn value(&self, i: usize) -> &[u8]
        requires { i < count self.now.views }
        ensures { slice_get (values_of self.now) i ≡ Some (octets result.now) }
    {
        self.value_bytes(i)
    }

    /// The value at a slot, `None` where it is null.
    pub fn get(&self, i: usize) -> Option<&[u8]>
        requires { i < count self.now.views }
        ensures { slice_get (slots self.now) i ≡ Some (seen_octets result) }
    {
        ArrayAccessor::get(self, i)
    }

    /// Each slot in order, `None` for a null, from both ends.
    pub fn iter(&self) -> BinaryViewIter<'_>
        ensures { result ≡ slots self.now }
    {
        BinaryViewIter::new(self)
    }

    /// Each value in order, those under nulls too, from both ends.
    pub fn values_iter(&self) -> BinaryViewValuesIter<'_>
        ensures { result ≡ values_of self.now }
    {
        BinaryViewValuesIter::new(self)
    }
}

impl<'a> ArrayAccessor<&'a [u8], ByteString> for &'a BinaryViewArrayGeneric<ViewBytes> {
    ghost use Rattle.arrow_views.specs.ViewArrays.{lent_octets};

    ghost seen = { lent_octets };

    ghost seen_slot = { seen_octets };

    ghost values = { λ a. values_of a.now };

    ghost mask = { λ a. a.now.mask };

    fn len(self) -> usize {
        self.views.len()
    }

    fn is_valid(self, i: usize) -> bool {
        is_valid(&self.validity, i)
    }

    fn value(self, i: usize) -> &'a [u8] {
        BinaryViewArrayGeneric::<ViewBytes>::value(self, i)
    }

    ghost of_value = { λ x. refl };

    ghost of_null = { refl };
}
