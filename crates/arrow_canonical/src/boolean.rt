//! Canonical arrays of booleans.
ghost use Rattle.std.specs.Prelude.{◌↔◌, IsTrue};
ghost use Rattle.arrow_meaning.specs.Nodes.{boolean_layout};
ghost use Rattle.arrow_canonical.specs.OwnForm.{HasOwnForm};

use crate::zeros::{ZeroValues, nulls_are_zero};
use arrow_flat::BooleanArray;

/// Whether the values have no leading bits, and are false under nulls.
pub(crate) fn boolean_form(array: &BooleanArray) -> bool
    ensures { IsTrue result ↔ HasOwnForm (boolean_layout array.now) }
{
    array.values().lead() == 0 && nulls_are_zero(array)
}

impl ZeroValues for BooleanArray {
    fn len(&self) -> usize {
        BooleanArray::len(self)
    }

    fn is_valid(&self, i: usize) -> bool {
        BooleanArray::is_valid(self, i)
    }

    fn is_zero(&self, i: usize) -> bool {
        !self.value(i)
    }
}
