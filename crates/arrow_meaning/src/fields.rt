//! What the fields of a type ask of the children.
ghost use Rattle.std.specs.Prelude.{◌≡◌, ◌↔◌, length as count, IsTrue};
ghost use Rattle.arrow_layout.specs.Layouts.{layouts};
ghost use Rattle.arrow_layout.specs.WellFormed.{HaveTypes};
ghost use Rattle.arrow_types.specs.Seen.{seen_fields};

use crate::ArrayRef;
use arrow_types::{Field, is_same};

/// Whether each child has the whole type of its field.
pub fn have_types(fields: &[Field], children: &[ArrayRef]) -> bool
    requires { count fields.now ≡ count children.now }
    ensures { IsTrue result ↔ HaveTypes (seen_fields fields.now) (layouts children.now) }
{
    for (i, field) in fields.iter().enumerate() {
        if !is_same(&field.dtype, children[i].dtype()) {
            return false;
        }
    }
    true
}
