//! What stands under the nulls of arrays without children.
ghost use Rattle.std.specs.Prelude.{◌≡◌, ◌↔◌, ◌<◌, false, IsTrue};
ghost use Rattle.arrow_layout.specs.Layouts.{length_of};
ghost use Rattle.arrow_layout.specs.Masks.{valid_in};
ghost use Rattle.arrow_canonical.specs.OwnForm.{IsZeroAt, NullsAreZero};

use arrow_meaning::FlatNode;

/// An array without children whose values are read also under nulls.
pub(crate) trait ZeroValues: FlatNode {
    /// The count of slots.
    fn len(&self) -> usize
        ensures { result ≡ length_of (Self.layout self.now) };

    /// Whether the slot isn't null.
    fn is_valid(&self, i: usize) -> bool
        requires { i < length_of (Self.layout self.now) }
        ensures { result ≡ valid_in (Self.layout self.now) i };

    /// Whether what stands at a slot, also under a null, is what the canonical form has at a null.
    fn is_zero(&self, i: usize) -> bool
        requires { i < length_of (Self.layout self.now) }
        ensures { IsTrue result ↔ IsZeroAt (Self.layout self.now) i };
}

/// Whether zeros stand under all nulls.
pub(crate) fn nulls_are_zero<T: ZeroValues>(array: &T) -> bool
    ensures { IsTrue result ↔ NullsAreZero (T.layout array.now) }
{
    FlatNode::invariant(array);
    for i in 0..array.len() {
        if !is_valid_or_zero(array, i) {
            return false;
        }
    }
    true
}

/// Whether the slot isn't null, or zeros stand there.
fn is_valid_or_zero<T: ZeroValues>(array: &T, i: usize) -> bool
    requires { i < length_of (T.layout array.now) }
    ensures { let l = T.layout array.now in
        IsTrue result ↔ (valid_in l i ≡ false → IsZeroAt l i) }
{
    array.is_valid(i) || array.is_zero(i)
}
