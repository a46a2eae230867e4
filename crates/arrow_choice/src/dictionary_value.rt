//! Arrays of strings that the values of a dictionary are read as.
ghost use Rattle.std.specs.Prelude.{◌≡◌, ◌<◌, true, IfSome, List, length, map, MatchOption, Some, slice_get, ℕ};
ghost use Rattle.arrow_bytes.specs.Binaries as binaries;
ghost use Rattle.arrow_bytes.specs.Binaries.{layout_in};
ghost use Rattle.arrow_flat.specs.Natives.{octets};
ghost use Rattle.arrow_flat.specs.Slots.{bytes};
ghost use Rattle.arrow_layout.specs.Denote.{under};
ghost use Rattle.arrow_layout.specs.Layouts.{Layout};
ghost use Rattle.arrow_meaning.specs.Nodes.{binary_layout, IsStoredAs, view_layout};
ghost use Rattle.arrow_types.specs.declared.datatype.PhysicalType.{PhysicalType};
ghost use Rattle.arrow_types.specs.declared.datatype.PhysicalType.TheVariants as physical;
ghost use Rattle.arrow_views.specs.ViewArrays as views;

use arrow_bytes::Utf8Array;
use arrow_flat::ViewStr;
use arrow_meaning::{ArrayRef, FlatNode, NodeOffset};
use arrow_views::Utf8ViewArray;

/// An array of strings, as which the values of a dictionary may be read.
///
/// Upstream's trait of this name.
pub trait DictValue: Drop {
    ghost layout: { Self → Layout };

    ghost physical: { PhysicalType };

    ghost texts: { Self → List (List ℕ) };

    /// The count of strings, those under nulls too.
    fn text_count(&self) -> usize
        ensures { result ≡ length (texts self.now) };

    /// The string at a slot, under a null too.
    fn text_at(&self, i: usize) -> &str
        requires { i < length (texts self.now) }
        ensures { slice_get (texts self.now) i ≡ Some (octets result.now) };

    /// The array as one of this kind, `None` exactly where its layout is another.
    fn downcast_values(array: &ArrayRef) -> Option<&Self>
        ensures found { MatchOption result (IsStoredAs physical array.now → ⊥)
            (λ v. layout v.now ≡ array.now) }
        ensures kind { IfSome result (λ v. IsStoredAs physical array.now) }
        ensures texts { IfSome result (λ v. under (layout v.now) ≡ map bytes (texts v.now)) };
}

impl<O: NodeOffset> DictValue for Utf8Array<O> {
    ghost layout = { binary_layout O.number };

    ghost physical = { layout_in true O.IS_LARGE };

    ghost texts = { λ a. map octets (binaries.values_of O.number a) };

    fn text_count(&self) -> usize {
        self.len()
    }

    fn text_at(&self, i: usize) -> &str {
        self.value(i)
    }

    fn downcast_values(array: &ArrayRef) -> Option<&Utf8Array<O>> {
        let texts = array.as_utf8::<O>()?;
        FlatNode::invariant(texts);
        Some(texts)
    }
}

impl DictValue for Utf8ViewArray {
    ghost layout = { view_layout };

    ghost physical = { physical.Utf8View };

    ghost texts = { views.values_of };

    fn text_count(&self) -> usize {
        self.len()
    }

    fn text_at(&self, i: usize) -> &str {
        self.value(i)
    }

    fn downcast_values(array: &ArrayRef) -> Option<&Utf8ViewArray> {
        let texts = array.as_view::<ViewStr>()?;
        FlatNode::invariant(texts);
        Some(texts)
    }
}
