//! Laws of canonical arrays. The contract of each function is the law; its body cites the laws of
//! layouts that it stands on.
ghost use Rattle.std.specs.Prelude.{◌≡◌, ◌↔◌};
ghost use Rattle.arrow_layout.specs.Canonical.{Canonical};
ghost use Rattle.arrow_layout.specs.Denote.{denote};
ghost use Rattle.arrow_layout.specs.Fits.{Fits};
ghost use Rattle.arrow_layout.specs.Layouts.{Layout, length_of, type_of};
ghost use Rattle.arrow_layout.specs.WellFormed.{WellFormed};
ghost use Rattle.arrow_canon.specs.Canonical.{canonical_of};

use arrow_layout::laws::{canon_denotes, canon_is_well_formed, canonical_is_canon, denotes_slots};

/// The canonical layout of an array's slots denotes these slots, has the array's type and length,
/// and is well formed where it fits.
pub fn normalized_denotes()
    ensures slots { (l : Layout) → WellFormed l → denote (canonical_of l) ≡ denote l }
    ensures of_type { (l : Layout) → type_of (canonical_of l) ≡ type_of l }
    ensures count { (l : Layout) → WellFormed l → length_of (canonical_of l) ≡ length_of l }
    ensures well_formed { (l : Layout) → WellFormed l → Fits (canonical_of l)
        → WellFormed (canonical_of l) }
{
    canon_denotes();
    canon_is_well_formed();
    denotes_slots();
}

/// An array is canonical exactly where it is the canonical array of its slots.
pub fn canonical_is_normalized()
    ensures { (l : Layout) → WellFormed l → Canonical l ↔ (l ≡ canonical_of l) }
{
    canonical_is_canon();
}

/// The canonical array of a canonical one is itself.
pub fn normalized_twice()
    ensures once { (l : Layout) → WellFormed l → canonical_of (canonical_of l) ≡ canonical_of l }
    ensures canonical { (l : Layout) → WellFormed l → Fits (canonical_of l)
        → Canonical (canonical_of l) }
{
    normalized_denotes();
    canonical_is_normalized();
}

/// Two arrays have one canonical layout exactly where they have one type and the same slots.
pub fn normalized_is_key()
    ensures { (k l : Layout) → WellFormed k → WellFormed l
        → (canonical_of k ≡ canonical_of l) ↔ ((type_of k ≡ type_of l) × (denote k ≡ denote l)) }
{
    normalized_denotes();
}
