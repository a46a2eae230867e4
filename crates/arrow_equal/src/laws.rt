//! Laws of equality. The contract of each function is the law; its body does nothing.
ghost use Rattle.std.specs.Prelude.{◌≡◌, ◌<◌, ℕ};
ghost use Rattle.arrow_layout.specs.Layouts.{Layout, length_of, type_of};
ghost use Rattle.arrow_layout.specs.WellFormed.{WellFormed};
ghost use Rattle.arrow_equal.specs.Equal.{AreEqual};
ghost use Rattle.arrow_equal.specs.SlotAt.{slot_at};

/// What `equal` decides is an equivalence.
pub fn equality_is_an_equivalence()
    ensures reflexive { (l : Layout) → AreEqual l l }
    ensures symmetric { (l r : Layout) → AreEqual l r → AreEqual r l }
    ensures transitive { (l m r : Layout) → AreEqual l m → AreEqual m r → AreEqual l r }
{}

/// Arrays are equal exactly where their types and lengths are and each slot of one is the slot of
/// the other at its position.
pub fn equality_is_by_slots()
    ensures lengths { (l r : Layout) → WellFormed l → WellFormed r → AreEqual l r
        → length_of l ≡ length_of r }
    ensures slots { (l r : Layout) → AreEqual l r → (i : ℕ) → slot_at l i ≡ slot_at r i }
    ensures same { (l r : Layout) → WellFormed l → WellFormed r → type_of l ≡ type_of r
        → length_of l ≡ length_of r
        → ((i : ℕ) → i < length_of l → slot_at l i ≡ slot_at r i) → AreEqual l r }
{}
