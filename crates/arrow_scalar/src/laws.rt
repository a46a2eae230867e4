//! Laws of spellings. The contract of each function is the law; its body does nothing.
ghost use Rattle.std.specs.Prelude.{◌≡◌, ◌↔◌, ◌<◌, ℕ, List, [], ◌++◌};
ghost use Rattle.arrow_layout.specs.Layouts.{Layout, length_of, type_of};
ghost use Rattle.arrow_layout.specs.Spelling.{slot_bytes};
ghost use Rattle.arrow_layout.specs.WellFormed.{WellFormed};
ghost use Rattle.arrow_scalar.specs.Spellings.{slot_at};

/// What `slot_bytes` returns for slots of two arrays of one type is equal exactly where the slots
/// are, and what it returns for one of them never continues what it returns for the other.
pub fn spellings_are_unique()
    ensures one { (l r : Layout) (i j : ℕ) → WellFormed l → WellFormed r → type_of l ≡ type_of r
        → i < length_of l → j < length_of r
        → (slot_bytes (slot_at l i) ≡ slot_bytes (slot_at r j)) ↔ (slot_at l i ≡ slot_at r j) }
    ensures no_prefix { (l r : Layout) (i j : ℕ) → WellFormed l → WellFormed r
        → type_of l ≡ type_of r → i < length_of l → j < length_of r → (more : List ℕ)
        → slot_bytes (slot_at l i) ++ more ≡ slot_bytes (slot_at r j) → more ≡ [] }
{}
