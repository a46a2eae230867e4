//! Laws of layouts and of their canonical form. The contract of each function is the law; its body
//! does nothing.

ghost use Rattle.std.specs.Prelude.{◌≡◌, ◌↔◌, ℕ, ◌+◌, ◌^◌, ◌<◌, ◌≤◌, List, [], ◌++◌, length, take, drop, replicate, Option};
ghost use Rattle.arrow_types.specs.TypeData.{TypeData};
ghost use Rattle.arrow_types.specs.Carried.{IsCarried};
ghost use Rattle.arrow_flat.specs.Slots.{Slot};
ghost use Rattle.arrow_layout.specs.SlotsOf.{IsSlot, HasSlots, fill};
ghost use Rattle.arrow_layout.specs.Layouts.{Layout, type_of, length_of};
ghost use Rattle.arrow_layout.specs.WellFormed.{WellFormed, MaskFits};
ghost use Rattle.arrow_layout.specs.Cut.{cut};
ghost use Rattle.arrow_layout.specs.Denote.{denote, masked, under};
ghost use Rattle.arrow_layout.specs.Canon.{canon};
ghost use Rattle.arrow_layout.specs.Fits.{Fits, Small};
ghost use Rattle.arrow_layout.specs.Canonical.{Canonical};
ghost use Rattle.arrow_layout.specs.NullLayout.{null_layout};
ghost use Rattle.arrow_layout.specs.NullsFit.{NullsFit};
ghost use Rattle.arrow_layout.specs.Spelling.{slot_bytes, IsShort};
ghost use Rattle.arrow_buffers.specs.Bits.{Bits};
ghost use Rattle.arrow_layout.specs.Masks.{HasMask, KeysInRange, with_mask};

/// The canonical layout of a list of slots denotes the list.
pub fn canon_denotes()
    ensures { (t : TypeData) (s : List Slot) → IsCarried t → HasSlots t s → denote (canon t s) ≡ s }
{}

/// A part of a well-formed layout denotes that part of the slots.
pub fn cut_denotes()
    ensures { (l : Layout) (o n : ℕ) → WellFormed l → o + n ≤ length_of l
        → denote (cut l o n) ≡ take n (drop o (denote l)) }
{}

/// A part of a well-formed layout is well formed, has its type, and has the length that was asked
/// for.
pub fn cut_is_well_formed()
    ensures well_formed { (l : Layout) (o n : ℕ) → WellFormed l → o + n ≤ length_of l
        → WellFormed (cut l o n) }
    ensures of_type { (l : Layout) (o n : ℕ) → type_of (cut l o n) ≡ type_of l }
    ensures count { (l : Layout) (o n : ℕ) → WellFormed l → o + n ≤ length_of l
        → length_of (cut l o n) ≡ n }
{}

/// The canonical layout of a list of slots is well formed where it fits and its dictionaries are
/// small, and has the type.
pub fn canon_is_well_formed()
    ensures well_formed { (t : TypeData) (s : List Slot) → IsCarried t → HasSlots t s
        → Fits (canon t s) → Small (canon t s) → WellFormed (canon t s) }
    ensures of_type { (t : TypeData) (s : List Slot) → type_of (canon t s) ≡ t }
    ensures count { (t : TypeData) (s : List Slot) → length_of (canon t s) ≡ length s }
{}

/// A well-formed layout denotes slots of its type, as many as it has, and few enough for the keys
/// of dictionaries.
pub fn denotes_slots()
    ensures slots { (l : Layout) → WellFormed l → HasSlots (type_of l) (denote l) }
    ensures count { (l : Layout) → WellFormed l → length (denote l) ≡ length_of l }
    ensures small { (l : Layout) → WellFormed l → Small (canon (type_of l) (denote l)) }
{}

/// A well-formed layout is canonical exactly where it is the layout that its slots make.
pub fn canonical_is_canon()
    ensures { (l : Layout) → WellFormed l → Canonical l ↔ (l ≡ canon (type_of l) (denote l)) }
{}

/// The spelling of a slot tells the slot among those of its type, and no spelling begins with
/// another.
pub fn spelling_is_unique()
    ensures one { (t : TypeData) (x y : Slot) → IsSlot t x → IsSlot t y → IsShort x → IsShort y
        → (slot_bytes x ≡ slot_bytes y) ↔ (x ≡ y) }
    ensures no_prefix { (t : TypeData) (x y : Slot) → IsSlot t x → IsSlot t y → IsShort x
        → IsShort y → (more : List ℕ) → slot_bytes x ++ more ≡ slot_bytes y → more ≡ [] }
{}

/// Under another mask that fits, a layout denotes what stands under that mask, is well formed where
/// its valid keys name values, and keeps its type.
pub fn mask_is_changed()
    ensures slots { (m : Option Bits) (l : Layout) → HasMask l
        → denote (with_mask m l) ≡ masked m (under l) }
    ensures well_formed { (m : Option Bits) (l : Layout) → WellFormed l → MaskFits m (length_of l)
        → KeysInRange m l → WellFormed (with_mask m l) }
    ensures of_type { (m : Option Bits) (l : Layout) → type_of (with_mask m l) ≡ type_of l }
{}

/// The layout of slots that say nothing denotes fillings of its type, has the type, and is well
/// formed where it fits; that of no slots always fits.
pub fn null_layout_denotes()
    ensures slots { (t : TypeData) (n : ℕ) → denote (null_layout t n) ≡ replicate n (fill t) }
    ensures well_formed { (t : TypeData) (n : ℕ) → IsCarried t → Fits (null_layout t n)
        → WellFormed (null_layout t n) }
    ensures of_type { (t : TypeData) (n : ℕ) → type_of (null_layout t n) ≡ t }
    ensures count { (t : TypeData) (n : ℕ) → length_of (null_layout t n) ≡ n }
    ensures none { (t : TypeData) → Fits (null_layout t 0) }
{}

/// Slots that say nothing fit exactly where a usize holds the length of each fixed-size list's
/// child and the bytes of fixed-size values, and each dense union has at most 2^31 slots.
pub fn null_layout_fits()
    ensures { (t : TypeData) (n : ℕ) → n < 2 ^ 64 → Fits (null_layout t n) ↔ NullsFit t n }
{}
