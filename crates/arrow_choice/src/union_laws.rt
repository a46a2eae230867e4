//! Laws of unions. The contract of each function is the law; its body does nothing.
ghost use Rattle.std.specs.Prelude.{◌≡◌, ℕ, ◌+◌, ◌^◌, ◌<◌, ◌≤◌, ℤ, List, length, Some, None};
ghost use Rattle.arrow_types.specs.TypeData.{TypeData};
ghost use Rattle.arrow_layout.specs.Cut.{cut, part};
ghost use Rattle.arrow_layout.specs.Denote.{denote};
ghost use Rattle.arrow_layout.specs.FitsHere.{AllWellFormed};
ghost use Rattle.arrow_layout.specs.Layouts.{Layout, Layouts, dense_unions, sparse_unions};
ghost use Rattle.arrow_layout.specs.WellFormed.{WellFormed};
ghost use Rattle.arrow_choice.specs.Unions.{AreUnionParts, indexed_slots, indices};

/// The parts of each well-formed union without a shift make a union.
pub fn unions_are_accepted()
    ensures sparse { (t : TypeData) (ts : List ℤ) (ls : Layouts)
        → WellFormed (sparse_unions t 0 ts ls)
        → AreUnionParts record { dtype = t; types = ts; offsets = None; children = ls } }
    ensures dense { (t : TypeData) (ts os : List ℤ) (ls : Layouts)
        → WellFormed (dense_unions t 0 ts os ls)
        → AreUnionParts record { dtype = t; types = ts; offsets = Some os; children = ls } }
{}

/// The union that such parts make is well formed, where its children are.
pub fn unions_are_well_formed()
    ensures sparse { (t : TypeData) (ts : List ℤ) (ls : Layouts)
        → AreUnionParts record { dtype = t; types = ts; offsets = None; children = ls }
        → AllWellFormed ls → length ts < 2 ^ 64 → WellFormed (sparse_unions t 0 ts ls) }
    ensures dense { (t : TypeData) (ts os : List ℤ) (ls : Layouts)
        → AreUnionParts record { dtype = t; types = ts; offsets = Some os; children = ls }
        → AllWellFormed ls → length ts < 2 ^ 64 → WellFormed (dense_unions t 0 ts os ls) }
{}

/// A union denotes, with the type number of each slot, the slot of the child that
/// `UnionArray::index` names.
pub fn unions_denote()
    ensures sparse { (t : TypeData) (shift : ℕ) (ts : List ℤ) (ls : Layouts)
        → denote (sparse_unions t shift ts ls) ≡ indexed_slots (sparse_unions t shift ts ls) }
    ensures dense { (t : TypeData) (shift : ℕ) (ts os : List ℤ) (ls : Layouts)
        → denote (dense_unions t shift ts os ls) ≡ indexed_slots (dense_unions t shift ts os ls) }
{}

/// A slice of a union reads its children where the union does.
pub fn slices_are_indexed()
    ensures sparse { (t : TypeData) (shift o n : ℕ) (ts : List ℤ) (ls : Layouts)
        → indices (cut (sparse_unions t shift ts ls) o n)
        ≡ part o n (indices (sparse_unions t shift ts ls)) }
    ensures dense { (t : TypeData) (shift o n : ℕ) (ts os : List ℤ) (ls : Layouts)
        → indices (cut (dense_unions t shift ts os ls) o n)
        ≡ part o n (indices (dense_unions t shift ts os ls)) }
{}
