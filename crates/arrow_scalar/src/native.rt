//! Values of native types, compared.
ghost use Rattle.std.specs.Prelude.{◌≡◌, ◌↔◌, [], ◌∷◌, IsTrue, map, refl};
ghost use Rattle.arrow_meaning.specs.Nodes.{key_number};

use arrow_flat::{DaysMs, MonthDayNano};
use arrow_meaning::{NodeKey, NodeNative};

/// A native type whose values compare as their numbers do.
pub(crate) trait SameNative: NodeNative {
    /// Whether two values are equal.
    fn is_same(self, other: Self) -> bool
        ensures value { IsTrue result ↔ (self ≡ other) }
        ensures numbers { IsTrue result ↔ (Self.parts self ≡ Self.parts other) };
}

/// A type of keys, each of them one number.
pub(crate) trait SameKey: NodeKey + SameNative {
    ghost one_number: { (x : Self) → Self.parts x ≡ key_number (Self.parts x) ∷ [] };
}

/// Whether two lists of values are equal.
pub(crate) fn same_values<T: SameNative>(lhs: &[T], rhs: &[T]) -> bool
    ensures values { IsTrue result ↔ (lhs.now ≡ rhs.now) }
    ensures numbers { IsTrue result ↔ (map T.parts lhs.now ≡ map T.parts rhs.now) }
{
    if lhs.len() != rhs.len() {
        return false;
    }
    for i in 0..lhs.len() {
        if !lhs[i].is_same(rhs[i]) {
            return false;
        }
    }
    true
}

impl SameNative for i8 {
    fn is_same(self, other: i8) -> bool {
        self == other
    }
}

impl SameNative for i16 {
    fn is_same(self, other: i16) -> bool {
        self == other
    }
}

impl SameNative for i32 {
    fn is_same(self, other: i32) -> bool {
        self == other
    }
}

impl SameNative for i64 {
    fn is_same(self, other: i64) -> bool {
        self == other
    }
}

impl SameNative for i128 {
    fn is_same(self, other: i128) -> bool {
        self == other
    }
}

impl SameNative for u8 {
    fn is_same(self, other: u8) -> bool {
        self == other
    }
}

impl SameNative for u16 {
    fn is_same(self, other: u16) -> bool {
        self == other
    }
}

impl SameNative for u32 {
    fn is_same(self, other: u32) -> bool {
        self == other
    }
}

impl SameNative for u64 {
    fn is_same(self, other: u64) -> bool {
        self == other
    }
}

impl SameNative for DaysMs {
    fn is_same(self, other: DaysMs) -> bool {
        self == other
    }
}

impl SameNative for MonthDayNano {
    fn is_same(self, other: MonthDayNano) -> bool {
        self == other
    }
}

impl SameKey for i8 {
    ghost one_number = { λ x. refl };
}

impl SameKey for i16 {
    ghost one_number = { λ x. refl };
}

impl SameKey for i32 {
    ghost one_number = { λ x. refl };
}

impl SameKey for i64 {
    ghost one_number = { λ x. refl };
}

impl SameKey for i128 {
    ghost one_number = { λ x. refl };
}

impl SameKey for u8 {
    ghost one_number = { λ x. refl };
}

impl SameKey for u16 {
    ghost one_number = { λ x. refl };
}

impl SameKey for u32 {
    ghost one_number = { λ x. refl };
}

impl SameKey for u64 {
    ghost one_number = { λ x. refl };
}
