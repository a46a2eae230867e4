//! Iterators over unions.
ghost use Rattle.std.specs.Prelude.{None, refl};
ghost use Rattle.arrow_choice.specs.Unions.{indices};

use crate::UnionArray;
use arrow_flat::{ArrayAccessor, ArrayValuesIter};

/// Of each slot of a union the position of the field that it selects, and the slot there.
pub type UnionIter<'a> = ArrayValuesIter<&'a UnionArray, (usize, usize), (usize, usize)>;

/// Its values are what `UnionArray::index` returns.
impl<'a> ArrayAccessor<(usize, usize), (usize, usize)> for &'a UnionArray {
    ghost seen = { λ p. p };

    ghost seen_slot = { λ o. o };

    ghost values = { λ a. indices a.now };

    ghost mask = { λ a. None };

    fn len(self) -> usize {
        self.invariant();
        self.types().len()
    }

    fn is_valid(self, _i: usize) -> bool {
        true
    }

    fn value(self, i: usize) -> (usize, usize) {
        self.invariant();
        self.index(i)
    }

    ghost of_value = { λ p. refl };

    ghost of_null = { refl };
}
