ghost use Rattle.std.specs.Prelude.{◌≡◌, ◌<◌, ◌^◌, pos, Some, None, IfOk, IsErr};
ghost use Rattle.std.specs.Fmt.{decimal};
ghost use Rattle.arrow_types.specs.Dimension.{dimension_from};

use crate::error::Mem;
use std::alloc::Global;
use std::fmt;
use std::marker::Model;

/// The length of one level of a nested column, at most `i64::MAX`. A contract sees its number.
#[derive(Clone, Copy, PartialEq, Eq, PartialOrd, Ord, Hash)]
pub struct Dimension {
    number: u64,
}

impl Model for Dimension {
    ghost use Rattle.std.specs.Prelude.{ℕ, ◌<◌, ◌^◌};

    ghost Value = { ℕ };

    ghost view = { λ d. d.number };

    ghost invariant = { λ d. d.number < 2 ^ 63 };

    ghost inverse = { λ n. record { number = n } };
}

impl Dimension {
    /// The dimension of `v` items, which is at most `i64::MAX`.
    pub fn new(v: u64) -> Dimension
        requires { v < 2 ^ 63 }
        ensures { result ≡ v }
    {
        Dimension { number: v }
    }

    /// Its number.
    pub fn get(self) -> u64
        ensures value { result ≡ self }
        ensures fits { result < 2 ^ 63 }
    {
        self.number
    }

    /// The same dimension; takes no memory.
    pub fn try_clone(&self, _alloc: Global) -> Mem<Dimension>
        ensures { result ≡ Ok self.now }
    {
        Ok(*self)
    }
}

/// Err exactly where the number is negative.
impl TryFrom<i64> for Dimension {
    type Error = ();

    ghost try_from_gives = { λ v r. r ≡ dimension_from v };

    fn try_from(value: i64) -> Result<Dimension, ()> {
        if value < 0 {
            return Err(());
        }
        Ok(Dimension::new(value as u64))
    }
}

/// Its number.
impl fmt::Debug for Dimension {
    ghost debug_output = { λ d. Some (decimal d) };

    fn fmt<W: fmt::Write>(&self, f: &mut fmt::Formatter<W>) -> fmt::Result {
        write!(f, "{}", self.number)
    }
}
