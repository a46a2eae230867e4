//! The numbers of values of fixed width, of whichever native type.
ghost use Rattle.std.specs.Prelude.{◌≡◌, ◌↔◌, IsTrue};
ghost use Rattle.arrow_equal.specs.Numbers.{number_list};

use arrow_flat::{DaysMs, MonthDayNano};
use arrow_meaning::NodeNative;

/// The numbers of a value, in order.
#[derive(Clone, Copy)]
pub enum Numbers {
    /// Of a whole number.
    One(i128),
    /// Of days and milliseconds.
    Two(i128, i128),
    /// Of months, days and nanoseconds.
    Three(i128, i128, i128),
}

/// Whether two values have equal numbers.
pub(crate) fn same_numbers(lhs: Numbers, rhs: Numbers) -> bool
    ensures { IsTrue result ↔ (number_list lhs ≡ number_list rhs) }
{
    match lhs {
        Numbers::One(a) => match rhs {
            Numbers::One(b) => a == b,
            Numbers::Two(_, _) => false,
            Numbers::Three(_, _, _) => false,
        },
        Numbers::Two(a, b) => match rhs {
            Numbers::One(_) => false,
            Numbers::Two(c, d) => a == c && b == d,
            Numbers::Three(_, _, _) => false,
        },
        Numbers::Three(a, b, c) => match rhs {
            Numbers::One(_) => false,
            Numbers::Two(_, _) => false,
            Numbers::Three(d, e, f) => a == d && b == e && c == f,
        },
    }
}

/// A native type whose values are read as their numbers.
pub trait NumberNative: NodeNative {
    /// The numbers of the value.
    fn numbers(self) -> Numbers
        ensures { number_list result ≡ Self.parts self };
}

impl NumberNative for i8 {
    fn numbers(self) -> Numbers {
        Numbers::One(i128::from(self))
    }
}

impl NumberNative for i16 {
    fn numbers(self) -> Numbers {
        Numbers::One(i128::from(self))
    }
}

impl NumberNative for i32 {
    fn numbers(self) -> Numbers {
        Numbers::One(i128::from(self))
    }
}

impl NumberNative for i64 {
    fn numbers(self) -> Numbers {
        Numbers::One(i128::from(self))
    }
}

impl NumberNative for i128 {
    fn numbers(self) -> Numbers {
        Numbers::One(self)
    }
}

impl NumberNative for u8 {
    fn numbers(self) -> Numbers {
        Numbers::One(i128::from(self))
    }
}

impl NumberNative for u16 {
    fn numbers(self) -> Numbers {
        Numbers::One(i128::from(self))
    }
}

impl NumberNative for u32 {
    fn numbers(self) -> Numbers {
        Numbers::One(i128::from(self))
    }
}

impl NumberNative for u64 {
    fn numbers(self) -> Numbers {
        Numbers::One(i128::from(self))
    }
}

impl NumberNative for DaysMs {
    fn numbers(self) -> Numbers {
        Numbers::Two(i128::from(self.0), i128::from(self.1))
    }
}

impl NumberNative for MonthDayNano {
    fn numbers(self) -> Numbers {
        Numbers::Three(i128::from(self.0), i128::from(self.1), i128::from(self.2))
    }
}
