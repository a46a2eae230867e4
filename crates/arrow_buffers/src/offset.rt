//! The two types of offsets.
ghost use Rattle.std.specs.Prelude.{◌≡◌, ℕ, ◌^◌, ◌<◌, ◌≤◌, ◌↔◌, ℤ, pos, ◌≤ℤ◌, ◌<ℤ◌, Bool, true, false, IsTrue, MatchOption, if◌then◌else◌, refl};
ghost use Rattle.std.proofs.Common.{lit<, lit≤};

/// An integer type of offsets: `i32`, or the large `i64`.
pub trait Offset: Copy {
    /// Whether this is the larger type.
    const IS_LARGE: bool;

    ghost IS_LARGE: { Bool };

    // The number that an offset is, and how many of them are not negative.
    ghost number: { Self → ℤ };

    ghost limit: { ℕ };

    /// The number of an offset that is not negative.
    fn to_usize(self) -> usize
        requires { pos 0 ≤ℤ number self }
        ensures value { number self ≡ pos result }
        ensures fits { result < limit };

    /// The offset of this number, or `None` where it passes the type's greatest one.
    fn from_usize(n: usize) -> Option<Self>
        ensures { MatchOption result (limit ≤ n) (λ o. (number o ≡ pos n) × (n < limit)) };

    /// Whether the offset is below 0.
    fn is_negative(self) -> bool
        ensures { IsTrue result ↔ (number self <ℤ pos 0) };

    ghost limit_by_size: { limit ≡ (if IS_LARGE then 2 ^ 63 else 2 ^ 31) };

    ghost limit_range: { (0 < limit) × (limit ≤ 2 ^ 63) };

    ghost same_number: { (x y : Self) → number x ≡ number y → x ≡ y };
}

impl Offset for i32 {
    const IS_LARGE: bool = false;

    ghost IS_LARGE = { false };

    ghost number = { λ x. x };

    ghost limit = { 2 ^ 31 };

    ghost limit_by_size = { refl };

    ghost limit_range = { (lit< tt, lit≤ tt) };

    ghost same_number = { λ x y e. e };

    fn to_usize(self) -> usize {
        self as usize
    }

    fn from_usize(n: usize) -> Option<i32> {
        i32::try_from(n).ok()
    }

    fn is_negative(self) -> bool {
        self < 0
    }
}

impl Offset for i64 {
    const IS_LARGE: bool = true;

    ghost IS_LARGE = { true };

    ghost number = { λ x. x };

    ghost limit = { 2 ^ 63 };

    ghost limit_by_size = { refl };

    ghost limit_range = { (lit< tt, lit≤ tt) };

    ghost same_number = { λ x y e. e };

    fn to_usize(self) -> usize {
        self as usize
    }

    fn from_usize(n: usize) -> Option<i64> {
        i64::try_from(n).ok()
    }

    fn is_negative(self) -> bool {
        self < 0
    }
}
