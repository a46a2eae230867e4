ghost use Rattle.std.specs.Prelude.{◌≡◌, ◌<◌, ◌^◌, Some, MatchOption, unwrap_or};
ghost use Rattle.std.specs.Option.{ForNone};
ghost use Rattle.std.specs.Hash as fed;
ghost use Rattle.std.specs.Cmp.Rules.{hashing};
ghost use Rattle.std.proofs.Common.{rules};
ghost use Rattle.arrow_types.specs.Reshape.{reshape_of, number_of, repr_of, dimension_text};

use crate::dimension::Dimension;
use crate::error::Mem;
use std::alloc::Global;
use std::fmt;
use std::hash::{Hash, Hasher};

/// A dimension that is given, or left to be found from the others.
#[derive(Clone, Copy, Debug, PartialEq, Eq)]
pub enum ReshapeDimension {
    /// Found from the others.
    Infer,
    /// Given.
    Specified(Dimension),
}

impl ReshapeDimension {
    /// `Infer` where `v` is negative, else that number.
    pub fn new(v: i64) -> ReshapeDimension
        ensures { result ≡ reshape_of v }
    {
        match Dimension::try_from(v) {
            Ok(dimension) => ReshapeDimension::Specified(dimension),
            Err(()) => ReshapeDimension::Infer,
        }
    }

    /// The given dimension of that number, which is at most `i64::MAX`.
    pub fn new_dimension(dimension: u64) -> ReshapeDimension
        requires { dimension < 2 ^ 63 }
        ensures { result ≡ ReshapeDimension.Specified dimension }
    {
        ReshapeDimension::Specified(Dimension::new(dimension))
    }

    /// The number, where it is given.
    pub fn get(self) -> Option<u64>
        ensures { result ≡ number_of self }
    {
        match self {
            ReshapeDimension::Infer => None,
            ReshapeDimension::Specified(dimension) => Some(dimension.get()),
        }
    }

    /// The number where it is given, else `inferred`.
    pub fn get_or_infer(self, inferred: u64) -> u64
        ensures { result ≡ unwrap_or (number_of self) inferred }
    {
        match self {
            ReshapeDimension::Infer => inferred,
            ReshapeDimension::Specified(dimension) => dimension.get(),
        }
    }

    /// The number where it is given, else what `f` answers.
    pub fn get_or_infer_with<F: Fn() -> u64>(self, f: F) -> u64
        requires { ForNone (number_of self) (F.pre f) }
        ensures { MatchOption (number_of self) (F.post f result) (λ n. result ≡ n) }
    {
        match self {
            ReshapeDimension::Infer => f(),
            ReshapeDimension::Specified(dimension) => dimension.get(),
        }
    }

    /// The same dimension; takes no memory.
    pub fn try_clone(&self, _alloc: Global) -> Mem<ReshapeDimension>
        ensures { result ≡ Ok self.now }
    {
        Ok(*self)
    }

    /// 0 for `Infer`, else the number plus 1.
    fn repr(self) -> u64
        ensures { result ≡ repr_of self }
    {
        match self {
            ReshapeDimension::Infer => 0,
            ReshapeDimension::Specified(dimension) => dimension.get() + 1,
        }
    }
}

/// `inferred`, or the number.
impl fmt::Display for ReshapeDimension {
    ghost output = { λ d. Some (dimension_text d) };

    fn fmt<W: fmt::Write>(&self, f: &mut fmt::Formatter<W>) -> fmt::Result {
        match self {
            ReshapeDimension::Infer => write!(f, "inferred"),
            ReshapeDimension::Specified(dimension) => write!(f, "{dimension:?}"),
        }
    }
}

/// That of the `u64` 0 for `Infer`, else that of the number plus 1.
impl Hash for ReshapeDimension {
    ghost hash_input = { λ d. fed.u64 (repr_of d) };

    ghost respects_eq = { Prim.search (hashing, rules) };

    fn hash<H: Hasher>(&self, state: &mut H) {
        self.repr().hash(state);
    }
}
