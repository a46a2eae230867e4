ghost use Rattle.std.specs.Prelude.{◌≡◌};
ghost use Rattle.arrow_types.specs.declared.error.GatherError.TheVariants as gather;
ghost use Rattle.arrow_types.specs.declared.error.GrowError.TheVariants as grow;
ghost use Rattle.arrow_types.specs.declared.error.MakeError.TheVariants as make;
ghost use Rattle.arrow_types.specs.declared.error.PolarsError.TheVariants as polars;

use std::alloc::{AllocError, AllocFailed, Global};
use std::error::Error;
use std::fmt;

/// The answer of a call whose only refusal is want of memory.
pub type Mem<T> = Result<T, AllocError>;

/// The answer of a call that tests what it is given.
pub type PolarsResult<T> = Result<T, PolarsError>;

/// Which test refused what a call was given.
#[derive(Clone, Copy, Debug, PartialEq, Eq)]
pub enum Reason {
    /// The type without outer extensions isn't of the array's kind.
    WrongLogicalType,
    /// A mask is there and its length isn't the count of slots.
    MaskLength,
    /// The last offset passes the values' length.
    OffsetPastValues,
    /// The bytes of some slot, null or not, aren't UTF-8.
    NotUtf8,
    /// The size isn't 0 and doesn't divide the values' length.
    NotMultiple,
    /// A view, null or not, names no buffer, ends past its buffer, has another prefix than its
    /// bytes, or has padding that isn't 0.
    ViewRange,
    /// A child's whole type isn't the field's.
    ChildTypeDiffers,
    /// The size isn't 0 and the values divided by the size isn't the given length.
    LengthDiffers,
    /// The size is 0 and there are values.
    ZeroWidthValues,
    /// The count of children isn't the count of fields.
    FieldCount,
    /// A child's length isn't the given length.
    ChildLength,
    /// The entries' type isn't a struct of two fields, written without an extension around it.
    EntriesNotPair,
    /// There are more than 127 fields.
    TooManyFields,
    /// Offsets are there and aren't as many as the type numbers.
    OffsetsLength,
    /// Offsets are there for a sparse type, or missing for a dense one.
    OffsetsMode,
    /// The ids aren't as many as the fields.
    IdCount,
    /// An id is outside 0 to 127.
    IdRange,
    /// With ids a type number is negative; without, it is negative or not below the count of
    /// fields.
    TypeRange,
    /// No array has the type: a union in it has no fields, a fixed-size binary size 0, or another
    /// rule on types is broken.
    NotCarried,
    /// An offset is negative or not below its selected child's length.
    DenseOffset,
    /// A child is shorter than the type numbers.
    SparseLength,
    /// The declared key type isn't that of the keys, or the keys' own type isn't the plain integer.
    KeyType,
    /// The declared and the actual type of the values differ without outer extensions.
    ValueType,
    /// A key, under nulls too, names no value.
    KeyRange,
    /// The values' layout is another than the iterator's.
    ValuesKind,
    /// A mask would be set on a union.
    UnionValidity,
    /// Values are there where none may be.
    NotEmpty,
    /// A value equals an earlier one.
    Duplicate,
    /// A value is null.
    NullValue,
    /// The position of a value is at the key capacity.
    KeyOverflow,
    /// The items of a slot aren't as many as the size says.
    WrongWidth,
    /// A length, an offset or a sum of lengths passes what its type holds.
    LengthOverflow,
    /// There is no dimension.
    NoDimensions,
    /// More than one dimension is left open.
    TwoInferred,
    /// There is no leaf, no dimension is left open, and none is 0.
    NoZeroDimension,
    /// There are leaves, and a dimension is 0.
    ZeroDimension,
    /// A fixed-size builder without arrays is finished without a type.
    NoArrays,
}

/// Why a call refused what it was given.
#[derive(Clone, Copy, Debug, PartialEq, Eq)]
pub enum PolarsError {
    /// The parts don't fit together.
    ComputeError(Reason),
    /// The call isn't meant for what it was given.
    InvalidOperation(Reason),
    /// The type has no arrays here.
    Unsupported,
    /// There was no memory.
    OutOfMemory,
}

/// Why a growable couldn't be made.
#[derive(Clone, Copy, Debug, PartialEq, Eq)]
pub enum MakeError {
    /// There is no array.
    NoArrays,
    /// A whole type differs from the first.
    DtypeMismatch,
    /// The type can't grow.
    Unsupported,
    /// The values of a dictionary together pass the key capacity.
    KeyOverflow,
    /// The joined values don't fit.
    Overflow,
    /// There was no memory.
    OutOfMemory,
}

/// Why a growable refused to grow.
#[derive(Clone, Copy, Debug, PartialEq, Eq)]
pub enum GrowError {
    /// A length or an offset passes what its type holds.
    Overflow,
    /// There was no memory.
    OutOfMemory,
}

/// Why slots couldn't be gathered.
#[derive(Clone, Copy, Debug, PartialEq, Eq)]
pub enum GatherError {
    /// There is no array.
    NoArrays,
    /// A whole type differs from the first.
    DtypeMismatch,
    /// The type can't grow.
    Unsupported,
    /// A piece names no array, or ends past its array.
    OutOfBounds,
    /// The values of a dictionary together pass the key capacity.
    KeyOverflow,
    /// The joined values, or the taken slots, don't fit.
    Overflow,
    /// There was no memory.
    OutOfMemory,
}

/// The name of the variant.
impl fmt::Display for PolarsError {
    fn fmt<W: fmt::Write>(&self, f: &mut fmt::Formatter<W>) -> fmt::Result {
        let name = match self {
            PolarsError::ComputeError(_) => "ComputeError",
            PolarsError::InvalidOperation(_) => "InvalidOperation",
            PolarsError::Unsupported => "Unsupported",
            PolarsError::OutOfMemory => "OutOfMemory",
        };
        write!(f, "{name}")
    }
}

impl Error for PolarsError {}

/// The name of the variant.
impl fmt::Display for MakeError {
    fn fmt<W: fmt::Write>(&self, f: &mut fmt::Formatter<W>) -> fmt::Result {
        write!(f, "{self:?}")
    }
}

impl Error for MakeError {}

/// The name of the variant.
impl fmt::Display for GrowError {
    fn fmt<W: fmt::Write>(&self, f: &mut fmt::Formatter<W>) -> fmt::Result {
        write!(f, "{self:?}")
    }
}

impl Error for GrowError {}

/// The name of the variant.
impl fmt::Display for GatherError {
    fn fmt<W: fmt::Write>(&self, f: &mut fmt::Formatter<W>) -> fmt::Result {
        write!(f, "{self:?}")
    }
}

impl Error for GatherError {}

impl PolarsError {
    /// The same error; takes no memory.
    pub fn try_clone(&self, _alloc: Global) -> Mem<PolarsError>
        ensures { result ≡ Ok self.now }
    {
        Ok(*self)
    }
}

impl From<AllocError> for PolarsError {
    ghost from_gives = { λ _ e. e ≡ polars.OutOfMemory };

    fn from(_refused: AllocError) -> PolarsError {
        PolarsError::OutOfMemory
    }
}

impl<T: Drop> From<AllocFailed<T>> for PolarsError {
    ghost from_gives = { λ _ e. e ≡ polars.OutOfMemory };

    fn from(_refused: AllocFailed<T>) -> PolarsError {
        PolarsError::OutOfMemory
    }
}

impl From<AllocError> for MakeError {
    ghost from_gives = { λ _ e. e ≡ make.OutOfMemory };

    fn from(_refused: AllocError) -> MakeError {
        MakeError::OutOfMemory
    }
}

impl<T: Drop> From<AllocFailed<T>> for MakeError {
    ghost from_gives = { λ _ e. e ≡ make.OutOfMemory };

    fn from(_refused: AllocFailed<T>) -> MakeError {
        MakeError::OutOfMemory
    }
}

impl From<AllocError> for GrowError {
    ghost from_gives = { λ _ e. e ≡ grow.OutOfMemory };

    fn from(_refused: AllocError) -> GrowError {
        GrowError::OutOfMemory
    }
}

impl<T: Drop> From<AllocFailed<T>> for GrowError {
    ghost from_gives = { λ _ e. e ≡ grow.OutOfMemory };

    fn from(_refused: AllocFailed<T>) -> GrowError {
        GrowError::OutOfMemory
    }
}

impl From<AllocError> for GatherError {
    ghost from_gives = { λ _ e. e ≡ gather.OutOfMemory };

    fn from(_refused: AllocError) -> GatherError {
        GatherError::OutOfMemory
    }
}

impl<T: Drop> From<AllocFailed<T>> for GatherError {
    ghost from_gives = { λ _ e. e ≡ gather.OutOfMemory };

    fn from(_refused: AllocFailed<T>) -> GatherError {
        GatherError::OutOfMemory
    }
}
