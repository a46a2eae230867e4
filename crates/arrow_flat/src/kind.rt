//! The two kinds of values of variable size.
ghost use Rattle.std.specs.Prelude.{Bool, true, false};

/// What the values of an array are: binary values, or strings (UTF-8).
pub trait ViewType: Copy {
    /// Whether the values are strings.
    const IS_TEXT: bool;

    ghost IS_TEXT: { Bool };
}

/// The values are strings, each of them UTF-8.
#[derive(Clone, Copy, Debug, PartialEq, Eq)]
pub struct ViewStr;

/// The values are binary values of any bytes.
#[derive(Clone, Copy, Debug, PartialEq, Eq)]
pub struct ViewBytes;

impl ViewType for ViewStr {
    const IS_TEXT: bool = true;

    ghost IS_TEXT = { true };
}

impl ViewType for ViewBytes {
    const IS_TEXT: bool = false;

    ghost IS_TEXT = { false };
}
