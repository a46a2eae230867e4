//! Slots without parts in other arrays, compared.
ghost use Rattle.std.specs.Prelude.{◌≡◌, ◌↔◌, IsTrue};
ghost use Rattle.arrow_flat.specs.Natives.{octets};
ghost use Rattle.arrow_flat.specs.Slots.{bool, bytes, null, num};
ghost use Rattle.arrow_equal.specs.Numbers.{number_list};
ghost use Rattle.arrow_equal.specs.SlotParts.{slot_of};

use crate::numbers::{Numbers, same_numbers};
use crate::slot_parts::SlotParts;

/// Whether the slot is null.
pub(crate) fn is_null(other: SlotParts<'_>) -> bool
    ensures { IsTrue result ↔ (null ≡ slot_of other.entry) }
{
    match other {
        SlotParts::Null => true,
        _ => false,
    }
}

/// Whether the slot is the bit.
pub(crate) fn is_bool(bit: bool, other: SlotParts<'_>) -> bool
    ensures { IsTrue result ↔ (bool bit ≡ slot_of other.entry) }
{
    match other {
        SlotParts::Bool(value) => bit == value,
        _ => false,
    }
}

/// Whether the slot has these numbers.
pub(crate) fn is_number(numbers: Numbers, other: SlotParts<'_>) -> bool
    ensures { IsTrue result ↔ (num (number_list numbers) ≡ slot_of other.entry) }
{
    match other {
        SlotParts::Number(value) => same_numbers(numbers, value),
        _ => false,
    }
}

/// Whether the slot has these bytes.
pub(crate) fn is_bytes(value: &[u8], other: SlotParts<'_>) -> bool
    ensures { IsTrue result ↔ (bytes (octets value.now) ≡ slot_of other.entry) }
{
    match other {
        SlotParts::Bytes(bytes) => same_bytes(value, bytes),
        _ => false,
    }
}

/// Whether two lists of bytes are equal.
fn same_bytes(lhs: &[u8], rhs: &[u8]) -> bool
    ensures { IsTrue result ↔ (octets lhs.now ≡ octets rhs.now) }
{
    *lhs == *rhs
}
