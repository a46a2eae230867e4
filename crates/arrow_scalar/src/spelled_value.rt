//! The spellings of values, appended.
ghost use Rattle.std.specs.Prelude.{◌≡◌, ◌<◌, ◌++◌, [], ◌∷◌, OnOk, flat_map, get_or};
ghost use Rattle.arrow_flat.specs.Natives.{octets};
ghost use Rattle.arrow_flat.specs.Slots.{bool, bytes as binary, null, num};
ghost use Rattle.arrow_layout.specs.Denote.{under};
ghost use Rattle.arrow_layout.specs.Layouts.{length_of};
ghost use Rattle.arrow_layout.specs.Spelling.{number_bytes, slot_bytes};
ghost use Rattle.arrow_meaning.specs.Nodes.{primitive_layout, primitive_node_layout};

use crate::spelling_out::SpellingOut;
use arrow_flat::{DaysMs, MonthDayNano, PrimitiveArray};
use arrow_meaning::{NodeNative, PrimitiveNode};
use arrow_types::Mem;

/// Appends the spelling of a bit.
pub(crate) fn push_bool<W: SpellingOut>(out: &mut W, bit: bool) -> Mem<()>
    ensures { OnOk result (W.Appended out.old (slot_bytes (bool bit)) out.new) }
{
    out.push_byte(1)?;
    out.push_byte(u8::from(bit))
}

/// Appends the spelling of a binary value.
pub(crate) fn push_binary<W: SpellingOut>(out: &mut W, bytes: &[u8]) -> Mem<()>
    ensures { OnOk result (W.Appended out.old (slot_bytes (binary (octets bytes.now))) out.new) }
{
    out.push_byte(3)?;
    out.push_length(bytes.len())?;
    out.push_bytes(bytes)
}

/// A native type whose values are spelled as their numbers.
pub(crate) trait SpelledNative: NodeNative {
    /// Appends each number of the value.
    fn push_parts<W: SpellingOut>(self, out: &mut W) -> Mem<()>
        ensures { OnOk result (W.Appended out.old (flat_map number_bytes (Self.parts self)) out.new) };
}

/// Appends the spelling of a value of fixed width.
fn push_value<T: SpelledNative, W: SpellingOut>(
    out: &mut W,
    array: &PrimitiveArray<T>,
    i: usize,
) -> Mem<()>
    requires { i < length_of (primitive_layout T.parts array.now) }
    ensures { OnOk result (W.Appended out.old
        (slot_bytes (get_or (under (primitive_layout T.parts array.now)) i null)) out.new) }
{
    out.push_byte(2)?;
    array.value(i).push_parts(out)
}

/// Appends the spelling of a value of fixed width, of any native type.
pub(crate) fn push_numbers<W: SpellingOut>(out: &mut W, array: &PrimitiveNode, i: usize) -> Mem<()>
    requires { i < length_of (primitive_node_layout array.now) }
    ensures { OnOk result (W.Appended out.old
        (slot_bytes (get_or (under (primitive_node_layout array.now)) i null)) out.new) }
{
    match array {
        PrimitiveNode::Int8(array) => push_value(out, array, i),
        PrimitiveNode::Int16(array) => push_value(out, array, i),
        PrimitiveNode::Int32(array) => push_value(out, array, i),
        PrimitiveNode::Int64(array) => push_value(out, array, i),
        PrimitiveNode::Int128(array) => push_value(out, array, i),
        PrimitiveNode::UInt8(array) => push_value(out, array, i),
        PrimitiveNode::UInt16(array) => push_value(out, array, i),
        PrimitiveNode::UInt32(array) => push_value(out, array, i),
        PrimitiveNode::UInt64(array) => push_value(out, array, i),
        PrimitiveNode::DaysMs(array) => push_value(out, array, i),
        PrimitiveNode::MonthDayNano(array) => push_value(out, array, i),
    }
}

impl SpelledNative for i8 {
    fn push_parts<W: SpellingOut>(self, out: &mut W) -> Mem<()> {
        out.push_number(i128::from(self))
    }
}

impl SpelledNative for i16 {
    fn push_parts<W: SpellingOut>(self, out: &mut W) -> Mem<()> {
        out.push_number(i128::from(self))
    }
}

impl SpelledNative for i32 {
    fn push_parts<W: SpellingOut>(self, out: &mut W) -> Mem<()> {
        out.push_number(i128::from(self))
    }
}

impl SpelledNative for i64 {
    fn push_parts<W: SpellingOut>(self, out: &mut W) -> Mem<()> {
        out.push_number(i128::from(self))
    }
}

impl SpelledNative for u8 {
    fn push_parts<W: SpellingOut>(self, out: &mut W) -> Mem<()> {
        out.push_number(i128::from(self))
    }
}

impl SpelledNative for u16 {
    fn push_parts<W: SpellingOut>(self, out: &mut W) -> Mem<()> {
        out.push_number(i128::from(self))
    }
}

impl SpelledNative for u32 {
    fn push_parts<W: SpellingOut>(self, out: &mut W) -> Mem<()> {
        out.push_number(i128::from(self))
    }
}

impl SpelledNative for u64 {
    fn push_parts<W: SpellingOut>(self, out: &mut W) -> Mem<()> {
        out.push_number(i128::from(self))
    }
}

impl SpelledNative for i128 {
    fn push_parts<W: SpellingOut>(self, out: &mut W) -> Mem<()> {
        out.push_number(self)
    }
}

impl SpelledNative for DaysMs {
    fn push_parts<W: SpellingOut>(self, out: &mut W) -> Mem<()> {
        let days = self.0;
        let milliseconds = self.1;
        days.push_parts(out)?;
        milliseconds.push_parts(out)
    }
}

impl SpelledNative for MonthDayNano {
    fn push_parts<W: SpellingOut>(self, out: &mut W) -> Mem<()> {
        let months = self.0;
        let days = self.1;
        let nanoseconds = self.2;
        months.push_parts(out)?;
        days.push_parts(out)?;
        nanoseconds.push_parts(out)
    }
}
