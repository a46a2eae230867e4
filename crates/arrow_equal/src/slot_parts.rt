//! What a slot is made of: a value, or slots of the children.
use crate::numbers::Numbers;
use arrow_meaning::ArrayRef;

/// The parts of a slot.
#[derive(Clone, Copy)]
pub enum SlotParts<'a> {
    /// Nothing.
    Null,
    /// A bit.
    Bool(bool),
    /// The numbers of a value of fixed width.
    Number(Numbers),
    /// A binary value or a string.
    Bytes(&'a [u8]),
    /// A list: slots of the child from a position on, with their count.
    Items(&'a ArrayRef, usize, usize),
    /// A struct: of each child the slot at the position.
    Row(&'a [ArrayRef], usize),
    /// A union: the type number, and the slot of the child that it selects.
    Chosen(u8, &'a ArrayRef, usize),
}
