//! The pieces of a plan.

/// A piece of the plan of `gather`, which takes slots of several arrays of one type.
#[derive(Clone, Copy, Debug, PartialEq, Eq)]
pub enum Piece {
    /// The `len` slots from `start` on of the array at `index`, `copies` times.
    Copy {
        index: usize,
        start: usize,
        len: usize,
        copies: usize,
    },
    /// `n` filling slots: nulls, but of a union the first field's filling.
    Nulls {
        n: usize,
    },
}
