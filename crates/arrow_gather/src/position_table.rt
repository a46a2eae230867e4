//! What is known of the positions of an array.
ghost use Rattle.std.specs.Prelude.{◌≡◌, get_or, replicate, set, None, Some, IfOk};

use arrow_types::Mem;
use std::alloc::Global;

/// What is known of the first positions of an array. Of a position after them nothing is ever known:
/// an array of nulls has more positions than memory has room for.
pub(crate) struct PositionTable<T> {
    /// What is known of each position, none where nothing is.
    known: Vec<Option<T>>,
}

/// By hand: where a table may end there is one call to prove then, not the drop of each field.
impl<T: Drop> Drop for PositionTable<T> {
    fn drop(self) {
        let PositionTable { known: _ } = self;
    }
}

impl<T: Copy> PositionTable<T> {
    /// A table of the first n positions, of which nothing is known.
    pub(crate) fn new(alloc: Global, n: usize) -> Mem<PositionTable<T>>
        ensures { IfOk result (λ t. t.known.items ≡ replicate n None) }
    {
        let mut known = Vec::new(alloc);
        known.resize(n, None)?;
        Ok(PositionTable { known })
    }

    /// What is known of position i.
    pub(crate) fn get(&self, i: usize) -> Option<T>
        ensures { result ≡ get_or self.now.known.items i None }
    {
        if i < self.known.len() {
            self.known[i]
        } else {
            None
        }
    }

    /// From here on the value is known of position i, if the table has it.
    pub(crate) fn set(&mut self, i: usize, value: T)
        ensures { self.new.known.items ≡ set self.old.known.items i (Some value) }
    {
        if i < self.known.len() {
            self.known[i] = Some(value);
        }
    }
}
