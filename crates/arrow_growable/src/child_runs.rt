//! The runs that children take where slots are appended to their parent.
ghost use Rattle.std.specs.Prelude.{◌≡◌};
ghost use Rattle.arrow_growable.specs.ChildRuns.{HasRuns, runs_for};

use arrow_buffers::Bitmap;
use arrow_canon::Run;

/// The runs of each child.
#[derive(Drop)]
pub enum ItemRuns {
    /// All children take the same.
    Same(Vec<Run>),
    /// Each child takes runs of its own.
    Each(Vec<Vec<Run>>),
}

impl ItemRuns {
    /// The runs that a child takes.
    pub fn of_child(&self, j: usize) -> &[Run]
        requires { HasRuns j self.now }
        ensures { result.now ≡ runs_for self.now j }
    {
        match self {
            ItemRuns::Same(runs) => runs.as_slice(),
            ItemRuns::Each(lists) => lists[j].as_slice(),
        }
    }
}

/// What is appended beside the parts: the runs that the children take, the mask of the slots, where
/// one of them is null, and their count.
#[derive(Drop)]
pub struct ChildRuns {
    pub items: ItemRuns,
    pub validity: Option<Bitmap>,
    pub length: usize,
}
