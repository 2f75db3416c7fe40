//! Merging: its steps, and the arcs as it sees them.

ghost use Rattle.std.specs.Prelude.{◌≡◌};
ghost use Rattle.tgap_model.specs.History.{relabel};

/// A step of the merge history: the loser and the winner become one new face.
#[derive(Clone, Copy, Debug, PartialEq, Eq)]
pub struct MergeStep {
    pub loser: u32,
    pub winner: u32,
    /// The number of the new face.
    pub made: u32,
}

impl MergeStep {
    /// The label that a label becomes by the step.
    pub fn label_after(&self, label: u32) -> u32
        ensures { result ≡ relabel self.now label }
    {
        if label == self.loser || label == self.winner {
            self.made
        } else {
            label
        }
    }
}

/// An arc as merging sees it.
#[derive(Clone, Copy, PartialEq, Eq)]
pub struct LabelledArc {
    /// The present label of the face at its left; 0 is the outside.
    pub left: u32,
    /// The present label of the face at its right.
    pub right: u32,
    /// Its shoelace sum: what it adds to twice the area of the face at its left.
    pub area: i128,
    /// Its length, in grid units.
    pub extent: u64,
}
