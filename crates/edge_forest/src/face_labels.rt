//! Labels of faces, while the history is run. An edge holds the labels of its two faces, and the new face of a step takes the
//! label of the step's winner, so that the winner's edges stay as they are.

ghost use Rattle.std.specs.Prelude.{◌≡◌, ◌≢◌, ◌<◌, ℕ, [], length, set, IfOk};
ghost use Rattle.std.specs.List.{range_with_len};
ghost use Rattle.tgap_model.specs.History.{relabel};
ghost use Rattle.edge_forest.specs.FaceLabels.{face_of, label_of, HasLabel, IsCurrent, sides_of, moved, moved_label};

use std::alloc::Global;
use tgap_model::{Memory, MergeStep};

/// The labels of the loser and of the winner of a step.
#[derive(Clone, Copy)]
pub struct Sides {
    pub loser: u32,
    pub winner: u32,
}

impl Sides {
    /// A label after the step: that of the winner in place of that of the loser.
    pub fn moved(self, label: u32) -> u32
        ensures { result ≡ moved_label self label }
    {
        if label == self.loser {
            self.winner
        } else {
            label
        }
    }
}

/// The face of each label, and the label of each face that is live.
#[derive(Drop)]
pub struct FaceLabels {
    faces: Vec<u32>,
    labels: Vec<u32>,
}

/// The numbers below `count`, in order.
fn numbers_below(alloc: Global, count: u32) -> Result<Vec<u32>, Memory>
    ensures { IfOk result (λ numbers. numbers.items ≡ range_with_len 0 count) }
{
    let mut numbers = Vec::with_capacity(alloc, count as usize)?;
    for i in 0..count {
        numbers.push(i)?;
    }
    Ok(numbers)
}

impl FaceLabels {
    /// A label for each face of a map before its first step, and for the outside: its number. Faces are numbered below `count`
    /// in the end.
    pub fn of(alloc: Global, count: u32) -> Result<FaceLabels, Memory>
        ensures faces_count { IfOk result (λ labels. length labels.faces.items ≡ count) }
        ensures labels_count { IfOk result (λ labels. length labels.labels.items ≡ count) }
        ensures labels { IfOk result (λ labels. (f : ℕ) → f < count → HasLabel labels f) }
        ensures same { IfOk result (λ labels. (f : ℕ) → f < count → label_of labels f ≡ f) }
    {
        let faces = numbers_below(alloc, count)?;
        let labels = numbers_below(alloc, count)?;
        Ok(FaceLabels { faces, labels })
    }

    /// No label. It takes no memory.
    pub fn none(alloc: Global) -> FaceLabels
        ensures { (result.faces.items ≡ []) × (result.labels.items ≡ []) }
    {
        FaceLabels {
            faces: Vec::new(alloc),
            labels: Vec::new(alloc),
        }
    }

    /// The face of a label.
    pub fn face(&self, label: u32) -> u32
        requires { label < length self.now.faces.items }
        ensures { result ≡ face_of self.now label }
    {
        self.faces[label as usize]
    }

    /// The label of a face.
    pub fn label(&self, face: u32) -> u32
        requires { face < length self.now.labels.items }
        ensures { result ≡ label_of self.now face }
    {
        self.labels[face as usize]
    }

    /// The labels of the loser and of the winner of a step.
    pub fn sides(&self, step: &MergeStep) -> Sides
        requires loser { step.now.loser < length self.now.labels.items }
        requires winner { step.now.winner < length self.now.labels.items }
        ensures { result ≡ sides_of self.now step.now }
    {
        Sides {
            loser: self.label(step.loser),
            winner: self.label(step.winner),
        }
    }

    /// Lets the label of the winner stand for the new face.
    pub fn merge(&mut self, step: &MergeStep)
        requires winner { HasLabel self.old step.now.winner }
        requires made { step.now.made < length self.old.labels.items }
        ensures faces { self.new.faces.items ≡ set self.old.faces.items (label_of self.old step.now.winner) step.now.made }
        ensures follow { HasLabel self.old step.now.loser → step.now.loser ≢ step.now.winner → (l : ℕ) → IsCurrent self.old l → face_of self.old l ≢ step.now.made
            → IsCurrent self.new (moved self.old step.now l) × (face_of self.new (moved self.old step.now l) ≡ relabel step.now (face_of self.old l)) }
        ensures labels { self.new.labels.items ≡ set self.old.labels.items step.now.made (label_of self.old step.now.winner) }
    {
        let label = self.labels[step.winner as usize];
        self.faces[label as usize] = step.made;
        self.labels[step.made as usize] = label;
    }
}
