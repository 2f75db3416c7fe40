//! The labels of all faces after some steps.

ghost use Rattle.std.specs.Prelude.{◌≡◌, ◌≤◌, ◌<◌, ◌+◌, ◌^◌, ℕ, length, slice_index, IfOk};
ghost use Rattle.tgap_model.specs.History.{AreNumbered, label_after};

use std::alloc::Global;
use tgap_model::{Memory, MergeStep, numbers_below};

/// The label of each face after these steps: that of face f stands at place f, and 0 is the outside. It goes back from
/// the last step, so that each label is looked up once a step.
pub fn labels_after(alloc: Global, faces: u32, steps: &[MergeStep]) -> Result<Vec<u32>, Memory>
    requires numbered { AreNumbered faces steps.now }
    requires small { faces + length steps.now + 1 < 2 ^ 32 }
    ensures count { IfOk result (λ labels. length labels.items ≡ faces + length steps.now + 1) }
    ensures value { IfOk result (λ labels. (f : ℕ) → f ≤ faces → slice_index labels.items f ≡ label_after steps.now f) }
{
    let mut labels = numbers_below(alloc, faces + steps.len() as u32 + 1)?;
    for i in (0..steps.len()).rev() {
        let step = steps[i];
        let label = labels[step.made as usize];
        labels[step.loser as usize] = label;
        labels[step.winner as usize] = label;
    }
    Ok(labels)
}
