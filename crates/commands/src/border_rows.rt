//! The borders that are left after some steps of the history.

ghost use Rattle.std.specs.Prelude.{◌≡◌, ◌≤◌, ◌<◌, ◌^◌, length, slice_index, take, All, IfOk};
ghost use Rattle.tgap_model.specs.History.{IsHistory, label_after};
ghost use Rattle.commands.specs.Border.{border_by};

use face_tree::FaceTree;
use std::alloc::Global;
use tgap_model::{Base, BaseArc, BorderRow, List, Memory, MergeStep};

/// The arcs of a base map that are borders after so many of the steps of its history, with the faces at their sides.
pub fn border_rows(
    alloc: Global,
    base: &Base,
    steps: &List<MergeStep>,
    step: u32,
) -> Result<List<BorderRow>, Memory>
    requires history { IsHistory base.now steps.now }
    requires within { step ≤ length steps.now }
    ensures { IfOk result (λ rows. rows ≡ border_by (label_after (take step steps.now)) 0 base.now.arcs) }
{
    let tree = FaceTree::of(alloc, base, steps)?;
    let labels = tree.labels_at(alloc, step)?;
    rows_of(alloc, base.arcs().as_slice(), labels.as_slice())
}

/// The arcs whose sides have different labels.
fn rows_of(alloc: Global, arcs: &[BaseArc], labels: &[u32]) -> Result<List<BorderRow>, Memory>
    requires labelled { All (λ a. (a.left < length labels.now) × (a.right < length labels.now)) arcs.now }
    requires few { length arcs.now < 2 ^ 32 }
    ensures { IfOk result (λ rows. rows ≡ border_by (slice_index labels.now) 0 arcs.now) }
{
    let mut rows = List::new(alloc);
    for (i, arc) in arcs.iter().enumerate() {
        let left = labels[arc.left as usize];
        let right = labels[arc.right as usize];
        if left != right {
            rows.push(BorderRow {
                arc: i as u32,
                left,
                right,
            })?;
        }
    }
    Ok(rows)
}
