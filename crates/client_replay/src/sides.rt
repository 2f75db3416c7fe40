//! The faces at the sides of the edges of the finer slice: of those that stay and of those that come.

ghost use Rattle.std.specs.Prelude.{◌≡◌, ◌||◌, ◌==◌, ◌&&◌, ◌++◌, ℕ, not, IfOk, OnOk, IsTrue};
ghost use Rattle.std.specs.List.{list_any};
ghost use Rattle.std.specs.BTreeSet.{contains};
ghost use Rattle.std.specs.Ordering.{nat_cmp};
ghost use Rattle.tgap_model.specs.Removals.{has_side};
ghost use Rattle.client_replay.specs.Coming.{staying, lowered};
ghost use Rattle.client_replay.specs.Rules.{mends_in_order};
ghost use Rattle.client_replay.specs.Windows.{AreSides};
ghost use Rattle.client_replay.specs.Working.{edge_of, slice_of};

use crate::find::has_mend;
use crate::labels::Labels;
use crate::lines::Line;
use crate::pieces::in_place_of;
use crate::working::Working;
use std::alloc::Global;
use std::collections::BTreeSet;
use tgap_model::{Edge, Memory, StepRecord};

/// Puts the faces at both sides of an edge in.
fn add_sides(sides: &mut BTreeSet<u32>, left: u32, right: u32) -> Result<(), Memory>
    ensures { OnOk result ((f : ℕ) → contains nat_cmp sides.new f ≡ (contains nat_cmp sides.old f || ((left == f) || (right == f)))) }
{
    sides.insert(left)?;
    sides.insert(right)?;
    Ok(())
}

/// Puts in the faces beside the edge of a line, where it stays.
fn add_line(
    sides: &mut BTreeSet<u32>,
    labels: &Labels,
    step_record: &StepRecord,
    key: u32,
    line: &Line,
) -> Result<(), Memory>
    requires mends { IsTrue (mends_in_order step_record.now.mends) }
    ensures { OnOk result ((f : ℕ) → contains nat_cmp sides.new f ≡ (contains nat_cmp sides.old f
        || (not (list_any (λ m. m.key == key) step_record.now.mends) && has_side f (lowered step_record.now (edge_of labels.now (key, line.now)))))) }
{
    if has_mend(step_record.mends.as_slice(), key) {
        return Ok(());
    }
    let left = in_place_of(step_record.made, step_record.winner, labels.face(line.left));
    let right = in_place_of(
        step_record.made,
        step_record.winner,
        labels.face(line.right),
    );
    add_sides(sides, left, right)
}

/// Puts in the faces beside the edges that stay.
fn add_staying(
    sides: &mut BTreeSet<u32>,
    working: &Working,
    step_record: &StepRecord,
) -> Result<(), Memory>
    requires mends { IsTrue (mends_in_order step_record.now.mends) }
    ensures { OnOk result ((f : ℕ) → contains nat_cmp sides.new f ≡ (contains nat_cmp sides.old f
        || list_any (has_side f) (staying step_record.now (slice_of working.now).edges))) }
{
    for (key, line) in working.lines.iter() {
        add_line(sides, &working.labels, step_record, *key, line)?;
    }
    Ok(())
}

/// Puts in the faces beside these edges.
fn add_all(sides: &mut BTreeSet<u32>, edges: &[Edge]) -> Result<(), Memory>
    ensures { OnOk result ((f : ℕ) → contains nat_cmp sides.new f ≡ (contains nat_cmp sides.old f || list_any (has_side f) edges.now)) }
{
    for edge in edges {
        add_sides(sides, edge.left, edge.right)?;
    }
    Ok(())
}

/// The faces beside the edges that stay and beside these, which come.
pub fn sides_after(
    alloc: Global,
    working: &Working,
    step_record: &StepRecord,
    edges: &[Edge],
) -> Result<BTreeSet<u32>, Memory>
    requires mends { IsTrue (mends_in_order step_record.now.mends) }
    ensures { IfOk result (λ sides. AreSides sides (staying step_record.now (slice_of working.now).edges ++ edges.now)) }
{
    let mut sides = BTreeSet::new(alloc);
    add_staying(&mut sides, working, step_record)?;
    add_all(&mut sides, edges)?;
    Ok(sides)
}
