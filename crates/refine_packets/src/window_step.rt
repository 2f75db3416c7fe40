//! The record of a step for a window.

ghost use Rattle.std.specs.Prelude.{◌⊎◌, true, false, ◌≡◌, ◌<◌, ◌≤◌, ℕ, ◌+◌, ◌-◌, ◌^◌, length, IfOk, OnOk};
ghost use Rattle.tgap_model.specs.Merged.{merged};
ghost use Rattle.tgap_model.specs.Records.{step_record};
ghost use Rattle.tgap_model.specs.WindowRecords.{has_key, window_at, window_step};
ghost use Rattle.edge_forest.specs.Forest.{last_step};
ghost use Rattle.refine_packets.specs.Counts.{AreCounted, AreCounts, count_at, read_for, sides_at};
ghost use Rattle.refine_packets.specs.Near.{IsSight};
ghost use Rattle.refine_packets.specs.Walk.{AreKnown, is_known};

use crate::changes::{Changes, all_coming, changes_of};
use crate::counts::{add_sides, take_sides};
use crate::known::{enter_all, leave_all};
use crate::near::NearEdges;
use crate::rows::{counted_rows, faces_out};
use edge_forest::Forest;
use face_tree::FaceTree;
use std::alloc::Global;
use tgap_model::{Edge, Memory, StepRecord, WindowStep};

/// Counts the sides of the edges of a window before a step, where those after it were counted. The edges that a mend changes
/// go, those that are made of them stay or come, and the winner has what the new face had.
fn recount(
    counts: &mut Vec<u32>,
    made: u32,
    winner: u32,
    gone: &[Edge],
    kept: &[Edge],
    comes: &[Edge],
)
    requires made { made < length counts.old.items }
    requires winner { winner < length counts.old.items }
    requires gone { AreCounted (length counts.old.items) gone.now }
    requires kept { AreCounted (length counts.old.items) kept.now }
    requires comes { AreCounted (length counts.old.items) comes.now }
    requires room { (f : ℕ) → count_at counts.old.items (read_for made winner f) - sides_at (read_for made winner f) gone.now
        + sides_at f kept.now + sides_at f comes.now < 2 ^ 32 }
    ensures long { length counts.new.items ≡ length counts.old.items }
    ensures each { (f : ℕ) → count_at counts.new.items f
        ≡ count_at counts.old.items (read_for made winner f) - sides_at (read_for made winner f) gone.now
        + sides_at f kept.now + sides_at f comes.now }
{
    take_sides(counts, gone);
    counts.swap(made as usize, winner as usize);
    add_sides(counts, kept);
    add_sides(counts, comes);
}

/// Notes the edges that are known to be in the window before a step, where those after it were noted. The edges that a mend
/// changes go, those that are made of them stay or come.
fn renote(known: &mut Vec<bool>, gone: &[Edge], kept: &[Edge], comes: &[Edge])
    ensures { (i : ℕ) → is_known known.new.items i ≡ true
        → ((is_known known.old.items i ≡ true) × (has_key gone.now i ≡ false)) ⊎ (has_key kept.now i ≡ true) ⊎ (has_key comes.now i ≡ true) }
{
    leave_all(known, gone);
    enter_all(known, kept);
    enter_all(known, comes);
}

/// The record of a step for a window, out of the record of the whole step. The sides of the edges in the window after the step
/// are counted for each face, and then those of the edges before it; so are the edges noted that are known to be in the window.
pub fn window_step(
    alloc: Global,
    tree: &FaceTree,
    forest: &Forest,
    near: &NearEdges,
    whole: &StepRecord,
    counts: &mut Vec<u32>,
    known: &mut Vec<bool>,
) -> Result<WindowStep, Memory>
    requires sight { IsSight forest.now tree.now near.now }
    requires some { 1 ≤ whole.now.step }
    requires step { whole.now.step ≤ last_step forest.now }
    requires whole { whole.now ≡ step_record (merged forest.now.base) whole.now.step }
    requires long { length counts.old.items ≡ length forest.now.base.classes + last_step forest.now + 1 }
    requires counts { AreCounts counts.old.items (window_at (merged forest.now.base) near.now.area whole.now.step).edges }
    requires known { AreKnown known.old.items (window_at (merged forest.now.base) near.now.area whole.now.step).edges }
    ensures exact { IfOk result (λ step. step ≡ window_step (merged forest.now.base) near.now.area whole.now.step) }
    ensures long { OnOk result (length counts.new.items ≡ length counts.old.items) }
    ensures counts { OnOk result (AreCounts counts.new.items (window_at (merged forest.now.base) near.now.area (whole.now.step - 1)).edges) }
    ensures known { OnOk result (AreKnown known.new.items (window_at (merged forest.now.base) near.now.area (whole.now.step - 1)).edges) }
{
    let mends = whole.mends.as_slice();
    let changes = changes_of(alloc, tree, forest, near, known, mends, whole.step)?;
    let Changes {
        mends,
        gone,
        kept,
        comes: pieces,
    } = changes;
    let comes = all_coming(alloc, &near.area, pieces, whole.ended.as_slice())?;
    let out = faces_out(alloc, counts, whole.loser, whole.winner, comes.as_slice())?;
    recount(
        counts,
        whole.made,
        whole.winner,
        gone.as_slice(),
        kept.as_slice(),
        comes.as_slice(),
    );
    renote(known, gone.as_slice(), kept.as_slice(), comes.as_slice());
    let faces = counted_rows(alloc, tree, counts, &out)?;
    Ok(WindowStep {
        step: whole.step,
        loser: whole.loser,
        winner: whole.winner,
        made: whole.made,
        faces,
        mends,
        comes,
    })
}
