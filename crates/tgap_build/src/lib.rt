//! A map made ready to be read at every scale: a checked base map, with its tree of faces, its forest of edges, out of which each
//! step removes its vertices, and the record of each step. It stands on `face_merge` for the merge history, on `face_tree`, `edge_forest`,
//! `point_rope`, `vertex_drop` and `grid_index`.
#![tactic(auto)]

ghost use Rattle.std.specs.Prelude.{◌≡◌, ◌≤◌, false, true, unsigned_abs, All, IfOk, OnOk};
ghost use Rattle.tgap_model.specs.Bounds.{max_area};
ghost use Rattle.tgap_model.specs.History.{IsHistory, history_of as whole_history};
ghost use Rattle.tgap_model.specs.Merged.{merged};
ghost use Rattle.face_merge.specs.Areas.{lost_areas};
ghost use Rattle.face_tree.specs.Tree.{face_history};
ghost use Rattle.edge_forest.specs.Forest.{IsForest, last_step};
ghost use Rattle.tgap_build.specs.Built.{HasRemoved, all_records};

mod boxed;
mod boxes;
mod built;
mod corner_queue;
mod corner_queues;
mod edge_table;
mod edges;
mod joined;
mod live_edges;
mod live_ropes;
mod measures;
mod mends;
mod point_set;
mod removal;
mod room;
mod sought;

pub use boxed::BoxedForest;
pub use built::Built;
use edge_forest::Forest;
pub use edges::edges_of;
use face_merge::{history_of, lost_areas};
use face_tree::FaceTree;
use live_edges::LiveEdges;
use measures::measures_of;
use removal::make_step;
use std::alloc::Global;
use std::thread::Threads;
use tgap_model::{Base, Checked, List, Memory, MergeStep, StepRecord};

/// The whole history of a map, and twice the area of the face that each step takes. The measures of the arcs, of which both
/// are made, are taken once and dropped.
fn history_with_areas<R: Threads + Sync>(
    rt: &R,
    alloc: Global,
    base: &Base,
) -> Result<(List<MergeStep>, List<i128>), Memory>
    ensures history { IfOk result (λ made. IsHistory base.now made.0) }
    ensures steps { IfOk result (λ made. made.0 ≡ whole_history base.now) }
    ensures areas { IfOk result (λ made. made.1 ≡ lost_areas (merged base.now)) }
    ensures small { IfOk result (λ made. All (λ area. unsigned_abs area ≤ max_area) made.1) }
{
    let measures = measures_of(rt, alloc, base)?;
    let steps = history_of(alloc, base, &measures)?;
    let areas = lost_areas(alloc, base, &measures, steps.as_slice())?;
    Ok((steps, areas))
}

/// Makes all steps in a forest, and takes out what they remove. Twice the area of the face that each step takes is given. It
/// gives the record of each step.
fn sweep_all(
    alloc: Global,
    tree: &FaceTree,
    forest: &mut Forest,
    steps: &[MergeStep],
    areas: &[i128],
) -> Result<List<StepRecord>, Memory>
    requires forest { IsForest forest.old }
    requires open { forest.old.closed ≡ false }
    requires made { forest.old.made ≡ 0 }
    requires steps { steps.now ≡ whole_history forest.old.base }
    requires areas { areas.now ≡ lost_areas (merged forest.old.base) }
    requires small { All (λ area. unsigned_abs area ≤ max_area) areas.now }
    requires tree { tree.now ≡ face_history (merged forest.old.base) }
    requires removed { HasRemoved forest.old 0 }
    ensures records { IfOk result (λ records. records ≡ all_records (merged forest.old.base)) }
    ensures base { OnOk result (forest.new.base ≡ forest.old.base) }
    ensures made { OnOk result (forest.new.made ≡ last_step forest.old) }
    ensures open { OnOk result (forest.new.closed ≡ false) }
    ensures removed { OnOk result (HasRemoved forest.new (last_step forest.old)) }
{
    let mut live = LiveEdges::of(alloc, tree, forest)?;
    let mut records = List::with_capacity(alloc, steps.len())?;
    for i in 0..steps.len() {
        records.push(make_step(
            alloc,
            tree,
            forest,
            &mut live,
            &steps[i],
            areas[i],
            i as u32 + 1,
        )?)?;
    }
    Ok(records)
}

/// The edges of a map after all these steps, which are those of its history, with what they remove, and the record of each
/// step. Twice the area of the face that each step takes is given.
fn forest_of(
    alloc: Global,
    checked: Checked,
    tree: &FaceTree,
    steps: &[MergeStep],
    areas: &[i128],
) -> Result<(Forest, List<StepRecord>), Memory>
    requires steps { steps.now ≡ whole_history checked }
    requires areas { areas.now ≡ lost_areas (merged checked) }
    requires small { All (λ area. unsigned_abs area ≤ max_area) areas.now }
    requires tree { tree.now ≡ face_history (merged checked) }
    ensures base { IfOk result (λ made. made.0.base ≡ checked) }
    ensures closed { IfOk result (λ made. made.0.closed ≡ true) }
    ensures made { IfOk result (λ made. made.0.made ≡ last_step made.0) }
    ensures removed { IfOk result (λ made. HasRemoved made.0 (last_step made.0)) }
    ensures records { IfOk result (λ made. made.1 ≡ all_records (merged checked)) }
{
    let mut forest = Forest::of_checked(alloc, checked)?;
    let records = sweep_all(alloc, tree, &mut forest, steps, areas)?;
    forest.close(alloc)?;
    Ok((forest, records))
}

/// A checked map with its merge history, which is made here, as the tree of its faces, the forest of its edges with their boxes,
/// and the record of each step. From then on other maps can hold its arcs too. It fails on want of memory alone.
pub fn build<R: Threads + Sync>(rt: &R, alloc: Global, checked: Checked) -> Result<Built, Memory>
    // It is the same map.
    ensures { IfOk result (λ built. built ≡ checked) }
{
    let checked = checked.into_shared(alloc)?;
    let (steps, areas) = history_with_areas(rt, alloc, checked.base())?;
    let tree = FaceTree::of(alloc, checked.base(), &steps)?;
    let (forest, records) = forest_of(alloc, checked, &tree, steps.as_slice(), areas.as_slice())?;
    Ok(Built::of(tree, BoxedForest::of(alloc, forest)?, records))
}
