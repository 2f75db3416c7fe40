//! A step of the history, with what it removes, and its record.

ghost use Rattle.std.specs.Prelude.{◌≡◌, ◌<◌, ◌≤◌, ◌-◌, ◌^◌, ◌==◌, ◌++◌, ℕ, [], false, not, map, filter, flat_map, option_to_list, length, All, IsPermutation, IfOk, OnOk};
ghost use Rattle.std.specs.List.{list_any};
ghost use Rattle.std.specs.List.Sorted.{IsNonDecreasing, IsNonDecreasingBy};
ghost use Rattle.tgap_model.specs.Merged.{merged, step_number, face_area};
ghost use Rattle.tgap_model.specs.Chains.{chains_at};
ghost use Rattle.tgap_model.specs.Removals.{removals_to};
ghost use Rattle.tgap_model.specs.Records.{step_record};
ghost use Rattle.grid_index.specs.Keyed.{edge_in};
ghost use Rattle.grid_index.specs.Live.{keys};
ghost use Rattle.face_tree.specs.Tree.{face_history};
ghost use Rattle.edge_forest.specs.Forest.{last_step};
ghost use Rattle.tgap_build.specs.Built.{HasRemoved};
ghost use Rattle.tgap_build.specs.Queues.{IsCornered};
ghost use Rattle.tgap_build.specs.Running.{AreRunning, has_any};
ghost use Rattle.tgap_build.specs.Sought.{IsSought};
ghost use Rattle.tgap_build.specs.Table.{labelled_edges};
ghost use Rattle.tgap_build.specs.Changes.{count_at, whole_of, made_of, is_changed};

use crate::corner_queues::candidates;
use crate::edge_table::EdgeTable;
use crate::live_edges::{Changed, LiveEdges, Made, made_keys, push_whole};
use crate::mends::mends_of;
use crate::point_set::PointSet;
use crate::sought::swept;
use edge_forest::Forest;
use face_tree::FaceTree;
use std::alloc::Global;
use tgap_model::{List, Memory, Mend, MergeStep, StepRecord};

/// Appends this key, if there is an edge with it that has a point of the set.
fn push_losing(
    gone: &PointSet,
    edges: &EdgeTable,
    key: u32,
    losing: &mut Vec<u32>,
) -> Result<(), Memory>
    ensures { OnOk result (losing.new.items ≡ losing.old.items ++ keys (filter (has_any gone.now) (option_to_list (edge_in edges.now.places.items key)))) }
{
    if let Some(edge) = edges.edge(key) {
        if edge.row().has_any(gone) {
            losing.push(edge.key())?;
        }
    }
    Ok(())
}

/// Those of these keys whose edges have a point of the set.
fn losing(
    alloc: Global,
    gone: &PointSet,
    edges: &EdgeTable,
    among: &[u32],
) -> Result<Vec<u32>, Memory>
    ensures { IfOk result (λ losing. losing.items ≡ flat_map (λ k. keys (filter (has_any gone.now) (option_to_list (edge_in edges.now.places.items k)))) among.now) }
{
    let mut losing = Vec::new(alloc);
    for key in among {
        push_losing(gone, edges, *key, &mut losing)?;
    }
    Ok(losing)
}

/// These edges, which stand in order of key, and those with the keys of `losing`, as the pieces of which they are made,
/// in order of key.
fn with_losing(
    alloc: Global,
    edges: &EdgeTable,
    step: &MergeStep,
    made: Vec<Made>,
    losing: &[u32],
) -> Result<Vec<Made>, Memory>
    requires room { All (λ k. k < length edges.now.places.items) losing.now }
    requires few { (i : ℕ) → count_at edges.now.places.items i < 2 ^ 32 }
    requires order { IsNonDecreasing (map (λ one. one.key) made.items) }
    ensures moved { IfOk result (λ all. IsPermutation
        (made.items ++ map (whole_of edges.now.places.items step.now []) (filter (λ i. not (list_any (λ j. j == i) (map (λ one. one.key) made.items))) losing.now)) all.items) }
    ensures order { IfOk result (λ all. IsNonDecreasingBy (λ one. one.key) all.items) }
{
    let mut all = made;
    let others = made_keys(alloc, &all)?;
    push_whole(alloc, edges, step, &[], losing, &others, &mut all)?;
    all.sort_unstable_by_key(|one| one.key);
    Ok(all)
}

/// Takes out of the forest and of the edges the vertices that the last step, number k, removes, where the ratio is
/// above 0. It gives the mends of the step. What the step changed and twice the area of its loser are given. Of the
/// edges that border the new face those alone are looked at that have a corner which is small enough.
fn remove_vertices(
    alloc: Global,
    forest: &mut Forest,
    live: &mut LiveEdges,
    step: &MergeStep,
    made: Vec<Made>,
    loser_area: i128,
    ratio: u32,
    k: u32,
) -> Result<List<Mend>, Memory>
    requires open { forest.old.closed ≡ false }
    requires some { 0 < k }
    requires made { forest.old.made ≡ k }
    requires step { step.now ≡ step_number (merged forest.old.base) k }
    requires area { loser_area ≡ face_area (merged forest.old.base) (k - 1) (step_number (merged forest.old.base) k).loser }
    requires ratio { ratio ≡ forest.old.base.rules.ratio }
    requires positive { 0 < ratio }
    requires removed { HasRemoved forest.old (k - 1) }
    requires running { AreRunning forest.old k (removals_to (merged forest.old.base) (k - 1)) live.old.edges }
    requires sought { IsSought live.old.edges.places.items live.old.sought }
    requires corners { IsCornered (length live.old.edges.beside.items) (labelled_edges live.old.edges) live.old.corners }
    requires changed { made.items ≡ map (made_of (merged forest.old.base) k) (filter (is_changed (merged forest.old.base) k) (chains_at (merged forest.old.base) k)) }
    ensures mends { IfOk result (λ mends. mends ≡ (step_record (merged forest.old.base) k).mends) }
    ensures base { OnOk result (forest.new.base ≡ forest.old.base) }
    ensures made { OnOk result (forest.new.made ≡ k) }
    ensures open { OnOk result (forest.new.closed ≡ false) }
    ensures edges { OnOk result (forest.new.edges ≡ forest.old.edges) }
    ensures removed { OnOk result (HasRemoved forest.new k) }
    ensures running { OnOk result (AreRunning forest.new k (removals_to (merged forest.old.base) k) live.new.edges) }
    ensures sought { OnOk result (IsSought live.new.edges.places.items live.new.sought) }
    ensures corners { OnOk result (IsCornered (length live.new.edges.beside.items) (labelled_edges live.new.edges) live.new.corners) }
{
    let made_label = live.edges.label(step.made);
    let keys = candidates(
        alloc,
        &live.edges,
        &mut live.corners,
        made_label,
        loser_area,
        ratio,
    )?;
    let removals = swept(
        alloc,
        &live.edges,
        &mut live.sought,
        &keys,
        made_label,
        loser_area,
        ratio,
        k,
    )?;
    let gone = PointSet::of(alloc, removals.as_slice())?;
    let losing = losing(alloc, &gone, &live.edges, &keys)?;
    let made = with_losing(alloc, &live.edges, step, made, &losing)?;
    let mends = mends_of(alloc, &live.edges, step, made, &gone)?;
    forest.remove(&removals);
    live.remove(alloc, &losing, &gone)?;
    Ok(mends)
}

/// The mends of the last step, number k, where the ratio is 0, and nothing is removed.
fn plain_mends(
    alloc: Global,
    forest: &Forest,
    live: &LiveEdges,
    step: &MergeStep,
    made: Vec<Made>,
    k: u32,
) -> Result<List<Mend>, Memory>
    requires some { 0 < k }
    requires made { forest.now.made ≡ k }
    requires step { step.now ≡ step_number (merged forest.now.base) k }
    requires ratio { forest.now.base.rules.ratio ≡ 0 }
    requires running { AreRunning forest.now k (removals_to (merged forest.now.base) (k - 1)) live.now.edges }
    requires changed { made.items ≡ map (made_of (merged forest.now.base) k) (filter (is_changed (merged forest.now.base) k) (chains_at (merged forest.now.base) k)) }
    ensures { IfOk result (λ mends. mends ≡ (step_record (merged forest.now.base) k).mends) }
{
    let gone = PointSet::of(alloc, &[])?;
    mends_of(alloc, &live.edges, step, made, &gone)
}

/// The mends of the last step, number k, and what it removes. Where the ratio is 0 nothing is removed, and none of
/// the edges that the step did not change is looked at.
fn mend_and_remove(
    alloc: Global,
    forest: &mut Forest,
    live: &mut LiveEdges,
    step: &MergeStep,
    made: Vec<Made>,
    loser_area: i128,
    ratio: u32,
    k: u32,
) -> Result<List<Mend>, Memory>
    requires open { forest.old.closed ≡ false }
    requires some { 0 < k }
    requires made { forest.old.made ≡ k }
    requires step { step.now ≡ step_number (merged forest.old.base) k }
    requires area { loser_area ≡ face_area (merged forest.old.base) (k - 1) (step_number (merged forest.old.base) k).loser }
    requires ratio { ratio ≡ forest.old.base.rules.ratio }
    requires removed { HasRemoved forest.old (k - 1) }
    requires running { AreRunning forest.old k (removals_to (merged forest.old.base) (k - 1)) live.old.edges }
    requires sought { IsSought live.old.edges.places.items live.old.sought }
    requires corners { IsCornered (length live.old.edges.beside.items) (labelled_edges live.old.edges) live.old.corners }
    requires changed { made.items ≡ map (made_of (merged forest.old.base) k) (filter (is_changed (merged forest.old.base) k) (chains_at (merged forest.old.base) k)) }
    ensures mends { IfOk result (λ mends. mends ≡ (step_record (merged forest.old.base) k).mends) }
    ensures base { OnOk result (forest.new.base ≡ forest.old.base) }
    ensures made { OnOk result (forest.new.made ≡ k) }
    ensures open { OnOk result (forest.new.closed ≡ false) }
    ensures removed { OnOk result (HasRemoved forest.new k) }
    ensures running { OnOk result (AreRunning forest.new k (removals_to (merged forest.old.base) k) live.new.edges) }
    ensures sought { OnOk result (IsSought live.new.edges.places.items live.new.sought) }
    ensures corners { OnOk result (IsCornered (length live.new.edges.beside.items) (labelled_edges live.new.edges) live.new.corners) }
{
    if ratio > 0 {
        remove_vertices(alloc, forest, live, step, made, loser_area, ratio, k)
    } else {
        plain_mends(alloc, forest, live, step, made, k)
    }
}

/// Makes step number k of the history in the forest, takes out what it removes, and gives its record. The edges are
/// those before the step, and then those after it. Twice the area of the step's loser is given. Where nothing is
/// removed the time is that of the loser's edges, and of the points of the edges that the step changes.
pub fn make_step(
    alloc: Global,
    tree: &FaceTree,
    forest: &mut Forest,
    live: &mut LiveEdges,
    step: &MergeStep,
    loser_area: i128,
    k: u32,
) -> Result<StepRecord, Memory>
    requires open { forest.old.closed ≡ false }
    requires some { 0 < k }
    requires made { forest.old.made ≡ k - 1 }
    requires within { k ≤ last_step forest.old }
    requires history { tree.now ≡ face_history (merged forest.old.base) }
    requires step { step.now ≡ step_number (merged forest.old.base) k }
    requires area { loser_area ≡ face_area (merged forest.old.base) (k - 1) step.now.loser }
    requires removed { HasRemoved forest.old (k - 1) }
    requires running { AreRunning forest.old (k - 1) (removals_to (merged forest.old.base) (k - 1)) live.old.edges }
    requires sought { IsSought live.old.edges.places.items live.old.sought }
    requires corners { IsCornered (length live.old.edges.beside.items) (labelled_edges live.old.edges) live.old.corners }
    ensures record { IfOk result (λ r. r ≡ step_record (merged forest.old.base) k) }
    ensures base { OnOk result (forest.new.base ≡ forest.old.base) }
    ensures made { OnOk result (forest.new.made ≡ k) }
    ensures open { OnOk result (forest.new.closed ≡ false) }
    ensures removed { OnOk result (HasRemoved forest.new k) }
    ensures running { OnOk result (AreRunning forest.new k (removals_to (merged forest.old.base) k) live.new.edges) }
    ensures sought { OnOk result (IsSought live.new.edges.places.items live.new.sought) }
    ensures corners { OnOk result (IsCornered (length live.new.edges.beside.items) (labelled_edges live.new.edges) live.new.corners) }
{
    let old = forest.count();
    forest.merge(alloc, step)?;
    let ratio = forest.base().rules().ratio;
    let Changed { ended, made } = live.merge(alloc, forest, step, old, k)?;
    let mends = mend_and_remove(alloc, forest, live, step, made, loser_area, ratio, k)?;
    Ok(StepRecord {
        step: k,
        loser: step.loser,
        loser_class: tree.class(step.loser),
        winner: step.winner,
        winner_class: tree.class(step.winner),
        made: step.made,
        mends,
        ended,
    })
}
