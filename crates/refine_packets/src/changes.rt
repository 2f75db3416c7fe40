//! What a step changes in a window.

ghost use Rattle.std.specs.Prelude.{◌≡◌, ◌<◌, ◌≤◌, ◌++◌, ◌-◌, filter, map, length, Contains, IfOk, OnOk, IsPermutation};
ghost use Rattle.std.specs.List.Sorted.{IsNonDecreasingBy};
ghost use Rattle.tgap_model.specs.Merged.{merged};
ghost use Rattle.tgap_model.specs.Slice.{meets_window};
ghost use Rattle.tgap_model.specs.WindowRecords.{window_at};
ghost use Rattle.edge_forest.specs.Forest.{last_step};
ghost use Rattle.refine_packets.specs.Near.{IsSight};
ghost use Rattle.refine_packets.specs.Walk.{AreKnown, bare, bare_at, changes_by, pieces_in, with_mend, with_whole};
ghost use Rattle.std.specs.Bool.{IsTrue};
ghost use Rattle.tgap_model.specs.Base.{is_base};
ghost use Rattle.tgap_model.specs.Records.{step_record};
ghost use Rattle.face_tree.specs.Tree.{face_history};

use crate::copy::copied_mend;
use crate::known::is_known;
use crate::near::NearEdges;
use crate::sight::{edge_in, meets_window};
use edge_forest::Forest;
use face_tree::FaceTree;
use std::alloc::Global;
use tgap_model::{Edge, List, Memory, Mend, Piece, Window, copied_edge};

/// What the mends of a step change in a window: those of edges that are in it after the step, these edges, their pieces that
/// are in it before the step, both without their points, and the pieces of other edges that come into it.
#[derive(Drop)]
pub struct Changes {
    pub mends: List<Mend>,
    pub gone: List<Edge>,
    pub kept: List<Edge>,
    pub comes: List<Edge>,
}

/// Appends the edges of the window after k steps that have the keys of these pieces.
fn push_pieces(
    alloc: Global,
    tree: &FaceTree,
    forest: &Forest,
    near: &NearEdges,
    pieces: &[Piece],
    k: u32,
    edges: &mut List<Edge>,
) -> Result<(), Memory>
    requires sight { IsSight forest.now tree.now near.now }
    requires step { k ≤ last_step forest.now }
    ensures { OnOk result (edges.new ≡ edges.old ++ pieces_in (window_at (merged forest.now.base) near.now.area k) pieces.now) }
{
    for piece in pieces {
        if let Some(edge) = edge_in(alloc, tree, forest, near, piece.key, k)? {
            edges.push(edge)?;
        }
    }
    Ok(())
}

/// The edge without its points.
fn bare(alloc: Global, edge: &Edge) -> Edge
    ensures { result ≡ bare edge.now }
{
    Edge {
        key: edge.key,
        left: edge.left,
        right: edge.right,
        points: List::new(alloc),
    }
}

/// The edge with a key after k steps, without its points.
fn bare_at(alloc: Global, tree: &FaceTree, forest: &Forest, key: u32, k: u32) -> Edge
    requires base { IsTrue (is_base forest.now.base) }
    requires tree { tree.now ≡ face_history (merged forest.now.base) }
    requires key { key < length forest.now.base.arcs }
    requires step { k ≤ last_step forest.now }
    ensures { result ≡ bare_at (merged forest.now.base) k key }
{
    let arc = &forest.base().arcs().as_slice()[key as usize];
    Edge {
        key,
        left: tree.ancestor(arc.left, k),
        right: tree.ancestor(arc.right, k),
        points: List::new(alloc),
    }
}

/// Appends these edges without their points.
fn push_bare(alloc: Global, from: &[Edge], edges: &mut List<Edge>) -> Result<(), Memory>
    ensures { OnOk result (edges.new ≡ edges.old ++ map bare from.now) }
{
    for edge in from {
        edges.push(bare(alloc, edge))?;
    }
    Ok(())
}

/// Adds a mend of an edge of the window that stays one piece: it is in the window before the step too.
fn take_whole(
    alloc: Global,
    tree: &FaceTree,
    forest: &Forest,
    mend: &Mend,
    j: u32,
    changes: &mut Changes,
) -> Result<(), Memory>
    requires base { IsTrue (is_base forest.now.base) }
    requires tree { tree.now ≡ face_history (merged forest.now.base) }
    requires key { mend.now.key < length forest.now.base.arcs }
    requires some { 1 ≤ j }
    requires step { j ≤ last_step forest.now }
    ensures { OnOk result (changes.new
        ≡ with_whole (bare_at (merged forest.now.base) j mend.now.key) (bare_at (merged forest.now.base) (j - 1) mend.now.key) changes.old mend.now) }
{
    changes.mends.push(copied_mend(alloc, mend)?)?;
    changes
        .gone
        .push(bare_at(alloc, tree, forest, mend.key, j))?;
    changes
        .kept
        .push(bare_at(alloc, tree, forest, mend.key, j - 1))?;
    Ok(())
}

/// Adds what a mend of step j changes, by the points of its edge and of its pieces.
fn take_read(
    alloc: Global,
    tree: &FaceTree,
    forest: &Forest,
    near: &NearEdges,
    mend: &Mend,
    j: u32,
    changes: &mut Changes,
) -> Result<(), Memory>
    requires sight { IsSight forest.now tree.now near.now }
    requires some { 1 ≤ j }
    requires step { j ≤ last_step forest.now }
    ensures { OnOk result (changes.new
        ≡ with_mend (window_at (merged forest.now.base) near.now.area j) (window_at (merged forest.now.base) near.now.area (j - 1)) changes.old mend.now) }
{
    let pieces = mend.pieces.as_slice();
    match edge_in(alloc, tree, forest, near, mend.key, j)? {
        Some(edge) => {
            let mut kept = List::new(alloc);
            push_pieces(alloc, tree, forest, near, pieces, j - 1, &mut kept)?;
            changes.mends.push(copied_mend(alloc, mend)?)?;
            changes.gone.push(bare(alloc, &edge))?;
            push_bare(alloc, kept.as_slice(), &mut changes.kept)
        }
        None => push_pieces(alloc, tree, forest, near, pieces, j - 1, &mut changes.comes),
    }
}

/// Adds what a mend of step j changes. Of an edge that is known to be in the window, and stays one piece, no points are read.
fn take_mend(
    alloc: Global,
    tree: &FaceTree,
    forest: &Forest,
    near: &NearEdges,
    known: &[bool],
    mend: &Mend,
    j: u32,
    changes: &mut Changes,
) -> Result<(), Memory>
    requires sight { IsSight forest.now tree.now near.now }
    requires known { AreKnown known.now (window_at (merged forest.now.base) near.now.area j).edges }
    requires some { 1 ≤ j }
    requires step { j ≤ last_step forest.now }
    requires mend { Contains (step_record (merged forest.now.base) j).mends mend.now }
    ensures { OnOk result (changes.new
        ≡ with_mend (window_at (merged forest.now.base) near.now.area j) (window_at (merged forest.now.base) near.now.area (j - 1)) changes.old mend.now) }
{
    if mend.pieces.len() == 1 && is_known(known, mend.key) {
        return take_whole(alloc, tree, forest, mend, j, changes);
    }
    take_read(alloc, tree, forest, near, mend, j, changes)
}

/// What the mends of step j change.
pub fn changes_of(
    alloc: Global,
    tree: &FaceTree,
    forest: &Forest,
    near: &NearEdges,
    known: &[bool],
    mends: &[Mend],
    j: u32,
) -> Result<Changes, Memory>
    requires sight { IsSight forest.now tree.now near.now }
    requires known { AreKnown known.now (window_at (merged forest.now.base) near.now.area j).edges }
    requires some { 1 ≤ j }
    requires step { j ≤ last_step forest.now }
    requires mends { mends.now ≡ (step_record (merged forest.now.base) j).mends }
    ensures { IfOk result (λ changes. changes
        ≡ changes_by (window_at (merged forest.now.base) near.now.area j) (window_at (merged forest.now.base) near.now.area (j - 1)) mends.now) }
{
    let mut changes = Changes {
        mends: List::new(alloc),
        gone: List::new(alloc),
        kept: List::new(alloc),
        comes: List::new(alloc),
    };
    for mend in mends {
        take_mend(alloc, tree, forest, near, known, mend, j, &mut changes)?;
    }
    Ok(changes)
}

/// Appends copies of those of the edges that meet the window.
fn push_meeting(
    alloc: Global,
    area: &Window,
    from: &[Edge],
    edges: &mut List<Edge>,
) -> Result<(), Memory>
    ensures { OnOk result (edges.new ≡ edges.old ++ filter (meets_window area.now) from.now) }
{
    for edge in from {
        if meets_window(area, edge) {
            edges.push(copied_edge(alloc, edge)?)?;
        }
    }
    Ok(())
}

/// Both these edges and those of the ended ones that meet the window, by key.
pub fn all_coming(
    alloc: Global,
    area: &Window,
    pieces: List<Edge>,
    ended: &[Edge],
) -> Result<List<Edge>, Memory>
    ensures all { IfOk result (IsPermutation (pieces ++ filter (meets_window area.now) ended.now)) }
    ensures order { IfOk result (λ edges. IsNonDecreasingBy (λ e. e.key) edges) }
{
    let mut coming = pieces;
    push_meeting(alloc, area, ended, &mut coming)?;
    let mut edges = coming.into_vec();
    edges.sort_unstable_by_key(|edge| edge.key);
    Ok(List::from(edges))
}
