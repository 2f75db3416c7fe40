//! Edges of the forest as they are after some steps.

ghost use Rattle.std.specs.Prelude.{◌≡◌, ◌≤◌, ◌<◌, ◌++◌, List, length, map, All, IfOk, OnOk, IsTrue};
ghost use Rattle.tgap_model.specs.declared.slice.Removal.{Removal};
ghost use Rattle.tgap_model.specs.Base.{is_base};
ghost use Rattle.tgap_model.specs.History.{history_of};
ghost use Rattle.tgap_model.specs.Merged.{merged};
ghost use Rattle.tgap_model.specs.Removals.{edge_of, edges_of};
ghost use Rattle.face_tree.specs.Tree.{face_history};
ghost use Rattle.edge_forest.specs.Edges.{edge_at, chain_of};
ghost use Rattle.tgap_build.specs.Built.{AreGone};

use edge_forest::Forest;
use face_tree::FaceTree;
use std::alloc::Global;
use tgap_model::{Edge, List, Memory};

/// An edge of the forest, as it is after k steps: the faces at its sides are those that its first ones have become, and the
/// vertices that were removed by then are left out.
fn edge_at(alloc: Global, tree: &FaceTree, forest: &Forest, id: u32, k: u32) -> Result<Edge, Memory>
    requires base { IsTrue (is_base forest.now.base) }
    requires history { tree.now ≡ face_history (merged forest.now.base) }
    requires edge { id < length forest.now.edges }
    requires low { (edge_at forest.now.edges id).low ≤ k }
    requires step { k ≤ length (history_of forest.now.base) }
    ensures { (removals : List Removal) → AreGone forest.now k removals
        → IfOk result (λ edge. edge ≡ edge_of (merged forest.now.base) k removals (chain_of forest.now.edges id)) }
{
    let edge = forest.edge(id);
    Ok(Edge {
        key: edge.key,
        left: tree.ancestor(edge.left, k),
        right: tree.ancestor(edge.right, k),
        points: forest.points_at(alloc, id, k)?,
    })
}

/// Appends these edges of the forest, as they are after k steps, less the vertices that were removed by then.
pub fn push_edges(
    alloc: Global,
    tree: &FaceTree,
    forest: &Forest,
    ids: &[u32],
    k: u32,
    edges: &mut List<Edge>,
) -> Result<(), Memory>
    requires base { IsTrue (is_base forest.now.base) }
    requires history { tree.now ≡ face_history (merged forest.now.base) }
    requires within { All (λ id. id < length forest.now.edges) ids.now }
    requires low { All (λ id. (edge_at forest.now.edges id).low ≤ k) ids.now }
    requires step { k ≤ length (history_of forest.now.base) }
    ensures { (removals : List Removal) → AreGone forest.now k removals
        → OnOk result (edges.new ≡ edges.old ++ edges_of (merged forest.now.base) k removals (map (chain_of forest.now.edges) ids.now)) }
{
    for id in ids {
        edges.push(edge_at(alloc, tree, forest, *id, k)?)?;
    }
    Ok(())
}

/// These edges of the forest, as they are after k steps, less the vertices that were removed by then.
pub fn edges_of(
    alloc: Global,
    tree: &FaceTree,
    forest: &Forest,
    ids: &[u32],
    k: u32,
) -> Result<List<Edge>, Memory>
    requires base { IsTrue (is_base forest.now.base) }
    requires history { tree.now ≡ face_history (merged forest.now.base) }
    requires within { All (λ id. id < length forest.now.edges) ids.now }
    requires low { All (λ id. (edge_at forest.now.edges id).low ≤ k) ids.now }
    requires step { k ≤ length (history_of forest.now.base) }
    ensures { (removals : List Removal) → AreGone forest.now k removals
        → IfOk result (λ edges. edges ≡ edges_of (merged forest.now.base) k removals (map (chain_of forest.now.edges) ids.now)) }
{
    let mut edges = List::with_capacity(alloc, ids.len())?;
    push_edges(alloc, tree, forest, ids, k, &mut edges)?;
    Ok(edges)
}
