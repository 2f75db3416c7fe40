//! The edges of a window of any slice, one by one.

ghost use Rattle.std.specs.Prelude.{◌≡◌, ◌<◌, ◌≤◌, ◌&&◌, int_le, length, IfOk};
ghost use Rattle.std.specs.List.{list_any};
ghost use Rattle.tgap_model.specs.Merged.{merged};
ghost use Rattle.tgap_model.specs.Removals.{edge_of, removals_to};
ghost use Rattle.tgap_model.specs.Slice.{meets_window};
ghost use Rattle.tgap_model.specs.Records.{edge_with};
ghost use Rattle.tgap_model.specs.WindowRecords.{window_at};
ghost use Rattle.edge_forest.specs.Edges.{edge_at, chain_of};
ghost use Rattle.edge_forest.specs.Forest.{last_step};
ghost use Rattle.refine_packets.specs.Near.{IsSight, seen};

use crate::near::NearEdges;
use edge_forest::Forest;
use face_tree::FaceTree;
use std::alloc::Global;
use tgap_build::edges_of;
use tgap_model::{Edge, Memory, Point, Window};

/// Whether some point is at the right side of the window or to its left.
fn is_left_of(area: &Window, points: &[Point]) -> bool
    ensures { result ≡ list_any (λ p. int_le p.x area.now.x1) points.now }
{
    points.iter().any(|point| point.x <= area.x1)
}

/// Whether some point is at the left side of the window or to its right.
fn is_right_of(area: &Window, points: &[Point]) -> bool
    ensures { result ≡ list_any (λ p. int_le area.now.x0 p.x) points.now }
{
    points.iter().any(|point| area.x0 <= point.x)
}

/// Whether some point is at the upper side of the window or below.
fn is_below(area: &Window, points: &[Point]) -> bool
    ensures { result ≡ list_any (λ p. int_le p.y area.now.y1) points.now }
{
    points.iter().any(|point| point.y <= area.y1)
}

/// Whether some point is at the lower side of the window or above.
fn is_above(area: &Window, points: &[Point]) -> bool
    ensures { result ≡ list_any (λ p. int_le area.now.y0 p.y) points.now }
{
    points.iter().any(|point| area.y0 <= point.y)
}

/// Whether the points reach into the abscissas of the window.
fn meets_across(area: &Window, points: &[Point]) -> bool
    ensures { result ≡ list_any (λ p. int_le p.x area.now.x1) points.now && list_any (λ p. int_le area.now.x0 p.x) points.now }
{
    is_left_of(area, points) && is_right_of(area, points)
}

/// Whether the points reach into the window but for its lower side.
fn meets_from_below(area: &Window, points: &[Point]) -> bool
    ensures { result ≡ list_any (λ p. int_le p.x area.now.x1) points.now && list_any (λ p. int_le area.now.x0 p.x) points.now
        && list_any (λ p. int_le p.y area.now.y1) points.now }
{
    meets_across(area, points) && is_below(area, points)
}

/// Whether the bounding box of the edge meets the window.
pub fn meets_window(area: &Window, edge: &Edge) -> bool
    ensures { result ≡ meets_window area.now edge.now }
{
    let points = edge.points.as_slice();
    meets_from_below(area, points) && is_above(area, points)
}

/// An edge of the forest, as it is after k steps, if it meets the window then.
fn read_in(
    alloc: Global,
    tree: &FaceTree,
    forest: &Forest,
    near: &NearEdges,
    id: u32,
    k: u32,
) -> Result<Option<Edge>, Memory>
    requires sight { IsSight forest.now tree.now near.now }
    requires edge { id < length forest.now.edges }
    requires low { (edge_at forest.now.edges id).low ≤ k }
    requires step { k ≤ last_step forest.now }
    ensures { IfOk result (λ found. found
        ≡ seen near.now.area (edge_of (merged forest.now.base) k (removals_to (merged forest.now.base) k) (chain_of forest.now.edges id))) }
{
    let mut edges = edges_of(alloc, tree, forest, &[id], k)?.into_vec();
    edges.retain(|edge| meets_window(&near.area, edge));
    Ok(edges.pop())
}

/// The edge with a key in the window of the slice after k steps, if there is one. Its points are read only where the box of
/// all points of its arcs meets the window.
pub fn edge_in(
    alloc: Global,
    tree: &FaceTree,
    forest: &Forest,
    near: &NearEdges,
    key: u32,
    k: u32,
) -> Result<Option<Edge>, Memory>
    requires sight { IsSight forest.now tree.now near.now }
    requires step { k ≤ last_step forest.now }
    ensures { IfOk result (λ found. found ≡ edge_with (window_at (merged forest.now.base) near.now.area k) key) }
{
    match near.find(forest, key, k) {
        Some(id) => read_in(alloc, tree, forest, near, id, k),
        None => Ok(None),
    }
}
