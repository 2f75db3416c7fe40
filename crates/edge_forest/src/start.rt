//! The forest before the first join: each arc is an edge.

ghost use Rattle.std.specs.Prelude.{◌≡◌, ◌<◌, ◌≤◌, ◌+◌, ◌*◌, ◌/◌, ◌++◌, ◌∷◌, [], ◌==◌, ℕ, map, length, get_or, set, replicate, count_by, Some, IfOk};
ghost use Rattle.std.specs.List.{range_with_len, All};
ghost use Rattle.tgap_model.specs.declared.limits.TheConstants.{MAX_ARCS};
ghost use Rattle.edge_forest.specs.Growth.{IsFew, IsStored, family_of};
ghost use Rattle.edge_forest.specs.Nodes.{AreNodes};
ghost use Rattle.edge_forest.specs.Net.{IsNet};
ghost use Rattle.edge_forest.specs.Rows.{end_points};
ghost use Rattle.edge_forest.specs.Start.{single, arc_edge, arc_row, AreKeysListed};

use crate::edge::{ForestEdge, Part};
use crate::face_labels::FaceLabels;
use crate::growth::{Growth, NEVER};
use crate::net::{Current, Net};
use crate::nodes::{Nodes, empty_lists};
use std::alloc::Global;
use tgap_model::{BaseArc, Checked, List, Memory, Point};

/// The first and the last point of each arc.
fn end_points(alloc: Global, arcs: &[BaseArc]) -> Result<Vec<Point>, Memory>
    requires points { All (λ a. 2 ≤ length a.points) arcs.now }
    ensures { IfOk result (λ points. points.items ≡ end_points arcs.now) }
{
    let mut points = Vec::with_capacity(alloc, 2 * arcs.len())?;
    for arc in arcs {
        let along = arc.points.as_slice();
        points.push(along[0])?;
        points.push(along[along.len() - 1])?;
    }
    Ok(points)
}

/// Each arc as an edge that has not ended.
fn single_edges(alloc: Global, arcs: &[BaseArc]) -> Result<Vec<ForestEdge>, Memory>
    requires few { length arcs.now ≤ MAX_ARCS }
    ensures { IfOk result (λ edges. edges.items ≡ map (arc_edge arcs.now) (range_with_len 0 (length arcs.now))) }
{
    let mut edges = Vec::with_capacity(alloc, arcs.len())?;
    for i in 0..arcs.len() {
        let mut parts = List::with_capacity(alloc, 1)?;
        parts.push(Part {
            leaf: true,
            id: i as u32,
            turned: false,
        })?;
        edges.push(ForestEdge {
            key: i as u32,
            low: 0,
            high: NEVER,
            left: arcs[i].left,
            right: arcs[i].right,
            parts,
        })?;
    }
    Ok(edges)
}

/// Each arc as the row of its edge.
fn single_rows(alloc: Global, arcs: &[BaseArc]) -> Result<Vec<Option<Current>>, Memory>
    requires few { length arcs.now ≤ MAX_ARCS }
    ensures { IfOk result (λ rows. rows.items ≡ map (arc_row arcs.now) (range_with_len 0 (length arcs.now))) }
{
    let mut rows = Vec::with_capacity(alloc, arcs.len())?;
    for i in 0..arcs.len() {
        rows.push(Some(Current {
            id: i as u32,
            first: 2 * i as u32,
            last: 2 * i as u32 + 1,
            left: arcs[i].left,
            right: arcs[i].right,
        }))?;
    }
    Ok(rows)
}

/// For each of so many arc ends, the number of its arc, which is the key of the edge there.
fn keys_of_ends(alloc: Global, count: u32) -> Result<Vec<Option<u32>>, Memory>
    ensures { IfOk result (λ ends. ends.items ≡ map (λ x. Some (x / 2)) (range_with_len 0 count)) }
{
    let mut ends = Vec::with_capacity(alloc, count as usize)?;
    for x in 0..count {
        ends.push(Some(x / 2))?;
    }
    Ok(ends)
}

/// For each of so many nodes, how many places are at it.
fn node_counts(alloc: Global, node_of: &[u32], count: usize) -> Result<Vec<u32>, Memory>
    requires few { length node_of.now ≤ 2 * MAX_ARCS }
    requires below { All (λ node. node < count) node_of.now }
    ensures count { IfOk result (λ counts. length counts.items ≡ count) }
    ensures counts { IfOk result (λ counts. (g : ℕ) → g < count → get_or counts.items g 0 ≡ count_by (λ node. node == g) node_of.now) }
{
    let mut counts = vec![in alloc; 0u32; count]?;
    for node in node_of {
        counts[*node as usize] += 1;
    }
    Ok(counts)
}

/// Puts a key at the end of the list of a face.
fn list_key(faces: &mut Vec<List<u32>>, face: u32, key: u32) -> Result<(), Memory>
    requires { face < length faces.old.items }
    ensures { IfOk result (λ _. faces.new.items ≡ set faces.old.items face (get_or faces.old.items face [] ++ key ∷ [])) }
{
    faces[face as usize].push(key)
}

/// For each of so many faces, the numbers of the arcs that have it at their left or right.
fn face_keys(alloc: Global, arcs: &[BaseArc], count: usize) -> Result<Vec<List<u32>>, Memory>
    requires few { length arcs.now ≤ MAX_ARCS }
    requires below { All (λ a. (a.left < count) × (a.right < count)) arcs.now }
    ensures count { IfOk result (λ faces. length faces.items ≡ count) }
    ensures listed { IfOk result (λ faces. AreKeysListed arcs.now faces.items (length arcs.now)) }
{
    let mut faces = empty_lists(alloc, count)?;
    for i in 0..arcs.len() {
        list_key(&mut faces, arcs[i].left, i as u32)?;
        list_key(&mut faces, arcs[i].right, i as u32)?;
    }
    Ok(faces)
}

/// The arcs as edges that have not ended, and where they end.
fn single_net(alloc: Global, arcs: &[BaseArc], nodes: &Nodes) -> Result<Net, Memory>
    requires few { length arcs.now ≤ MAX_ARCS }
    requires nodes { AreNodes (end_points arcs.now) nodes.now }
    ensures rows { IfOk result (λ net. net.rows.items ≡ map (arc_row arcs.now) (range_with_len 0 (length arcs.now))) }
    ensures net { IfOk result (λ net. IsNet nodes.now net) }
{
    Ok(Net {
        rows: single_rows(alloc, arcs)?,
        ends: keys_of_ends(alloc, 2 * arcs.len() as u32)?,
        counts: node_counts(alloc, nodes.node_of.as_slice(), nodes.places.len())?,
    })
}

/// Each arc of a map as an edge, with none joined yet.
pub fn start(alloc: Global, checked: Checked) -> Result<Growth, Memory>
    ensures base { IfOk result (λ growth. growth.base ≡ checked) }
    ensures stored { IfOk result (λ growth. IsStored 0 growth) }
    ensures few { IfOk result (λ growth. IsFew growth) }
    ensures singles { IfOk result (λ growth. family_of growth ≡ map single (range_with_len 0 (length checked.arcs))) }
{
    let base = checked.base();
    let arcs = base.arcs().as_slice();
    let points = end_points(alloc, arcs)?;
    let nodes = Nodes::of(alloc, points.as_slice())?;
    let net = single_net(alloc, arcs, &nodes)?;
    let edges = single_edges(alloc, arcs)?;
    let faces = 2 * base.classes().len() + 1;
    let labels = FaceLabels::of(alloc, faces as u32)?;
    let keys = face_keys(alloc, arcs, faces)?;
    Ok(Growth {
        base: checked,
        edges,
        nodes,
        net,
        labels,
        keys,
    })
}
