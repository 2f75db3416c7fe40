//! The points along an edge.

ghost use Rattle.std.specs.Prelude.{◌≡◌, ◌<◌, ◌++◌, ℕ, length, map, reverse, All, IfOk};
ghost use Rattle.tgap_model.specs.Chains.{chain_points};
ghost use Rattle.edge_forest.specs.Edges.{IsPart, edge_at, chain_of};
ghost use Rattle.edge_forest.specs.Walks.{IsMadeOfEarlier, chain_link, turned_parts, inner_parts};

use crate::edge::{ForestEdge, Part};
use std::alloc::Global;
use tgap_model::{BaseArc, List, Memory, Point};

/// An arc of an edge: its number, and whether the edge runs against it.
#[derive(Clone, Copy)]
pub struct Link {
    pub arc: u32,
    pub turned: bool,
}

/// Puts the parts of an edge that is turned round at the end: each is turned, and the last one comes first.
fn push_turned(stack: &mut Vec<Part>, parts: &[Part]) -> Result<(), Memory>
    ensures { IfOk result (λ _. stack.new.items ≡ stack.old.items ++ turned_parts parts.now) }
{
    for part in parts.iter().rev() {
        stack.push(Part {
            leaf: part.leaf,
            id: part.id,
            turned: !part.turned,
        })?;
    }
    Ok(())
}

/// Puts the parts of the edge that this part is at the end, in the direction of the part.
pub fn push_parts_of(stack: &mut Vec<Part>, edges: &[ForestEdge], part: Part) -> Result<(), Memory>
    requires edge { part.id < length edges.now }
    ensures { IfOk result (λ _. stack.new.items ≡ stack.old.items ++ inner_parts edges.now part) }
{
    let parts = edges[part.id as usize].parts.as_slice();
    if part.turned {
        push_turned(stack, parts)
    } else {
        stack.extend_from_slice(parts)?;
        Ok(())
    }
}

/// The arcs of an edge, of which the last one comes first. Edges can be made of edges many thousands deep, so the parts
/// that are still to be visited stand in a stack, with the next one at its end.
fn links_from_last(alloc: Global, edges: &[ForestEdge], id: u32) -> Result<Vec<Link>, Memory>
    requires id { id < length edges.now }
    requires parts { IsMadeOfEarlier edges.now }
    ensures { IfOk result (λ links. reverse (map chain_link links.items) ≡ chain_of edges.now id) }
{
    let mut links = Vec::new(alloc);
    let mut stack = Vec::new(alloc);
    stack.push(Part {
        leaf: false,
        id,
        turned: false,
    })?;
    while let Some(part) = stack.pop() {
        if part.leaf {
            links.push(Link {
                arc: part.id,
                turned: part.turned,
            })?;
        } else {
            push_parts_of(&mut stack, edges, part)?;
        }
    }
    Ok(links)
}

/// The arcs of an edge, from its start to its end.
pub fn links_of(alloc: Global, edges: &[ForestEdge], id: u32) -> Result<List<Link>, Memory>
    requires id { id < length edges.now }
    requires parts { IsMadeOfEarlier edges.now }
    ensures { IfOk result (λ links. map chain_link links ≡ chain_of edges.now id) }
{
    let mut links = links_from_last(alloc, edges, id)?;
    links.reverse();
    Ok(List::from(links))
}

/// Puts the points at the end, from the last one to the first.
fn push_back_to_front(points: &mut Vec<Point>, more: &[Point]) -> Result<(), Memory>
    ensures { IfOk result (λ _. points.new.items ≡ points.old.items ++ reverse more.now) }
{
    for point in more.iter().rev() {
        points.push(*point)?;
    }
    Ok(())
}

/// The points of these arcs, of which the last one comes first. It goes from the last point to the first, so that the
/// point at which the next arc ends is the one that was written last, and can be taken out.
fn points_along(alloc: Global, arcs: &[BaseArc], links: &[Link]) -> Result<List<Point>, Memory>
    requires arcs { All (λ link. link.arc < length arcs.now) links.now }
    ensures { IfOk result (λ points. points ≡ chain_points arcs.now (reverse (map chain_link links.now))) }
{
    let mut points = Vec::new(alloc);
    for link in links {
        points.pop();
        let along = arcs[link.arc as usize].points.as_slice();
        if link.turned {
            points.extend_from_slice(along)?;
        } else {
            push_back_to_front(&mut points, along)?;
        }
    }
    points.reverse();
    Ok(List::from(points))
}

/// The points of an edge, each junction once.
pub fn points_of(
    alloc: Global,
    arcs: &[BaseArc],
    edges: &[ForestEdge],
    id: u32,
) -> Result<List<Point>, Memory>
    requires id { id < length edges.now }
    requires parts { (i : ℕ) → i < length edges.now → All (IsPart (length arcs.now) i) (edge_at edges.now i).parts }
    ensures { IfOk result (λ points. points ≡ chain_points arcs.now (chain_of edges.now id)) }
{
    let links = links_from_last(alloc, edges, id)?;
    points_along(alloc, arcs, &links)
}
