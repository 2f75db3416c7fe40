//! Copies of parts of maps and slices.

ghost use Rattle.std.specs.Prelude.{◌≡◌, IfOk};

use crate::base::{BaseArc, Rules};
use crate::failure::Memory;
use crate::geometry::Point;
use crate::list::List;
use crate::slice::Edge;
use std::alloc::Global;

/// A copy of some numbers.
pub fn copied_numbers(alloc: Global, numbers: &[u32]) -> Result<List<u32>, Memory>
    ensures { IfOk result (λ copy. copy ≡ numbers.now) }
{
    Ok(List::from(numbers.to_vec(alloc)?))
}

/// A copy of some points.
pub fn copied_points(alloc: Global, points: &[Point]) -> Result<List<Point>, Memory>
    ensures { IfOk result (λ copy. copy ≡ points.now) }
{
    Ok(List::from(points.to_vec(alloc)?))
}

/// A copy of the rules.
pub fn copied_rules(alloc: Global, rules: &Rules) -> Result<Rules, Memory>
    ensures { IfOk result (λ copy. copy ≡ rules.now) }
{
    Ok(Rules {
        ratio: rules.ratio,
        weights: copied_numbers(alloc, rules.weights.as_slice())?,
        compat: copied_numbers(alloc, rules.compat.as_slice())?,
    })
}

/// A copy of an arc.
pub fn copied_arc(alloc: Global, arc: &BaseArc) -> Result<BaseArc, Memory>
    ensures { IfOk result (λ copy. copy ≡ arc.now) }
{
    Ok(BaseArc {
        left: arc.left,
        right: arc.right,
        points: copied_points(alloc, arc.points.as_slice())?,
    })
}

/// A copy of some arcs.
pub fn copied_arcs(alloc: Global, arcs: &[BaseArc]) -> Result<List<BaseArc>, Memory>
    ensures { IfOk result (λ copy. copy ≡ arcs.now) }
{
    let mut copy = List::with_capacity(alloc, arcs.len())?;
    for arc in arcs {
        copy.push(copied_arc(alloc, arc)?)?;
    }
    Ok(copy)
}

/// A copy of an edge.
pub fn copied_edge(alloc: Global, edge: &Edge) -> Result<Edge, Memory>
    ensures { IfOk result (λ copy. copy ≡ edge.now) }
{
    Ok(Edge {
        key: edge.key,
        left: edge.left,
        right: edge.right,
        points: copied_points(alloc, edge.points.as_slice())?,
    })
}

/// A copy of some edges.
pub fn copied_edges(alloc: Global, edges: &[Edge]) -> Result<List<Edge>, Memory>
    ensures { IfOk result (λ copy. copy ≡ edges.now) }
{
    let mut copy = List::with_capacity(alloc, edges.len())?;
    for edge in edges {
        copy.push(copied_edge(alloc, edge)?)?;
    }
    Ok(copy)
}
