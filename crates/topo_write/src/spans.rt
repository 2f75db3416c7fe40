//! The edges of a slice as spans.

ghost use Rattle.std.specs.Prelude.{◌≡◌, length, IfOk};
ghost use Rattle.topo_write.specs.Building.{HaveEnds, IsLine};
ghost use Rattle.topo_write.specs.Polygons.{span_of, spans_of};

use ring_walk::{EdgeEnds, Span};
use std::alloc::Global;
use tgap_model::{Edge, Memory};

/// An edge with the directions of its ends.
fn span_of(edge: &Edge, ends: EdgeEnds) -> Span
    requires { IsLine edge.now.points }
    ensures { result ≡ span_of (edge.now, ends) }
{
    let points = edge.points.as_slice();
    Span {
        first: points[0],
        last: points[points.len() - 1],
        ends,
        left: edge.left,
        right: edge.right,
    }
}

/// The edges of a slice as spans.
pub fn spans_of(alloc: Global, edges: &[Edge], ends: &[EdgeEnds]) -> Result<Vec<Span>, Memory>
    requires { HaveEnds edges.now ends.now }
    ensures { IfOk result (λ spans. spans.items ≡ spans_of edges.now ends.now) }
{
    let mut spans = Vec::with_capacity(alloc, edges.len())?;
    for i in 0..edges.len() {
        spans.push(span_of(&edges[i], ends[i]))?;
    }
    Ok(spans)
}
