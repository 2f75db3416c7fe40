//! The arcs as spans, and the points of their sides.

ghost use Rattle.std.specs.Prelude.{◌≡◌, IfOk};
ghost use Rattle.face_cuts.specs.Sectors.{point_at, span_of, spans_of};

use crate::points::{first_point, last_point};
use ring_walk::{EdgeEnds, Span};
use std::alloc::Global;
use tgap_model::{BaseArc, Memory, Point};

/// The point at a position of a row, from 0 on, and the origin where the row ends before it.
pub fn point_at(points: &[Point], place: usize) -> Point
    ensures { result ≡ point_at points.now place }
{
    match points.get(place) {
        Some(point) => *point,
        None => Point { x: 0, y: 0 },
    }
}

/// What a walk has to know of an arc: its ends, the points next to these, and its faces.
pub fn span_of(arc: &BaseArc) -> Span
    ensures { result ≡ span_of arc.now }
{
    let points = arc.points.as_slice();
    Span {
        first: first_point(points),
        last: last_point(points),
        ends: EdgeEnds {
            after_first: point_at(points, 1),
            before_last: point_at(points, points.len().saturating_sub(2)),
        },
        left: arc.left,
        right: arc.right,
    }
}

/// The arcs as spans.
pub fn spans_of(alloc: Global, arcs: &[BaseArc]) -> Result<Vec<Span>, Memory>
    ensures { IfOk result (λ spans. spans.items ≡ spans_of arcs.now) }
{
    let mut spans = Vec::with_capacity(alloc, arcs.len())?;
    for arc in arcs {
        spans.push(span_of(arc))?;
    }
    Ok(spans)
}
