//! The areas and the faces of rings.

ghost use Rattle.std.specs.Prelude.{◌≡◌, ◌≤◌, ◌<◌, ℤ, List as Sequence, unsigned_abs, length, get_or, map, All, IfOk};
ghost use Rattle.tgap_model.specs.Bounds.{max_arc_area};
ghost use Rattle.tgap_model.specs.declared.geometry.Point.{Point as Place};
ghost use Rattle.tgap_model.specs.declared.limits.TheConstants.{MAX_ARCS};
ghost use Rattle.tgap_model.specs.Point.{shoelace};
ghost use Rattle.ring_walk.specs.Rings.{ring_face};
ghost use Rattle.ring_walk.specs.Spans.{IsRing, IsSide};
ghost use Rattle.ring_walk.specs.Areas.{points_of, ring_area};
ghost use Rattle.topo_write.specs.Building.{AreSums, IsLine};
ghost use Rattle.topo_write.specs.Polygons.{lines_of};

use ring_walk::{Side, Span, Way};
use std::alloc::Global;
use tgap_model::{Edge, List, Memory, shoelace};

/// The shoelace sum of each edge.
fn sums_of(alloc: Global, edges: &[Edge]) -> Result<Vec<i128>, Memory>
    requires { All (λ e. IsLine e.points) edges.now }
    ensures { IfOk result (λ sums. AreSums (lines_of edges.now) sums.items) }
{
    let mut sums = Vec::with_capacity(alloc, edges.len())?;
    for edge in edges {
        sums.push(shoelace(edge.points.as_slice()))?;
    }
    Ok(sums)
}

/// The shoelace sum of a span.
fn sum_at(sums: &[i128], span: u32) -> i128
    requires sums { All (λ z. unsigned_abs z ≤ max_arc_area) sums.now }
    requires inside { span < length sums.now }
    ensures value { (d : ℤ) → result ≡ get_or sums.now span d }
    ensures size { unsigned_abs result ≤ max_arc_area }
{
    sums[span as usize]
}

/// What a side adds to the shoelace sum of its ring.
fn side_area(sums: &[i128], side: Side) -> i128
    requires sums { All (λ z. unsigned_abs z ≤ max_arc_area) sums.now }
    requires side { IsSide (length sums.now) side }
    ensures value { (lines : Sequence (Sequence Place)) → AreSums lines sums.now → result ≡ shoelace (points_of lines side) }
    ensures size { unsigned_abs result ≤ max_arc_area }
{
    let sum = sum_at(sums, side.span);
    match side.way {
        Way::Along => sum,
        Way::Against => -sum,
    }
}

/// Twice the area of a ring, in square grid units: positive where it goes round counter-clockwise.
fn ring_area(sums: &[i128], ring: &[Side]) -> i128
    requires sums { All (λ z. unsigned_abs z ≤ max_arc_area) sums.now }
    requires few { length sums.now ≤ MAX_ARCS }
    requires ring { IsRing (length sums.now) ring.now }
    ensures { (lines : Sequence (Sequence Place)) → AreSums lines sums.now → result ≡ ring_area lines ring.now }
{
    let mut area = 0;
    for side in ring {
        area += side_area(sums, *side);
    }
    area
}

/// Twice the area of each ring. Each edge is measured once.
pub fn areas_of(alloc: Global, edges: &[Edge], rings: &[List<Side>]) -> Result<Vec<i128>, Memory>
    requires lines { All (λ e. IsLine e.points) edges.now }
    requires few { length edges.now ≤ MAX_ARCS }
    requires rings { All (IsRing (length edges.now)) rings.now }
    ensures { IfOk result (λ areas. areas.items ≡ map (ring_area (lines_of edges.now)) rings.now) }
{
    let sums = sums_of(alloc, edges)?;
    let mut areas = Vec::with_capacity(alloc, rings.len())?;
    for ring in rings {
        areas.push(ring_area(&sums, ring.as_slice()))?;
    }
    Ok(areas)
}

/// The face of a ring: that of its first side.
fn ring_face(spans: &[Span], ring: &[Side]) -> u32
    requires { IsRing (length spans.now) ring.now }
    ensures { result ≡ ring_face spans.now ring.now }
{
    match ring.first() {
        Some(side) => spans[side.span as usize].face(side.way),
        None => 0,
    }
}

/// The face of each ring.
pub fn faces_of(alloc: Global, spans: &[Span], rings: &[List<Side>]) -> Result<Vec<u32>, Memory>
    requires { All (IsRing (length spans.now)) rings.now }
    ensures { IfOk result (λ faces. faces.items ≡ map (ring_face spans.now) rings.now) }
{
    let mut faces = Vec::with_capacity(alloc, rings.len())?;
    for ring in rings {
        faces.push(ring_face(spans, ring.as_slice()))?;
    }
    Ok(faces)
}
