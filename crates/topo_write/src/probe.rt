//! Where a ring lies: its probe, and whether another ring goes round that.

ghost use Rattle.std.specs.Prelude.{◌≡◌, ◌≢◌, ◌<◌, ◌≤◌, List as Sequence, [], length, count_by, slice_index_or, All, IfSome};
ghost use Rattle.lemmas.specs.Parity.{either_alone, is_odd};
ghost use Rattle.tgap_model.specs.Bounds.{HasNearEnds, IsNear};
ghost use Rattle.ring_walk.specs.Areas.{are_round, first_leaning, is_over, points_by, ring_segments, segments_of};
ghost use Rattle.ring_walk.specs.Spans.{IsRing, IsSide};
ghost use Rattle.topo_write.specs.Building.{IsLeaning, IsLine};
ghost use Rattle.topo_write.specs.Polygons.{lines_of, probe_of};

use crate::segments::{is_over, segment_at};
use ring_walk::{Side, Way};
use tgap_model::{Edge, Point, Seg};

/// The points of the edge of a side.
pub fn points_at(edges: &[Edge], side: Side) -> &[Point]
    requires lines { All (λ e. IsLine e.points) edges.now }
    requires side { IsSide (length edges.now) side }
    ensures value { result.now ≡ slice_index_or (lines_of edges.now) side.span [] }
    ensures line { IsLine result.now }
{
    edges[side.span as usize].points.as_slice()
}

/// The first segment of a row of points, on that way, that is not vertical.
fn leaning_of(points: &[Point], way: Way) -> Option<Seg>
    requires { IsLine points.now }
    ensures value { result ≡ first_leaning (segments_of (points_by way points.now)) }
    ensures leaning { IfSome result IsLeaning }
{
    for place in 0..points.len() - 1 {
        let segment = segment_at(points, way, place);
        if segment.a.x != segment.b.x {
            return Some(segment);
        }
    }
    None
}

/// The segment of a ring by which its place is found: its first one that is not vertical.
pub fn probe_of(edges: &[Edge], ring: &[Side]) -> Option<Seg>
    requires lines { All (λ e. IsLine e.points) edges.now }
    requires ring { IsRing (length edges.now) ring.now }
    ensures value { result ≡ probe_of (lines_of edges.now) ring.now }
    ensures leaning { IfSome result IsLeaning }
{
    for side in ring {
        if let Some(segment) = leaning_of(points_at(edges, *side), side.way) {
            return Some(segment);
        }
    }
    None
}

/// Whether one of the two holds, and not the other.
fn either_alone(p: bool, q: bool) -> bool
    ensures { result ≡ either_alone p q }
{
    if p { !q } else { q }
}

/// Whether an odd number of the segments of a row of points, on that way, cross the line of the probe above it.
fn is_over_odd(probe: Seg, points: &[Point], way: Way) -> bool
    requires probe { IsLeaning probe }
    requires line { IsLine points.now }
    ensures { result ≡ is_odd (count_by (is_over probe) (segments_of (points_by way points.now))) }
{
    let mut odd = false;
    for place in 0..points.len() - 1 {
        let over = is_over(probe, segment_at(points, way, place));
        odd = either_alone(odd, over);
    }
    odd
}

/// Whether an odd number of the segments of a ring cross the line of the probe above it.
pub fn are_round(edges: &[Edge], probe: Seg, ring: &[Side]) -> bool
    requires lines { All (λ e. IsLine e.points) edges.now }
    requires probe { IsLeaning probe }
    requires ring { IsRing (length edges.now) ring.now }
    ensures { result ≡ are_round probe (ring_segments (lines_of edges.now) ring.now) }
{
    let mut odd = false;
    for side in ring {
        let over = is_over_odd(probe, points_at(edges, *side), side.way);
        odd = either_alone(odd, over);
    }
    odd
}
