//! Where a ring lies: the segment by which it is found, and what of a row of points passes above that.

ghost use Rattle.std.specs.Prelude.{◌≡◌, ◌≤◌, ◌<◌, IfSome, length, count_by, unsigned_abs};
ghost use Rattle.lemmas.specs.Parity.{either_alone, is_odd};
ghost use Rattle.tgap_model.specs.Bounds.{max_arc_area};
ghost use Rattle.tgap_model.specs.Point.{shoelace};
ghost use Rattle.ring_walk.specs.Areas.{first_leaning, is_over, points_by, segments_of};
ghost use Rattle.ring_probe.specs.Rows.{IsLeaning, IsLine};

use crate::segments::{is_over, segment_at};
use ring_walk::Way;
use tgap_model::{Point, Seg, shoelace};

/// The first segment of a row of points, on that way, that is not vertical.
pub fn leaning_of(points: &[Point], way: Way) -> Option<Seg>
    requires { IsLine points.now }
    ensures value { result ≡ first_leaning (segments_of (points_by way points.now)) }
    ensures leaning { IfSome result IsLeaning }
{
    for place in 0..points.len() - 1 {
        let segment = segment_at(points, way, place);
        if segment.a.x != segment.b.x {
            return Some(segment);
        }
    }
    None
}

/// Whether one of the two holds, and not the other.
pub fn either_alone(p: bool, q: bool) -> bool
    ensures { result ≡ either_alone p q }
{
    if p { !q } else { q }
}

/// Whether an odd number of the segments of a row of points, on that way, cross the line of the probe above it: the line one
/// half beyond the least abscissa of the probe.
pub fn is_over_odd(probe: Seg, points: &[Point], way: Way) -> bool
    requires probe { IsLeaning probe }
    requires line { IsLine points.now }
    ensures { result ≡ is_odd (count_by (is_over probe) (segments_of (points_by way points.now))) }
{
    let mut odd = false;
    for place in 0..points.len() - 1 {
        let over = is_over(probe, segment_at(points, way, place));
        odd = either_alone(odd, over);
    }
    odd
}

/// What a row of points, on that way, adds to twice the area of a ring, in square grid units.
pub fn area_of(points: &[Point], way: Way) -> i128
    requires { IsLine points.now }
    ensures value { result ≡ shoelace (points_by way points.now) }
    ensures size { unsigned_abs result ≤ max_arc_area }
{
    let sum = shoelace(points);
    match way {
        Way::Along => sum,
        Way::Against => -sum,
    }
}
