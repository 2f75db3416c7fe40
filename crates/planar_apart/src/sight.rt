//! A segment as it is looked for among boxes.

ghost use Rattle.std.specs.Prelude.{◌≡◌, pos, IsTrue};
ghost use Rattle.std.specs.Ordering.{int_eq};
ghost use Rattle.tgap_model.specs.Base.{in_limits};
ghost use Rattle.tgap_model.specs.Partition.{is_proper};
ghost use Rattle.tgap_model.specs.Point.{side};
ghost use Rattle.planar_apart.specs.Meetings.{box_of};
ghost use Rattle.planar_apart.specs.Crossing.{limited, corner, is_left_at, are_left, is_void, is_beside, is_slanting, is_missed, crosses, crosses_wider};

use crate::boxes::box_of;
use grid_geo::side;
use grid_index::{Probe, meets};
use tgap_model::{LabelledSegment, MAX_COORDINATE, Point, Seg, Window};

/// A segment with its bounding box. Of boxes those pass it that meet its box and do not lie wholly on one side of its line,
/// so that a long slanting segment passes over most of what its box holds. A level or upright segment fills its box, and no
/// box that meets it lies on one side: there the sides are not asked for.
#[derive(Clone, Copy)]
pub struct Sight {
    pub segment: Seg,
    pub area: Window,
    ghost near: { IsTrue (in_limits segment.a) × IsTrue (in_limits segment.b) },
}

impl Sight {
    /// The sight of a segment.
    pub fn of(s: &LabelledSegment) -> Sight
        requires { IsTrue (is_proper s.now) }
        ensures segment { result.segment ≡ s.now.segment }
        ensures area { result.area ≡ box_of s.now }
    {
        Sight {
            segment: s.segment,
            area: box_of(s),
        }
    }
}

impl Probe for Sight {
    ghost hits = { λ sight area. crosses sight.area sight.segment area };

    ghost wider = { λ sight up down. crosses_wider sight.area sight.segment up down };

    fn is_hit(&self, area: &Window) -> bool {
        meets(&self.area, area) && !is_missed(self.segment, area)
    }
}

/// The coordinate, or the limit beyond which it lies.
fn limited(z: i64) -> i64
    ensures { result ≡ limited z }
{
    z.max(-MAX_COORDINATE).min(MAX_COORDINATE)
}

/// A corner of a box, or within the limits the point next to it.
fn corner(area: &Window, right: bool, top: bool) -> Point
    ensures point { result ≡ corner area.now right top }
    ensures near { IsTrue (in_limits result) }
{
    Point {
        x: limited(if right { area.x1 } else { area.x0 }),
        y: limited(if top { area.y1 } else { area.y0 }),
    }
}

/// Whether a point is at the left of one who goes from `a` to `b`.
fn is_left(a: Point, b: Point, p: Point) -> bool
    requires line { IsTrue (in_limits a) × IsTrue (in_limits b) }
    requires point { IsTrue (in_limits p) }
    ensures { result ≡ int_eq (side a b p) (pos 1) }
{
    side(a, b, p) == 1
}

/// Whether both corners at the top of the box, or at its foot, are.
fn is_left_at(a: Point, b: Point, area: &Window, top: bool) -> bool
    requires { IsTrue (in_limits a) × IsTrue (in_limits b) }
    ensures { result ≡ is_left_at a b area.now top }
{
    is_left(a, b, corner(area, false, top)) && is_left(a, b, corner(area, true, top))
}

/// Whether all corners of the box are.
fn are_left(a: Point, b: Point, area: &Window) -> bool
    requires { IsTrue (in_limits a) × IsTrue (in_limits b) }
    ensures { result ≡ are_left a b area.now }
{
    is_left_at(a, b, area, false) && is_left_at(a, b, area, true)
}

/// Whether the box has no point.
fn is_void(area: &Window) -> bool
    ensures { result ≡ is_void area.now }
{
    area.x1 < area.x0 || area.y1 < area.y0
}

/// Whether the box lies wholly on one side of the line of the segment, or has no point.
fn is_beside(s: Seg, area: &Window) -> bool
    requires { IsTrue (in_limits s.a) × IsTrue (in_limits s.b) }
    ensures { result ≡ is_beside s area.now }
{
    is_void(area) || are_left(s.a, s.b, area) || are_left(s.b, s.a, area)
}

/// Whether the segment is neither level nor upright.
fn is_slanting(s: Seg) -> bool
    ensures { result ≡ is_slanting s }
{
    s.a.x != s.b.x && s.a.y != s.b.y
}

/// Whether the segment is slanting and the box lies beside it.
fn is_missed(s: Seg, area: &Window) -> bool
    requires { IsTrue (in_limits s.a) × IsTrue (in_limits s.b) }
    ensures { result ≡ is_missed s area.now }
{
    is_slanting(s) && is_beside(s, area)
}
