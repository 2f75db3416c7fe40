//! Measuring an arc: its shoelace sum and its path length.

ghost use Rattle.std.specs.Prelude.{◌≡◌, ◌≤◌, length};
ghost use Rattle.std.specs.List.{All};
ghost use Rattle.tgap_model.specs.declared.limits.TheConstants.{MAX_POINTS};
ghost use Rattle.tgap_model.specs.Point.{segment_length};
ghost use Rattle.tgap_model.specs.Bounds.{max_length, IsNear};
ghost use Rattle.face_merge.specs.Measures.{measure_of};

use crate::measures::Measure;
use tgap_model::{BaseArc, Point, shoelace_term};

/// The length of the segment from `a` to `b`, in grid units.
fn length_of(a: Point, b: Point) -> u64
    requires near_a { IsNear a }
    requires near_b { IsNear b }
    ensures value { result ≡ segment_length a b }
    ensures size { result ≤ max_length }
{
    a.x.abs_diff(b.x) + a.y.abs_diff(b.y)
}

/// The measure of an arc: its shoelace sum and its length. It takes no memory.
pub fn measure(arc: &BaseArc) -> Measure
    requires near { All IsNear arc.now.points }
    requires short { length arc.now.points ≤ MAX_POINTS }
    ensures { result ≡ measure_of arc.now }
{
    let points = arc.points.as_slice();
    let mut twice = 0;
    let mut extent = 0;
    for i in 1..points.len() {
        twice += shoelace_term(points[i - 1], points[i]);
        extent += length_of(points[i - 1], points[i]);
    }
    Measure {
        twice,
        length: i128::from(extent),
    }
}
