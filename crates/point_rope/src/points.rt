//! Points that lie side by side in memory, with a test of them.

ghost use Rattle.std.specs.Prelude.{◌≡◌, not, filter};
ghost use Rattle.std.specs.List.{list_any};

use crate::point_test::PointTest;
use tgap_model::Point;

/// Takes the points out that pass the test.
pub fn take_out<T: PointTest>(points: &mut Vec<Point>, test: &T)
    ensures { points.new.items ≡ filter (λ p. not (T.passes test.now p)) points.old.items }
{
    points.retain(|point| !test.passes(point));
}

/// Whether one of the points passes the test.
pub fn has_any_of<T: PointTest>(points: &[Point], test: &T) -> bool
    ensures { result ≡ list_any (T.passes test.now) points.now }
{
    for point in points {
        if test.passes(point) {
            return true;
        }
    }
    false
}
