//! The shoelace sum of a row of points, by exact integers.

ghost use Rattle.std.specs.Prelude.{◌≡◌, ◌≤◌, ◌*ℤ◌, unsigned_abs, length};
ghost use Rattle.std.specs.List.{All};
ghost use Rattle.tgap_model.specs.declared.limits.TheConstants.{MAX_POINTS};
ghost use Rattle.tgap_model.specs.Bounds.{IsNear, max_coordinate, max_product, max_shoelace};
ghost use Rattle.tgap_model.specs.Point.{shoelace, shoelace_term};

use crate::geometry::Point;

/// The product of two coordinates.
fn product(a: i64, b: i64) -> i128
    requires near_a { unsigned_abs a ≤ max_coordinate }
    requires near_b { unsigned_abs b ≤ max_coordinate }
    ensures value { result ≡ a *ℤ b }
    ensures size { unsigned_abs result ≤ max_product }
{
    i128::from(a) * i128::from(b)
}

/// The shoelace term of the segment from `a` to `b`.
pub fn shoelace_term(a: Point, b: Point) -> i128
    requires near_a { IsNear a }
    requires near_b { IsNear b }
    ensures value { result ≡ shoelace_term a b }
    ensures size { unsigned_abs result ≤ max_shoelace }
{
    product(a.x, b.y) - product(b.x, a.y)
}

/// The shoelace sum of a row of points: of a closed ring it is twice the area, positive for a counter-clockwise one.
pub fn shoelace(points: &[Point]) -> i128
    requires near { All IsNear points.now }
    requires short { length points.now ≤ MAX_POINTS }
    ensures { result ≡ shoelace points.now }
{
    let mut sum = 0;
    for i in 1..points.len() {
        sum += shoelace_term(points[i - 1], points[i]);
    }
    sum
}
