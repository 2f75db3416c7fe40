//! Cross products of steps between grid points, in 128 bits.

ghost use Rattle.std.specs.Prelude.{◌≡◌, ◌≤◌, ◌-ℤ◌, ◌*ℤ◌, unsigned_abs};
ghost use Rattle.tgap_model.specs.Bounds.{IsNear, max_cross};
ghost use Rattle.tgap_model.specs.Point.{cross};
ghost use Rattle.grid_geo.specs.Sizes.{IsShort};

use crate::arithmetic::{difference, product};
use tgap_model::Point;

/// How far one point is from another along each axis.
#[derive(Clone, Copy)]
pub struct Step {
    pub x: i64,
    pub y: i64,
}

impl Step {
    /// The step from `a` to `b`.
    pub fn between(a: Point, b: Point) -> Step
        requires a { IsNear a }
        requires b { IsNear b }
        ensures x { result.x ≡ b.x -ℤ a.x }
        ensures y { result.y ≡ b.y -ℤ a.y }
        ensures size { IsShort result }
    {
        Step {
            x: b.x - a.x,
            y: b.y - a.y,
        }
    }

    /// The cross product of two steps: positive where the second one turns to the left, 0 where they are parallel.
    pub fn cross(self, other: Step) -> i128
        requires first { IsShort self }
        requires second { IsShort other }
        ensures value { result ≡ self.x *ℤ other.y -ℤ self.y *ℤ other.x }
        ensures size { unsigned_abs result ≤ max_cross }
    {
        let left = product(i128::from(self.x), other.y);
        let right = product(i128::from(self.y), other.x);
        difference(left, right)
    }
}

/// Twice the area of a triangle, positive where its points turn to the left.
pub fn orientation(a: Point, b: Point, c: Point) -> i128
    requires a { IsNear a }
    requires b { IsNear b }
    requires c { IsNear c }
    ensures value { result ≡ cross a b c }
    ensures size { unsigned_abs result ≤ max_cross }
{
    Step::between(a, b).cross(Step::between(a, c))
}
