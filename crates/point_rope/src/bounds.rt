//! Boxes that hold points.

ghost use Rattle.std.specs.Prelude.{All};
ghost use Rattle.point_rope.specs.Held.{IsHeld};
ghost use Rattle.tgap_model.specs.declared.geometry.Point.{Point as Place};

use tgap_model::{Point, Window};

/// A box that holds no point.
pub fn no_bounds() -> Window
    ensures { (p : Place) → ¬ (IsHeld result p) }
{
    Window {
        x0: i64::MAX,
        y0: i64::MAX,
        x1: i64::MIN,
        y1: i64::MIN,
    }
}

/// A box that holds the point and what this box holds.
pub fn extended(bounds: Window, p: Point) -> Window
    ensures point { IsHeld result p }
    ensures others { (q : Place) → IsHeld bounds q → IsHeld result q }
{
    Window {
        x0: bounds.x0.min(p.x),
        y0: bounds.y0.min(p.y),
        x1: bounds.x1.max(p.x),
        y1: bounds.y1.max(p.y),
    }
}

/// A box that holds these points.
pub fn bounds_of(points: &[Point]) -> Window
    ensures { All (IsHeld result) points.now }
{
    let mut bounds = no_bounds();
    for point in points {
        bounds = extended(bounds, *point);
    }
    bounds
}

/// A box that holds what one of two boxes holds.
pub fn hull(a: Window, b: Window) -> Window
    ensures first { (p : Place) → IsHeld a p → IsHeld result p }
    ensures second { (p : Place) → IsHeld b p → IsHeld result p }
{
    Window {
        x0: a.x0.min(b.x0),
        y0: a.y0.min(b.y0),
        x1: a.x1.max(b.x1),
        y1: a.y1.max(b.y1),
    }
}
