//! What is looked for among points.

ghost use Rattle.std.specs.Prelude.{◌≡◌, Bool, false};
ghost use Rattle.tgap_model.specs.declared.geometry.Point.{Point as Place};
ghost use Rattle.point_rope.specs.Held.{IsHeld};

use tgap_model::{Point, Window};

/// A test of points that a box can spare.
pub trait PointTest {
    /// Whether a point passes.
    ghost passes: { Self → Place → Bool };

    /// Whether the point passes.
    fn passes(&self, point: &Point) -> bool
        ensures { result ≡ passes self.now point.now };

    /// Whether a point that the box holds may pass: it is false only where none does.
    fn may_pass(&self, bounds: &Window) -> bool
        ensures { result ≡ false → (p : Place) → IsHeld bounds.now p → passes self.now p ≡ false };
}
