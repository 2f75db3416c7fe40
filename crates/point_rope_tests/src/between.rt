//! The points of a part of a row, by their abscissas.

ghost use Rattle.std.specs.Prelude.{◌&&◌, int_le};
ghost use Rattle.tgap_model.specs.declared.geometry.Point.{Point as Place};

use point_rope::PointTest;
use tgap_model::{Point, Window};

/// The abscissas from one up to another.
#[derive(Clone, Copy, Debug)]
pub struct Between {
    pub low: i64,
    pub high: i64,
}

impl PointTest for Between {
    ghost passes = { λ b p. int_le b.low p.x && int_le p.x b.high };

    fn passes(&self, point: &Point) -> bool {
        self.low <= point.x && point.x <= self.high
    }

    fn may_pass(&self, bounds: &Window) -> bool {
        self.low <= bounds.x1 && bounds.x0 <= self.high
    }
}
