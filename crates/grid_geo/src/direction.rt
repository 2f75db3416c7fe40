//! The order of directions round a point.

ghost use Rattle.std.specs.Prelude.{◌≡◌};
ghost use Rattle.tgap_model.specs.Segment.{half_turn};

use tgap_model::Point;

/// 0 for a direction that goes up, or to positive x; 1 for the others.
pub fn half_turn(o: Point, p: Point) -> u8
    ensures { result ≡ half_turn o p }
{
    if o.y < p.y || o.y == p.y && o.x < p.x {
        0
    } else {
        1
    }
}
