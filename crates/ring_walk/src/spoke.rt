//! A side with its node.

ghost use Rattle.std.specs.Prelude.{◌≢◌, IsTrue};
ghost use Rattle.tgap_model.specs.Base.{in_limits};

use crate::side::Side;
use tgap_model::Point;

/// A side with the node that it leaves and the point toward which it does.
#[derive(Clone, Copy)]
pub struct Spoke {
    pub node: Point,
    pub toward: Point,
    pub side: Side,
    ghost near: { IsTrue (in_limits node) × IsTrue (in_limits toward) },
    ghost apart: { node ≢ toward },
}
