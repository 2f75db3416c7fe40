//! A spoke with its node.

ghost use Rattle.std.specs.Prelude.{◌≢◌, IsTrue};
ghost use Rattle.tgap_model.specs.Base.{in_limits};

use tgap_model::Point;

/// An arc's way out of a node: the point toward which it first goes, and the faces at its left and right on that way.
#[derive(Clone, Copy)]
pub struct NodeSpoke {
    pub node: Point,
    pub toward: Point,
    pub left: u32,
    pub right: u32,
    ghost near: { IsTrue (in_limits node) × IsTrue (in_limits toward) },
    ghost apart: { node ≢ toward },
}
