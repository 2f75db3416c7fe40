//! The map after some steps of the history.

ghost use Rattle.std.specs.Prelude.{◌≡◌};
ghost use Rattle.tgap_model.specs.Removals.{has_side};

use crate::geometry::Point;
use crate::list::List;

/// A face of a slice, with its class.
#[derive(Clone, Copy, PartialEq, Eq)]
pub struct FaceRow {
    pub face: u32,
    pub class: u32,
}

/// An edge of a slice: a row of arcs, or what the vertex removal left of it. Its key is the least number of its arcs.
#[derive(Drop)]
pub struct Edge {
    pub key: u32,
    pub left: u32,
    pub right: u32,
    pub points: List<Point>,
}

impl Edge {
    /// Whether it has the face at a side.
    pub fn has_side(&self, face: u32) -> bool
        ensures { result ≡ has_side face self.now }
    {
        self.left == face || self.right == face
    }
}

/// The map after so many steps: its faces by number, and its edges by key.
#[derive(Drop)]
pub struct Slice {
    pub step: u32,
    pub faces: List<FaceRow>,
    pub edges: List<Edge>,
}

/// A vertex that is in no slice from this step on.
#[derive(Clone, Copy, Debug, PartialEq, Eq)]
pub struct Removal {
    pub point: Point,
    pub step: u32,
}
