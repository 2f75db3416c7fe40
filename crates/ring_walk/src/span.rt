//! What a walk has to know of an edge or an arc.

ghost use Rattle.std.specs.Prelude.{◌≡◌};
ghost use Rattle.ring_walk.specs.Sides.{face_by, start_by, toward_by};

use crate::side::Way;
use tgap_model::Point;

/// The directions in which an edge of a slice leaves its two nodes: those in which its first and its last arc do in the
/// base map.
#[derive(Clone, Copy, PartialEq, Eq)]
pub struct EdgeEnds {
    /// The point after the first one, in the first arc.
    pub after_first: Point,
    /// The point before the last one, in the last arc.
    pub before_last: Point,
}

/// An edge or an arc, as far as a walk round faces has to know it: the two nodes, the point toward which it leaves each of
/// them, and the faces at its left and right.
#[derive(Clone, Copy, PartialEq, Eq)]
pub struct Span {
    pub first: Point,
    pub last: Point,
    pub ends: EdgeEnds,
    pub left: u32,
    pub right: u32,
}

impl Span {
    /// The node that it leaves on that way.
    pub fn start(&self, way: Way) -> Point
        ensures { result ≡ start_by way self.now }
    {
        match way {
            Way::Along => self.first,
            Way::Against => self.last,
        }
    }

    /// The point toward which it leaves that node.
    pub fn toward(&self, way: Way) -> Point
        ensures { result ≡ toward_by way self.now }
    {
        match way {
            Way::Along => self.ends.after_first,
            Way::Against => self.ends.before_last,
        }
    }

    /// The face at its left on that way.
    pub fn face(&self, way: Way) -> u32
        ensures { result ≡ face_by way self.now }
    {
        match way {
            Way::Along => self.left,
            Way::Against => self.right,
        }
    }
}
