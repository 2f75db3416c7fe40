//! Refinement: what leads from the slice after a step back to the slice before it.

use crate::geometry::Point;
use crate::list::List;
use crate::slice::Edge;

/// A vertex that comes back, at its place in the points of its edge.
#[derive(Clone, Copy, PartialEq, Eq)]
pub struct Put {
    pub at: u32,
    pub point: Point,
}

/// A piece of an edge, which is an edge of the finer slice: its key, the place of its last point, the face that takes
/// the side of the new face, and whether it runs against the edge.
#[derive(Clone, Copy, PartialEq, Eq)]
pub struct Piece {
    pub key: u32,
    pub last: u32,
    pub side: u32,
    pub turned: bool,
}

/// How an edge is refined: first vertices are put in, then it is cut into pieces.
#[derive(Drop)]
pub struct Mend {
    pub key: u32,
    pub puts: List<Put>,
    pub pieces: List<Piece>,
}

/// How a slice is refined by one step: the new face becomes loser and winner again, edges that border it are mended,
/// and the edges between the two come back.
#[derive(Drop)]
pub struct StepRecord {
    pub step: u32,
    pub loser: u32,
    pub loser_class: u32,
    pub winner: u32,
    pub winner_class: u32,
    pub made: u32,
    pub mends: List<Mend>,
    pub ended: List<Edge>,
}

/// The records of the steps from `from` down to `to + 1`.
#[derive(Drop)]
pub struct Packet {
    pub from: u32,
    pub to: u32,
    pub steps: List<StepRecord>,
}
