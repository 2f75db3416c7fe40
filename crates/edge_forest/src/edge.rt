//! An edge of the forest, and what it is made of.

use tgap_model::List;

/// A part of an edge: an arc of the base map, where it is a leaf, or else an earlier edge. Where it is turned, the edge
/// runs against it.
#[derive(Clone, Copy, PartialEq, Eq)]
pub struct Part {
    pub leaf: bool,
    pub id: u32,
    pub turned: bool,
}

/// An edge: one chain of border arcs. It is there after each step from `low` on and before `high`. The step `low` made it,
/// or it is of the base map where that is 0. The step `high` made it a part of a longer edge or put one face at both of its
/// sides; where no step did, `high` is above them all. The least number among its arcs is its key, and the edge runs as that
/// arc does. The labels at its left and right are those at its low step.
#[derive(Drop)]
pub struct ForestEdge {
    pub key: u32,
    pub low: u32,
    pub high: u32,
    pub left: u32,
    pub right: u32,
    pub parts: List<Part>,
}
