//! Room for the points of edges, which are read one after the other.

ghost use Rattle.std.specs.Prelude.{◌≡◌, ◌<◌, ◌≤◌, ℕ, [], length, OnOk};
ghost use Rattle.std.specs.List.{All};
ghost use Rattle.edge_forest.specs.Edges.{IsPart, edge_at, chain_of};
ghost use Rattle.edge_forest.specs.Removed.{PointSteps};
ghost use Rattle.edge_forest.specs.Spent.{left_points, AreSpent};

use crate::edge::{ForestEdge, Part};
use crate::left::read_left;
use crate::spent::Spent;
use std::alloc::Global;
use std::marker::Model;
use tgap_model::{BaseArc, List, Memory, Point};

/// Room for the points of one edge after the other. Contracts see the points that it holds.
#[derive(Drop)]
pub struct PointRoom {
    points: Vec<Point>,
    stack: Vec<Part>,
}

impl Model for PointRoom {
    ghost use Rattle.std.specs.Prelude.{List as Sequence};
    ghost use Rattle.tgap_model.specs.declared.geometry.Point.{Point};

    ghost Value = { Sequence Point };

    ghost view = { λ room. room.points.items };
}

impl PointRoom {
    /// The room, with no points. It takes no memory.
    pub fn new(alloc: Global) -> PointRoom
        ensures { result ≡ [] }
    {
        PointRoom {
            points: Vec::new(alloc),
            stack: Vec::new(alloc),
        }
    }

    /// The points.
    pub fn as_slice(&self) -> &[Point]
        ensures { result.now ≡ self.now }
    {
        self.points.as_slice()
    }

    /// The points as a list. It takes no memory.
    pub(crate) fn into_points(self) -> List<Point>
        ensures { result ≡ self }
    {
        List::from(self.points)
    }

    /// Holds these points, in place of those that it held.
    pub(crate) fn put(&mut self, points: List<Point>)
        ensures { self.new ≡ points }
    {
        self.points = points.into_vec();
    }

    /// Holds the points of an edge that are left after k steps, in place of those that it held.
    pub(crate) fn read_left(
        &mut self,
        arcs: &[BaseArc],
        edges: &[ForestEdge],
        spent: &Spent,
        id: u32,
        k: u32,
    ) -> Result<(), Memory>
        requires id { id < length edges.now }
        requires long { All (λ a. 2 ≤ length a.points) arcs.now }
        requires parts { (i : ℕ) → i < length edges.now → All (IsPart (length arcs.now) i) (edge_at edges.now i).parts }
        requires spent { (t : PointSteps) × AreSpent arcs.now t edges.now spent.now }
        ensures { (t : PointSteps) → AreSpent arcs.now t edges.now spent.now
            → OnOk result (self.new ≡ left_points arcs.now t k (chain_of edges.now id)) }
    {
        read_left(&mut self.points, &mut self.stack, arcs, edges, spent, id, k)
    }
}
