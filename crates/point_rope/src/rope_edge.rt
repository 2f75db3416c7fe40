//! An edge whose points stand in a rope.

ghost use Rattle.std.specs.Prelude.{◌≡◌, not, filter, All, IfOk};
ghost use Rattle.tgap_model.specs.Removals.{has_side};
ghost use Rattle.point_rope.specs.Held.{IsNearPoint};

use crate::point_test::PointTest;
use crate::rope::Rope;
use std::alloc::Global;
use std::marker::Model;
use tgap_model::{Edge, Memory};

/// An edge of a slice, whose points stand in a rope. Contracts see the edge.
#[derive(Debug, Drop)]
pub struct RopeEdge {
    key: u32,
    left: u32,
    right: u32,
    row: Rope,
}

impl Model for RopeEdge {
    ghost use Rattle.tgap_model.specs.declared.slice.Edge.{Edge as Line};

    ghost Value = { Line };

    ghost view = { λ e. record { key = e.key; left = e.left; right = e.right; points = e.row } };
}

impl RopeEdge {
    /// An edge by its key, with the faces at its sides and its points.
    pub fn new(key: u32, left: u32, right: u32, row: Rope) -> RopeEdge
        ensures { result ≡ record { key = key; left = left; right = right; points = row } }
    {
        RopeEdge {
            key,
            left,
            right,
            row,
        }
    }

    /// The edge with its points in a rope.
    pub fn of(alloc: Global, edge: Edge) -> Result<RopeEdge, Memory>
        requires near { All IsNearPoint edge.points }
        ensures { IfOk result (λ roped. roped ≡ edge) }
    {
        Ok(RopeEdge {
            key: edge.key,
            left: edge.left,
            right: edge.right,
            row: Rope::of(alloc, edge.points)?,
        })
    }

    /// Its key, the least number of its arcs.
    pub fn key(&self) -> u32
        ensures { result ≡ self.now.key }
    {
        self.key
    }

    /// The face to its left.
    pub fn left(&self) -> u32
        ensures { result ≡ self.now.left }
    {
        self.left
    }

    /// The face to its right.
    pub fn right(&self) -> u32
        ensures { result ≡ self.now.right }
    {
        self.right
    }

    /// Whether it has the face at a side.
    pub fn has_side(&self, face: u32) -> bool
        ensures { result ≡ has_side face self.now }
    {
        self.left == face || self.right == face
    }

    /// Its points.
    pub fn row(&self) -> &Rope
        ensures { result.now ≡ self.now.points }
    {
        &self.row
    }

    /// Its points, without the edge.
    pub fn into_row(self) -> Rope
        ensures { result ≡ self.points }
    {
        self.row
    }

    /// Takes the points out that pass the test. It takes no memory.
    pub fn remove<T: PointTest>(&mut self, test: &T)
        ensures { self.new ≡ record { key = self.old.key; left = self.old.left; right = self.old.right; points = filter (λ p. not (T.passes test.now p)) self.old.points } }
    {
        self.row.remove(test);
    }
}
