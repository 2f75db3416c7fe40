//! A forest with the boxes of its edges.

ghost use Rattle.std.specs.Prelude.{◌≡◌, IfOk};
ghost use Rattle.tgap_build.specs.Boxes.{boxes_of};

use crate::boxes::boxes_of;
use edge_forest::Forest;
use grid_index::EdgeBoxes;
use std::alloc::Global;
use std::marker::Model;
use tgap_model::Memory;

/// The forest of a map, and a look-up of the bounding boxes of its edges. Contracts see the forest.
#[derive(Drop)]
pub struct BoxedForest {
    forest: Forest,
    boxes: EdgeBoxes,
}

impl Model for BoxedForest {
    ghost use Rattle.std.specs.Prelude.{◌≡◌};
    ghost use Rattle.edge_forest.specs.Forest.{EdgeForest};
    ghost use Rattle.tgap_build.specs.Boxes.{boxes_of};

    ghost Value = { EdgeForest };

    ghost view = { λ b. b.forest };

    ghost invariant = { λ b. b.boxes ≡ boxes_of b.forest };
}

impl BoxedForest {
    /// A forest with the boxes of its edges, which are made here in the time of the points of its map, of its joins, and of a
    /// sort of the edges.
    pub(crate) fn of(alloc: Global, forest: Forest) -> Result<BoxedForest, Memory>
        ensures { IfOk result (λ boxed. boxed ≡ forest) }
    {
        let list = boxes_of(alloc, &forest)?;
        let boxes = EdgeBoxes::of(alloc, &list)?;
        Ok(BoxedForest { forest, boxes })
    }

    /// The forest.
    pub fn forest(&self) -> &Forest
        ensures { result.now ≡ self.now }
    {
        &self.forest
    }

    /// By the number of each edge, the bounding box of all points of its arcs, those that a step has removed among them.
    pub fn boxes(&self) -> &EdgeBoxes
        ensures { result.now ≡ boxes_of self.now }
    {
        &self.boxes
    }
}
