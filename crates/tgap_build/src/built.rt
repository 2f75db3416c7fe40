//! What is built of a map.

ghost use Rattle.std.specs.Prelude.{◌≡◌, ◌≤◌, true, length, IsTrue};
ghost use Rattle.tgap_model.specs.Base.{is_base, count_points};
ghost use Rattle.tgap_model.specs.declared.limits.TheConstants.{MAX_POINTS};
ghost use Rattle.tgap_model.specs.Partition.{IsPartition, base_segments};
ghost use Rattle.tgap_model.specs.History.{history_of};
ghost use Rattle.tgap_model.specs.Merged.{merged};
ghost use Rattle.tgap_model.specs.Records.{step_record};
ghost use Rattle.face_tree.specs.Tree.{face_history};
ghost use Rattle.edge_forest.specs.Forest.{last_step};
ghost use Rattle.tgap_build.specs.Built.{HasRemoved, IsBuilt};

use crate::boxed::BoxedForest;
use edge_forest::Forest;
use face_tree::FaceTree;
use std::marker::Model;
use tgap_model::{Base, BaseArc, List, StepRecord};

/// A checked map, its tree of faces, its forest of edges with their boxes, the records of its steps, and how many
/// points it has.
#[derive(Drop)]
pub struct Built {
    tree: FaceTree,
    boxed: BoxedForest,
    records: List<StepRecord>,
    points: usize,
}

impl Model for Built {
    ghost use Rattle.std.specs.Prelude.{◌≡◌};
    ghost use Rattle.tgap_model.specs.Base.{BaseMap, count_points};
    ghost use Rattle.tgap_build.specs.Built.{IsBuilt};

    ghost Value = { BaseMap };

    ghost view = { λ b. b.boxed.base };

    ghost invariant = { λ b. IsBuilt b.tree b.boxed b.records × (b.points ≡ count_points b.boxed.base.arcs) };
}

/// How many points all arcs have.
fn count_points(arcs: &[BaseArc]) -> usize
    requires { count_points arcs.now ≤ MAX_POINTS }
    ensures { result ≡ count_points arcs.now }
{
    arcs.iter().map(|arc| arc.points.len()).sum()
}

impl Built {
    /// The tree, the forest and the records of one map, together. Its points are counted here, once.
    pub(crate) fn of(tree: FaceTree, boxed: BoxedForest, records: List<StepRecord>) -> Built
        requires { IsBuilt tree boxed records }
        ensures { result ≡ boxed.base }
    {
        let arcs = boxed.forest().base().arcs().as_slice();
        let points = count_points(arcs);
        Built {
            tree,
            boxed,
            records,
            points,
        }
    }

    /// The base map: a planar partition.
    pub fn base(&self) -> &Base
        ensures value { result.now ≡ self.now }
        ensures base { IsTrue (is_base self.now) }
        ensures partition { IsPartition (base_segments self.now) }
    {
        self.boxed.forest().base()
    }

    /// The tree of its faces, by its merge history.
    pub fn tree(&self) -> &FaceTree
        ensures { result.now ≡ face_history (merged self.now) }
    {
        &self.tree
    }

    /// The forest of its edges, when all steps of its history were made and have removed their vertices.
    pub fn forest(&self) -> &Forest
        ensures base { result.now.base ≡ self.now }
        ensures closed { result.now.closed ≡ true }
        ensures made { result.now.made ≡ last_step result.now }
        ensures removed { HasRemoved result.now (last_step result.now) }
    {
        self.boxed.forest()
    }

    /// The same forest, with the bounding boxes of its edges.
    pub fn boxed(&self) -> &BoxedForest
        ensures base { result.now.base ≡ self.now }
        ensures closed { result.now.closed ≡ true }
        ensures made { result.now.made ≡ last_step result.now }
        ensures removed { HasRemoved result.now (last_step result.now) }
    {
        &self.boxed
    }

    /// The record of a step, from 1 to the last one: how the slice after it is led back to the slice before it.
    pub fn record_of(&self, step: u32) -> &StepRecord
        requires some { 1 ≤ step }
        requires within { step ≤ length (history_of self.now) }
        ensures { result.now ≡ step_record (merged self.now) step }
    {
        &self.records.as_slice()[step as usize - 1]
    }

    /// How many points all arcs of its base map have, as they were counted when it was built.
    pub fn points(&self) -> usize
        ensures { result ≡ count_points self.now.arcs }
    {
        self.points
    }

    /// The number of steps of its merge history.
    pub fn steps(&self) -> u32
        ensures { result ≡ length (history_of self.now) }
    {
        self.tree.steps()
    }
}
