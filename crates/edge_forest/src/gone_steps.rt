//! The steps at which the points of the arcs of a map were removed, in the order of the points.

ghost use Rattle.std.specs.Prelude.{◌≡◌, ◌<◌, ◌≤◌, ◌++◌, length, map, IfOk, OnOk};
ghost use Rattle.std.specs.List.{All};
ghost use Rattle.tgap_model.specs.Chains.{arc_number, link_start, link_end};
ghost use Rattle.edge_forest.specs.Removed.{PointSteps, step_of};
ghost use Rattle.edge_forest.specs.Spent.{AreGoneSteps};
ghost use Rattle.edge_forest.specs.Walks.{chain_link};

use crate::removed::Removed;
use crate::span::turned_link;
use crate::walk::Link;
use std::alloc::Global;
use tgap_model::{BaseArc, Memory, Point};

/// For each point of each arc the step at which it was removed, or 0 where it was not, and for each arc where those of its points begin.
#[derive(Drop)]
pub struct GoneSteps {
    pub steps: Vec<u32>,
    pub starts: Vec<usize>,
}

/// How many points these arcs have, for the room that their steps take.
fn room_of(arcs: &[BaseArc]) -> usize {
    let mut count = 0usize;
    for arc in arcs {
        count = count.saturating_add(arc.points.len());
    }
    count
}

/// Puts the steps of these points at the end.
fn push_steps(steps: &mut Vec<u32>, removed: &Removed, points: &[Point]) -> Result<(), Memory>
    ensures { OnOk result (steps.new.items ≡ steps.old.items ++ map (step_of removed.now) points.now) }
{
    for point in points {
        steps.push(removed.step_of(point))?;
    }
    Ok(())
}

impl GoneSteps {
    /// Nothing. It takes no memory.
    pub fn none(alloc: Global) -> GoneSteps {
        GoneSteps {
            steps: Vec::new(alloc),
            starts: Vec::new(alloc),
        }
    }

    /// The steps of the points of these arcs. It takes a search among the points of the map for each.
    pub fn of(alloc: Global, arcs: &[BaseArc], removed: &Removed) -> Result<GoneSteps, Memory>
        ensures { IfOk result (λ gone. AreGoneSteps arcs.now removed.now gone) }
    {
        let mut steps = Vec::with_capacity(alloc, room_of(arcs))?;
        let mut starts = Vec::with_capacity(alloc, arcs.len())?;
        for arc in arcs {
            starts.push(steps.len())?;
            push_steps(&mut steps, removed, arc.points.as_slice())?;
        }
        Ok(GoneSteps { steps, starts })
    }

    /// The steps of the points of an arc.
    pub fn along(&self, arcs: &[BaseArc], arc: u32) -> &[u32]
        requires arc { arc < length arcs.now }
        requires gone { (t : PointSteps) × AreGoneSteps arcs.now t self.now }
        ensures { (t : PointSteps) → AreGoneSteps arcs.now t self.now → result.now ≡ map (step_of t) (arc_number arcs.now arc).points }
    {
        let start = self.starts[arc as usize];
        let count = arcs[arc as usize].points.as_slice().len();
        &self.steps[start..start + count]
    }

    /// The step of the point at which an arc starts.
    pub fn at_start(&self, arcs: &[BaseArc], link: Link) -> u32
        requires arc { link.arc < length arcs.now }
        requires long { All (λ a. 2 ≤ length a.points) arcs.now }
        requires gone { (t : PointSteps) × AreGoneSteps arcs.now t self.now }
        ensures { (t : PointSteps) → AreGoneSteps arcs.now t self.now → result ≡ step_of t (link_start arcs.now (chain_link link)) }
    {
        let steps = self.along(arcs, link.arc);
        if link.turned {
            steps[steps.len() - 1]
        } else {
            steps[0]
        }
    }

    /// The step of the point at which an arc ends.
    pub fn at_end(&self, arcs: &[BaseArc], link: Link) -> u32
        requires arc { link.arc < length arcs.now }
        requires long { All (λ a. 2 ≤ length a.points) arcs.now }
        requires gone { (t : PointSteps) × AreGoneSteps arcs.now t self.now }
        ensures { (t : PointSteps) → AreGoneSteps arcs.now t self.now → result ≡ step_of t (link_end arcs.now (chain_link link)) }
    {
        self.at_start(arcs, turned_link(link))
    }
}
