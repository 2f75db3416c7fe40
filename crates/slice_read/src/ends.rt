//! The ends of the edges of a slice in the base map.

ghost use Rattle.std.specs.Prelude.{◌≡◌, ◌<◌, ◌≤◌, ◌↔◌, ℕ, true, reverse, length, map, All, IfOk, Err};
ghost use Rattle.tgap_model.specs.Chains.{link_points, chains_at};
ghost use Rattle.tgap_model.specs.History.{history_of};
ghost use Rattle.tgap_model.specs.Merged.{merged};
ghost use Rattle.tgap_model.specs.Slice.{slice};
ghost use Rattle.edge_forest.specs.Edges.{chain_of, alive_edges};
ghost use Rattle.edge_forest.specs.Forest.{last_step};
ghost use Rattle.edge_forest.specs.Walks.{chain_link};
ghost use Rattle.slice_read.specs.declared.fail.ReadFail.TheVariants.{StepTooHigh};
ghost use Rattle.slice_read.specs.Ends.{HaveSegments, IsChainOf, LeaveNodes, chain_ends, second_point, slice_ends};

use crate::fail::ReadFail;
use edge_forest::{Forest, Link};
use ring_walk::EdgeEnds;
use std::alloc::Global;
use std::marker::Brand;
use std::sync::ledger::{Blank, Ledger};
use tgap_build::Built;
use tgap_model::{BaseArc, List, Memory, Point, Steps};

/// The point next to the first one of an arc, in the direction of its edge.
fn after_first(arcs: &[BaseArc], link: &Link) -> Point
    requires arcs { HaveSegments arcs.now }
    requires link { link.now.arc < length arcs.now }
    ensures { result ≡ second_point (link_points arcs.now (chain_link link.now)) }
{
    let points = arcs[link.arc as usize].points.as_slice();
    if link.turned {
        points[points.len() - 2]
    } else {
        points[1]
    }
}

/// The point next to the last one of an arc, in the direction of its edge.
fn before_last(arcs: &[BaseArc], link: &Link) -> Point
    requires arcs { HaveSegments arcs.now }
    requires link { link.now.arc < length arcs.now }
    ensures { result ≡ second_point (reverse (link_points arcs.now (chain_link link.now))) }
{
    let points = arcs[link.arc as usize].points.as_slice();
    if link.turned {
        points[1]
    } else {
        points[points.len() - 2]
    }
}

/// Where an edge of these arcs leaves its two ends.
fn ends_of(arcs: &[BaseArc], links: &[Link]) -> EdgeEnds
    requires arcs { HaveSegments arcs.now }
    requires links { IsChainOf arcs.now (map chain_link links.now) }
    ensures { result ≡ chain_ends arcs.now (map chain_link links.now) }
{
    EdgeEnds {
        after_first: after_first(arcs, &links[0]),
        before_last: before_last(arcs, &links[links.len() - 1]),
    }
}

/// The numbers of the edges that are there after k steps, where nobody counts the looks that it takes.
pub fn ids_at<L: Ledger>(
    alloc: Global,
    forest: &Forest,
    k: u32,
    blank: Blank,
) -> Result<List<u32>, Memory>
    requires closed { forest.now.closed ≡ true }
    requires step { k ≤ last_step forest.now }
    requires name { blank.name ≡ L.name }
    requires parts { blank.parts ≡ L.parts }
    requires some { 0 < blank.parts }
    ensures value { IfOk result (λ ids. ids ≡ alive_edges forest.now.edges k) }
    ensures within { IfOk result (λ ids. All (λ id. id < length forest.now.edges) ids) }
    ensures chains { IfOk result (λ ids. map (chain_of forest.now.edges) ids ≡ chains_at (merged forest.now.base) k) }
{
    let mut steps = Steps::<L>::new(blank);
    forest.alive(alloc, k, &mut steps)
}

/// For each edge of the slice after k steps, in the order of `slice_at`, where it leaves its two nodes in the base map: the
/// point next to its first one in its first arc, and that next to its last one in its last arc, whatever vertices were
/// removed by then. There are none after more steps than the history has. It takes a walk over the arcs of each edge.
pub fn ends_at(alloc: Global, built: &Built, k: u32) -> Result<List<EdgeEnds>, ReadFail>
    // They are those of the chains by the definition.
    ensures exact { IfOk result (λ ends. ends ≡ slice_ends built.now k) }
    // There is one for each edge of the slice. The edges are within the limits of a map, and each leaves its two nodes toward
    // another point.
    ensures leave { IfOk result (LeaveNodes (slice built.now k).edges) }
    // It is refused exactly where k is above the number of the last step, which the refusal tells.
    ensures high { (steps : ℕ) → (result ≡ Err (StepTooHigh steps)) ↔ ((length (history_of built.now) < k) × (steps ≡ length (history_of built.now))) }
{
    let steps = built.steps();
    if k > steps {
        return Err(ReadFail::StepTooHigh { steps });
    }
    let arcs = built.base().arcs().as_slice();
    let forest = built.forest();
    let ids = ids_at::<Brand>(alloc, forest, k, Blank::new(1))?;
    let mut ends = List::new(alloc);
    for id in ids.as_slice() {
        let links = forest.links(alloc, *id)?;
        ends.push(ends_of(arcs, links.as_slice()))?;
    }
    Ok(ends)
}
