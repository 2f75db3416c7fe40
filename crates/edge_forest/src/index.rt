//! The range index: which edges are there after a step, without a scan of all.

ghost use Rattle.std.specs.Prelude.{◌≡◌, ◌<◌, ◌≤◌, ◌+◌, ◌*◌, ◌^◌, ◌∷◌, ◌++◌, ℕ, [], length, map, get_or, set, IfOk, if◌then◌else◌};
ghost use Rattle.lemmas.specs.Parity.{is_odd};
ghost use Rattle.edge_forest.specs.Edges.{edge_at};
ghost use Rattle.edge_forest.specs.Kept.{closed_edge};
ghost use Rattle.edge_forest.specs.Index.{listed_nodes, IsListed, IsIndex};

use crate::edge::ForestEdge;
use crate::flat_lists::FlatLists;
use crate::growth::closed_high;
use crate::nodes::empty_lists;
use std::alloc::Global;
use tgap_model::{List, Memory};

/// A complete binary tree over 2 to the power `depth` steps, which are `leaves`, and at each node the numbers of the edges
/// that are listed there. The root is node 1, and the nodes below node x are 2 x and 2 x + 1. An edge is listed at the
/// highest nodes of which all steps lie in its range: at no more than two of each level.
#[derive(Drop)]
pub struct RangeIndex {
    pub depth: u32,
    pub leaves: usize,
    pub nodes: FlatLists,
}

impl RangeIndex {
    /// No index. It takes no memory.
    pub fn none(alloc: Global) -> RangeIndex {
        RangeIndex {
            depth: 0,
            leaves: 1,
            nodes: FlatLists::none(alloc),
        }
    }
}

/// How many levels it takes for the steps from 0 to the last one, but for the root, and how many leaves they then have.
fn levels_over(last: u32) -> (u32, usize)
    ensures leaves { result.1 ≡ 2 ^ result.0 }
    ensures wide { last < result.1 }
    ensures few { result.1 ≤ 2 ^ 33 }
    ensures least { (d : ℕ) → last < 2 ^ d → result.0 ≤ d }
{
    let mut depth = 0;
    let mut leaves = 1;
    while leaves <= last as usize {
        leaves *= 2;
        depth += 1;
    }
    (depth, leaves)
}

/// Lists an edge at a node.
fn list_at(nodes: &mut Vec<List<u32>>, node: usize, id: u32) -> Result<(), Memory>
    requires { node < length nodes.old.items }
    ensures { IfOk result (λ _. IsListed nodes.old.items nodes.new.items id (node ∷ [])) }
{
    nodes[node].push(id)?;
    Ok(())
}

/// Lists an edge at a node that is the second one below its upper node.
fn list_at_second(nodes: &mut Vec<List<u32>>, node: usize, id: u32) -> Result<(), Memory>
    requires { node < length nodes.old.items }
    ensures { IfOk result (λ _. IsListed nodes.old.items nodes.new.items id (if is_odd node then node ∷ [] else [])) }
{
    if node % 2 == 1 {
        list_at(nodes, node, id)?;
    }
    Ok(())
}

/// Lists an edge at a node that is the first one below its upper node.
fn list_at_first(nodes: &mut Vec<List<u32>>, node: usize, id: u32) -> Result<(), Memory>
    requires { node < length nodes.old.items }
    ensures { IfOk result (λ _. IsListed nodes.old.items nodes.new.items id (if is_odd node then [] else node ∷ [])) }
{
    if node % 2 == 0 {
        list_at(nodes, node, id)?;
    }
    Ok(())
}

/// Lists an edge at the nodes of its range, which goes from leaf `low` on and before leaf `high`, level by level.
fn list_range(
    nodes: &mut Vec<List<u32>>,
    mut low: usize,
    mut high: usize,
    id: u32,
) -> Result<(), Memory>
    requires { high ≤ length nodes.old.items }
    ensures { IfOk result (λ _. (levels : ℕ) → 2 ^ levels ≤ 2 * low → high ≤ 2 ^ levels → IsListed nodes.old.items nodes.new.items id (listed_nodes levels low high)) }
{
    while low < high {
        list_at_second(nodes, low, id)?;
        list_at_first(nodes, high - 1, id)?;
        low = (low + 1) / 2;
        high /= 2;
    }
    Ok(())
}

/// The index of these edges over the steps from 0 to the last one, when those that have not ended end after it.
pub fn index_of(alloc: Global, edges: &[ForestEdge], last: u32) -> Result<RangeIndex, Memory>
    requires more { last + 1 < 2 ^ 32 }
    requires few { length edges.now < 2 ^ 32 }
    requires ranges { (i : ℕ) → i < length edges.now → (edge_at (map (closed_edge (last + 1)) edges.now) i).high ≤ last + 1 }
    ensures { IfOk result (IsIndex last (map (closed_edge (last + 1)) edges.now)) }
{
    let (depth, leaves) = levels_over(last);
    let mut nodes = empty_lists(alloc, 2 * leaves)?;
    for id in 0..edges.len() {
        let edge = &edges[id];
        let high = closed_high(edge.high, last + 1);
        list_range(
            &mut nodes,
            leaves + edge.low as usize,
            leaves + high as usize,
            id as u32,
        )?;
    }
    Ok(RangeIndex {
        depth,
        leaves,
        nodes: FlatLists::of(alloc, nodes.as_slice())?,
    })
}
