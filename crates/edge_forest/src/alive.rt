//! The edges whose range holds a step.

ghost use Rattle.std.specs.Prelude.{◌≡◌, ◌≢◌, ◌<◌, ◌≤◌, ◌+◌, ◌^◌, ◌++◌, ℕ, true, length, map, filter, All, IfOk, OnOk};
ghost use Rattle.edge_forest.specs.Edges.{edge_at, is_alive, alive_edges};
ghost use Rattle.edge_forest.specs.Index.{IsIndexFor, keyed};

use crate::edge::ForestEdge;
use crate::index::RangeIndex;
use crate::looks::{look, look_list};
use std::alloc::Global;
use std::sync::ledger::Ledger;
use tgap_model::{List, Memory, Steps};

/// An edge by its number, with its key beside it.
#[derive(Clone, Copy)]
pub struct KeyedEdge {
    pub key: u32,
    pub id: u32,
}

/// Whether the range of the edge holds k.
pub fn holds(edge: &ForestEdge, k: u32) -> bool
    ensures { result ≡ is_alive k edge.now }
{
    edge.low <= k && k < edge.high
}

/// Reads the ranges of these edges, and puts those of them behind `found` that hold k, with their keys.
fn read_ranges<L: Ledger>(
    found: &mut Vec<KeyedEdge>,
    edges: &[ForestEdge],
    listed: &[u32],
    k: u32,
    looks: &mut Steps<L>,
) -> Result<(), Memory>
    requires { All (λ i. i < length edges.now) listed.now }
    ensures found { IfOk result (λ _. found.new.items ≡ found.old.items ++ map (keyed edges.now) (filter (λ i. is_alive k (edge_at edges.now i)) listed.now)) }
    ensures most { looks.new ≤ looks.old + length listed.now }
    ensures all { OnOk result (looks.new ≡ looks.old + length listed.now) }
{
    for id in listed {
        let edge = look(edges, *id as usize, looks);
        if holds(edge, k) {
            found.push(KeyedEdge {
                key: edge.key,
                id: *id,
            })?;
        }
    }
    Ok(())
}

/// The numbers of these edges, in their order.
fn numbers_of(alloc: Global, found: &[KeyedEdge]) -> Result<List<u32>, Memory>
    ensures { IfOk result (λ ids. ids ≡ map (λ e. e.id) found.now) }
{
    let mut ids = Vec::with_capacity(alloc, found.len())?;
    for edge in found {
        ids.push(edge.id)?;
    }
    Ok(List::from(ids))
}

/// The numbers of the edges whose range holds k, in the order of their keys. The index is gone up from the leaf of the step
/// to the root, and the edges that are listed on the way are read: one look for each of both.
pub fn alive_at<L: Ledger>(
    alloc: Global,
    edges: &[ForestEdge],
    index: &RangeIndex,
    k: u32,
    looks: &mut Steps<L>,
) -> Result<List<u32>, Memory>
    requires few { length edges.now < 2 ^ 32 }
    requires index { IsIndexFor k edges.now index.now }
    requires keys { (i j : ℕ) → i < length edges.now → j < length edges.now → i ≢ j → is_alive k (edge_at edges.now i) ≡ true → is_alive k (edge_at edges.now j) ≡ true → (edge_at edges.now i).key ≢ (edge_at edges.now j).key }
    ensures ids { IfOk result (λ ids. ids ≡ alive_edges edges.now k) }
    ensures most { looks.new ≤ looks.old + length (alive_edges edges.now k) + index.now.depth + 1 }
    ensures all { OnOk result (looks.new ≡ looks.old + length (alive_edges edges.now k) + index.now.depth + 1) }
{
    let mut found = Vec::new(alloc);
    let mut node = index.leaves + k as usize;
    for _ in 0..index.depth + 1 {
        let listed = look_list(&index.nodes, node, looks);
        read_ranges(&mut found, edges, listed, k, looks)?;
        node /= 2;
    }
    found.sort_unstable_by_key(|edge| edge.key);
    numbers_of(alloc, &found)
}
