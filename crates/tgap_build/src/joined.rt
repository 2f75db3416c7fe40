//! The edges before a step of which an edge after it is made.

ghost use Rattle.std.specs.Prelude.{◌≡◌, ◌<◌, ◌≤◌, ◌-◌, ◌++◌, ℕ, map, reverse, length, All, Contains, IfOk, OnOk};
ghost use Rattle.tgap_model.specs.Merged.{merged};
ghost use Rattle.tgap_model.specs.Chains.{key as chain_key, chains_at};
ghost use Rattle.edge_forest.specs.Edges.{edge_at, chain_of};
ghost use Rattle.edge_forest.specs.Forest.{IsForest};
ghost use Rattle.edge_forest.specs.Continued.{AreJoined};
ghost use Rattle.edge_forest.specs.Walks.{turned_parts, inner_parts};
ghost use Rattle.tgap_build.specs.OldEdges.{old_chains};

use edge_forest::{Forest, Part};
use std::alloc::Global;
use tgap_model::Memory;

/// An edge before a step as a part of one after it: its key, and whether the later one runs against it.
#[derive(Clone, Copy)]
pub struct OldEdge {
    pub key: u32,
    pub turned: bool,
}

/// Puts the parts of an edge that is turned round at the end: each is turned, and the last one comes first.
fn push_turned(stack: &mut Vec<Part>, parts: &[Part]) -> Result<(), Memory>
    ensures { OnOk result (stack.new.items ≡ stack.old.items ++ turned_parts parts.now) }
{
    for part in parts.iter().rev() {
        stack.push(Part {
            leaf: part.leaf,
            id: part.id,
            turned: !part.turned,
        })?;
    }
    Ok(())
}

/// Puts the parts of the edge that this part is at the end, in the direction of the part.
fn push_parts_of(stack: &mut Vec<Part>, forest: &Forest, part: Part) -> Result<(), Memory>
    requires { part.id < length forest.now.edges }
    ensures { OnOk result (stack.new.items ≡ stack.old.items ++ inner_parts forest.now.edges part) }
{
    let parts = forest.edge(part.id).parts.as_slice();
    if part.turned {
        push_turned(stack, parts)
    } else {
        stack.extend_from_slice(parts)?;
        Ok(())
    }
}

/// The edges before step k of which an edge that the step made is made: they have the numbers below `first`, and the last one
/// comes first. Edges can be made of edges many thousands deep, so the parts that are still to be visited stand in a stack, with
/// the next one at its end.
fn old_from_last(
    alloc: Global,
    forest: &Forest,
    first: u32,
    id: u32,
    k: u32,
) -> Result<Vec<OldEdge>, Memory>
    requires forest { IsForest forest.now }
    requires step { (0 < k) × (k - 1 ≤ forest.now.made) }
    requires before { (i : ℕ) → i < first → (edge_at forest.now.edges i).low ≤ k - 1 }
    requires joined { AreJoined k first forest.now.edges }
    requires id { (first ≤ id) × (id < length forest.now.edges) }
    ensures there { IfOk result (λ parts. All (λ p. Contains (map chain_key (chains_at (merged forest.now.base) (k - 1))) p.key) parts.items) }
    ensures chain { IfOk result (λ parts. old_chains (chains_at (merged forest.now.base) (k - 1)) (reverse parts.items) ≡ chain_of forest.now.edges id) }
{
    let mut found = Vec::new(alloc);
    let mut stack = Vec::new(alloc);
    stack.push(Part {
        leaf: false,
        id,
        turned: false,
    })?;
    while let Some(part) = stack.pop() {
        if part.id < first {
            found.push(OldEdge {
                key: forest.edge(part.id).key,
                turned: part.turned,
            })?;
        } else {
            push_parts_of(&mut stack, forest, part)?;
        }
    }
    Ok(found)
}

/// The edges before step k of which an edge that the step made is made, from its start to its end. The forest had the first
/// `first` edges before. The time is that of the edges that the step made on the way.
pub fn old_edges(
    alloc: Global,
    forest: &Forest,
    first: u32,
    id: u32,
    k: u32,
) -> Result<Vec<OldEdge>, Memory>
    requires forest { IsForest forest.now }
    requires step { (0 < k) × (k - 1 ≤ forest.now.made) }
    requires before { (i : ℕ) → i < first → (edge_at forest.now.edges i).low ≤ k - 1 }
    requires joined { AreJoined k first forest.now.edges }
    requires id { (first ≤ id) × (id < length forest.now.edges) }
    ensures there { IfOk result (λ parts. All (λ p. Contains (map chain_key (chains_at (merged forest.now.base) (k - 1))) p.key) parts.items) }
    ensures chain { IfOk result (λ parts. old_chains (chains_at (merged forest.now.base) (k - 1)) parts.items ≡ chain_of forest.now.edges id) }
{
    let mut found = old_from_last(alloc, forest, first, id, k)?;
    found.reverse();
    Ok(found)
}
