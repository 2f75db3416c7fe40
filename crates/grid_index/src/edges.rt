//! Edges in order of key.

ghost use Rattle.std.specs.Prelude.{◌≡◌, ◌≢◌, ◌<◌, ◌≤◌, ◌+◌, ◌++◌, [], List as Sequence, length, All, AllPairs, IsPermutation, IfOk};
ghost use Rattle.std.specs.Vec.{vec_capacity, vec_len};
ghost use Rattle.std.specs.List.Sorted.{IsNonDecreasing, IsNonDecreasingBy};
ghost use Rattle.tgap_model.specs.declared.slice.Edge.{Edge as Line};
ghost use Rattle.grid_index.specs.Live.{keys, without_keys};
ghost use Rattle.grid_index.specs.Merged.{in_order, IsFront};

use crate::keys::is_among;
use std::alloc::Global;
use tgap_model::{Edge, List, Memory};

/// The edges, ascending by key.
pub fn by_key(edges: List<Edge>) -> Vec<Edge>
    ensures same { IsPermutation edges result.items }
    ensures ascending { IsNonDecreasingBy (λ e. e.key) result.items }
{
    let mut edges = edges.into_vec();
    edges.sort_unstable_by_key(|edge| edge.key);
    edges
}

/// Their keys.
pub fn keys_of(alloc: Global, edges: &[Edge]) -> Result<Vec<u32>, Memory>
    ensures { IfOk result (λ found. found.items ≡ keys edges.now) }
{
    let mut keys = Vec::with_capacity(alloc, edges.len())?;
    for edge in edges {
        keys.push(edge.key)?;
    }
    Ok(keys)
}

/// Moves the edges with keys below this one from the end of what comes, whose keys descend, to the end of `changed`.
fn push_below(changed: &mut Vec<Edge>, come: &mut Vec<Edge>, key: u32)
    requires room { vec_len changed.old + vec_len come.old ≤ vec_capacity changed.old }
    requires descending { AllPairs (λ e f. f.key < e.key) come.old.items }
    ensures least { (es : Sequence Line) → All (λ e. key ≤ e.key) es → changed.new.items ++ in_order (es ++ come.new.items) ≡ changed.old.items ++ in_order (es ++ come.old.items) }
    ensures front { IsFront come.new.items come.old.items }
    ensures above { All (λ e. key ≤ e.key) come.new.items }
    ensures len { vec_len changed.new + vec_len come.new ≡ vec_len changed.old + vec_len come.old }
    ensures capacity { vec_capacity changed.new ≡ vec_capacity changed.old }
{
    while let Some(edge) = come.pop() {
        if key <= edge.key {
            come.push_reserved(edge);
            return;
        }
        changed.push_reserved(edge);
    }
}

/// Moves all that comes, whose keys descend, from the end on to the end of `changed`.
fn push_all(changed: &mut Vec<Edge>, come: Vec<Edge>)
    requires room { vec_len changed.old + vec_len come ≤ vec_capacity changed.old }
    requires descending { AllPairs (λ e f. f.key < e.key) come.items }
    ensures { changed.new.items ≡ changed.old.items ++ in_order come.items }
{
    let mut come = come;
    while let Some(edge) = come.pop() {
        changed.push_reserved(edge);
    }
}

/// The edges whose keys are not among these, and those that come, in order of key. The keys of both lists descend. There is
/// room for all.
fn interleaved(rest: Vec<Edge>, gone: &[u32], come: Vec<Edge>, room: Vec<Edge>) -> Vec<Edge>
    requires gone { IsNonDecreasing gone.now }
    requires rest { AllPairs (λ e f. f.key < e.key) rest.items }
    requires come { AllPairs (λ e f. f.key < e.key) come.items }
    requires fresh { All (λ e. All (λ f. f.key ≢ e.key) come.items) (without_keys gone.now rest.items) }
    requires empty { room.items ≡ [] }
    requires room { vec_len rest + vec_len come ≤ vec_capacity room }
    ensures { result.items ≡ in_order (without_keys gone.now rest.items ++ come.items) }
{
    let mut changed = room;
    let mut rest = rest;
    let mut come = come;
    while let Some(edge) = rest.pop() {
        push_below(&mut changed, &mut come, edge.key);
        if !is_among(gone, edge.key) {
            changed.push_reserved(edge);
        }
    }
    push_all(&mut changed, come);
    changed
}

/// The edges whose keys are not among these, and those that come, in order of key. The keys of what comes ascend. There is
/// room for all.
pub fn merged(edges: List<Edge>, gone: &[u32], come: Vec<Edge>, room: Vec<Edge>) -> List<Edge>
    requires gone { IsNonDecreasing gone.now }
    requires edges { AllPairs (λ e f. e.key < f.key) edges }
    requires come { AllPairs (λ e f. e.key < f.key) come.items }
    requires fresh { All (λ e. All (λ f. f.key ≢ e.key) come.items) (without_keys gone.now edges) }
    requires empty { room.items ≡ [] }
    requires room { length edges + vec_len come ≤ vec_capacity room }
    ensures same { IsPermutation (without_keys gone.now edges ++ come.items) result }
    ensures ascending { AllPairs (λ e f. e.key < f.key) result }
{
    let mut rest = edges.into_vec();
    rest.reverse();
    let mut come = come;
    come.reverse();
    List::from(interleaved(rest, gone, come, room))
}
