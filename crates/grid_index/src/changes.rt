//! Edges in order of key, changed where they stand.

ghost use Rattle.std.specs.Prelude.{◌≡◌, ◌≢◌, ◌<◌, ◌≤◌, ◌+◌, ◌++◌, ◌∷◌, [], ◌==◌, ℕ, false, filter, length, All, AllPairs, Contains, IfSome, IfNone, IsPermutation, IfOk};
ghost use Rattle.std.specs.Bool.{OnTrue};
ghost use Rattle.std.specs.Vec.{vec_capacity, vec_len};
ghost use Rattle.std.specs.List.{list_any};
ghost use Rattle.std.specs.List.Sorted.{IsNonDecreasing};
ghost use Rattle.grid_index.specs.Live.{keys, without_keys};
ghost use Rattle.grid_index.specs.Slots.{edge_at};
ghost use Rattle.grid_index.specs.Changes.{AreBelow, AreUpTo, is_new};

use crate::edges::merged;
use crate::keys::is_among;
use std::alloc::Global;
use tgap_model::{Edge, List, Memory};

/// The place of the edge with this key among edges whose keys ascend.
pub fn place_of(edges: &[Edge], key: u32) -> Option<usize>
    requires { AllPairs (λ e f. e.key < f.key) edges.now }
    ensures some { IfSome result (λ i. (i < length edges.now) × ((edge_at edges.now i).key ≡ key)) }
    ensures none { IfNone result (All (λ e. e.key ≢ key) edges.now) }
{
    match edges.binary_search_by_key(&key, |edge| edge.key) {
        Ok(place) => Some(place),
        Err(_) => None,
    }
}

/// Whether all keys that are sought are among those of the edges, which ascend.
fn are_all_there(edges: &[Edge], sought: &[u32]) -> bool
    requires { AllPairs (λ e f. e.key < f.key) edges.now }
    ensures { OnTrue result (All (Contains (keys edges.now)) sought.now) }
{
    for key in sought {
        if place_of(edges, *key).is_none() {
            return false;
        }
    }
    true
}

/// Memory for a new list, where the edges have not all keys that are sought.
pub fn room_for(alloc: Global, edges: &[Edge], sought: &[u32]) -> Result<Option<Vec<Edge>>, Memory>
    requires { AllPairs (λ e f. e.key < f.key) edges.now }
    ensures none { IfOk result (λ room. IfNone room (All (Contains (keys edges.now)) sought.now)) }
    ensures some { IfOk result (λ room. IfSome room (λ v. (v.items ≡ []) × (length edges.now + length sought.now ≤ vec_capacity v))) }
{
    if are_all_there(edges, sought) {
        return Ok(None);
    }
    Ok(Some(Vec::with_capacity(alloc, edges.len() + sought.len())?))
}

/// Those of the first keys that are not among the second ones, which ascend.
pub fn keys_without(alloc: Global, gone: &[u32], keys: &[u32]) -> Result<Vec<u32>, Memory>
    requires { IsNonDecreasing keys.now }
    ensures { IfOk result (λ ended. ended.items ≡ filter (is_new keys.now) gone.now) }
{
    let mut ended = Vec::new(alloc);
    for key in gone {
        if !is_among(keys, *key) {
            ended.push(*key)?;
        }
    }
    Ok(ended)
}

/// Whether a key is among these, which ascend and of which the first `next` are less. Then `next` is set to how many are not
/// greater.
fn is_next(keys: &[u32], next: &mut usize, key: u32) -> bool
    requires ascending { IsNonDecreasing keys.now }
    requires below { AreBelow keys.now next.old key }
    ensures is { result ≡ list_any (λ k. k == key) keys.now }
    ensures passed { AreUpTo keys.now next.new key }
{
    if *next >= keys.len() || key < keys[*next] {
        return false;
    }
    match keys.binary_search(&key) {
        Ok(place) => {
            *next = place + 1;
            true
        }
        Err(place) => {
            *next = place;
            false
        }
    }
}

/// A place before which no edge has one of these keys. Keys and edges ascend.
fn first_gone(edges: &[Edge], gone: &[u32]) -> usize
    requires gone { IsNonDecreasing gone.now }
    requires edges { AllPairs (λ e f. e.key < f.key) edges.now }
    ensures within { result ≤ length edges.now }
    ensures before { (j : ℕ) → j < result → list_any (λ k. k == (edge_at edges.now j).key) gone.now ≡ false }
{
    if gone.is_empty() {
        return 0;
    }
    match place_of(edges, gone[0]) {
        Some(place) => place,
        None => 0,
    }
}

/// Takes out the edges with these keys. Keys and edges ascend, and the others behind the first one that goes move up in
/// one pass.
fn take_out(edges: &mut Vec<Edge>, gone: &[u32])
    requires gone { IsNonDecreasing gone.now }
    requires edges { AllPairs (λ e f. e.key < f.key) edges.old.items }
    ensures { edges.new.items ≡ without_keys gone.now edges.old.items }
{
    if gone.is_empty() {
        return;
    }
    let first = first_gone(edges, gone);
    let mut next = 0;
    let mut kept = first;
    for i in first..edges.len() {
        if !is_next(gone, &mut next, edges[i].key) {
            edges.swap(kept, i);
            kept += 1;
        }
    }
    edges.truncate(kept);
}

/// Puts an edge where that of its key is.
fn put_edge(edges: &mut Vec<Edge>, edge: Edge)
    requires ascending { AllPairs (λ e f. e.key < f.key) edges.old.items }
    requires there { Contains (keys edges.old.items) edge.key }
    ensures keys { keys edges.new.items ≡ keys edges.old.items }
    ensures moved { IsPermutation (without_keys (edge.key ∷ []) edges.old.items ++ edge ∷ []) edges.new.items }
{
    if let Some(place) = place_of(edges, edge.key) {
        edges[place] = edge;
    }
}

/// Puts each of these edges where that of its key is.
fn put_edges(edges: &mut Vec<Edge>, come: Vec<Edge>)
    requires ascending { AllPairs (λ e f. e.key < f.key) edges.old.items }
    requires there { All (λ e. Contains (keys edges.old.items) e.key) come.items }
    requires distinct { AllPairs (λ e f. e.key ≢ f.key) come.items }
    ensures keys { keys edges.new.items ≡ keys edges.old.items }
    ensures moved { IsPermutation (without_keys (keys come.items) edges.old.items ++ come.items) edges.new.items }
{
    let mut come = come;
    while let Some(edge) = come.pop() {
        put_edge(edges, edge);
    }
}

/// Puts each of those that come where the edge of its key is, and takes out those with the keys that have `ended`.
fn changed_in_place(edges: List<Edge>, ended: &[u32], come: Vec<Edge>) -> List<Edge>
    requires ended { IsNonDecreasing ended.now }
    requires edges { AllPairs (λ e f. e.key < f.key) edges }
    requires there { All (λ e. Contains (keys edges) e.key) come.items }
    requires distinct { AllPairs (λ e f. e.key ≢ f.key) come.items }
    requires stay { without_keys ended.now come.items ≡ come.items }
    ensures same { IsPermutation (without_keys ended.now (without_keys (keys come.items) edges) ++ come.items) result }
    ensures ascending { AllPairs (λ e f. e.key < f.key) result }
{
    let mut edges = edges.into_vec();
    put_edges(&mut edges, come);
    take_out(&mut edges, ended);
    List::from(edges)
}

/// The edges whose keys do not go, and those that come, in order of key. Those of the keys that go for good have `ended`. There is
/// room for all, where the edges have not all keys of what comes.
pub fn changed(
    edges: List<Edge>,
    gone: &[u32],
    ended: &[u32],
    come: Vec<Edge>,
    room: Option<Vec<Edge>>,
) -> List<Edge>
    requires gone { IsNonDecreasing gone.now }
    requires edges { AllPairs (λ e f. e.key < f.key) edges }
    requires come { AllPairs (λ e f. e.key < f.key) come.items }
    requires fresh { All (λ e. All (λ f. f.key ≢ e.key) come.items) (without_keys gone.now edges) }
    requires ended { ended.now ≡ filter (is_new (keys come.items)) gone.now }
    requires there { IfNone room (All (Contains (keys edges)) (keys come.items)) }
    requires room { IfSome room (λ v. (v.items ≡ []) × (length edges + vec_len come ≤ vec_capacity v)) }
    ensures same { IsPermutation (without_keys gone.now edges ++ come.items) result }
    ensures ascending { AllPairs (λ e f. e.key < f.key) result }
{
    match room {
        Some(room) => merged(edges, gone, come, room),
        None => changed_in_place(edges, ended, come),
    }
}
