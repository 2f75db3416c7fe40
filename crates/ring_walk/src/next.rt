//! The next side of each side.

ghost use Rattle.std.specs.Prelude.{◌≡◌, ◌≢◌, ◌<◌, ◌≤◌, ◌+◌, ◌-◌, ℕ, IsTrue, IsFalse, IfOk, length, get_or};
ghost use Rattle.ring_walk.specs.declared.spoke.Spoke.{Spoke as NodeSpoke};
ghost use Rattle.ring_walk.specs.Spans.{AreSpans, AreNext, AreOrdered, IsInFront};

use crate::side::Side;
use crate::sorted::sorted_spokes;
use crate::span::Span;
use crate::spoke::Spoke;
use std::alloc::Global;
use tgap_model::Memory;

/// The place of the last spoke that leaves the node of this one.
fn last_of_node(spokes: &[Spoke], first: usize) -> usize
    requires { first < length spokes.now }
    ensures reached { first ≤ result }
    ensures within { result < length spokes.now }
    ensures same { (k : ℕ) (d : NodeSpoke) → first ≤ k → k ≤ result → (get_or spokes.now k d).node ≡ (get_or spokes.now first d).node }
    ensures ends { (d : NodeSpoke) → result + 1 < length spokes.now → (get_or spokes.now (result + 1) d).node ≢ (get_or spokes.now first d).node }
{
    let node = spokes[first].node;
    for next in first + 1..spokes.len() {
        if spokes[next].node != node {
            return next - 1;
        }
    }
    spokes.len() - 1
}

/// Whether the spoke is the first one that leaves its node.
fn is_first_of_node(spokes: &[Spoke], place: usize) -> bool
    requires { place < length spokes.now }
    ensures first { IsTrue result → (k : ℕ) (d : NodeSpoke) → k + 1 ≡ place → (get_or spokes.now k d).node ≢ (get_or spokes.now place d).node }
    ensures later { IsFalse result → 0 < place }
    ensures same { IsFalse result → (d : NodeSpoke) → (get_or spokes.now (place - 1) d).node ≡ (get_or spokes.now place d).node }
{
    place == 0 || spokes[place - 1].node != spokes[place].node
}

/// The place of the spoke in front of this one round its node: in front of the first one it is the last one.
fn place_in_front(spokes: &[Spoke], place: usize) -> usize
    requires ordered { AreOrdered spokes.now }
    requires inside { place < length spokes.now }
    ensures within { result < length spokes.now }
    ensures front { IsInFront spokes.now place result }
{
    if is_first_of_node(spokes, place) {
        last_of_node(spokes, place)
    } else {
        place - 1
    }
}

/// By the number of each side, its next one: the side by which it arrives at a node is turned, and the next one stands in
/// front of that round the node.
pub fn next_sides(alloc: Global, spans: &[Span]) -> Result<Vec<Side>, Memory>
    requires { AreSpans spans.now }
    ensures { IfOk result (λ table. AreNext spans.now table.items) }
{
    let spokes = sorted_spokes(alloc, spans)?;
    let mut table = Vec::from_elem(alloc, Side::numbered(0), 2 * spans.len())?;
    for place in 0..spokes.len() {
        let arriving = spokes[place].side.turned();
        table[arriving.number()] = spokes[place_in_front(&spokes, place)].side;
    }
    Ok(table)
}
