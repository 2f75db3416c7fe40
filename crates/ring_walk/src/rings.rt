//! The rings that sides make.

ghost use Rattle.std.specs.Prelude.{◌≡◌, ◌<◌, ◌≤◌, ◌*◌, ◌||◌, ◌==◌, ℕ, Bool, IfOk, length, get_or, All};
ghost use Rattle.std.specs.List.{list_any};
ghost use Rattle.ring_walk.specs.Rings.{ring_from, rings_of};
ghost use Rattle.ring_walk.specs.Sides.{side_number};
ghost use Rattle.ring_walk.specs.declared.side.Side.{Side as OneSide};
ghost use Rattle.ring_walk.specs.Spans.{AreNext, AreSpans, IsRing, IsSide};

use crate::next::next_sides;
use crate::side::Side;
use crate::span::Span;
use std::alloc::Global;
use tgap_model::{List, Memory};

/// The ring of a side, from it on.
fn ring_from(
    alloc: Global,
    spans: &[Span],
    next: &[Side],
    first: Side,
) -> Result<List<Side>, Memory>
    requires next { AreNext spans.now next.now }
    requires first { IsSide (length spans.now) first }
    ensures value { IfOk result (λ ring. ring ≡ ring_from spans.now first) }
    ensures row { IfOk result (IsRing (length spans.now)) }
{
    let mut ring = List::new(alloc);
    let mut side = first;
    for _ in 0..next.len() {
        ring.push(side)?;
        side = next[side.number()];
        if side.is(first) {
            return Ok(ring);
        }
    }
    Ok(ring)
}

/// Notes the sides of a ring as taken.
fn take_all(taken: &mut [bool], ring: &[Side])
    requires { (k : ℕ) (d : OneSide) → k < length ring.now → side_number (get_or ring.now k d) < length taken.old }
    ensures { (i : ℕ) (d : Bool) → i < length taken.old → get_or taken.new i d ≡ get_or taken.old i d || list_any (λ s. side_number s == i) ring.now }
{
    for side in ring {
        taken[side.number()] = true;
    }
}

/// The rings of all sides: each from its least side on, in the order of these. It takes a sort of the sides round their
/// nodes, and one walk over them.
pub fn rings_of(alloc: Global, spans: &[Span]) -> Result<List<List<Side>>, Memory>
    requires { AreSpans spans.now }
    ensures value { IfOk result (λ rings. rings ≡ rings_of spans.now) }
    ensures each { IfOk result (All (IsRing (length spans.now))) }
    ensures few { IfOk result (λ rings. length rings ≤ 2 * length spans.now) }
{
    let next = next_sides(alloc, spans)?;
    let mut taken = vec![in alloc; false; next.len()]?;
    let mut rings = List::new(alloc);
    for number in 0..next.len() {
        if !taken[number] {
            let ring = ring_from(alloc, spans, &next, Side::numbered(number))?;
            take_all(&mut taken, ring.as_slice());
            rings.push(ring)?;
        }
    }
    Ok(rings)
}
