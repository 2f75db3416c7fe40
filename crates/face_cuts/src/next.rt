//! The next side of each side.

ghost use Rattle.std.specs.Prelude.{◌≡◌, ◌<◌, ◌+◌, ◌*◌, ◌⊎◌, IfOk, Contains, get_or, length};
ghost use Rattle.ring_walk.specs.declared.side.Side.{Side as OneSide};
ghost use Rattle.ring_walk.specs.Orbits.{place_after};
ghost use Rattle.ring_walk.specs.Spans.{AreNext, AreSpans};
ghost use Rattle.face_cuts.specs.Spokes.{IsRow};
ghost use Rattle.face_cuts.specs.NodeTables.{IsToldAt};

use ring_walk::{Side, Span, rings_of};
use std::alloc::Global;
use tgap_model::Memory;

/// The side after a place of a ring.
fn side_after(row: &[Side], place: usize) -> Side
    requires { place < length row.now }
    ensures { (d : OneSide) → result ≡ get_or row.now (place_after (length row.now) place) d }
{
    if place + 1 < row.len() {
        row[place + 1]
    } else {
        row[0]
    }
}

/// Writes the next side of each side of a ring, by its number.
fn write_ring(spans: &[Span], next: &mut [Side], ring: &[Side])
    requires long { length next.old ≡ 2 * length spans.now }
    requires ring { IsRow spans.now ring.now }
    ensures long { length next.new ≡ 2 * length spans.now }
    ensures told { (s : OneSide) → IsToldAt spans.now next.old s ⊎ Contains ring.now s → IsToldAt spans.now next.new s }
{
    for place in 0..ring.len() {
        next[ring[place].number()] = side_after(ring, place);
    }
}

/// By the number of each side, its next one: it is taken of the rings of all sides, which are found by a sort of the sides
/// round their nodes.
pub fn next_sides(alloc: Global, spans: &[Span]) -> Result<Vec<Side>, Memory>
    requires { AreSpans spans.now }
    ensures { IfOk result (λ next. AreNext spans.now next.items) }
{
    let rings = rings_of(alloc, spans)?;
    let mut next = Vec::from_elem(alloc, Side::numbered(0), 2 * spans.len())?;
    for ring in rings.as_slice() {
        write_ring(spans, &mut next, ring.as_slice());
    }
    Ok(next)
}
