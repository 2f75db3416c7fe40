//! Walks along a face, and rings.

ghost use Rattle.std.specs.Prelude.{◌≡◌, ◌<◌, ◌^◌, IfOk, IfSome, length, option_map};
ghost use Rattle.ring_walk.specs.Rings.{ring_from};
ghost use Rattle.ring_walk.specs.Spans.{IsRing, IsSide};
ghost use Rattle.face_cuts.specs.Sectors.{spans_of};
ghost use Rattle.face_cuts.specs.Walks.{walk_between};

use crate::sector::face_of;
use crate::table::ArcTable;
use ring_walk::Side;
use std::alloc::Global;
use tgap_model::{List, Memory};

/// The walk along the face from the sector that begins with `end` to that which begins with `start`.
pub fn walk_between<T: ArcTable>(
    alloc: Global,
    table: &T,
    face: u32,
    start: Side,
    end: Side,
) -> Result<Option<Vec<Side>>, Memory>
    requires few { length (T.arcs table.now) < 2 ^ 32 }
    requires end { IsSide (length (T.arcs table.now)) end }
    ensures value { IfOk result (λ found. option_map (λ walk. walk.items) found ≡ walk_between (spans_of (T.arcs table.now)) face start end) }
    ensures ring { IfOk result (λ found. IfSome found (λ walk. IsRing (length (T.arcs table.now)) walk.items)) }
{
    let mut walk = Vec::new(alloc);
    let mut side = end;
    for _ in 0..2 * table.count() {
        if face_of(table, side) != face {
            return Ok(None);
        }
        walk.push(side)?;
        side = table.next(side);
        if side.is(start) {
            return Ok(Some(walk));
        }
        if side.is(end) {
            return Ok(None);
        }
    }
    Ok(None)
}

/// The ring of a side, from it on.
pub fn ring_from<T: ArcTable>(alloc: Global, table: &T, first: Side) -> Result<List<Side>, Memory>
    requires few { length (T.arcs table.now) < 2 ^ 32 }
    requires first { IsSide (length (T.arcs table.now)) first }
    ensures { IfOk result (λ ring. ring ≡ ring_from (spans_of (T.arcs table.now)) first) }
{
    let mut ring = List::new(alloc);
    let mut side = first;
    for _ in 0..2 * table.count() {
        ring.push(side)?;
        side = table.next(side);
        if side.is(first) {
            return Ok(ring);
        }
    }
    Ok(ring)
}
