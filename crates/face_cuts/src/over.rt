//! The sides beside a face that is cut, and which of them go over to the new face. Each ring is decided once.

ghost use Rattle.std.specs.Prelude.{◌≡◌, ◌||◌, ◌&&◌, ◌<◌, ◌^◌, IfOk, All, filter, length};
ghost use Rattle.std.specs.List.{list_any};
ghost use Rattle.ring_walk.specs.declared.side.Side.{Side as OneSide};
ghost use Rattle.ring_walk.specs.Sides.{same_side};
ghost use Rattle.ring_walk.specs.Spans.{IsRing, IsSide};
ghost use Rattle.ring_probe.specs.Rows.{IsLine};
ghost use Rattle.face_cuts.specs.Cuts.{goes_over, lines_of};
ghost use Rattle.face_cuts.specs.Sectors.{spans_of};
ghost use Rattle.face_cuts.specs.SideSets.{has};
ghost use Rattle.face_cuts.specs.Moves.{AreRingsOf, moved_sides};
ghost use Rattle.face_cuts.specs.NewRings.{AreLines, IsNewRing};

use crate::new_ring::NewRing;
use crate::side_set::SideSet;
use crate::table::ArcTable;
use crate::walk::ring_from;
use ring_walk::Side;
use std::alloc::Global;
use tgap_model::{List, Memory, Point};

/// The rings of some sides, each once.
fn rings_of<T: ArcTable>(alloc: Global, table: &T, row: &[Side]) -> Result<List<List<Side>>, Memory>
    requires few { length (T.arcs table.now) < 2 ^ 32 }
    requires row { All (IsSide (length (T.arcs table.now))) row.now }
    ensures { IfOk result (AreRingsOf (spans_of (T.arcs table.now)) row.now) }
{
    let mut taken = SideSet::new(alloc);
    let mut rings = List::new(alloc);
    for side in row {
        if !taken.has(*side) {
            let ring = ring_from(alloc, table, *side)?;
            taken.put_all(ring.as_slice())?;
            rings.push(ring)?;
        }
    }
    Ok(rings)
}

/// The sides on the walk, and those of rings at the left of the new one.
fn moved_set<T: ArcTable>(
    alloc: Global,
    table: &T,
    rings: &[List<Side>],
    ring: &NewRing<'_>,
) -> Result<SideSet, Memory>
    requires lines { AreLines (T.arcs table.now) }
    requires ring { IsNewRing (T.arcs table.now) ring.now }
    requires each { All (IsRing (length (T.arcs table.now))) rings.now }
    ensures { IfOk result (λ moved. (s : OneSide) → has moved s
        ≡ (list_any (same_side s) ring.now.walk.now || list_any (λ r. goes_over (lines_of (T.arcs table.now)) ring.now.points.now ring.now.walk.now r && list_any (same_side s) r) rings.now)) }
{
    let on_walk = SideSet::of(alloc, ring.walk())?;
    let mut moved = SideSet::of(alloc, ring.walk())?;
    for row in rings {
        let row = row.as_slice();
        if ring.goes_over(alloc, table, &on_walk, row)? {
            moved.put_all(row)?;
        }
    }
    Ok(moved)
}

/// The sides of a row that are in the set.
fn kept(alloc: Global, row: &[Side], set: &SideSet) -> Result<List<Side>, Memory>
    ensures { IfOk result (λ found. found ≡ filter (has set.now) row.now) }
{
    let mut found = List::new(alloc);
    for side in row {
        if set.has(*side) {
            found.push(*side)?;
        }
    }
    Ok(found)
}

/// The sides beside the face that go over to the new one, in the order of their numbers: those on the walk, and those of rings at
/// the left of the arc and the walk.
pub fn moved_sides<T: ArcTable>(
    alloc: Global,
    table: &T,
    face: u32,
    points: &[Point],
    walk: &[Side],
) -> Result<List<Side>, Memory>
    requires lines { AreLines (T.arcs table.now) }
    requires points { IsLine points.now }
    requires walk { IsRing (length (T.arcs table.now)) walk.now }
    ensures { IfOk result (λ moved. moved ≡ moved_sides (T.arcs table.now) face points.now walk.now) }
{
    let beside = table.beside(alloc, face)?;
    let rings = rings_of(alloc, table, &beside)?;
    let ring = NewRing::of(alloc, table, points, walk, rings.len().saturating_sub(1))?;
    let moved = moved_set(alloc, table, rings.as_slice(), &ring)?;
    kept(alloc, &beside, &moved)
}
