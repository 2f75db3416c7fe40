//! The ring that a new arc makes with its walk, and which other rings lie at its left.

ghost use Rattle.std.specs.Prelude.{◌≡◌, ◌≤◌, ◌<◌, List as Sequence, [], ◌∷◌, ◌++◌, IfOk, IfSome, length, slice_index_or, unsigned_abs};
ghost use Rattle.std.specs.List.{list_any};
ghost use Rattle.tgap_model.specs.Bounds.{max_arc_area};
ghost use Rattle.tgap_model.specs.Point.{shoelace};
ghost use Rattle.ring_walk.specs.declared.side.Side.{Side as OneSide};
ghost use Rattle.ring_walk.specs.Areas.{are_round, points_of};
ghost use Rattle.ring_walk.specs.Sides.{same_side};
ghost use Rattle.ring_walk.specs.Spans.{IsRing, IsSide};
ghost use Rattle.ring_probe.specs.Rows.{IsLeaning, IsLine};
ghost use Rattle.face_cuts.specs.Cuts.{goes_over, is_at_left, least_leaning, lines_of, new_area, new_ring};
ghost use Rattle.face_cuts.specs.Columns.{AreColumns};
ghost use Rattle.face_cuts.specs.NewRings.{AreLines, IsLeast, IsNewRing, leaning_of};
ghost use Rattle.face_cuts.specs.SideSets.{has};

use crate::columns::{Columns, push_segments};
use crate::side_set::SideSet;
use crate::table::ArcTable;
use ring_probe::{area_of, either_alone, is_over_odd, leaning_of};
use ring_walk::{Side, Way};
use std::alloc::Global;
use tgap_model::{List, Memory, Point, Seg};

/// A new arc and its walk along other arcs, with twice the area that they go round: positive where they do so
/// counter-clockwise. Where several rings are held to it, its segments are looked up by their abscissas.
#[derive(Drop)]
pub struct NewRing<'a> {
    points: &'a [Point],
    walk: &'a [Side],
    area: i128,
    columns: Option<Columns>,
}

/// The points of the arc of a side.
fn points_at<T: ArcTable>(table: &T, side: Side) -> &[Point]
    requires lines { AreLines (T.arcs table.now) }
    requires side { IsSide (length (T.arcs table.now)) side }
    ensures value { result.now ≡ slice_index_or (lines_of (T.arcs table.now)) side.span [] }
    ensures line { IsLine result.now }
{
    table.points(side.span)
}

/// What a side adds to twice the area of its ring.
fn side_area<T: ArcTable>(table: &T, side: Side) -> i128
    requires lines { AreLines (T.arcs table.now) }
    requires side { IsSide (length (T.arcs table.now)) side }
    ensures value { result ≡ shoelace (points_of (lines_of (T.arcs table.now)) side) }
    ensures size { unsigned_abs result ≤ max_arc_area }
{
    area_of(points_at(table, side), side.way)
}

/// Twice the area that an arc and its walk go round, in square grid units.
fn new_area<T: ArcTable>(table: &T, points: &[Point], walk: &[Side]) -> i128
    requires lines { AreLines (T.arcs table.now) }
    requires points { IsLine points.now }
    requires walk { IsRing (length (T.arcs table.now)) walk.now }
    ensures { result ≡ new_area (lines_of (T.arcs table.now)) points.now walk.now }
{
    let mut area = area_of(points, Way::Along);
    for side in walk {
        area += side_area(table, *side);
    }
    area
}

/// The first segment of the arc of a side that is not vertical.
fn leaning_at<T: ArcTable>(table: &T, side: Side) -> Option<Seg>
    requires lines { AreLines (T.arcs table.now) }
    requires side { IsSide (length (T.arcs table.now)) side }
    ensures value { result ≡ leaning_of (lines_of (T.arcs table.now)) side.span }
    ensures leaning { IfSome result IsLeaning }
{
    leaning_of(points_at(table, side), Way::Along)
}

/// A segment that is not vertical, with the number of its arc.
#[derive(Clone, Copy)]
struct Leaning {
    arc: u32,
    segment: Seg,
}

/// The segment of least number that is not vertical, of the arcs of some sides of which it is known and of one side more.
fn lesser<T: ArcTable>(table: &T, least: Option<Leaning>, side: Side) -> Option<Leaning>
    requires lines { AreLines (T.arcs table.now) }
    requires side { IsSide (length (T.arcs table.now)) side }
    ensures { (row : Sequence OneSide) → IsLeast (lines_of (T.arcs table.now)) row least → IsLeast (lines_of (T.arcs table.now)) (row ++ side ∷ []) result }
{
    if let Some(found) = least {
        if found.arc <= side.span {
            return least;
        }
    }
    match leaning_at(table, side) {
        Some(segment) => Some(Leaning {
            arc: side.span,
            segment,
        }),
        None => least,
    }
}

/// Of the arcs along which a row of sides goes, the segment of least number that is not vertical.
fn least_leaning<T: ArcTable>(table: &T, row: &[Side]) -> Option<Seg>
    requires lines { AreLines (T.arcs table.now) }
    requires row { IsRing (length (T.arcs table.now)) row.now }
    ensures value { result ≡ least_leaning (lines_of (T.arcs table.now)) row.now }
    ensures leaning { IfSome result IsLeaning }
{
    let mut least = None;
    for side in row {
        least = lesser(table, least, *side);
    }
    match least {
        Some(found) => Some(found.segment),
        None => None,
    }
}

/// The segments of a new arc and its walk.
fn segments_of<T: ArcTable>(
    alloc: Global,
    table: &T,
    points: &[Point],
    walk: &[Side],
) -> Result<List<Seg>, Memory>
    requires lines { AreLines (T.arcs table.now) }
    requires points { IsLine points.now }
    requires walk { IsRing (length (T.arcs table.now)) walk.now }
    ensures { IfOk result (λ segments. segments ≡ new_ring (lines_of (T.arcs table.now)) points.now walk.now) }
{
    let mut segments = List::new(alloc);
    push_segments(&mut segments, points, Way::Along)?;
    for side in walk {
        push_segments(&mut segments, points_at(table, *side), side.way)?;
    }
    Ok(segments)
}

/// The look-up of the segments of a new arc and its walk. There is none where fewer than two rings are held to them, or where
/// there are more segments than a look-up has places.
fn columns_of<T: ArcTable>(
    alloc: Global,
    table: &T,
    points: &[Point],
    walk: &[Side],
    rings: usize,
) -> Result<Option<Columns>, Memory>
    requires lines { AreLines (T.arcs table.now) }
    requires points { IsLine points.now }
    requires walk { IsRing (length (T.arcs table.now)) walk.now }
    ensures { IfOk result (λ columns. IfSome columns (AreColumns (new_ring (lines_of (T.arcs table.now)) points.now walk.now))) }
{
    if rings < 2 {
        return Ok(None);
    }
    let segments = segments_of(alloc, table, points, walk)?;
    if u32::MAX as usize <= segments.len() {
        return Ok(None);
    }
    Ok(Some(Columns::of(alloc, segments)?))
}

impl<'a> NewRing<'a> {
    /// The ring of an arc with these points and its walk, to which so many other rings are held.
    pub fn of<T: ArcTable>(
        alloc: Global,
        table: &T,
        points: &'a [Point],
        walk: &'a [Side],
        rings: usize,
    ) -> Result<NewRing<'a>, Memory>
        requires lines { AreLines (T.arcs table.now) }
        requires points { IsLine points.now }
        requires walk { IsRing (length (T.arcs table.now)) walk.now }
        ensures ring { IfOk result (IsNewRing (T.arcs table.now)) }
        ensures points { IfOk result (λ ring. ring.points.now ≡ points.now) }
        ensures walk { IfOk result (λ ring. ring.walk.now ≡ walk.now) }
    {
        Ok(NewRing {
            points,
            walk,
            area: new_area(table, points, walk),
            columns: columns_of(alloc, table, points, walk, rings)?,
        })
    }

    /// The sides of the walk.
    pub fn walk(&self) -> &'a [Side]
        ensures { result.now ≡ self.now.walk.now }
    {
        self.walk
    }

    /// Whether an odd number of its segments cross the line of the probe above it: each is tried.
    fn is_round_by_all<T: ArcTable>(&self, table: &T, probe: Seg) -> bool
        requires lines { AreLines (T.arcs table.now) }
        requires ring { IsNewRing (T.arcs table.now) self.now }
        requires probe { IsLeaning probe }
        ensures { result ≡ are_round probe (new_ring (lines_of (T.arcs table.now)) self.now.points.now self.now.walk.now) }
    {
        let mut odd = is_over_odd(probe, self.points, Way::Along);
        for side in self.walk {
            let over = is_over_odd(probe, points_at(table, *side), side.way);
            odd = either_alone(odd, over);
        }
        odd
    }

    /// Whether an odd number of its segments cross the line of the probe above it.
    fn is_round<T: ArcTable>(&self, alloc: Global, table: &T, probe: Seg) -> Result<bool, Memory>
        requires lines { AreLines (T.arcs table.now) }
        requires ring { IsNewRing (T.arcs table.now) self.now }
        requires probe { IsLeaning probe }
        ensures { IfOk result (λ round. round ≡ are_round probe (new_ring (lines_of (T.arcs table.now)) self.now.points.now self.now.walk.now)) }
    {
        match &self.columns {
            Some(columns) => columns.is_round(alloc, probe),
            None => Ok(self.is_round_by_all(table, probe)),
        }
    }

    /// Whether a segment lies at its left.
    fn is_at_left<T: ArcTable>(&self, alloc: Global, table: &T, probe: Seg) -> Result<bool, Memory>
        requires lines { AreLines (T.arcs table.now) }
        requires ring { IsNewRing (T.arcs table.now) self.now }
        requires probe { IsLeaning probe }
        ensures { IfOk result (λ left. left ≡ is_at_left (lines_of (T.arcs table.now)) self.now.points.now self.now.walk.now probe) }
    {
        let round = self.is_round(alloc, table, probe)?;
        Ok(if 0 < self.area { round } else { !round })
    }

    /// Whether a ring of which no side is on the walk lies at its left. The sides on the walk are lent as a set.
    pub fn goes_over<T: ArcTable>(
        &self,
        alloc: Global,
        table: &T,
        on_walk: &SideSet,
        row: &[Side],
    ) -> Result<bool, Memory>
        requires lines { AreLines (T.arcs table.now) }
        requires ring { IsNewRing (T.arcs table.now) self.now }
        requires set { (s : OneSide) → has on_walk.now s ≡ list_any (same_side s) self.now.walk.now }
        requires row { IsRing (length (T.arcs table.now)) row.now }
        ensures { IfOk result (λ over. over ≡ goes_over (lines_of (T.arcs table.now)) self.now.points.now self.now.walk.now row.now) }
    {
        if on_walk.has_any(row) {
            return Ok(false);
        }
        match least_leaning(table, row) {
            Some(probe) => self.is_at_left(alloc, table, probe),
            None => Ok(false),
        }
    }
}
