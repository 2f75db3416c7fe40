//! The sides that a cut takes over to the new face, by a table of the arcs.

ghost use Rattle.std.specs.Prelude.{◌≡◌, IfOk, IfSome, length, option_map};
ghost use Rattle.ring_walk.specs.Spans.{AreSpans, IsSide};
ghost use Rattle.face_cuts.specs.Outcomes.{GivesCut};
ghost use Rattle.face_cuts.specs.Sectors.{spans_of};
ghost use Rattle.face_cuts.specs.Cuts.{sectors_of};
ghost use Rattle.face_cuts.specs.Moves.{cut_off_sides};
ghost use Rattle.face_cuts.specs.NewRings.{AreLines, IsNewLine};

use crate::cause::{Cause, NO_SECTOR, NO_WALK, refused};
use crate::over::moved_sides;
use crate::points::{first_point, last_point};
use crate::sector::sector_of_face;
use crate::spans::point_at;
use crate::table::ArcTable;
use crate::walk::walk_between;
use ring_walk::Side;
use std::alloc::Global;
use tgap_model::{List, Memory, Or, Point};

/// The spokes with which the sectors of a face begin in which an arc starts and ends.
#[derive(Clone, Copy)]
struct Sectors {
    start: Side,
    end: Side,
}

/// The spokes with which the sectors of the face begin in which an arc with these points starts and ends.
fn sectors_of<T: ArcTable>(
    alloc: Global,
    table: &T,
    face: u32,
    points: &[Point],
) -> Result<Option<Sectors>, Memory>
    requires spans { AreSpans (spans_of (T.arcs table.now)) }
    requires line { IsNewLine points.now }
    ensures value { IfOk result (λ found. option_map (λ s. (s.start, s.end)) found ≡ sectors_of (spans_of (T.arcs table.now)) face points.now) }
    ensures end { IfOk result (λ found. IfSome found (λ s. IsSide (length (T.arcs table.now)) s.end)) }
{
    let first = first_point(points);
    let Some(start) = sector_of_face(alloc, table, face, first, point_at(points, 1))? else {
        return Ok(None);
    };
    let last = last_point(points);
    let before = point_at(points, points.len() - 2);
    match sector_of_face(alloc, table, face, last, before)? {
        Some(end) => Ok(Some(Sectors { start, end })),
        None => Ok(None),
    }
}

/// The sides beside a face that a cut by an arc with these points takes over to the new face, in the order of their numbers: those
/// on the walk from the end of the arc to its start, and those of the face's other rings that lie at the left of the arc and
/// the walk. The points are two at least, all different and within the limits, and the inner ones are no points of the map.
///
/// The causes, the first that holds: 9, an end is no node, or the arc leaves it along another one or not within the face; 12, no
/// walk along the face comes from the end to the start. Beside the look-ups it takes the time of a search for each side of the face's
/// rings and each spoke at the arc's ends, and a sort of the segments of the new ring where the face has several other rings:
/// never a pass over the map.
#[tactic(auto, unfolding(crate::specs::Moves::cut_off_sides))]
pub fn cut_along<T: ArcTable>(
    alloc: Global,
    table: &T,
    face: u32,
    points: &[Point],
) -> Result<List<Side>, Or<Cause>>
    requires lines { AreLines (T.arcs table.now) }
    requires spans { AreSpans (spans_of (T.arcs table.now)) }
    requires line { IsNewLine points.now }
    ensures exact { GivesCut result (cut_off_sides (T.arcs table.now) face points.now) }
{
    let Some(sectors) = sectors_of(alloc, table, face, points)? else {
        return Err(refused(NO_SECTOR));
    };
    match walk_between(alloc, table, face, sectors.start, sectors.end)? {
        Some(walk) => Ok(moved_sides(alloc, table, face, points, &walk)?),
        None => Err(refused(NO_WALK)),
    }
}
