//! The sectors round a node.

ghost use Rattle.std.specs.Prelude.{◌≡◌, ◌≢◌, ◌||◌, ◌&&◌, All, Some, None, IsTrue, IfOk, IfSome, length, not, if◌then◌else◌};
ghost use Rattle.tgap_model.specs.Base.{in_limits};
ghost use Rattle.ring_walk.specs.Sides.{face_of, spoke_before, start_of, toward_of};
ghost use Rattle.ring_walk.specs.Spans.{AreSpans, IsSide};
ghost use Rattle.face_cuts.specs.Sectors.{leaves_along, leaves_before, sector_at, sector_of_face, spans_of};
ghost use Rattle.face_cuts.specs.Spokes.{IsDirection, IsSpoke, later};
ghost use Rattle.face_cuts.specs.Tables.{sides_leaving};

use crate::table::ArcTable;
use grid_geo::turn_before;
use ring_walk::Side;
use std::alloc::Global;
use tgap_model::{Memory, Point};

/// The face at the left of a side: of a side along its arc that at the left of the arc, else that at the right.
pub fn face_of<T: ArcTable>(table: &T, side: Side) -> u32
    requires { IsSide (length (T.arcs table.now)) side }
    ensures { result ≡ face_of (spans_of (T.arcs table.now)) side }
{
    table.span(side.span).face(side.way)
}

/// The node that a side leaves: one end of its arc.
pub fn start_of<T: ArcTable>(table: &T, side: Side) -> Point
    requires { IsSide (length (T.arcs table.now)) side }
    ensures { result ≡ start_of (spans_of (T.arcs table.now)) side }
{
    table.span(side.span).start(side.way)
}

/// The point toward which a side leaves its node: the one that its arc has next to it.
pub fn toward_of<T: ArcTable>(table: &T, side: Side) -> Point
    requires { IsSide (length (T.arcs table.now)) side }
    ensures { result ≡ toward_of (spans_of (T.arcs table.now)) side }
{
    table.span(side.span).toward(side.way)
}

/// Whether of two spokes of a node, which are sides that leave it, the first one comes before the second: counter-clockwise
/// from the direction of positive x, and in one direction by their numbers.
pub fn is_before<T: ArcTable>(table: &T, first: Side, second: Side) -> bool
    requires spans { AreSpans (spans_of (T.arcs table.now)) }
    requires first { IsSide (length (T.arcs table.now)) first }
    requires second { IsSpoke (spans_of (T.arcs table.now)) (start_of (spans_of (T.arcs table.now)) first) second }
    ensures { result ≡ spoke_before (spans_of (T.arcs table.now)) first second }
{
    let node = start_of(table, first);
    let left = toward_of(table, first);
    let right = toward_of(table, second);
    turn_before(node, left, right)
        || (!turn_before(node, right, left) && first.number() < second.number())
}

/// Of a spoke and the last one of others at its node, the one that comes last. Where there are no others, it is the spoke.
pub fn later<T: ArcTable>(table: &T, spoke: Side, last: Option<Side>) -> Side
    requires spans { AreSpans (spans_of (T.arcs table.now)) }
    requires spoke { IsSide (length (T.arcs table.now)) spoke }
    requires last { IfSome last (IsSpoke (spans_of (T.arcs table.now)) (start_of (spans_of (T.arcs table.now)) spoke)) }
    ensures { result ≡ later (spans_of (T.arcs table.now)) spoke last }
{
    match last {
        Some(last) => {
            if is_before(table, spoke, last) {
                last
            } else {
                spoke
            }
        }
        None => spoke,
    }
}

/// Whether a spoke of the node leaves toward the point or in its direction.
fn leaves_along<T: ArcTable>(table: &T, spoke: Side, node: Point, toward: Point) -> bool
    requires spans { AreSpans (spans_of (T.arcs table.now)) }
    requires spoke { IsSpoke (spans_of (T.arcs table.now)) node spoke }
    requires direction { IsDirection node toward }
    ensures { result ≡ leaves_along (spans_of (T.arcs table.now)) node toward spoke }
{
    let along = toward_of(table, spoke);
    !turn_before(node, along, toward) && !turn_before(node, toward, along)
}

/// Whether a spoke of the node leaves before the direction toward the point.
fn leaves_before<T: ArcTable>(table: &T, spoke: Side, node: Point, toward: Point) -> bool
    requires spans { AreSpans (spans_of (T.arcs table.now)) }
    requires spoke { IsSpoke (spans_of (T.arcs table.now)) node spoke }
    requires direction { IsDirection node toward }
    ensures { result ≡ leaves_before (spans_of (T.arcs table.now)) node toward spoke }
{
    turn_before(node, toward_of(table, spoke), toward)
}

/// The spoke with which the sector begins in which the direction from the node toward the point lies, of the spokes of the
/// node in the order of their numbers.
fn sector_among<T: ArcTable>(table: &T, spokes: &[Side], node: Point, toward: Point) -> Option<Side>
    requires spans { AreSpans (spans_of (T.arcs table.now)) }
    requires spokes { spokes.now ≡ sides_leaving (spans_of (T.arcs table.now)) node }
    requires direction { IsDirection node toward }
    ensures value { result ≡ sector_at (spans_of (T.arcs table.now)) node toward }
    ensures side { IfSome result (IsSide (length (T.arcs table.now))) }
{
    let mut last = None;
    let mut before = None;
    for step in 0..spokes.len() {
        let side = spokes[spokes.len() - 1 - step];
        if leaves_along(table, side, node, toward) {
            return None;
        }
        last = Some(later(table, side, last));
        if leaves_before(table, side, node, toward) {
            before = Some(later(table, side, before));
        }
    }
    before.or(last)
}

/// The spoke with which the sector begins in which the direction from the node toward the point lies, where that is a sector
/// of the face: the spoke has the face at its left. There is none where a spoke has the direction, and where the point is no
/// node.
pub fn sector_of_face<T: ArcTable>(
    alloc: Global,
    table: &T,
    face: u32,
    node: Point,
    toward: Point,
) -> Result<Option<Side>, Memory>
    requires spans { AreSpans (spans_of (T.arcs table.now)) }
    requires direction { IsDirection node toward }
    ensures value { IfOk result (λ found. found ≡ sector_of_face (spans_of (T.arcs table.now)) face node toward) }
    ensures side { IfOk result (λ found. IfSome found (IsSide (length (T.arcs table.now)))) }
{
    let spokes = table.leaving(alloc, node)?;
    match sector_among(table, &spokes, node, toward) {
        Some(spoke) if face_of(table, spoke) == face => Ok(Some(spoke)),
        _ => Ok(None),
    }
}
