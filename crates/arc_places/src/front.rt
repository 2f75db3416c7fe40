//! The side in front of another one round its node, found among the slots that are listed for the node.

ghost use Rattle.std.specs.Prelude.{◌≡◌, ◌<◌, ◌==◌, ◌||◌, Bool, IfSome, length};
ghost use Rattle.ring_walk.specs.declared.side.Side.{Side as OneSide};
ghost use Rattle.ring_walk.specs.Rings.{in_front};
ghost use Rattle.ring_walk.specs.Sides.{same_side, sides, spoke_before, spokes_at, start_of, toward_of};
ghost use Rattle.ring_walk.specs.Spans.{AreSpans, IsSide};
ghost use Rattle.face_cuts.specs.Spokes.{IsSpoke, later};
ghost use Rattle.arc_places.specs.declared.sought.Sought.TheVariants.{Node};
ghost use Rattle.arc_places.specs.Slots.{arcs_in, slot_of};
ghost use Rattle.arc_places.specs.SlotTables.{AreLast, AreListed, AreSpokesOf, spans_in};

use crate::bodies::ListedSlots;
use crate::slot_table::SlotTable;
use face_cuts::ArcTable;
use grid_geo::turn_before;
use ring_walk::{Side, Way};
use tgap_model::Point;

/// Of the spokes of a node that were seen, the last one in front of a spoke and the last one of all.
#[derive(Clone, Copy)]
pub struct Front {
    pub before: Option<Side>,
    pub last: Option<Side>,
}

/// The node that a side leaves.
pub fn start_of(table: &SlotTable<'_>, side: Side) -> Point
    requires { IsSide (length (arcs_in table.now)) side }
    ensures { result ≡ start_of (spans_in table.now) side }
{
    table.span(side.span).start(side.way)
}

/// The point toward which a side leaves its node.
fn toward_of(table: &SlotTable<'_>, side: Side) -> Point
    requires { IsSide (length (arcs_in table.now)) side }
    ensures { result ≡ toward_of (spans_in table.now) side }
{
    table.span(side.span).toward(side.way)
}

/// Whether of two spokes of a node the first one comes before the second. A table that looks for the next side by the function
/// of this name for any table would call itself.
fn is_before(table: &SlotTable<'_>, first: Side, second: Side) -> bool
    requires spans { AreSpans (spans_in table.now) }
    requires first { IsSide (length (arcs_in table.now)) first }
    requires second { IsSpoke (spans_in table.now) (start_of (spans_in table.now) first) second }
    ensures { result ≡ spoke_before (spans_in table.now) first second }
{
    let node = start_of(table, first);
    let left = toward_of(table, first);
    let right = toward_of(table, second);
    turn_before(node, left, right)
        || (!turn_before(node, right, left) && first.number() < second.number())
}

/// Of a spoke and the last one of others at its node, the one that comes last.
fn later(table: &SlotTable<'_>, spoke: Side, last: Option<Side>) -> Side
    requires spans { AreSpans (spans_in table.now) }
    requires spoke { IsSide (length (arcs_in table.now)) spoke }
    requires last { IfSome last (IsSpoke (spans_in table.now) (start_of (spans_in table.now) spoke)) }
    ensures { result ≡ later (spans_in table.now) spoke last }
{
    match last {
        Some(last) if is_before(table, spoke, last) => last,
        _ => spoke,
    }
}

/// With one spoke more of the node that x leaves.
fn with_spoke(table: &SlotTable<'_>, front: Front, x: Side, spoke: Side) -> Front
    requires spans { AreSpans (spans_in table.now) }
    requires x { IsSide (length (arcs_in table.now)) x }
    requires spoke { IsSpoke (spans_in table.now) (start_of (spans_in table.now) x) spoke }
    requires front { AreSpokesOf (spans_in table.now) (start_of (spans_in table.now) x) front }
    ensures spokes { AreSpokesOf (spans_in table.now) (start_of (spans_in table.now) x) result }
    ensures seen { (seen : OneSide → Bool) → AreLast (spans_in table.now) (start_of (spans_in table.now) x) x seen front
        → AreLast (spans_in table.now) (start_of (spans_in table.now) x) x (λ s. seen s || same_side s spoke) result }
{
    let last = Some(later(table, spoke, front.last));
    if is_before(table, spoke, x) {
        Front {
            before: Some(later(table, spoke, front.before)),
            last,
        }
    } else {
        Front {
            before: front.before,
            last,
        }
    }
}

/// With one side more, where it leaves the node that x leaves.
fn with_side(table: &SlotTable<'_>, front: Front, x: Side, side: Side) -> Front
    requires spans { AreSpans (spans_in table.now) }
    requires x { IsSide (length (arcs_in table.now)) x }
    requires side { IsSide (length (arcs_in table.now)) side }
    requires front { AreSpokesOf (spans_in table.now) (start_of (spans_in table.now) x) front }
    ensures spokes { AreSpokesOf (spans_in table.now) (start_of (spans_in table.now) x) result }
    ensures seen { (seen : OneSide → Bool) → AreLast (spans_in table.now) (start_of (spans_in table.now) x) x seen front
        → AreLast (spans_in table.now) (start_of (spans_in table.now) x) x (λ s. seen s || same_side s side) result }
{
    if start_of(table, side) == start_of(table, x) {
        with_spoke(table, front, x, side)
    } else {
        front
    }
}

/// With the two sides of an arc more.
fn with_arc(table: &SlotTable<'_>, front: Front, x: Side, arc: u32) -> Front
    requires spans { AreSpans (spans_in table.now) }
    requires x { IsSide (length (arcs_in table.now)) x }
    requires arc { arc < length (arcs_in table.now) }
    requires front { AreSpokesOf (spans_in table.now) (start_of (spans_in table.now) x) front }
    ensures spokes { AreSpokesOf (spans_in table.now) (start_of (spans_in table.now) x) result }
    ensures seen { (seen : OneSide → Bool) → AreLast (spans_in table.now) (start_of (spans_in table.now) x) x seen front
        → AreLast (spans_in table.now) (start_of (spans_in table.now) x) x
        (λ s. seen s || (slot_of table.now arc == slot_of table.now s.span)) result }
{
    let along = Side {
        span: arc,
        way: Way::Along,
    };
    let first = with_side(table, front, x, along);
    with_side(table, first, x, along.turned())
}

/// With the sides of the arc in a slot more.
fn with_slot(table: &SlotTable<'_>, front: Front, x: Side, slot: usize) -> Front
    requires spans { AreSpans (spans_in table.now) }
    requires x { IsSide (length (arcs_in table.now)) x }
    requires front { AreSpokesOf (spans_in table.now) (start_of (spans_in table.now) x) front }
    ensures spokes { AreSpokesOf (spans_in table.now) (start_of (spans_in table.now) x) result }
    ensures seen { (seen : OneSide → Bool) → AreLast (spans_in table.now) (start_of (spans_in table.now) x) x seen front
        → AreLast (spans_in table.now) (start_of (spans_in table.now) x) x (λ s. seen s || (slot == slot_of table.now s.span)) result }
{
    match table.arc_of(slot) {
        Some(arc) => with_arc(table, front, x, arc),
        None => front,
    }
}

/// The spoke in front of x round the node that x leaves, of which the slots are listed: of those before x the last, or else the
/// last of all.
pub fn in_front(table: &SlotTable<'_>, listed: ListedSlots<'_>, x: Side) -> Side
    requires spans { AreSpans (spans_in table.now) }
    requires x { IsSide (length (arcs_in table.now)) x }
    requires listed { AreListed table.now listed (Node (start_of (spans_in table.now) x)) }
    ensures { result ≡ in_front x (spokes_at (spans_in table.now) (sides (length (spans_in table.now))) (start_of (spans_in table.now) x)) }
{
    let mut front = Front {
        before: None,
        last: None,
    };
    for at in 0..listed.count() {
        front = with_slot(table, front, x, listed.slot(at));
    }
    front.before.or(front.last).unwrap_or(x)
}
