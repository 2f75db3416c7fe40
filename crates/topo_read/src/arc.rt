//! The arcs of a topology, position by position.

ghost use Rattle.std.specs.Prelude.{◌≡◌, ◌≤◌, ◌+ℤ◌, [], map, length, option_map, option_and_then, OnOk, if◌then◌else◌};
ghost use Rattle.serde_json.specs.View.{view, number_view};
ghost use Rattle.line_forms.specs.Json.{try_fold, items_of};
ghost use Rattle.topology_forms.specs.Topology.{no_positions, leading_numbers, whole_pair, point_of, limited, with_position, position_read, arc_read};
ghost use Rattle.plain_io.specs.Taking.{GivesWhole, LeavesWhole};
ghost use Rattle.topo_read.specs.Arcs.{arc_points, coordinate_of};

use crate::fault::{not_whole, out_of_range, shape};
use plain_io::json::items_of;
use serde_json::{Number, Value};
use std::alloc::Global;
use std::marker::Model;
use tgap_model::{List, MAX_ARCS, MAX_COORDINATE, MapFault, Memory, Or, Point};

/// The arcs of a topology, with absolute positions and without repeated ones. With `deltas` each position after the
/// first of an arc is the difference from the one before it.
pub fn read_arcs(
    alloc: Global,
    deltas: bool,
    arcs: &[Value],
) -> Result<List<List<Point>>, Or<MapFault>>
    requires { length arcs.now ≤ MAX_ARCS }
    ensures { GivesWhole result (try_fold (arc_read deltas) [] (map view arcs.now)) }
{
    let mut lines = List::new(alloc);
    for (number, arc) in arcs.iter().enumerate() {
        let points = read_arc(alloc, deltas, number as u32, arc)?;
        lines.push(points)?;
    }
    Ok(lines)
}

/// The points of the arc of this number.
#[tactic(auto, unfolding(crate::specs::Arcs::arc_points))]
fn read_arc(
    alloc: Global,
    deltas: bool,
    number: u32,
    arc: &Value,
) -> Result<List<Point>, Or<MapFault>>
    ensures { GivesWhole result (arc_points deltas number (view arc.now)) }
{
    let positions = items_of(arc).ok_or(shape(6, number))?;
    let arc = read_positions(alloc, deltas, number, positions)?;
    if arc.count < 2 {
        return Err(Or::Fault(MapFault::ArcShort { arc: number }));
    }
    Ok(arc.points)
}

/// The positions of the arc of this number.
fn read_positions(
    alloc: Global,
    deltas: bool,
    number: u32,
    positions: &[Value],
) -> Result<PartialArc, Or<MapFault>>
    ensures { GivesWhole result (try_fold (position_read deltas number) no_positions (map view positions.now)) }
{
    let mut arc = PartialArc::new(alloc);
    for position in positions {
        arc.read_position(deltas, number, position)?;
    }
    Ok(arc)
}

/// An arc up to a position: how many were read, where the last one is, and the points without repeated ones.
#[derive(Drop)]
struct PartialArc {
    count: u32,
    at: Point,
    points: List<Point>,
}

impl Model for PartialArc {
    ghost use Rattle.topology_forms.specs.Topology.{ArcSoFar};

    ghost Value = { ArcSoFar };

    ghost view = { λ arc. record { count = arc.count; at = arc.at; points = arc.points } };
}

impl PartialArc {
    /// No position yet. The difference of the first one is from 0, 0.
    fn new(alloc: Global) -> Self
        ensures { result ≡ no_positions }
    {
        PartialArc {
            count: 0,
            at: Point { x: 0, y: 0 },
            points: List::new(alloc),
        }
    }

    /// Reads the next position of the arc of this number.
    #[tactic(auto, unfolding(topology_forms::specs::Topology::position_read))]
    fn read_position(
        &mut self,
        deltas: bool,
        number: u32,
        position: &Value,
    ) -> Result<(), Or<MapFault>>
        ensures { LeavesWhole result self.new (position_read deltas number self.old (view position.now)) }
    {
        let (x, y) = leading_numbers(position).ok_or(shape(7, number))?;
        let (x, y) = whole_pair(x, y).ok_or(not_whole(number, self.count))?;
        let point = point_at(deltas, self.at, x, y).ok_or(out_of_range(number, self.count))?;
        self.push(point)?;
        Ok(())
    }

    /// Puts a position after the others. Its point is kept, unless it repeats the one before it.
    fn push(&mut self, point: Point) -> Result<(), Memory>
        ensures { OnOk result (self.new ≡ with_position self.old point) }
    {
        if self.count == 0 || self.at != point {
            self.points.push(point)?;
        }
        self.at = point;
        self.count = self.count.saturating_add(1);
        Ok(())
    }
}

/// The first two members of a position, which are numbers; others are nothing to the map.
fn leading_numbers(position: &Value) -> Option<(&Number, &Number)>
    ensures { option_map (λ p. (number_view p.0.now, number_view p.1.now)) result ≡ option_and_then leading_numbers (items_of (view position.now)) }
{
    match items_of(position)? {
        [x, y, ..] => Some((x.as_number()?, y.as_number()?)),
        _ => None,
    }
}

/// The two numbers, where both are whole.
fn whole_pair(x: &Number, y: &Number) -> Option<(i64, i64)>
    ensures { result ≡ whole_pair (number_view x.now, number_view y.now) }
{
    Some((x.as_i64()?, y.as_i64()?))
}

/// The point of a position, where it is within the limits: the position itself, or the difference from this point.
fn point_at(deltas: bool, from: Point, x: i64, y: i64) -> Option<Point>
    ensures { result ≡ limited (point_of deltas from (x, y)) }
{
    let x = coordinate_at(deltas, from.x, x)?;
    let y = coordinate_at(deltas, from.y, y)?;
    Some(Point { x, y })
}

/// The coordinate of a position, where it is within the limits.
fn coordinate_at(deltas: bool, from: i64, number: i64) -> Option<i64>
    ensures { result ≡ coordinate_of (if deltas then from +ℤ number else number) }
{
    if deltas {
        within_limits(from.checked_add(number)?)
    } else {
        within_limits(number)
    }
}

/// The coordinate, where it is within the limits.
fn within_limits(coordinate: i64) -> Option<i64>
    ensures { result ≡ coordinate_of coordinate }
{
    if -MAX_COORDINATE <= coordinate && coordinate <= MAX_COORDINATE {
        Some(coordinate)
    } else {
        None
    }
}
