//! Points of arcs, and nodes.

ghost use Rattle.std.specs.Prelude.{◌≡◌, ◌≤◌, ◌<◌, ◌||◌, IfSome, Some, length, option_map};
ghost use Rattle.std.specs.List.{list_any, position};
ghost use Rattle.tgap_model.specs.Base.{same_point};
ghost use Rattle.tgap_model.specs.Chains.{arc_number, first_point, last_point};
ghost use Rattle.face_cuts.specs.Nodes.{is_end, is_node, passes, place_of};

use tgap_model::{BaseArc, Point};

/// Where a point stands: the number of an arc, and the position there.
#[derive(Clone, Copy)]
pub struct Place {
    pub arc: usize,
    pub at: usize,
}

/// The first of some points, and the origin where there are none.
pub fn first_point(points: &[Point]) -> Point
    ensures { result ≡ first_point points.now }
{
    match points {
        [] => Point { x: 0, y: 0 },
        [first, ..] => *first,
    }
}

/// The last of some points, and the origin where there are none.
pub fn last_point(points: &[Point]) -> Point
    ensures { result ≡ last_point points.now }
{
    match points {
        [] => Point { x: 0, y: 0 },
        [.., last] => *last,
    }
}

/// The first position of a point.
fn position_of(points: &[Point], point: &Point) -> Option<usize>
    ensures value { result ≡ position (same_point point.now) points.now }
    ensures within { IfSome result (λ at. at < length points.now) }
{
    points.iter().position(|p| *point == *p)
}

/// Whether one of the points is this.
fn has_point(points: &[Point], point: &Point) -> bool
    ensures { result ≡ list_any (same_point point.now) points.now }
{
    points.iter().any(|p| *point == *p)
}

/// The number of the first arc that has a point.
fn first_arc(arcs: &[BaseArc], point: &Point) -> Option<usize>
    ensures value { result ≡ position (passes point.now) arcs.now }
    ensures within { IfSome result (λ arc. arc < length arcs.now) }
{
    arcs.iter()
        .position(|arc| has_point(arc.points.as_slice(), point))
}

/// The least place of a point.
pub fn place_of(arcs: &[BaseArc], point: &Point) -> Option<Place>
    ensures value { option_map (λ place. (place.arc, place.at)) result ≡ place_of point.now arcs.now }
    ensures arc { IfSome result (λ place. place.arc < length arcs.now) }
    ensures at { IfSome result (λ place. place.at < length (arc_number arcs.now place.arc).points) }
{
    let arc = first_arc(arcs, point)?;
    let at = position_of(arcs[arc].points.as_slice(), point)?;
    Some(Place { arc, at })
}

/// Whether an arc begins or ends at a point.
fn is_end(arc: &BaseArc, point: &Point) -> bool
    ensures { result ≡ is_end point.now arc.now }
{
    let points = arc.points.as_slice();
    *point == first_point(points) || *point == last_point(points)
}

/// Whether some arc begins or ends at a point.
pub fn is_node(arcs: &[BaseArc], point: &Point) -> bool
    ensures { result ≡ is_node point.now arcs.now }
{
    arcs.iter().any(|arc| is_end(arc, point))
}
