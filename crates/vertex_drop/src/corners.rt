//! How small the corners of edges are.

ghost use Rattle.std.specs.Prelude.{◌≡◌, ◌≤◌, ◌==◌, not, ℕ, Some, map, filter, All, IfOk};
ghost use Rattle.tgap_model.specs.Base.{same_point};
ghost use Rattle.tgap_model.specs.Bounds.{max_cross};
ghost use Rattle.tgap_model.specs.Point.{area2};
ghost use Rattle.vertex_drop.specs.Corners.{has_small_corner, is_closed, is_triangle, least_corner, may_lose};
ghost use Rattle.point_rope.specs.Held.{IsNearPoint};

use crate::removable::is_small_area;
use grid_geo::area2;
use point_rope::{Rope, least_area};
use std::alloc::Global;
use tgap_model::{Edge, Memory, Point};

/// Whether the triangle of three points has an area.
fn has_area(a: Point, b: Point, c: Point) -> bool
    requires a { IsNearPoint a }
    requires b { IsNearPoint b }
    requires c { IsNearPoint c }
    ensures { result ≡ not (area2 a b c == 0) }
{
    area2(a, b, c) != 0
}

/// Whether two points are one.
pub fn is_same(a: Point, b: Point) -> bool
    ensures { result ≡ same_point a b }
{
    a.x == b.x && a.y == b.y
}

/// Whether these are the corners of a triangle that has an area, and the first of them again.
fn is_triangle(points: &[Point]) -> bool
    requires { All IsNearPoint points.now }
    ensures { result ≡ is_triangle points.now }
{
    if points.len() != 4 {
        return false;
    }
    is_same(points[0], points[3]) && has_area(points[0], points[1], points[2])
}

/// What `least_corner` tells of a row, of these points.
#[tactic(auto, unfolding(crate::specs::Corners::least_corner))]
fn least_corner_of(points: &[Point]) -> Option<u128>
    requires { All IsNearPoint points.now }
    ensures exact { result ≡ least_corner points.now }
    ensures small { (n : ℕ) → least_corner points.now ≡ Some n → n ≤ max_cross }
{
    if is_triangle(points) {
        return None;
    }
    least_area(points)
}

/// Whether these are three points and the first of them again.
fn is_closed(row: &Rope) -> bool
    ensures { result ≡ is_closed row.now }
{
    row.len() == 4 && is_same(row.at(0), row.at(3))
}

/// Twice the area of the least triangle of three points in a row of these, in square grid units: 0 where three are on
/// one line, and none where there are fewer than three points. There is none too where they are the corners of a
/// triangle with an area and the first of them again: of such a row no point ever goes. It takes the time of the runs of
/// the row, and of the points of the last run.
pub fn least_corner(row: &Rope) -> Option<u128>
    ensures { result ≡ least_corner row.now }
{
    let area = row.least_area()?;
    if is_closed(row) && area > 0 {
        None
    } else {
        Some(area)
    }
}

/// Whether three points in a row of these are on one line, or have a triangle that is small enough, where the points
/// are not those of a triangle alone.
fn has_small_corner(points: &[Point], loser_area: i128, ratio: u32) -> bool
    requires { All IsNearPoint points.now }
    ensures { result ≡ has_small_corner ratio loser_area points.now }
{
    match least_corner_of(points) {
        Some(area) => is_small_area(area as i128, loser_area, ratio),
        None => false,
    }
}

/// The keys of those of these edges that border the face `made` and have three points in a row that a step may cut
/// short, in the order of the edges.
pub fn small_keys(
    alloc: Global,
    edges: &[Edge],
    made: u32,
    loser_area: i128,
    ratio: u32,
) -> Result<Vec<u32>, Memory>
    requires { All (λ e. All IsNearPoint e.points) edges.now }
    ensures { IfOk result (λ keys. keys.items ≡ map (λ e. e.key) (filter (may_lose ratio loser_area made) edges.now)) }
{
    let mut keys = Vec::new(alloc);
    for edge in edges {
        if edge.has_side(made) && has_small_corner(edge.points.as_slice(), loser_area, ratio) {
            keys.push(edge.key)?;
        }
    }
    Ok(keys)
}
