//! A sweep by the keys of the edges with a small corner.

ghost use Rattle.std.specs.Prelude.{◌≡◌, map, filter, All, IfOk};
ghost use Rattle.tgap_model.specs.Removals.{sweep};
ghost use Rattle.vertex_drop.specs.Corners.{has_small_corner, may_lose};
ghost use Rattle.point_rope.specs.Held.{IsNearPoint};

use grid_index::Live;
use point_rope::Rope;
use std::alloc::Global;
use tgap_model::{Edge, List, Memory, Removal, copied_points};
use vertex_drop::{is_small_area, least_corner, sweep_some};

/// Whether the least corner of a row of points is small.
fn has_small_corner(row: &Rope, loser_area: i128, ratio: u32) -> bool
    requires { All IsNearPoint row.now }
    ensures { result ≡ has_small_corner ratio loser_area row.now }
{
    match least_corner(row) {
        Some(area) => is_small_area(area as i128, loser_area, ratio),
        None => false,
    }
}

/// Whether an edge borders the face and has a small corner.
fn may_lose(
    alloc: Global,
    edge: &Edge,
    made: u32,
    loser_area: i128,
    ratio: u32,
) -> Result<bool, Memory>
    requires { All IsNearPoint edge.now.points }
    ensures { IfOk result (λ may. may ≡ may_lose ratio loser_area made edge.now) }
{
    if !edge.has_side(made) {
        return Ok(false);
    }
    let row = Rope::of(alloc, copied_points(alloc, edge.points.as_slice())?)?;
    Ok(has_small_corner(&row, loser_area, ratio))
}

/// The keys of the edges that border the face and have a small corner.
fn small_keys(
    alloc: Global,
    edges: &[Edge],
    made: u32,
    loser_area: i128,
    ratio: u32,
) -> Result<Vec<u32>, Memory>
    requires { All (λ e. All IsNearPoint e.points) edges.now }
    ensures { IfOk result (λ keys. keys.items ≡ map (λ e. e.key) (filter (may_lose ratio loser_area made) edges.now)) }
{
    let mut keys = Vec::new(alloc);
    for edge in edges {
        if may_lose(alloc, edge, made, loser_area, ratio)? {
            keys.push(edge.key)?;
        }
    }
    Ok(keys)
}

/// What the step removes of the edges with these keys.
pub fn swept_by_keys(
    alloc: Global,
    live: &Live,
    made: u32,
    loser_area: i128,
    ratio: u32,
    step: u32,
) -> Result<List<Removal>, Memory>
    ensures { IfOk result (λ removals. removals ≡ map (λ p. record { point = p; step = step }) (sweep ratio loser_area made live.now)) }
{
    let edges = live.edges().as_slice();
    let keys = small_keys(alloc, edges, made, loser_area, ratio)?;
    sweep_some(alloc, live, &keys, made, loser_area, ratio, step)
}
