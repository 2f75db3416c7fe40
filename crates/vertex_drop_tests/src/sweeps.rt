//! A spike of an edge, with and without a ring in it, and other edges that a step may sweep.

ghost use Rattle.std.specs.Prelude.{◌≡◌, ◌<◌, IfOk, All};
ghost use Rattle.grid_index.specs.Live.{IsLiveEdge};
ghost use Rattle.point_rope.specs.Held.{IsNearPoint};

use crate::keys::swept_by_keys;
use grid_index::Live;
use std::alloc::Global;
use std::test::Fail;
use tgap_model::{Edge, List, Memory, Point, Removal};
use vertex_drop::sweep;

const SPIKE: [(u8, u8); 3] = [(0, 0), (5, 10), (10, 0)];

const STRAIGHT: [(u8, u8); 4] = [(0, 20), (5, 20), (7, 20), (10, 20)];

const RING: [(u8, u8); 4] = [(4, 2), (6, 2), (5, 4), (4, 2)];

const FAR_RING: [(u8, u8); 4] = [(14, 2), (16, 2), (15, 4), (14, 2)];

const FLAT_RING: [(u8, u8); 4] = [(4, 2), (6, 2), (8, 2), (4, 2)];

/// The points with these coordinates.
fn points_of(alloc: Global, coordinates: &[(u8, u8)]) -> Result<List<Point>, Memory>
    ensures { IfOk result (λ points. All IsNearPoint points) }
{
    let mut points = List::new(alloc);
    for (x, y) in coordinates {
        points.push(Point {
            x: i64::from(*x),
            y: i64::from(*y),
        })?;
    }
    Ok(points)
}

/// An edge with face 1 at its right. Only an edge with a segment can be live.
fn edge_of(alloc: Global, key: u32, left: u32, coordinates: &[(u8, u8)]) -> Result<Edge, Memory>
    ensures key { IfOk result (λ edge. edge.key ≡ key) }
    ensures live { IfOk result IsLiveEdge }
{
    let points = points_of(alloc, coordinates)?;
    if points.len() < 2 || 100 < points.len() {
        return Err(Memory);
    }
    Ok(Edge {
        key,
        left,
        right: 1,
        points,
    })
}

/// Two live edges in order of key.
fn live_of(alloc: Global, first: Edge, second: Edge) -> Result<Live, Memory>
    requires order { first.key < second.key }
    requires first { IsLiveEdge first }
    requires second { IsLiveEdge second }
{
    let mut edges = List::new(alloc);
    edges.push(first)?;
    edges.push(second)?;
    Live::of(alloc, &edges)
}

/// Two edges and a step that may sweep them: the face at the left of the first edge, its points, those of the second edge, which has
/// face 2 at its left, the ratio, and the area of the loser. The step makes face 9.
type Case = (u32, &'static [(u8, u8)], &'static [(u8, u8)], u32, i128);

/// The two edges, live. They stand in a box, so that who holds them holds one part: the proof of its moves is short then.
fn live_edges(alloc: Global, case: Case) -> Result<Box<Live>, Memory> {
    let (left, first, second, _, _) = case;
    let first = edge_of(alloc, 0, left, first)?;
    let second = edge_of(alloc, 1, 2, second)?;
    Ok(Box::new(alloc, live_of(alloc, first, second)?)?)
}

/// What step 5 removes of the edges.
fn removed(alloc: Global, case: Case) -> Result<List<Removal>, Memory> {
    let (_, _, _, ratio, loser_area) = case;
    let live = live_edges(alloc, case)?;
    sweep(alloc, &live, 9, loser_area, ratio, 5)
}

/// The same, by the keys of the edges with a small corner.
fn removed_by_keys(alloc: Global, case: Case) -> Result<List<Removal>, Memory> {
    let (_, _, _, ratio, loser_area) = case;
    let live = live_edges(alloc, case)?;
    swept_by_keys(alloc, &live, 9, loser_area, ratio, 5)
}

/// How many points the step removes, and whether it removes the same ones by the keys.
fn count_removed(alloc: Global, case: Case) -> Result<(usize, bool), Memory> {
    let removals = removed(alloc, case)?;
    let by_keys = removed_by_keys(alloc, case)?;
    let same = by_keys.as_slice() == removals.as_slice();
    Ok((removals.len(), same))
}

/// Edges and steps, and how many points each step removes.
const CASES: &[(Case, usize)] = &[
    // The triangle has twice the area 100.
    ((9, &SPIKE, &FAR_RING, 1, 100), 1),
    ((9, &SPIKE, &FAR_RING, 1, 99), 0),
    ((9, &SPIKE, &FAR_RING, 2, 200), 1),
    ((9, &SPIKE, &FAR_RING, 2, 199), 0),
    // A ring in the triangle keeps the vertex.
    ((9, &SPIKE, &RING, 1, 100), 0),
    // The edge does not border the new face.
    ((8, &SPIKE, &FAR_RING, 1, 100), 0),
    // Points on one line go whatever the area is, but with ratio 0 nothing goes.
    ((9, &STRAIGHT, &FAR_RING, 1, 0), 2),
    ((9, &STRAIGHT, &FAR_RING, 0, 1000), 0),
    // A ring of three points stays, unless they are on one line.
    ((9, &RING, &FAR_RING, 1, 1000), 0),
    ((9, &FLAT_RING, &FAR_RING, 1, 0), 2),
];

#[test]
fn vertices_of_one_edge(rt: HostRuntime) -> Result<(), Fail> {
    for (case, count) in CASES {
        let (left, _, _, ratio, loser_area) = *case;
        let found = count_removed(rt.alloc(), *case)?;
        assert_eq!(rt; found, (*count, true), "at {left} {ratio} {loser_area}");
    }
    Ok(())
}

#[test]
fn points_on_one_line(rt: HostRuntime) -> Result<(), Fail> {
    let removals = removed(rt.alloc(), (9, &STRAIGHT, &FAR_RING, 1, 0))?;
    let expected = [
        Removal {
            point: Point { x: 5, y: 20 },
            step: 5,
        },
        Removal {
            point: Point { x: 7, y: 20 },
            step: 5,
        },
    ];
    assert_eq!(rt; removals.as_slice(), expected.as_slice());
    Ok(())
}
