//! A long edge whose points stand in a rope, of which a sweep passes over the runs without a small corner.

ghost use Rattle.std.specs.Prelude.{All, IfOk};
ghost use Rattle.grid_index.specs.Live.{IsLiveEdge};
ghost use Rattle.point_rope.specs.Held.{IsNearPoint};

use crate::table::OneRope;
use point_rope::RopeEdge;
use std::alloc::Global;
use std::process::Abort;
use std::test::Fail;
use tgap_model::{Edge, List, Memory, Point, Removal};

/// How high the point at a place is: 0 or 10 by turns, and one off the other height at some places.
fn height(place: u16, flat: &[u16]) -> u8 {
    let is_flat = flat.contains(&place);
    match (place % 2 == 0, is_flat) {
        (true, false) => 0,
        (true, true) => 9,
        (false, false) => 10,
        (false, true) => 1,
    }
}

/// So many points of a saw, which stands to the right of the last one each. The teeth at some places are flat.
fn saw(alloc: Global, count: u16, flat: &[u16]) -> Result<List<Point>, Memory>
    ensures { IfOk result (λ points. All IsNearPoint points) }
{
    let mut points = List::new(alloc);
    for place in 0..count {
        points.push(Point {
            x: i64::from(place),
            y: i64::from(height(place, flat)),
        })?;
    }
    Ok(points)
}

/// A saw of these many points as an edge of face 9. Only an edge with a segment can be live.
fn saw_edge(alloc: Global, count: u16, flat: &[u16]) -> Result<Edge, Memory>
    ensures { IfOk result IsLiveEdge }
{
    let points = saw(alloc, count, flat)?;
    if points.len() < 2 || 2000 < points.len() {
        return Err(Memory);
    }
    Ok(Edge {
        key: 3,
        left: 9,
        right: 1,
        points,
    })
}

/// What step 5 removes of a saw, of which it sweeps the edge in runs.
fn removed(
    alloc: Global,
    count: u16,
    flat: &[u16],
    loser_area: i128,
) -> Result<List<Removal>, Memory> {
    let edge = saw_edge(alloc, count, flat)?;
    // In a box it is one part of what is held here, so that the proof of its moves is short.
    let table = Box::new(alloc, OneRope::new(RopeEdge::of(alloc, edge)?))?;
    table.swept(alloc, 9, loser_area, 1, 5)
}

/// The removals of the tips of flat teeth.
fn tips(alloc: Global, flat: &[u16]) -> Result<Vec<Removal>, Memory> {
    let mut removals = Vec::new(alloc);
    for place in flat {
        removals.push(Removal {
            point: Point {
                x: i64::from(*place),
                y: if *place % 2 == 0 { 9 } else { 1 },
            },
            step: 5,
        })?;
    }
    Ok(removals)
}

/// Compares what is removed of a saw with so many points, some of whose teeth are flat.
fn assert_removed(
    rt: &impl Abort,
    alloc: Global,
    count: u16,
    flat: &[u16],
    loser_area: i128,
    gone: &[u16],
) -> Result<(), Memory> {
    let removals = removed(alloc, count, flat, loser_area)?;
    let expected = tips(alloc, gone)?;
    assert_eq!(rt;
        removals.as_slice(),
        expected.as_slice(),
        "at {count} {loser_area}"
    );
    Ok(())
}

/// How many points a saw has, which of its teeth are flat, the area of the loser, and which points go. The triangle of a flat tooth
/// has twice the area 2, that of one beside it 11, and any other one 20.
const SAWS: &[(u16, &[u16], i128, &[u16])] = &[
    (1600, &[255, 512, 1201], 2, &[255, 512, 1201]),
    (1600, &[255, 512, 1201], 1, &[]),
    (1600, &[], 19, &[]),
    (1600, &[1, 1598], 10, &[1, 1598]),
    (1600, &[0, 1599], 10, &[]),
    (64, &[63], 10, &[]),
    (65, &[63], 10, &[63]),
];

#[test]
fn flat_teeth_of_a_long_saw(rt: HostRuntime) -> Result<(), Fail> {
    for (count, flat, loser_area, gone) in SAWS {
        assert_removed(&rt, rt.alloc(), *count, flat, *loser_area, gone)?;
    }
    Ok(())
}
