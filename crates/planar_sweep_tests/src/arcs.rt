//! Arcs whose segments are apart, and arcs of which two meet.

use crate::labelled::{are_apart, left_by_sweep, segments_of};
use std::alloc::Global;
use std::process::Abort;
use std::test::Fail;
use tgap_model::{LabelledSegment, MAX_COORDINATE, Memory};

/// The greatest coordinate.
const M: i64 = MAX_COORDINATE;

/// The points of arcs: the number of the arc and the coordinates.
type Rows = &'static [(u32, i64, i64)];

/// Arcs that meet only at their ends, by name.
const APART: &[(&str, Rows)] = &[
    ("none", &[]),
    ("one", &[(0, 0, 0), (0, 3, 4)]),
    (
        "side by side",
        &[(0, 0, 0), (0, 10, 0), (1, 0, 1), (1, 10, 1)],
    ),
    (
        "one end in common",
        &[(0, 0, 0), (0, 10, 10), (1, 0, 0), (1, 10, 9)],
    ),
    (
        "both ends in common",
        &[
            (0, 0, 0),
            (0, 5, 5),
            (0, 10, 0),
            (1, 0, 0),
            (1, 5, -5),
            (1, 10, 0),
        ],
    ),
    (
        "level, one behind the other",
        &[(0, 0, 0), (0, 10, 0), (1, 10, 0), (1, 20, 0)],
    ),
    (
        "level, with a gap",
        &[(0, 0, 0), (0, 10, 0), (1, 11, 0), (1, 20, 0)],
    ),
    (
        "upright, one over the other",
        &[(0, 0, 0), (0, 0, 10), (1, 0, 10), (1, 0, 20)],
    ),
    (
        "upright, with a gap",
        &[(0, 0, 0), (0, 0, 9), (1, 0, 10), (1, 0, 20)],
    ),
    (
        "upright at the end of a slanted one",
        &[(0, 0, 0), (0, 5, 5), (1, 5, 5), (1, 5, -5)],
    ),
    (
        "a ring",
        &[(0, 0, 0), (0, 10, 0), (0, 10, 10), (0, 0, 10), (0, 0, 0)],
    ),
    (
        "two rings that begin at one point",
        &[
            (0, 0, 0),
            (0, 10, 0),
            (0, 10, 10),
            (0, 0, 0),
            (1, 0, 0),
            (1, -10, 0),
            (1, -10, -10),
            (1, 0, 0),
        ],
    ),
    (
        "along the plane",
        &[(0, -M, -M), (0, M, M), (1, -M, 1 - M), (1, M - 1, M)],
    ),
    (
        "to the right and to the left, over each other",
        &[
            (0, 0, 9),
            (0, 5, 8),
            (0, 10, 9),
            (0, 15, 8),
            (1, 15, 0),
            (1, 10, 2),
            (1, 5, 1),
            (1, 0, 2),
        ],
    ),
    (
        "one that begins where those beside it in the list end",
        &[
            (0, 0, 9),
            (0, 5, 5),
            (1, 5, 5),
            (1, 10, 5),
            (2, 0, 1),
            (2, 5, 5),
        ],
    ),
    (
        "one that ends where those beside it in the list begin",
        &[
            (0, 5, 5),
            (0, 10, 9),
            (1, 0, 5),
            (1, 5, 5),
            (2, 5, 5),
            (2, 10, 1),
        ],
    ),
    (
        "one that goes on below one that begins there",
        &[
            (0, 0, 5),
            (0, 5, 5),
            (1, 5, 5),
            (1, 10, 1),
            (2, 5, 5),
            (2, 10, 9),
        ],
    ),
    (
        "a turn at the right and one at the left",
        &[(0, 0, 0), (0, 10, 1), (0, 1, 2), (0, 11, 3)],
    ),
    (
        "four cells whose sides have a bend",
        &[
            (0, 0, 0),
            (0, 1, 2),
            (0, 0, 4),
            (1, 0, 0),
            (1, 2, 1),
            (1, 4, 0),
            (2, 0, 4),
            (2, 1, 6),
            (2, 0, 8),
            (3, 4, 0),
            (3, 6, 1),
            (3, 8, 0),
            (4, 4, 0),
            (4, 5, 2),
            (4, 4, 4),
            (5, 0, 4),
            (5, 2, 5),
            (5, 4, 4),
            (6, 4, 4),
            (6, 5, 6),
            (6, 4, 8),
            (7, 4, 4),
            (7, 6, 5),
            (7, 8, 4),
            (8, 8, 0),
            (8, 9, 2),
            (8, 8, 4),
            (9, 0, 8),
            (9, 2, 9),
            (9, 4, 8),
            (10, 8, 4),
            (10, 9, 6),
            (10, 8, 8),
            (11, 4, 8),
            (11, 6, 9),
            (11, 8, 8),
        ],
    ),
];

/// Arcs that meet elsewhere, by name.
const MEETING: &[(&str, Rows)] = &[
    (
        "two that cross",
        &[(0, 0, 0), (0, 10, 10), (1, 0, 10), (1, 10, 0)],
    ),
    (
        "an end within another",
        &[(0, 0, 0), (0, 10, 10), (1, 5, 5), (1, 9, 0)],
    ),
    (
        "what goes on to the right crosses what is below",
        &[(0, 0, 5), (0, 5, 5), (0, 10, 0), (1, 0, 1), (1, 10, 2)],
    ),
    (
        "what goes on to the left crosses what is above",
        &[(0, 10, 5), (0, 5, 0), (0, 0, 0), (1, 0, 3), (1, 10, 3)],
    ),
    (
        "one and the same",
        &[(0, 0, 0), (0, 10, 10), (1, 0, 0), (1, 10, 10)],
    ),
    (
        "one and the same, turned",
        &[(0, 0, 0), (0, 10, 0), (1, 10, 0), (1, 0, 0)],
    ),
    (
        "level, one on the other",
        &[(0, 0, 0), (0, 10, 0), (1, 5, 0), (1, 15, 0)],
    ),
    (
        "upright, one on the other",
        &[(0, 0, 0), (0, 0, 10), (1, 0, 20), (1, 0, 5)],
    ),
    (
        "upright through a level one",
        &[(0, 0, 0), (0, 10, 0), (1, 5, -5), (1, 5, 5)],
    ),
    (
        "upright on a level one",
        &[(0, 0, 0), (0, 10, 0), (1, 5, 0), (1, 5, 5)],
    ),
    (
        "a vertex that an end has",
        &[(0, 0, 0), (0, 5, 5), (0, 10, 0), (1, 5, 5), (1, 5, 10)],
    ),
    (
        "a vertex that a vertex has",
        &[
            (0, 0, 0),
            (0, 5, 5),
            (0, 10, 0),
            (1, 0, 10),
            (1, 5, 5),
            (1, 10, 10),
        ],
    ),
    (
        "a vertex that the ends of a ring have",
        &[
            (0, 0, 0),
            (0, 10, 0),
            (0, 10, 10),
            (0, 0, 0),
            (1, -5, 5),
            (1, 0, 0),
            (1, -5, -5),
        ],
    ),
    (
        "an arc that has a vertex twice",
        &[
            (0, 0, 0),
            (0, 5, 0),
            (0, 10, 5),
            (0, 10, -5),
            (0, 5, 0),
            (0, 0, -5),
        ],
    ),
    (
        "an arc that ends at its vertex",
        &[(0, 0, 0), (0, 5, 0), (0, 10, 5), (0, 10, -5), (0, 5, 0)],
    ),
    ("a spike", &[(0, 0, 0), (0, 10, 0), (0, 5, 0)]),
    (
        "an arc that crosses itself",
        &[(0, 0, 0), (0, 10, 10), (0, 10, 0), (0, 0, 10)],
    ),
    (
        "across the plane",
        &[(0, -M, -M), (0, M, M), (1, -M, M), (1, M, 1 - M)],
    ),
];

/// Compares what a sweep shows of arcs.
fn assert_rows(
    rt: &impl Abort,
    alloc: Global,
    name: &str,
    rows: &[(u32, i64, i64)],
    expected: bool,
) -> Result<(), Memory> {
    let segments = segments_of(alloc, rows)?;
    let apart = are_apart(alloc, &segments)?;
    assert_eq!(rt; apart, Some(expected), "{name}");
    Ok(())
}

#[test]
fn arcs_that_meet_only_at_their_ends_are_apart(rt: HostRuntime) -> Result<(), Fail> {
    for (name, rows) in APART {
        assert_rows(&rt, rt.alloc(), name, rows, true)?;
    }
    Ok(())
}

#[test]
fn arcs_that_meet_elsewhere_are_not(rt: HostRuntime) -> Result<(), Fail> {
    for (name, rows) in MEETING {
        assert_rows(&rt, rt.alloc(), name, rows, false)?;
    }
    Ok(())
}

/// The segments of arcs, from the last to the first.
fn turned_segments_of(
    alloc: Global,
    rows: &[(u32, i64, i64)],
) -> Result<Vec<LabelledSegment>, Memory> {
    let mut segments = segments_of(alloc, rows)?;
    segments.as_mut_slice().reverse();
    Ok(segments)
}

/// Arcs by name, and whether they are apart.
const TURNED: &[(&str, Rows, bool)] = &[
    ("two segments", &[(0, 0, 0), (0, 5, 5), (0, 10, 0)], true),
    (
        "a ring",
        &[(0, 0, 0), (0, 10, 0), (0, 10, 10), (0, 0, 10), (0, 0, 0)],
        true,
    ),
    (
        "an end at an end",
        &[(0, 0, 0), (0, 5, 5), (0, 10, 0), (1, 10, 0), (1, 20, 0)],
        true,
    ),
    (
        "an end at a vertex",
        &[(0, 0, 0), (0, 5, 5), (0, 10, 0), (1, 5, 5), (1, 5, 10)],
        false,
    ),
    (
        "a vertex at a vertex",
        &[
            (0, 0, 0),
            (0, 5, 5),
            (0, 10, 0),
            (1, 0, 10),
            (1, 5, 5),
            (1, 10, 10),
        ],
        false,
    ),
];

/// Compares what a sweep shows of the segments of arcs from the last to the first.
fn assert_turned(
    rt: &impl Abort,
    alloc: Global,
    name: &str,
    rows: &[(u32, i64, i64)],
    expected: bool,
) -> Result<(), Memory> {
    let segments = turned_segments_of(alloc, rows)?;
    let apart = are_apart(alloc, &segments)?;
    assert_eq!(rt; apart, Some(expected), "{name}");
    Ok(())
}

#[test]
fn the_order_of_the_list_does_not_tell(rt: HostRuntime) -> Result<(), Fail> {
    for (name, rows, expected) in TURNED {
        assert_turned(&rt, rt.alloc(), name, rows, *expected)?;
    }
    Ok(())
}

/// The rows of so many arcs from one point to points above each other.
fn spokes(alloc: Global, count: u32) -> Result<Vec<(u32, i64, i64)>, Memory> {
    let mut rows = Vec::new(alloc);
    for arc in 0..count {
        rows.push((arc, 0, 0))?;
        rows.push((arc, 1000, i64::from(arc)))?;
    }
    Ok(rows)
}

/// The rows of so many slanting arcs side by side.
fn strips(alloc: Global, count: u32) -> Result<Vec<(u32, i64, i64)>, Memory> {
    let mut rows = Vec::new(alloc);
    for arc in 0..count {
        rows.push((arc, 0, i64::from(arc)))?;
        rows.push((arc, 100_000, 100_000 + i64::from(arc)))?;
    }
    Ok(rows)
}

/// The segments of so many slanting arcs and of an upright one across them.
fn crossed_strips(alloc: Global, count: u32) -> Result<Vec<LabelledSegment>, Memory> {
    let mut rows = strips(alloc, count)?;
    rows.push((count, 50_000, 0))?;
    rows.push((count, 50_000, 200_000))?;
    segments_of(alloc, &rows)
}

#[test]
fn thousands_at_one_point(rt: HostRuntime) -> Result<(), Fail> {
    let rows = spokes(rt.alloc(), 4000)?;
    Ok(assert_rows(&rt, rt.alloc(), "spokes", &rows, true)?)
}

#[test]
fn thousands_side_by_side(rt: HostRuntime) -> Result<(), Fail> {
    let rows = strips(rt.alloc(), 4000)?;
    Ok(assert_rows(&rt, rt.alloc(), "strips", &rows, true)?)
}

#[test]
fn one_across_thousands(rt: HostRuntime) -> Result<(), Fail> {
    let crossed = crossed_strips(rt.alloc(), 4000)?;
    let apart = are_apart(rt.alloc(), &crossed)?;
    assert_eq!(rt; apart, Some(false));
    Ok(())
}

#[test]
fn what_a_sweep_leaves_is_apart(rt: HostRuntime) -> Result<(), Fail> {
    let alloc = rt.alloc();
    let crossed = crossed_strips(alloc, 4000)?;
    let left = left_by_sweep(alloc, &crossed)?;
    let apart = are_apart(alloc, &left)?;
    assert_eq!(rt; (apart, 3990 < left.len()), (Some(true), true));
    Ok(())
}

#[test]
fn what_meets_at_a_vertex_is_set_aside(rt: HostRuntime) -> Result<(), Fail> {
    let alloc = rt.alloc();
    let rows = [
        (0, 0, 0),
        (0, 5, 5),
        (0, 10, 0),
        (1, 5, 5),
        (1, 5, 10),
        (2, 5, 5),
        (2, 0, 10),
        (3, 20, 0),
        (3, 30, 5),
        (3, 40, 0),
    ];
    let segments = segments_of(alloc, &rows)?;
    let left = left_by_sweep(alloc, &segments)?;
    let apart = are_apart(alloc, &left)?;
    assert_eq!(rt; (apart, left.len()), (Some(true), 2));
    Ok(())
}
