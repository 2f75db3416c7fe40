//! Generated maps. Each stands in a box, so that the test that holds it holds one part: the proof of its moves is short then.

use generator::{MAX_GRID, grid_map};
use std::process::Abort;
use std::test::Fail;
use tgap_model::{Base, BaseArc, Point};

/// An arc's faces at its left and right, and its points.
type Row = (u32, u32, [(i64, i64); 3]);

fn is_row(arc: &BaseArc, row: &Row) -> bool {
    let (left, right, points) = row;
    let same = |(p, (x, y)): (&Point, &(i64, i64))| p.x == *x && p.y == *y;
    arc.left == *left
        && arc.right == *right
        && arc.points.len() == points.len()
        && arc.points.as_slice().iter().zip(points.iter()).all(same)
}

/// Compares arcs with rows, in their order.
fn assert_rows(rt: &impl Abort, arcs: &[BaseArc], rows: &[Row]) {
    assert_eq!(rt; arcs.len(), rows.len());
    for (arc, row) in arcs.iter().zip(rows.iter()) {
        assert!(rt; is_row(arc, row));
    }
}

/// Compares the smallest map with one that is worked out by hand.
fn assert_one_cell(rt: &impl Abort, base: &Base) {
    assert_eq!(rt; base.classes().as_slice(), [0].as_slice());
    assert_eq!(rt; base.rules().ratio, 16);
    assert_eq!(rt; base.rules().weights.as_slice(), [1, 2, 3, 4].as_slice());
    let rows: [Row; 4] = [
        (1, 0, [(0, 0), (8, 1), (17, 2)]),
        (0, 1, [(3, 17), (8, 16), (17, 16)]),
        (0, 1, [(0, 0), (2, 8), (3, 17)]),
        (1, 0, [(17, 2), (19, 8), (17, 16)]),
    ];
    assert_rows(rt, base.arcs().as_slice(), &rows);
}

#[test]
fn one_cell(rt: HostRuntime) -> Result<(), Fail> {
    let base = Box::new(rt.alloc(), grid_map(rt.alloc(), 1)?)?;
    assert_one_cell(&rt, &base);
    Ok(())
}

/// How many points the arcs have.
fn count_points(arcs: &[BaseArc]) -> usize {
    let mut points = 0usize;
    for arc in arcs {
        points = points.saturating_add(arc.points.len());
    }
    points
}

/// How much a map has: faces, arcs, and points of arcs.
fn counts(base: &Base) -> (usize, usize, usize) {
    let arcs = base.arcs().as_slice();
    (base.classes().len(), arcs.len(), count_points(arcs))
}

#[test]
fn forty_rows(rt: HostRuntime) -> Result<(), Fail> {
    assert!(rt; 40 <= MAX_GRID);
    let base = Box::new(rt.alloc(), grid_map(rt.alloc(), 40)?)?;
    assert_eq!(rt; counts(&base), (1600, 3280, 9840));
    Ok(())
}
