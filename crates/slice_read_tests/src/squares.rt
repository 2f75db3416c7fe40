//! Two squares side by side, 10 wide and 10 high, and what is built of them.

use crate::maps::{Row, built_map, checked_map, map_of};
use std::alloc::Global;
use std::thread::Threads;
use tgap_build::Built;
use tgap_model::{Base, Checked, Edge, Memory};

const LEFT: [(i64, i64); 4] = [(10, 10), (0, 10), (0, 0), (10, 0)];

pub const RIGHT: [(i64, i64); 4] = [(10, 0), (20, 0), (20, 10), (10, 10)];

const BETWEEN: [(i64, i64); 2] = [(10, 0), (10, 10)];

/// The squares, both of class 0: an arc round each, and one between them.
fn two_squares(alloc: Global) -> Result<Option<Base>, Memory> {
    let rows: [Row<'_>; 3] = [
        (1, 0, LEFT.as_slice()),
        (2, 0, RIGHT.as_slice()),
        (1, 2, BETWEEN.as_slice()),
    ];
    map_of(alloc, &[0, 0], rows.as_slice())
}

/// The squares, checked.
pub fn checked_squares<R: Threads + Sync>(
    rt: &R,
    alloc: Global,
) -> Result<Option<Box<Checked>>, Memory> {
    let Some(base) = two_squares(alloc)? else {
        return Ok(None);
    };
    match checked_map(rt, alloc, base)? {
        Some(checked) => Ok(Some(Box::new(alloc, checked)?)),
        None => Ok(None),
    }
}

/// What is built of the squares.
pub fn built_squares<R: Threads + Sync>(
    rt: &R,
    alloc: Global,
) -> Result<Option<Box<Built>>, Memory> {
    match two_squares(alloc)? {
        Some(base) => built_map(rt, alloc, base),
        None => Ok(None),
    }
}

/// Whether the edge has this key, these faces and these points.
pub fn is_edge(edge: &Edge, key: u32, left: u32, right: u32, coordinates: &[(i64, i64)]) -> bool {
    let points = edge.points.as_slice();
    (edge.key, edge.left, edge.right) == (key, left, right)
        && points.len() == coordinates.len()
        && points
            .iter()
            .zip(coordinates)
            .all(|(point, (x, y))| point.x == *x && point.y == *y)
}
