//! Four squares round one node, each 10 wide and 10 high; two of them side by side; and two triangles that make one ring.

use base_check::check;
use std::alloc::Global;
use std::thread::Threads;
use tgap_build::{Built, build};
use tgap_model::{Base, BaseArc, Checked, List, Memory, Or, Point, Rules, Transform};

/// An arc: its left face, its right face, and the coordinates of its points.
pub type Row = (u32, u32, &'static [(i64, i64)]);

pub const FOUR_SQUARES: [Row; 8] = [
    (1, 0, &[(0, 10), (0, 0), (10, 0)]),
    (2, 0, &[(10, 0), (20, 0), (20, 10)]),
    (4, 0, &[(20, 10), (20, 20), (10, 20)]),
    (3, 0, &[(10, 20), (0, 20), (0, 10)]),
    (1, 2, &[(10, 0), (10, 10)]),
    (2, 4, &[(20, 10), (10, 10)]),
    (4, 3, &[(10, 20), (10, 10)]),
    (3, 1, &[(0, 10), (10, 10)]),
];

pub const TWO_SQUARES: [Row; 3] = [
    (1, 0, &[(10, 10), (0, 10), (0, 0), (10, 0)]),
    (2, 0, &[(10, 0), (20, 0), (20, 10), (10, 10)]),
    (1, 2, &[(10, 0), (10, 10)]),
];

pub const TWO_TRIANGLES: [Row; 3] = [
    (1, 0, &[(0, 0), (12, 0), (6, 6)]),
    (2, 0, &[(6, 6), (0, 12), (0, 0)]),
    (2, 1, &[(0, 0), (6, 6)]),
];

/// The points with these coordinates.
fn points_of(alloc: Global, coordinates: &[(i64, i64)]) -> Result<List<Point>, Memory> {
    let mut points = List::new(alloc);
    for (x, y) in coordinates {
        points.push(Point { x: *x, y: *y })?;
    }
    Ok(points)
}

/// The arcs of these rows.
fn arcs_of(alloc: Global, rows: &[Row]) -> Result<List<BaseArc>, Memory> {
    let mut arcs = List::new(alloc);
    for (left, right, coordinates) in rows {
        arcs.push(BaseArc {
            left: *left,
            right: *right,
            points: points_of(alloc, coordinates)?,
        })?;
    }
    Ok(arcs)
}

/// The rules of one class.
fn rules_of(alloc: Global, ratio: u32) -> Result<Rules, Memory> {
    let weights = Vec::from_slice(alloc, &[1])?;
    let compat = Vec::from_slice(alloc, &[1])?;
    Ok(Rules {
        ratio,
        weights: List::from(weights),
        compat: List::from(compat),
    })
}

/// The map with these arcs, whose faces are all of class 0.
fn base_of(
    alloc: Global,
    ratio: u32,
    classes: &[u32],
    rows: &[Row],
) -> Result<Option<Base>, Memory> {
    let transform = Transform {
        sx: 1,
        sy: 1,
        tx: 0,
        ty: 0,
    };
    let classes = List::from(Vec::from_slice(alloc, classes)?);
    let arcs = arcs_of(alloc, rows)?;
    Ok(Base::new(transform, rules_of(alloc, ratio)?, classes, arcs))
}

/// The map, checked.
fn checked_map<R: Threads + Sync>(
    rt: &R,
    alloc: Global,
    base: Base,
) -> Result<Option<Checked>, Memory> {
    match check(rt, alloc, base) {
        Ok(checked) => Ok(Some(checked)),
        Err(Or::Fault(_)) => Ok(None),
        Err(Or::Memory) => Err(Memory),
    }
}

/// What is built of the map with these arcs. It stands in a box, so that who holds it holds one part: the proof of its moves is
/// short then.
pub fn built_map<R: Threads + Sync>(
    rt: &R,
    alloc: Global,
    ratio: u32,
    classes: &[u32],
    rows: &[Row],
) -> Result<Option<Box<Built>>, Memory> {
    let Some(base) = base_of(alloc, ratio, classes, rows)? else {
        return Ok(None);
    };
    match checked_map(rt, alloc, base)? {
        Some(checked) => Ok(Some(Box::new(alloc, build(rt, alloc, checked)?)?)),
        None => Ok(None),
    }
}
