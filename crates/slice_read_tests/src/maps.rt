//! Maps by the coordinates of their arcs, checked and built.

use base_check::check;
use std::alloc::Global;
use std::thread::Threads;
use tgap_build::{Built, build};
use tgap_model::{Base, BaseArc, Checked, List, Memory, Or, Point, Rules, Transform};

/// An arc: the faces at its left and right, and its points.
pub type Row<'a> = (u32, u32, &'a [(i64, i64)]);

/// The points with these coordinates.
fn points_of(alloc: Global, coordinates: &[(i64, i64)]) -> Result<List<Point>, Memory> {
    let mut points = List::new(alloc);
    for (x, y) in coordinates {
        points.push(Point { x: *x, y: *y })?;
    }
    Ok(points)
}

/// The arcs of these rows.
fn arcs_of(alloc: Global, rows: &[Row<'_>]) -> Result<List<BaseArc>, Memory> {
    let mut arcs = List::new(alloc);
    for (left, right, coordinates) in rows {
        arcs.push(BaseArc {
            left: *left,
            right: *right,
            points: points_of(alloc, coordinates)?,
        })?;
    }
    Ok(arcs)
}

/// The rules of one class.
fn rules_of_one_class(alloc: Global) -> Result<Rules, Memory> {
    let weights = Vec::from_slice(alloc, &[1])?;
    let compat = Vec::from_slice(alloc, &[1])?;
    Ok(Rules {
        ratio: 0,
        weights: List::from(weights),
        compat: List::from(compat),
    })
}

/// The map of these arcs, with faces of these classes, of which there is one alone.
pub fn map_of(alloc: Global, classes: &[u32], rows: &[Row<'_>]) -> Result<Option<Base>, Memory> {
    let transform = Transform {
        sx: 1,
        sy: 1,
        tx: 0,
        ty: 0,
    };
    let classes = List::from(Vec::from_slice(alloc, classes)?);
    let arcs = arcs_of(alloc, rows)?;
    Ok(Base::new(transform, rules_of_one_class(alloc)?, classes, arcs))
}

/// The map, checked.
pub fn checked_map<R: Threads + Sync>(
    rt: &R,
    alloc: Global,
    base: Base,
) -> Result<Option<Checked>, Memory> {
    match check(rt, alloc, base) {
        Ok(checked) => Ok(Some(checked)),
        Err(Or::Fault(_)) => Ok(None),
        Err(Or::Memory) => Err(Memory),
    }
}

/// What is built of the map. It stands in a box, so that who holds it holds one part: the proof of its moves is short then.
pub fn built_map<R: Threads + Sync>(
    rt: &R,
    alloc: Global,
    base: Base,
) -> Result<Option<Box<Built>>, Memory> {
    match checked_map(rt, alloc, base)? {
        Some(checked) => Ok(Some(Box::new(alloc, build(rt, alloc, checked)?)?)),
        None => Ok(None),
    }
}
