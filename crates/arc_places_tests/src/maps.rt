//! Maps of squares.

use std::alloc::Global;
use tgap_model::{Base, BaseArc, List, Memory, Point, Rules, Transform};

/// Each arc of a map in one row: its left face, its right face, and the coordinates of its points.
pub type Rows<'a> = &'a [(u32, u32, &'a [(i64, i64)])];

/// Points with these coordinates.
pub fn points_of(alloc: Global, coordinates: &[(i64, i64)]) -> Result<Vec<Point>, Memory> {
    let mut points = Vec::new(alloc);
    for (x, y) in coordinates {
        points.push(Point { x: *x, y: *y })?;
    }
    Ok(points)
}

/// An arc.
pub fn arc_of(
    alloc: Global,
    left: u32,
    right: u32,
    coordinates: &[(i64, i64)],
) -> Result<BaseArc, Memory> {
    let points = points_of(alloc, coordinates)?;
    Ok(BaseArc {
        left,
        right,
        points: List::from(points),
    })
}

/// The arcs of a map.
fn arcs_of(alloc: Global, rows: Rows<'_>) -> Result<List<BaseArc>, Memory> {
    let mut arcs = List::new(alloc);
    for (left, right, coordinates) in rows {
        arcs.push(arc_of(alloc, *left, *right, coordinates)?)?;
    }
    Ok(arcs)
}

/// The rules of a map of one class.
fn rules(alloc: Global) -> Result<Rules, Memory> {
    let weights = Vec::from_slice(alloc, &[1])?;
    let compat = Vec::from_slice(alloc, &[1])?;
    Ok(Rules {
        ratio: 16,
        weights: List::from(weights),
        compat: List::from(compat),
    })
}

/// A map of so many faces, all of one class.
pub fn base_of(alloc: Global, faces: usize, rows: Rows<'_>) -> Result<Box<Base>, Memory> {
    let mut classes = List::new(alloc);
    for _ in 0..faces {
        classes.push(0)?;
    }
    let transform = Transform {
        sx: 1,
        sy: 1,
        tx: 0,
        ty: 0,
    };
    match Base::new(transform, rules(alloc)?, classes, arcs_of(alloc, rows)?) {
        Some(base) => Ok(Box::new(alloc, base)?),
        None => Err(Memory),
    }
}
