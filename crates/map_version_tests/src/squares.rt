//! Two squares side by side, 10 wide and 10 high, and two smaller maps.

use std::alloc::Global;
use tgap_model::{Base, BaseArc, List, Memory, Point, Rules, Transform};

/// An arc through these points.
fn arc(alloc: Global, left: u32, right: u32, points: &[(i64, i64)]) -> Result<BaseArc, Memory> {
    let mut list = List::new(alloc);
    for (x, y) in points {
        list.push(Point { x: *x, y: *y })?;
    }
    Ok(BaseArc {
        left,
        right,
        points: list,
    })
}

/// The points (10,0), (10,1) and so on, so many of them.
pub fn column(alloc: Global, n: u32) -> Result<Vec<(i64, i64)>, Memory> {
    let mut points = Vec::new(alloc);
    for y in 0..n {
        points.push((10, i64::from(y)))?;
    }
    Ok(points)
}

/// The rules of two classes, in which all are equal.
fn equal_rules(alloc: Global) -> Result<Rules, Memory> {
    let weights = Vec::from_slice(alloc, &[1, 1])?;
    let compat = Vec::from_slice(alloc, &[1, 1, 1, 1])?;
    Ok(Rules {
        ratio: 0,
        weights: List::from(weights),
        compat: List::from(compat),
    })
}

/// A map of the two classes with these arcs, each by its sides and its points.
fn map_of(
    alloc: Global,
    classes: &[u32],
    arcs: &[(u32, u32, &[(i64, i64)])],
) -> Result<Option<Base>, Memory> {
    let transform = Transform {
        sx: 1,
        sy: 1,
        tx: 0,
        ty: 0,
    };
    let mut list = List::new(alloc);
    for (left, right, points) in arcs {
        list.push(arc(alloc, *left, *right, *points)?)?;
    }
    let classes = List::from(Vec::from_slice(alloc, classes)?);
    Ok(Base::new(transform, equal_rules(alloc)?, classes, list))
}

/// Two squares side by side, with the arc between them through these points.
pub fn squares(alloc: Global, between: &[(i64, i64)]) -> Result<Option<Base>, Memory> {
    let left = [(10, 10), (0, 10), (0, 0), (10, 0)];
    let right = [(10, 0), (20, 0), (20, 10), (10, 10)];
    map_of(
        alloc,
        &[0, 1],
        &[
            (1, 0, left.as_slice()),
            (2, 0, right.as_slice()),
            (1, 2, between),
        ],
    )
}

/// Two faces with one arc between them and no other arc.
pub fn one_arc(alloc: Global) -> Result<Option<Base>, Memory> {
    map_of(alloc, &[0, 1], &[(1, 2, [(0, 0), (10, 0)].as_slice())])
}

/// A face of two squares apart from each other, each a ring with one node, (0,0) and (20,0).
pub fn two_rings(alloc: Global) -> Result<Option<Base>, Memory> {
    let first = [(0, 0), (10, 0), (10, 10), (0, 10), (0, 0)];
    let second = [(20, 0), (30, 0), (30, 10), (20, 10), (20, 0)];
    map_of(
        alloc,
        &[0],
        &[(1, 0, first.as_slice()), (1, 0, second.as_slice())],
    )
}

/// The sides of an arc of a map; 0 and 0 where there is no such arc.
pub fn sides_of(base: &Base, arc: usize) -> (u32, u32) {
    match base.arcs().as_slice().get(arc) {
        Some(arc) => (arc.left, arc.right),
        None => (0, 0),
    }
}

/// The map in a box, so that who holds it holds one part: the proof of its moves is short then.
pub fn boxed(alloc: Global, base: Base) -> Result<Box<Base>, Memory> {
    Ok(Box::new(alloc, base)?)
}

/// The points of an arc of a map; none where there is no such arc.
pub fn points_of(base: &Base, arc: usize) -> &[Point] {
    match base.arcs().as_slice().get(arc) {
        Some(arc) => arc.points.as_slice(),
        None => &[],
    }
}
