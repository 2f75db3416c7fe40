//! The maps of which there are versions.

use std::alloc::Global;
use tgap_model::{Base, BaseArc, List, Memory, Point, Rules, Transform};

/// A triangle whose right angle is at the origin, with this width.
pub fn triangle(alloc: Global, width: i64) -> Result<Option<Base>, Memory> {
    let transform = Transform {
        sx: 1,
        sy: 1,
        tx: 0,
        ty: 0,
    };
    let rules = rules_of_one_class(alloc)?;
    let classes = one_number(alloc, 0)?;
    let arcs = arc_of_triangle(alloc, width)?;
    Ok(Base::new(transform, rules, classes, arcs))
}

fn arc_of_triangle(alloc: Global, width: i64) -> Result<List<BaseArc>, Memory> {
    let points = corners(alloc, width)?;
    let mut arcs = List::new(alloc);
    arcs.push(BaseArc {
        left: 1,
        right: 0,
        points,
    })?;
    Ok(arcs)
}

fn corners(alloc: Global, width: i64) -> Result<List<Point>, Memory> {
    let mut points = List::new(alloc);
    for (x, y) in [(0, 0), (width, 0), (0, 10), (0, 0)] {
        points.push(Point { x, y })?;
    }
    Ok(points)
}

fn rules_of_one_class(alloc: Global) -> Result<Rules, Memory> {
    let weights = one_number(alloc, 1)?;
    let compat = one_number(alloc, 1)?;
    Ok(Rules {
        ratio: 0,
        weights,
        compat,
    })
}

/// A list of this number alone.
fn one_number(alloc: Global, number: u32) -> Result<List<u32>, Memory> {
    let mut numbers = List::new(alloc);
    numbers.push(number)?;
    Ok(numbers)
}
