//! A map of bent cells in a square, of which no two need have one size.
use std::alloc::Global;
use tgap_model::{Base, BaseArc, List, Memory, Point, Rules, Transform};

/// The number of cells along a side.
pub const SIDE: u32 = 40;

/// A number from 0 to 63 for a node or an arc.
fn mix(i: u32, j: u32, t: u32) -> u32 {
    let linear = i.wrapping_mul(73).wrapping_add(j.wrapping_mul(151));
    let product = i.wrapping_mul(j).wrapping_mul(17);
    linear
        .wrapping_add(t.wrapping_mul(29))
        .wrapping_add(product)
        % 64
}

fn coordinate(cell: u32, shift: u32) -> i64 {
    i64::from(cell.wrapping_mul(16).wrapping_add(shift))
}

fn node(i: u32, j: u32) -> Point {
    let shift = mix(i, j, 0);
    Point {
        x: coordinate(i, shift % 4),
        y: coordinate(j, shift / 4 % 4),
    }
}

/// The face of a cell, or 0 outside the square.
fn cell(i: u32, j: u32) -> u32 {
    if i < SIDE && j < SIDE {
        1 + j * SIDE + i
    } else {
        0
    }
}

fn arc(
    alloc: Global,
    left: u32,
    right: u32,
    a: Point,
    bend: Point,
    b: Point,
) -> Result<BaseArc, Memory> {
    Ok(BaseArc {
        left,
        right,
        points: List::from(Vec::from_slice(alloc, &[a, bend, b])?),
    })
}

/// The arc below cell (i, j), from left to right.
fn level_arc(alloc: Global, i: u32, j: u32) -> Result<BaseArc, Memory> {
    let bend = Point {
        x: coordinate(i, 8),
        y: coordinate(j, mix(i, j, 1) % 4),
    };
    let (above, below) = (cell(i, j), cell(i, j.wrapping_sub(1)));
    arc(
        alloc,
        above,
        below,
        node(i, j),
        bend,
        node(i.wrapping_add(1), j),
    )
}

/// The arc at the left of cell (i, j), upwards.
fn upright_arc(alloc: Global, i: u32, j: u32) -> Result<BaseArc, Memory> {
    let bend = Point {
        x: coordinate(i, mix(i, j, 2) % 4),
        y: coordinate(j, 8),
    };
    let (before, after) = (cell(i.wrapping_sub(1), j), cell(i, j));
    arc(
        alloc,
        before,
        after,
        node(i, j),
        bend,
        node(i, j.wrapping_add(1)),
    )
}

/// Puts the arcs of a line and of a column, number `line`, after those of `arcs`.
fn push_line(alloc: Global, line: u32, arcs: &mut List<BaseArc>) -> Result<(), Memory> {
    for i in 0..SIDE {
        arcs.push(level_arc(alloc, i, line)?)?;
        arcs.push(upright_arc(alloc, line, i)?)?;
    }
    Ok(())
}

fn arcs(alloc: Global) -> Result<List<BaseArc>, Memory> {
    let mut arcs = List::new(alloc);
    for line in 0..SIDE + 1 {
        push_line(alloc, line, &mut arcs)?;
    }
    Ok(arcs)
}

fn classes(alloc: Global) -> Result<List<u32>, Memory> {
    let mut classes = List::new(alloc);
    for face in 0..SIDE * SIDE {
        let (i, j) = (face % SIDE, face / SIDE);
        let class = i
            .wrapping_mul(5)
            .wrapping_add(j.wrapping_mul(3))
            .wrapping_add(i.wrapping_mul(j));
        classes.push(class % 4)?;
    }
    Ok(classes)
}

/// Four classes: those that come later weigh more. A face of class 0 goes to classes 1 and 3 alone, one of class 1 to
/// classes 0 and 2, one of class 2 to its own class and to class 3, and one of class 3 to class 0. So at several hundred
/// steps a neighbour of the loser comes to have a permitted neighbour, or has none any more.
fn rules(alloc: Global) -> Result<Rules, Memory> {
    let compat = [0, 1, 0, 1, 1, 0, 1, 0, 0, 0, 4, 1, 1, 0, 0, 0];
    let weights = Vec::from_slice(alloc, &[1, 2, 3, 4])?;
    let compat = Vec::from_slice(alloc, &compat)?;
    Ok(Rules {
        ratio: 16,
        weights: List::from(weights),
        compat: List::from(compat),
    })
}

/// The map.
pub fn generated(alloc: Global) -> Result<Option<Base>, Memory> {
    let transform = Transform {
        sx: 1,
        sy: 1,
        tx: 0,
        ty: 0,
    };
    let arcs = arcs(alloc)?;
    let classes = classes(alloc)?;
    Ok(Base::new(transform, rules(alloc)?, classes, arcs))
}
