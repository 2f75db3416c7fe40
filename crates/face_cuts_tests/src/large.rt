//! Maps that are as large as they may be.

use crate::maps::{Edit, base_of, counts_after, made_of};
use std::alloc::Global;
use std::test::Fail;
use tgap_model::{Base, BaseArc, List, MAX_ARCS, MAX_FACES, MAX_POINTS, Memory, Point};

/// An arc along the line at a height, through so many points.
fn level(alloc: Global, left: u32, right: u32, y: i64, points: u32) -> Result<BaseArc, Memory> {
    let mut list = List::new(alloc);
    for x in 0..points {
        list.push(Point { x: i64::from(x), y })?;
    }
    Ok(BaseArc {
        left,
        right,
        points: list,
    })
}

/// An arc that goes back over such a line, 10 above it.
fn back(alloc: Global, points: u32) -> Result<BaseArc, Memory> {
    let end = i64::from(points) - 1;
    let mut list = List::new(alloc);
    for (x, y) in [(end, 0), (end, 10), (0, 10), (0, 0)] {
        list.push(Point { x, y })?;
    }
    Ok(BaseArc {
        left: 1,
        right: 0,
        points: list,
    })
}

/// A face of two arcs, of which one has so many points and the other 4; so many other faces with an arc of two points each,
/// and so many arcs more.
fn map(alloc: Global, points: u32, others: u32, more: u32) -> Result<Box<Base>, Memory> {
    let mut classes = Vec::from_slice(alloc, &[0])?;
    let mut arcs = List::new(alloc);
    arcs.push(level(alloc, 1, 0, 0, points)?)?;
    arcs.push(back(alloc, points)?)?;
    for other in 0..others {
        classes.push(1)?;
        arcs.push(level(alloc, other.saturating_add(2), 0, 20, 2)?)?;
    }
    for _ in 0..more {
        arcs.push(level(alloc, 1, 0, 30, 2)?)?;
    }
    made_of(alloc, List::from(classes), arcs)
}

/// Cuts the face of two arcs, of which one has so many points.
fn cut_after(
    alloc: Global,
    points: u32,
    others: u32,
    more: u32,
) -> Result<Result<(usize, usize, usize), u8>, Memory> {
    let base = map(alloc, points, others, more)?;
    let end = i64::from(points) - 1;
    counts_after(alloc, &base, Edit::Cut(1, 0, &[0, 0, 1, 5, end, 0]))
}

/// Makes the second point of the first arc a node.
fn node_after(
    alloc: Global,
    points: u32,
    more: u32,
) -> Result<Result<(usize, usize, usize), u8>, Memory> {
    let base = map(alloc, points, 0, more)?;
    counts_after(alloc, &base, Edit::Node(1, 0))
}

#[test]
fn points(rt: HostRuntime) -> Result<(), Fail> {
    let rows = [(524_281, Ok((2, 3, MAX_POINTS))), (524_282, Err(11))];
    for (points, wanted) in rows {
        assert!(rt; cut_after(rt.alloc(), points, 0, 0)? == wanted, "{points}");
    }
    Ok(())
}

#[test]
fn points_of_a_node(rt: HostRuntime) -> Result<(), Fail> {
    let rows = [(524_283, Ok((1, 3, MAX_POINTS))), (524_284, Err(11))];
    for (points, wanted) in rows {
        assert!(rt; node_after(rt.alloc(), points, 0)? == wanted, "{points}");
    }
    Ok(())
}

#[test]
fn faces(rt: HostRuntime) -> Result<(), Fail> {
    let rows = [(32_766, Ok((MAX_FACES, 32_769, 65_542))), (32_767, Err(11))];
    for (others, wanted) in rows {
        assert!(rt; cut_after(rt.alloc(), 3, others, 0)? == wanted, "{others}");
    }
    Ok(())
}

#[test]
fn arcs(rt: HostRuntime) -> Result<(), Fail> {
    let rows = [(65_533, Ok((2, MAX_ARCS, 131_076))), (65_534, Err(11))];
    for (more, wanted) in rows {
        assert!(rt; cut_after(rt.alloc(), 3, 0, more)? == wanted, "{more}");
    }
    Ok(())
}

#[test]
fn arcs_of_a_node(rt: HostRuntime) -> Result<(), Fail> {
    let rows = [(65_533, Ok((1, MAX_ARCS, 131_074))), (65_534, Err(11))];
    for (more, wanted) in rows {
        assert!(rt; node_after(rt.alloc(), 3, more)? == wanted, "{more}");
    }
    Ok(())
}
