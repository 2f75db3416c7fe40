//! What is listed for points and for faces, and which arcs are there.

use arc_places::{Borders, ListedSlots, Places, arcs_in};
use std::alloc::Global;
use std::test::Fail;
use tgap_model::{BaseArc, List, Memory, Point};

/// Whether the numbers are these.
fn are(numbers: &[usize], wanted: &[usize]) -> bool {
    *numbers == *wanted
}

/// Whether the slots that are listed are these.
fn are_listed(listed: &ListedSlots<'_>, wanted: &[usize]) -> bool {
    if listed.count() != wanted.len() {
        return false;
    }
    for at in 0..listed.count() {
        if listed.slot(at) != wanted[at] {
            return false;
        }
    }
    true
}

/// Whether the lists of three faces, of which the second becomes a part of the first, are those of the two faces that are left.
fn fused(alloc: Global) -> Result<bool, Memory> {
    let mut borders = Borders::of(alloc, &[], 3)?;
    borders.list(1, 4)?;
    borders.list(1, 7)?;
    borders.list(2, 5)?;
    borders.list(3, 6)?;
    borders.fuse(alloc, 1, 2)?;
    Ok(
        are(borders.of_face(1), &[4, 7, 5])
            && are(borders.of_face(2), &[6])
            && borders.of_face(3).is_empty(),
    )
}

/// Whether the lists of two points are those that were made, passed on and set.
fn listed(alloc: Global) -> Result<bool, Memory> {
    let first = Point { x: 1, y: 2 };
    let second = Point { x: 3, y: 4 };
    let mut places = Places::of(alloc, &[])?;
    places.list(alloc, 8, first)?;
    places.list_points(alloc, 9, &[first, second])?;
    places.pass(alloc, &first, Point { x: 5, y: 6 })?;
    places.set(alloc, second, 3)?;
    Ok(
        are_listed(&places.of_point(&Point { x: 5, y: 6 }), &[8, 9])
            && are_listed(&places.of_point(&second), &[3])
            && are_listed(&places.of_point(&first), &[]),
    )
}

/// An arc between two faces, with this many points.
fn arc(alloc: Global, left: u32, count: i64) -> Result<BaseArc, Memory> {
    let mut points = List::new(alloc);
    for x in 0..count {
        points.push(Point { x, y: 0 })?;
    }
    Ok(BaseArc {
        left,
        right: 0,
        points,
    })
}

/// Whether the arcs that are there, of four, are the second and the last.
fn closed_up(alloc: Global) -> Result<bool, Memory> {
    let mut slots = Vec::new(alloc);
    slots.push(arc(alloc, 1, 0)?)?;
    slots.push(arc(alloc, 2, 2)?)?;
    slots.push(arc(alloc, 3, 0)?)?;
    slots.push(arc(alloc, 4, 3)?)?;
    let arcs = arcs_in(slots);
    Ok(match arcs.as_slice() {
        [first, second] => first.left == 2 && second.left == 4,
        _ => false,
    })
}

#[test]
fn faces_that_become_one(rt: HostRuntime) -> Result<(), Fail> {
    assert!(rt; fused(rt.alloc())?);
    Ok(())
}

#[test]
fn points_that_are_passed_on(rt: HostRuntime) -> Result<(), Fail> {
    assert!(rt; listed(rt.alloc())?);
    Ok(())
}

#[test]
fn arcs_that_are_gone(rt: HostRuntime) -> Result<(), Fail> {
    assert!(rt; closed_up(rt.alloc())?);
    Ok(())
}
