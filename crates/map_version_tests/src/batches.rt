//! Batches of edits, and the first fault of each.

use crate::squares::{boxed, column, one_arc, points_of, sides_of, squares, two_rings};
use map_version::{EditFault, edited};
use std::alloc::Global;
use std::process::Abort;
use std::test::Fail;
use tgap_model::{Base, Memory, Or, Point};

/// The map after a batch, or its first fault.
fn after(alloc: Global, base: &Base, batch: &[u8]) -> Result<Box<Base>, Or<EditFault>> {
    Ok(boxed(alloc, edited(alloc, base, batch)?)?)
}

/// The first fault of a batch, by its line and its cause; 0 and 0 where it has none.
fn fault_of(alloc: Global, base: &Base, batch: &[u8]) -> Result<(u32, u8), Memory> {
    match after(alloc, base, batch) {
        Ok(_) => Ok((0, 0)),
        Err(Or::Fault(EditFault { line, cause })) => Ok((line, cause)),
        Err(Or::Memory) => Err(Memory),
    }
}

/// The map of the two squares, with the arc between them through these points.
fn boxed_squares(alloc: Global, between: &[(i64, i64)]) -> Result<Box<Base>, Memory> {
    match squares(alloc, between)? {
        Some(base) => boxed(alloc, base),
        None => Err(Memory),
    }
}

/// A straight arc between the squares.
const STRAIGHT: [(i64, i64); 2] = [(10, 0), (10, 10)];

/// Compares the points of an arc of a map, and its classes.
fn assert_map(rt: &impl Abort, base: &Base, arc: usize, points: &[Point], classes: &[u32]) {
    assert_eq!(rt; points_of(base, arc), points);
    assert_eq!(rt; base.classes().as_slice(), classes);
}

/// The arc round the left square.
const LEFT: [Point; 4] = [
    Point { x: 10, y: 10 },
    Point { x: 0, y: 10 },
    Point { x: 0, y: 0 },
    Point { x: 10, y: 0 },
];

/// The arc round the right square.
const RIGHT: [Point; 4] = [
    Point { x: 10, y: 0 },
    Point { x: 20, y: 0 },
    Point { x: 20, y: 10 },
    Point { x: 10, y: 10 },
];

/// The arc round the right square, whose upper right corner was moved.
const RIGHT_MOVED: [Point; 4] = [
    Point { x: 10, y: 0 },
    Point { x: 20, y: 0 },
    Point { x: 24, y: 10 },
    Point { x: 10, y: 10 },
];

/// Moves one point of the squares, and compares the arcs round them.
fn assert_moved(rt: &impl Abort, alloc: Global, base: &Base) -> Result<(), Or<EditFault>> {
    let moved = after(alloc, base, b"move 20 10 24 10\n")?;
    assert_map(rt, &moved, 1, &RIGHT_MOVED, &[0, 1]);
    assert_map(rt, &moved, 0, &LEFT, &[0, 1]);
    assert_map(rt, base, 0, &LEFT, &[0, 1]);
    Ok(())
}

#[test]
fn one_point_is_moved(rt: HostRuntime) -> Result<(), Fail> {
    let base = boxed_squares(rt.alloc(), &STRAIGHT)?;
    Ok(assert_moved(&rt, rt.alloc(), &base)?)
}

/// Applies lines that change what earlier ones made, and compares the arc between the squares.
fn assert_lines(rt: &impl Abort, alloc: Global, base: &Base) -> Result<(), Or<EditFault>> {
    let batch =
        b"add 10 10 10 0 11 5\nclass 2 0\nmove 10 0 9 0\nmove 11 5 12 5\nadd 12 5 9 0 11 1\ndrop 12 5\n";
    let expected = [
        Point { x: 9, y: 0 },
        Point { x: 11, y: 1 },
        Point { x: 10, y: 10 },
    ];
    let made = after(alloc, base, batch)?;
    assert_map(rt, &made, 2, &expected, &[0, 0]);
    Ok(())
}

#[test]
fn each_line_sees_the_lines_before_it(rt: HostRuntime) -> Result<(), Fail> {
    let base = boxed_squares(rt.alloc(), &STRAIGHT)?;
    Ok(assert_lines(&rt, rt.alloc(), &base)?)
}

/// The two squares as a map whose arcs others can hold.
fn shared_squares(alloc: Global) -> Result<Box<Base>, Memory> {
    match squares(alloc, &STRAIGHT)? {
        Some(base) => boxed(alloc, base.into_shared(alloc)?),
        None => Err(Memory),
    }
}

/// Changes a point of the second map, and compares the three maps that there are then.
fn assert_kept(
    rt: &impl Abort,
    alloc: Global,
    first: &Base,
    second: &Base,
) -> Result<(), Or<EditFault>> {
    let third = after(alloc, second, b"move 20 10 24 10\n")?;
    assert_map(rt, first, 1, &RIGHT, &[0, 1]);
    assert_map(rt, second, 1, &RIGHT, &[0, 0]);
    assert_map(rt, &third, 1, &RIGHT_MOVED, &[0, 0]);
    Ok(())
}

/// Changes a class of the first map, so that the second map holds its arcs too, and then a point of the second one.
fn assert_both_kept(rt: &impl Abort, alloc: Global, first: &Base) -> Result<(), Or<EditFault>> {
    let second = after(alloc, first, b"class 2 0\n")?;
    assert_kept(rt, alloc, first, &second)
}

#[test]
fn a_map_keeps_the_arcs_that_a_later_batch_changes(rt: HostRuntime) -> Result<(), Fail> {
    let first = shared_squares(rt.alloc())?;
    Ok(assert_both_kept(&rt, rt.alloc(), &first)?)
}

/// Batches, and the line and the cause of the first fault of each.
const FAULTS: &[(&[u8], (u32, u8))] = &[
    (b"", (0, 0)),
    (b"move 5 5 6 6\n", (1, 3)),
    (b"move 20 10 24 10", (1, 1)),
    (b"class 1 1\nclass 3 0\n", (2, 2)),
    (b"move 20 10 0 0\n", (1, 4)),
    (b"add 0 0 20 0 5 5\n", (1, 5)),
    (b"drop 10 0\n", (1, 6)),
    (b"class 1 -0\n", (1, 1)),
    (b"move 20 10 2147483649 10\n", (1, 1)),
    (b"drop 0 0\ndrop 0 0\n", (2, 3)),
    (b"node 20 5\n", (1, 3)),
    (b"node 10 0\n", (1, 6)),
    (b"cut 3 0 2 10 0 10 10\n", (1, 2)),
    (b"cut 1 2 2 10 0 10 10\n", (1, 2)),
    (b"cut 1 0 1 10 0\n", (1, 1)),
    (b"cut 1 0 02 10 0 10 10\n", (1, 1)),
    (b"cut 1 0 2 10 0 10 10 1\n", (1, 1)),
    (b"cut 1 0 3 10 0 5 5 10 0\n", (1, 10)),
    (b"cut 1 0 3 10 0 20 0 10 10\n", (1, 10)),
    (b"cut 1 0 2 0 0 10 10\n", (1, 9)),
    (b"cut 1 0 2 10 0 10 10\n", (1, 9)),
    (b"node 0 0\ncut 2 0 2 0 0 10 10\n", (2, 9)),
    (b"fuse 1 3\n", (1, 2)),
    (b"fuse 0 1\n", (1, 2)),
    (b"fuse 1 1\n", (1, 13)),
    (b"fuse 1 2\nfuse 1 2\n", (2, 2)),
];

/// Compares the first fault of each batch.
fn assert_faults(rt: &impl Abort, alloc: Global, base: &Base) -> Result<(), Memory> {
    for (batch, fault) in FAULTS {
        assert_eq!(rt; fault_of(alloc, base, batch)?, *fault);
    }
    Ok(())
}

#[test]
fn the_first_fault_is_told(rt: HostRuntime) -> Result<(), Fail> {
    let base = boxed_squares(rt.alloc(), &STRAIGHT)?;
    Ok(assert_faults(&rt, rt.alloc(), &base)?)
}

/// The first fault of a batch, where so many points are between the squares.
fn fault_of_one_more(alloc: Global, between: u32, batch: &[u8]) -> Result<(u32, u8), Memory> {
    let points = column(alloc, between)?;
    let base = boxed_squares(alloc, points.as_slice())?;
    fault_of(alloc, &base, batch)
}

#[test]
fn a_map_of_the_greatest_number_of_points_takes_no_more(rt: HostRuntime) -> Result<(), Fail> {
    // The two squares have eight points beside those between them.
    for (between, batch, fault) in [
        (524_279, b"add 10 0 10 1 11 0\n".as_slice(), (0, 0)),
        (524_280, b"add 10 0 10 1 11 0\n".as_slice(), (1, 8)),
        (524_280, b"node 0 0\n".as_slice(), (1, 11)),
    ] {
        assert_eq!(rt; fault_of_one_more(rt.alloc(), between, batch)?, fault);
    }
    Ok(())
}

/// The fault of a batch for a map that may be none.
fn fault_on(alloc: Global, base: Option<Base>, batch: &[u8]) -> Result<(u32, u8), Memory> {
    match base {
        Some(base) => fault_of(alloc, &base, batch),
        None => Ok((0, 0)),
    }
}

#[test]
fn a_walk_that_does_not_arrive_and_a_last_border_are_told(rt: HostRuntime) -> Result<(), Fail> {
    let alloc = rt.alloc();
    let cut = b"cut 1 0 4 0 0 5 5 25 5 20 0\n";
    assert_eq!(rt; fault_on(alloc, two_rings(alloc)?, cut)?, (1, 12));
    assert_eq!(rt; fault_on(alloc, one_arc(alloc)?, b"fuse 1 2\n")?, (1, 14));
    Ok(())
}

/// Compares an arc of a map: its sides and its points.
fn assert_arc(rt: &impl Abort, base: &Base, arc: usize, sides: (u32, u32), points: &[Point]) {
    assert_eq!(rt; sides_of(base, arc), sides);
    assert_eq!(rt; points_of(base, arc), points);
}

/// The arc round the left square up to its lower left corner, and the rest of it.
const UPPER_LEFT: [Point; 3] = [
    Point { x: 10, y: 10 },
    Point { x: 0, y: 10 },
    Point { x: 0, y: 0 },
];

const LOWER: [Point; 2] = [Point { x: 0, y: 0 }, Point { x: 10, y: 0 }];

/// Cuts the left square from its lower left corner to its upper right one.
fn assert_cut(rt: &impl Abort, alloc: Global, base: &Base) -> Result<(), Or<EditFault>> {
    let cut = after(alloc, base, b"node 0 0\ncut 1 1 2 0 0 10 10\n")?;
    assert_arc(rt, &cut, 0, (3, 0), &UPPER_LEFT);
    assert_arc(rt, &cut, 3, (1, 0), &LOWER);
    assert_arc(
        rt,
        &cut,
        4,
        (3, 1),
        &[Point { x: 0, y: 0 }, Point { x: 10, y: 10 }],
    );
    assert_map(rt, &cut, 1, &RIGHT, &[0, 1, 1]);
    Ok(())
}

#[test]
fn a_face_is_cut(rt: HostRuntime) -> Result<(), Fail> {
    let base = boxed_squares(rt.alloc(), &STRAIGHT)?;
    Ok(assert_cut(&rt, rt.alloc(), &base)?)
}

/// Fuses the parts of a square that was cut, and the square with the other one, which is the last face then.
fn assert_fused(rt: &impl Abort, alloc: Global, base: &Base) -> Result<(), Or<EditFault>> {
    let whole = after(alloc, base, b"node 0 0\ncut 1 1 2 0 0 10 10\nfuse 1 3\n")?;
    assert_arc(rt, &whole, 0, (1, 0), &UPPER_LEFT);
    assert_arc(rt, &whole, 3, (1, 0), &LOWER);
    assert_map(rt, &whole, 4, &[], &[0, 1]);
    let other = after(alloc, base, b"node 0 0\ncut 1 1 2 0 0 10 10\nfuse 1 2\n")?;
    assert_arc(rt, &other, 0, (2, 0), &UPPER_LEFT);
    assert_arc(rt, &other, 1, (1, 0), &RIGHT);
    assert_arc(rt, &other, 2, (1, 0), &LOWER);
    assert_map(rt, &other, 4, &[], &[0, 1]);
    Ok(())
}

#[test]
fn faces_are_fused_and_the_last_one_takes_the_free_number(rt: HostRuntime) -> Result<(), Fail> {
    let base = boxed_squares(rt.alloc(), &STRAIGHT)?;
    Ok(assert_fused(&rt, rt.alloc(), &base)?)
}

/// A node at the lower left corner, and so often a cut from there and its fusion.
fn cuts_taken_back(alloc: Global, times: u32) -> Result<Vec<u8>, Memory> {
    let mut batch = Vec::from_slice(alloc, b"node 0 0\n")?;
    for _ in 0..times {
        batch.extend_from_slice(b"cut 1 1 2 0 0 10 10\nfuse 1 3\n")?;
    }
    Ok(batch)
}

/// Cuts a square and fuses its parts so often that the places of points are listed anew some times.
fn assert_taken_back(rt: &impl Abort, alloc: Global, base: &Base) -> Result<(), Or<EditFault>> {
    let batch = cuts_taken_back(alloc, 20)?;
    let whole = after(alloc, base, batch.as_slice())?;
    assert_arc(rt, &whole, 0, (1, 0), &UPPER_LEFT);
    assert_arc(rt, &whole, 3, (1, 0), &LOWER);
    assert_map(rt, &whole, 4, &[], &[0, 1]);
    Ok(())
}

#[test]
fn a_cut_is_taken_back_again_and_again(rt: HostRuntime) -> Result<(), Fail> {
    let base = boxed_squares(rt.alloc(), &STRAIGHT)?;
    Ok(assert_taken_back(&rt, rt.alloc(), &base)?)
}

/// Applies all seven lines: some name points of an arc that was split and of one that is new.
fn assert_all_lines(rt: &impl Abort, alloc: Global, base: &Base) -> Result<(), Or<EditFault>> {
    let batch =
        b"node 0 0\ncut 1 1 3 0 0 5 6 10 10\nmove 5 6 6 7\nadd 0 0 6 7 2 3\nmove 0 0 -1 0\ndrop 0 10\nclass 3 0\nfuse 2 1\n";
    let made = after(alloc, base, batch)?;
    let new = [
        Point { x: -1, y: 0 },
        Point { x: 2, y: 3 },
        Point { x: 6, y: 7 },
        Point { x: 10, y: 10 },
    ];
    assert_arc(
        rt,
        &made,
        0,
        (1, 0),
        &[Point { x: 10, y: 10 }, Point { x: -1, y: 0 }],
    );
    assert_arc(
        rt,
        &made,
        2,
        (2, 0),
        &[Point { x: -1, y: 0 }, Point { x: 10, y: 0 }],
    );
    assert_arc(rt, &made, 3, (1, 2), &new);
    assert_map(rt, &made, 1, &RIGHT, &[0, 1]);
    Ok(())
}

#[test]
fn lines_of_all_forms_see_the_lines_before_them(rt: HostRuntime) -> Result<(), Fail> {
    let base = boxed_squares(rt.alloc(), &STRAIGHT)?;
    Ok(assert_all_lines(&rt, rt.alloc(), &base)?)
}
