//! Edits that are refused, each with the cause that comes first.

use crate::maps::{Edit, Outcome, Rows, gives};
use std::alloc::Global;
use std::process::Abort;
use std::test::Fail;

/// Two squares side by side.
const TWO: Rows<'static> = Rows {
    classes: &[1, 2],
    arcs: &[
        &[1, 0, 10, 10, 0, 10, 0, 0, 10, 0],
        &[2, 0, 10, 0, 20, 0, 20, 10, 10, 10],
        &[1, 2, 10, 0, 10, 10],
    ],
};

/// A square in a square.
const NESTED: Rows<'static> = Rows {
    classes: &[0, 0],
    arcs: &[
        &[1, 0, 0, 0, 30, 0, 30, 30, 0, 30, 0, 0],
        &[2, 1, 10, 10, 20, 10, 20, 20, 10, 20, 10, 10],
    ],
};

/// An arc that is the whole border of two faces.
const SHEET: Rows<'static> = Rows {
    classes: &[0, 0],
    arcs: &[&[1, 2, 0, 0, 10, 0, 0, 10, 0, 0]],
};

/// Compares the cause for which each of some edits of a map is refused.
fn assert_refused(
    rt: &impl Abort,
    alloc: Global,
    rows: Rows<'_>,
    edits: &[(Edit<'_>, u8)],
) -> Result<(), Fail> {
    for (edit, cause) in edits {
        let refused = gives(alloc, rows, &[*edit], Outcome::Refused(*cause))?;
        assert!(rt; refused, "cause {cause}");
    }
    Ok(())
}

#[test]
fn nodes(rt: HostRuntime) -> Result<(), Fail> {
    let edits = [
        (Edit::Node(5, 5), 3),
        (Edit::Node(10, 5), 3),
        (Edit::Node(10, 0), 6),
        (Edit::Node(10, 10), 6),
    ];
    assert_refused(&rt, rt.alloc(), TWO, &edits)
}

#[test]
fn cuts(rt: HostRuntime) -> Result<(), Fail> {
    let edits = [
        // no face 0 or 3, and no class 3
        (Edit::Cut(0, 0, &[10, 0, 10, 10]), 2),
        (Edit::Cut(3, 0, &[10, 0, 10, 10]), 2),
        (Edit::Cut(4_294_967_295, 0, &[10, 0, 10, 10]), 2),
        (Edit::Cut(1, 3, &[10, 0, 10, 10]), 2),
        (Edit::Cut(1, 3, &[10, 0, 10, 0]), 2),
        // a point twice, the first point as the last one, and an inner point that is one of the map
        (Edit::Cut(1, 0, &[10, 0, 5, 5, 5, 5, 10, 10]), 10),
        (Edit::Cut(1, 0, &[10, 0, 5, 5, 10, 0]), 10),
        (Edit::Cut(1, 0, &[10, 0, 0, 0, 10, 10]), 10),
        (Edit::Cut(1, 0, &[5, 5, 5, 5]), 10),
        // an end that is no node or no point of the map, a direction along an arc, and one into another face
        (Edit::Cut(1, 0, &[0, 0, 10, 10]), 9),
        (Edit::Cut(1, 0, &[10, 10, 5, 5]), 9),
        (Edit::Cut(1, 0, &[10, 0, 5, 0, 10, 10]), 9),
        (Edit::Cut(1, 0, &[10, 0, 5, 10, 10, 10]), 9),
        (Edit::Cut(1, 0, &[10, 0, 15, 5, 10, 10]), 9),
        (Edit::Cut(1, 0, &[10, 0, 5, 5, 5, 15, 10, 10]), 9),
    ];
    assert_refused(&rt, rt.alloc(), TWO, &edits)
}

#[test]
fn cuts_between_rings(rt: HostRuntime) -> Result<(), Fail> {
    let edits = [
        (Edit::Cut(1, 0, &[0, 0, 10, 10]), 12),
        (Edit::Cut(1, 0, &[10, 10, 0, 0]), 12),
    ];
    assert_refused(&rt, rt.alloc(), NESTED, &edits)
}

#[test]
fn fusions(rt: HostRuntime) -> Result<(), Fail> {
    let edits = [
        (Edit::Fuse(0, 1), 2),
        (Edit::Fuse(1, 0), 2),
        (Edit::Fuse(3, 1), 2),
        (Edit::Fuse(1, 3), 2),
        (Edit::Fuse(3, 3), 2),
        (Edit::Fuse(1, 1), 13),
        (Edit::Fuse(2, 2), 13),
    ];
    assert_refused(&rt, rt.alloc(), TWO, &edits)
}

#[test]
fn fusions_of_all(rt: HostRuntime) -> Result<(), Fail> {
    let edits = [(Edit::Fuse(1, 2), 14), (Edit::Fuse(2, 1), 14)];
    assert_refused(&rt, rt.alloc(), SHEET, &edits)
}
