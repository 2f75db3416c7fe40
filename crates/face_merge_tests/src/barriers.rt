//! Histories of three squares in a row, of classes 0, 1 and 2, by tables with barriers, worked out by hand.
use face_merge::history;
use std::alloc::Global;
use std::process::Abort;
use std::test::Fail;
use tgap_model::{Base, BaseArc, List, Memory, MergeStep, Point, Rules, Transform};

/// An arc of two points.
fn arc(
    alloc: Global,
    left: u32,
    right: u32,
    a: (i64, i64),
    b: (i64, i64),
) -> Result<BaseArc, Memory> {
    let points = [Point { x: a.0, y: a.1 }, Point { x: b.0, y: b.1 }];
    Ok(BaseArc {
        left,
        right,
        points: List::from(Vec::from_slice(alloc, &points)?),
    })
}

/// The arcs of the squares, 10 wide and 10 high, face 1 at the left.
fn arcs_of_squares(alloc: Global) -> Result<List<BaseArc>, Memory> {
    let mut arcs = List::new(alloc);
    for (left, right, a, b) in [
        (1, 0, (0, 10), (0, 0)),
        (1, 0, (0, 0), (10, 0)),
        (1, 0, (10, 10), (0, 10)),
        (1, 2, (10, 0), (10, 10)),
        (2, 0, (10, 0), (20, 0)),
        (2, 0, (20, 10), (10, 10)),
        (2, 3, (20, 0), (20, 10)),
        (3, 0, (20, 0), (30, 0)),
        (3, 0, (30, 10), (20, 10)),
        (3, 0, (30, 0), (30, 10)),
    ] {
        arcs.push(arc(alloc, left, right, a, b)?)?;
    }
    Ok(arcs)
}

/// The rules of three equally important classes, by a table of compatibilities.
fn rules_by(alloc: Global, compat: &[u32]) -> Result<Rules, Memory> {
    let weights = Vec::from_slice(alloc, &[1, 1, 1])?;
    let compat = Vec::from_slice(alloc, compat)?;
    Ok(Rules {
        ratio: 0,
        weights: List::from(weights),
        compat: List::from(compat),
    })
}

/// The squares, by a table of compatibilities.
fn squares(alloc: Global, compat: &[u32]) -> Result<Option<Base>, Memory> {
    let transform = Transform {
        sx: 1,
        sy: 1,
        tx: 0,
        ty: 0,
    };
    let classes = List::from(Vec::from_slice(alloc, &[0, 1, 2])?);
    let arcs = arcs_of_squares(alloc)?;
    Ok(Base::new(transform, rules_by(alloc, compat)?, classes, arcs))
}

/// The history of the squares, by a table of compatibilities.
fn history_by(alloc: Global, compat: &[u32]) -> Result<List<MergeStep>, Memory> {
    match squares(alloc, compat)? {
        Some(base) => history(alloc, &base),
        None => Err(Memory),
    }
}

/// The steps of these rows: the loser, the winner and the face that is made.
fn steps_of(alloc: Global, rows: &[(u32, u32, u32)]) -> Result<List<MergeStep>, Memory> {
    let mut steps = List::new(alloc);
    for (loser, winner, made) in rows {
        steps.push(MergeStep {
            loser: *loser,
            winner: *winner,
            made: *made,
        })?;
    }
    Ok(steps)
}

/// Compares the history of the squares by a table of compatibilities with the steps of these rows.
fn assert_history(
    rt: &impl Abort,
    alloc: Global,
    compat: &[u32],
    rows: &[(u32, u32, u32)],
) -> Result<(), Memory> {
    let found = history_by(alloc, compat)?;
    let expected = steps_of(alloc, rows)?;
    assert_eq!(rt; found.as_slice(), expected.as_slice(), "by {compat:?}");
    Ok(())
}

/// Tables of compatibilities, and the steps that each makes: the loser, the winner and the face that is made.
const HISTORIES: &[([u32; 9], &[(u32, u32, u32)])] = &[
    // no barrier: 1 loses first, by its number, and 3 is less than the face of 1 and 2
    ([1, 1, 1, 1, 1, 1, 1, 1, 1], &[(1, 2, 4), (3, 4, 5)]),
    // no class suits another: the history ends at once
    ([5, 0, 0, 0, 5, 0, 0, 0, 5], &[]),
    // 1 may go nowhere, so 2 loses, though its number is the greater
    ([0, 0, 0, 1, 0, 0, 0, 0, 0], &[(2, 1, 4)]),
    // the same table across its diagonal: 1 goes to 2
    ([0, 1, 0, 0, 0, 0, 0, 0, 0], &[(1, 2, 4)]),
    // 2 would go to 1 rather than to 3 by its number, but only 3 is permitted
    ([0, 0, 0, 0, 0, 1, 0, 0, 0], &[(2, 3, 4)]),
    // 3 does not go to 2, but it goes to what 2 becomes
    ([0, 0, 0, 1, 0, 0, 1, 0, 0], &[(2, 1, 4), (3, 4, 5)]),
    // 3 would go to 2, but not to what 2 becomes
    ([0, 0, 0, 1, 0, 0, 0, 1, 0], &[(2, 1, 4)]),
    // the new face goes to 3 by the class of its winner, and 3 goes nowhere
    ([0, 0, 1, 1, 0, 0, 0, 0, 0], &[(2, 1, 4), (4, 3, 5)]),
];

#[test]
fn barriers_between_squares(rt: HostRuntime) -> Result<(), Fail> {
    for (compat, rows) in HISTORIES {
        assert_history(&rt, rt.alloc(), compat, rows)?;
    }
    Ok(())
}
