//! Rings whose faces agree down each vertical line, and rings whose faces do not.

use crate::labelled::{segments_of, shown};
use planar_sweep::Shown;
use std::alloc::Global;
use std::process::Abort;
use std::test::Fail;
use tgap_model::{LabelledSegment, Memory};

/// The points of squares with level and upright sides, each counter-clockwise from its lower left corner.
fn squares(alloc: Global, corners: &[(i64, i64, i64)]) -> Result<Vec<(u32, i64, i64)>, Memory> {
    let mut rows = Vec::new(alloc);
    for (arc, (x, y, side)) in (0u32..).zip(corners.iter()) {
        let (right, top) = (x.saturating_add(*side), y.saturating_add(*side));
        for (u, v) in [(*x, *y), (right, *y), (right, top), (*x, top), (*x, *y)] {
            rows.push((arc, u, v))?;
        }
    }
    Ok(rows)
}

/// The same as segments, with the faces at the left and at the right of each square's border.
fn labelled(
    alloc: Global,
    corners: &[(i64, i64, i64)],
    faces: &[(u32, u32)],
) -> Result<Vec<LabelledSegment>, Memory> {
    let rows = squares(alloc, corners)?;
    let mut segments = segments_of(alloc, &rows)?;
    for segment in segments.iter_mut() {
        if let Some((left, right)) = faces.get(segment.arc as usize) {
            segment.left = *left;
            segment.right = *right;
        }
    }
    Ok(segments)
}

/// Compares what a sweep shows of the faces of squares, which are apart.
fn assert_faces(
    rt: &impl Abort,
    alloc: Global,
    corners: &[(i64, i64, i64)],
    faces: &[(u32, u32)],
    agree: bool,
) -> Result<(), Memory> {
    let segments = labelled(alloc, corners, faces)?;
    let found = shown(alloc, &segments)?;
    assert_eq!(rt; found, Some(Shown { apart: true, agree }));
    Ok(())
}

/// The corners of squares, and their sides.
type Corners = &'static [(i64, i64, i64)];

const ONE: Corners = &[(0, 0, 9)];

const INSIDE: Corners = &[(0, 0, 9), (3, 3, 3)];

const BESIDE: Corners = &[(0, 0, 9), (20, 3, 3), (20, 8, 3)];

/// Squares, the faces at the left and at the right of each one's border, and whether they agree.
const FACES: &[(Corners, &[(u32, u32)], bool)] = &[
    (&[], &[], true),
    (ONE, &[(1, 0)], true),
    (ONE, &[(1, 2)], false),
    (ONE, &[(0, 1)], false),
    (INSIDE, &[(1, 0), (2, 1)], true),
    (INSIDE, &[(1, 0), (2, 0)], false),
    (INSIDE, &[(1, 0), (1, 2)], false),
    (BESIDE, &[(1, 0), (2, 0), (3, 0)], true),
    (BESIDE, &[(1, 0), (2, 3), (3, 0)], false),
];

#[test]
fn faces_agree_down_each_line_or_not(rt: HostRuntime) -> Result<(), Fail> {
    for (corners, faces, agree) in FACES {
        assert_faces(&rt, rt.alloc(), corners, faces, *agree)?;
    }
    Ok(())
}

#[test]
fn nothing_is_shown_of_faces_where_segments_meet(rt: HostRuntime) -> Result<(), Fail> {
    let alloc = rt.alloc();
    let segments = labelled(alloc, &[(0, 0, 9), (5, 5, 9)], &[(1, 0), (1, 0)])?;
    let found = shown(alloc, &segments)?;
    let nothing = Shown {
        apart: false,
        agree: false,
    };
    assert_eq!(rt; found, Some(nothing));
    Ok(())
}
