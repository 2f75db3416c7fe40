//! Records of windows: two squares seen in the right one, and two triangles seen at a vertex that comes back.

ghost use Rattle.std.specs.Prelude.{◌≡◌, ◌∷◌, [], IfOk, IsTrue};
ghost use Rattle.tgap_model.specs.WindowRecords.{whole_record};
ghost use Rattle.slice_forms.specs.SliceForms.{is_slice_row, is_window_step_row, has_room};
ghost use Rattle.client_replay_tests.specs.Trials.{right_slice, right_step, upper_step};

use crate::made::{Trial, only, points, right_slice, right_step, step_with};
use client_replay::{Unfit, apply_window};
use std::alloc::Global;
use std::test::Fail;
use tgap_model::{Edge, FaceRow, List, Memory, Or, Point, Slice, Window, WindowStep};

const RIGHT: Window = Window {
    x0: 12,
    y0: 2,
    x1: 30,
    y1: 4,
};

const MADE: FaceRow = FaceRow { face: 3, class: 0 };

const LOSER: FaceRow = FaceRow { face: 1, class: 0 };

const WINNER: FaceRow = FaceRow { face: 2, class: 0 };

const OUTSIDE: FaceRow = FaceRow { face: 0, class: 0 };

const CORNER: Point = Point { x: 0, y: 0 };

const VERTEX: Point = Point { x: 10, y: 0 };

const RING: [Point; 6] = [
    Point { x: 10, y: 10 },
    Point { x: 0, y: 10 },
    CORNER,
    Point { x: 20, y: 0 },
    Point { x: 20, y: 10 },
    Point { x: 10, y: 10 },
];

const RIGHT_HALF: [Point; 4] = [
    VERTEX,
    Point { x: 20, y: 0 },
    Point { x: 20, y: 10 },
    Point { x: 10, y: 10 },
];

/// Why a record is refused: the step and the rule, or two zeros where it is applied.
fn told(
    alloc: Global,
    slice: &mut Slice,
    area: Window,
    step: &WindowStep,
) -> Result<(u32, u8), Memory>
    requires slice { IsTrue (is_slice_row slice.old) }
    requires step { IsTrue (is_window_step_row step.now) }
    requires room { IsTrue (has_room slice.old (whole_record step.now ∷ [])) }
{
    match apply_window(alloc, slice, area, step) {
        Ok(()) => Ok((0, 0)),
        Err(Or::Fault(Unfit { step, rule })) => Ok((step, rule)),
        Err(Or::Memory) => Err(Memory),
    }
}

/// Whether it is this window, with one edge.
fn is_window(
    slice: &Slice,
    step: u32,
    faces: &[FaceRow],
    sides: (u32, u32, u32),
    points: &[Point],
) -> bool {
    let (key, left, right) = sides;
    match slice.edges.as_slice() {
        [edge] => {
            slice.step == step
                && slice.faces.as_slice() == faces
                && edge.key == key
                && edge.left == left
                && edge.right == right
                && edge.points.as_slice() == points
        }
        _ => false,
    }
}

/// What a trial in the right square is told, and whether its window is as it was.
fn tried(alloc: Global, trial: &Trial<'_>) -> Result<((u32, u8), bool), Memory>
    requires slice { IsTrue (is_slice_row (right_slice trial.now.at trial.now.faces.now)) }
    requires step { IsTrue (is_window_step_row (right_step trial.now.step trial.now.rows.now trial.now.key trial.now.put trial.now.side trial.now.twice)) }
    requires room { IsTrue (has_room (right_slice trial.now.at trial.now.faces.now) (whole_record (right_step trial.now.step trial.now.rows.now trial.now.key trial.now.put trial.now.side trial.now.twice) ∷ [])) }
{
    let mut slice = right_slice(alloc, trial.at, trial.faces)?;
    let step = right_step(alloc, trial)?;
    let told = told(alloc, &mut slice, RIGHT, &step)?;
    Ok((
        told,
        is_window(&slice, trial.at, trial.faces, (0, 3, 0), &RING),
    ))
}

#[test]
fn a_record_of_another_step(rt: HostRuntime) -> Result<(), Fail> {
    let trial = Trial {
        at: 1,
        faces: &[MADE],
        step: 2,
        rows: &[WINNER],
        key: 0,
        put: VERTEX,
        side: 1,
        twice: false,
    };
    assert_eq!(rt; tried(rt.alloc(), &trial)?, ((2, 1), true));
    Ok(())
}

#[test]
fn a_slice_before_the_step(rt: HostRuntime) -> Result<(), Fail> {
    let trial = Trial {
        at: 0,
        faces: &[MADE],
        step: 1,
        rows: &[WINNER],
        key: 0,
        put: VERTEX,
        side: 1,
        twice: false,
    };
    assert_eq!(rt; tried(rt.alloc(), &trial)?, ((1, 1), true));
    Ok(())
}

#[test]
fn a_loser_that_is_there(rt: HostRuntime) -> Result<(), Fail> {
    let trial = Trial {
        at: 1,
        faces: &[LOSER, MADE],
        step: 1,
        rows: &[WINNER],
        key: 0,
        put: VERTEX,
        side: 1,
        twice: false,
    };
    assert_eq!(rt; tried(rt.alloc(), &trial)?, ((1, 2), true));
    Ok(())
}

#[test]
fn a_mend_of_no_edge(rt: HostRuntime) -> Result<(), Fail> {
    let trial = Trial {
        at: 1,
        faces: &[MADE],
        step: 1,
        rows: &[WINNER],
        key: 1,
        put: VERTEX,
        side: 1,
        twice: false,
    };
    assert_eq!(rt; tried(rt.alloc(), &trial)?, ((1, 3), true));
    Ok(())
}

#[test]
fn a_vertex_beside_itself(rt: HostRuntime) -> Result<(), Fail> {
    let trial = Trial {
        at: 1,
        faces: &[MADE],
        step: 1,
        rows: &[WINNER],
        key: 0,
        put: CORNER,
        side: 1,
        twice: false,
    };
    assert_eq!(rt; tried(rt.alloc(), &trial)?, ((1, 4), true));
    Ok(())
}

#[test]
fn a_piece_of_another_face(rt: HostRuntime) -> Result<(), Fail> {
    let trial = Trial {
        at: 1,
        faces: &[MADE],
        step: 1,
        rows: &[WINNER],
        key: 0,
        put: VERTEX,
        side: 4,
        twice: false,
    };
    assert_eq!(rt; tried(rt.alloc(), &trial)?, ((1, 5), true));
    Ok(())
}

#[test]
fn a_row_of_the_outside(rt: HostRuntime) -> Result<(), Fail> {
    let trial = Trial {
        at: 1,
        faces: &[MADE],
        step: 1,
        rows: &[OUTSIDE, WINNER],
        key: 0,
        put: VERTEX,
        side: 1,
        twice: false,
    };
    assert_eq!(rt; tried(rt.alloc(), &trial)?, ((1, 6), true));
    Ok(())
}

#[test]
fn a_key_that_stands_twice(rt: HostRuntime) -> Result<(), Fail> {
    let trial = Trial {
        at: 1,
        faces: &[MADE],
        step: 1,
        rows: &[WINNER],
        key: 0,
        put: VERTEX,
        side: 1,
        twice: true,
    };
    assert_eq!(rt; tried(rt.alloc(), &trial)?, ((1, 7), true));
    Ok(())
}

#[test]
fn a_face_without_a_row(rt: HostRuntime) -> Result<(), Fail> {
    let trial = Trial {
        at: 1,
        faces: &[MADE],
        step: 1,
        rows: &[],
        key: 0,
        put: VERTEX,
        side: 1,
        twice: false,
    };
    assert_eq!(rt; tried(rt.alloc(), &trial)?, ((1, 8), true));
    Ok(())
}

/// The window in the right square after its record, applied with this area.
fn right_undone(alloc: Global, area: Window) -> Result<Slice, Memory> {
    let trial = Trial {
        at: 1,
        faces: &[MADE],
        step: 1,
        rows: &[WINNER],
        key: 0,
        put: VERTEX,
        side: 1,
        twice: false,
    };
    let mut slice = right_slice(alloc, 1, &[MADE])?;
    let step = right_step(alloc, &trial)?;
    told(alloc, &mut slice, area, &step)?;
    Ok(slice)
}

#[test]
fn the_right_square(rt: HostRuntime) -> Result<(), Fail> {
    let slice = right_undone(rt.alloc(), RIGHT)?;
    assert!(rt; is_window(&slice, 0, &[WINNER], (1, 2, 0), &RIGHT_HALF));
    Ok(())
}

/// Whether nothing is seen.
fn is_empty(slice: &Slice, step: u32) -> bool {
    slice.step == step && slice.faces.as_slice().is_empty() && slice.edges.as_slice().is_empty()
}

/// A record does not tell its window: with one that no piece meets nothing is left.
#[test]
fn an_area_of_another_packet(rt: HostRuntime) -> Result<(), Fail> {
    let far = Window {
        x0: 50,
        y0: 50,
        x1: 60,
        y1: 60,
    };
    let slice = right_undone(rt.alloc(), far)?;
    assert!(rt; is_empty(&slice, 0));
    Ok(())
}

/// The record by which a triangle comes whose highest vertex was not there.
fn triangle_that_comes(alloc: Global) -> Result<WindowStep, Memory>
    ensures { IfOk result (λ step. step ≡ upper_step) }
{
    let places = [Point { x: 6, y: 6 }, Point { x: 0, y: 12 }, CORNER];
    let points = points(alloc, &places)?;
    let edge = Edge {
        key: 1,
        left: 2,
        right: 0,
        points,
    };
    let comes = only(alloc, edge)?;
    step_with(alloc, 1, &[WINNER], List::new(alloc), comes)
}

/// The window at the vertex of a triangle after its record. It was empty before.
fn upper_undone(alloc: Global) -> Result<Slice, Memory> {
    let mut slice = Slice {
        step: 1,
        faces: List::new(alloc),
        edges: List::new(alloc),
    };
    let step = triangle_that_comes(alloc)?;
    let area = Window {
        x0: 0,
        y0: 8,
        x1: 2,
        y1: 12,
    };
    told(alloc, &mut slice, area, &step)?;
    Ok(slice)
}

#[test]
fn a_vertex_that_comes_back(rt: HostRuntime) -> Result<(), Fail> {
    let slice = upper_undone(rt.alloc())?;
    let points = [Point { x: 6, y: 6 }, Point { x: 0, y: 12 }, CORNER];
    assert!(rt; is_window(&slice, 0, &[WINNER], (1, 2, 0), &points));
    Ok(())
}
