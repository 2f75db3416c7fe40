//! Windows and records that are applied to them.

ghost use Rattle.std.specs.Prelude.{◌≡◌, [], ◌∷◌, if◌then◌else◌, IfOk};
ghost use Rattle.client_replay_tests.specs.Trials.{ring_points, right_slice, ring_mends, twin, step_with, right_step};

use std::alloc::Global;
use tgap_model::{Edge, FaceRow, List, Memory, Mend, Piece, Point, Put, Slice, WindowStep};

/// These points as a list.
pub fn points(alloc: Global, points: &[Point]) -> Result<List<Point>, Memory>
    ensures { IfOk result (λ list. list ≡ points.now) }
{
    Ok(List::from(Vec::from_slice(alloc, points)?))
}

/// These rows as a list.
fn rows(alloc: Global, rows: &[FaceRow]) -> Result<List<FaceRow>, Memory>
    ensures { IfOk result (λ list. list ≡ rows.now) }
{
    Ok(List::from(Vec::from_slice(alloc, rows)?))
}

/// A list of this edge alone.
pub fn only(alloc: Global, edge: Edge) -> Result<List<Edge>, Memory>
    ensures { IfOk result (λ list. list ≡ edge ∷ []) }
{
    let mut edges = List::new(alloc);
    edges.push(edge)?;
    Ok(edges)
}

/// The ring round both squares.
fn ring(alloc: Global) -> Result<List<Point>, Memory>
    ensures { IfOk result (λ list. list ≡ ring_points) }
{
    let ring = [
        Point { x: 10, y: 10 },
        Point { x: 0, y: 10 },
        Point { x: 0, y: 0 },
        Point { x: 20, y: 0 },
        Point { x: 20, y: 10 },
        Point { x: 10, y: 10 },
    ];
    points(alloc, &ring)
}

/// The window in the right square, with these faces.
pub fn right_slice(alloc: Global, step: u32, faces: &[FaceRow]) -> Result<Slice, Memory>
    ensures { IfOk result (λ slice. slice ≡ right_slice step faces.now) }
{
    let points = ring(alloc)?;
    let edge = Edge {
        key: 0,
        left: 3,
        right: 0,
        points,
    };
    let edges = only(alloc, edge)?;
    Ok(Slice {
        step,
        faces: rows(alloc, faces)?,
        edges,
    })
}

/// The mend of the ring.
fn ring_mends(alloc: Global, key: u32, point: Point, side: u32) -> Result<List<Mend>, Memory>
    ensures { IfOk result (λ mends. mends ≡ ring_mends key point side) }
{
    let puts = Vec::from_slice(alloc, &[Put { at: 3, point }])?;
    let first = Piece {
        key: 0,
        last: 3,
        side,
        turned: false,
    };
    let second = Piece {
        key: 1,
        last: 6,
        side: 2,
        turned: false,
    };
    let pieces = Vec::from_slice(alloc, &[first, second])?;
    let mut mends = List::new(alloc);
    mends.push(Mend {
        key,
        puts: List::from(puts),
        pieces: List::from(pieces),
    })?;
    Ok(mends)
}

/// An edge with the key of the second piece, or none.
fn twins(alloc: Global, twice: bool) -> Result<List<Edge>, Memory>
    ensures { IfOk result (λ edges. edges ≡ (if twice then twin ∷ [] else [])) }
{
    if !twice {
        return Ok(List::new(alloc));
    }
    let points = points(alloc, &[Point { x: 10, y: 0 }, Point { x: 20, y: 0 }])?;
    let edge = Edge {
        key: 1,
        left: 2,
        right: 0,
        points,
    };
    only(alloc, edge)
}

/// The record of a step by which the face 3 becomes 1 and 2.
pub fn step_with(
    alloc: Global,
    step: u32,
    faces: &[FaceRow],
    mends: List<Mend>,
    comes: List<Edge>,
) -> Result<WindowStep, Memory>
    ensures { IfOk result (λ made. made ≡ step_with step faces.now mends comes) }
{
    let faces = rows(alloc, faces)?;
    Ok(WindowStep {
        step,
        loser: 1,
        winner: 2,
        made: 3,
        faces,
        mends,
        comes,
    })
}

/// What a trial changes of the window in the right square and of its record.
#[derive(Clone, Copy)]
pub struct Trial<'a> {
    /// The step of the window.
    pub at: u32,
    /// The faces of the window.
    pub faces: &'a [FaceRow],
    /// The step of the record.
    pub step: u32,
    /// The rows of the record.
    pub rows: &'a [FaceRow],
    /// The key of the mend.
    pub key: u32,
    /// The vertex that is put in.
    pub put: Point,
    /// The side of the first piece.
    pub side: u32,
    /// Whether an edge comes that has the key of a piece.
    pub twice: bool,
}

/// The record of a trial.
pub fn right_step(alloc: Global, trial: &Trial<'_>) -> Result<WindowStep, Memory>
    ensures { IfOk result (λ made. made ≡ right_step trial.now.step trial.now.rows.now trial.now.key trial.now.put trial.now.side trial.now.twice) }
{
    let mends = ring_mends(alloc, trial.key, trial.put, trial.side)?;
    let comes = twins(alloc, trial.twice)?;
    step_with(alloc, trial.step, trial.rows, mends, comes)
}
