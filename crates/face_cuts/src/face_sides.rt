//! All sides by their faces.

ghost use Rattle.std.specs.Prelude.{◌≡◌, ◌≤◌, ◌^◌, ◌==◌, IfOk, length, map, filter};
ghost use Rattle.std.specs.List.Sorted.{IsSortedBy};
ghost use Rattle.ring_walk.specs.Spans.{IsSide};
ghost use Rattle.face_cuts.specs.NodeTables.{AreByFace, face_before, face_side};

use ring_walk::{Side, Span};
use std::alloc::Global;
use tgap_model::Memory;

/// A side with its face.
#[derive(Clone, Copy)]
pub struct FaceSide {
    pub face: u32,
    pub side: Side,
}

/// A side with its face.
fn face_side(spans: &[Span], side: Side) -> FaceSide
    requires { IsSide (length spans.now) side }
    ensures { result ≡ face_side spans.now side }
{
    FaceSide {
        face: spans[side.span as usize].face(side.way),
        side,
    }
}

/// All sides by their faces, and those of one face in the order of their numbers.
pub fn sides_by_face(alloc: Global, spans: &[Span]) -> Result<Vec<FaceSide>, Memory>
    requires { length spans.now ≤ 2 ^ 32 }
    ensures { IfOk result (λ rows. AreByFace spans.now rows.items) }
{
    let count = 2 * spans.len();
    let mut rows = Vec::with_capacity(alloc, count)?;
    for number in 0..count {
        rows.push(face_side(spans, Side::numbered(number)))?;
    }
    rows.sort_by_key(|row| row.face)?;
    Ok(rows)
}

/// The sides of a face. It takes a search by halves, and one look at each of them.
pub fn sides_of_face(alloc: Global, rows: &[FaceSide], face: u32) -> Result<Vec<Side>, Memory>
    requires { IsSortedBy face_before rows.now }
    ensures { IfOk result (λ found. found.items ≡ map (λ row. row.side) (filter (λ row. row.face == face) rows.now)) }
{
    let mut found = Vec::new(alloc);
    let first = rows.partition_point(|row| row.face < face);
    for place in first..rows.len() {
        if rows[place].face != face {
            return Ok(found);
        }
        found.push(rows[place].side)?;
    }
    Ok(found)
}
