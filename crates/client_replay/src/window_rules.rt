//! The rules of a record of a window against the window of a slice that speak of it as it is: the first six.

ghost use Rattle.std.specs.Prelude.{◌≡◌, ◌&&◌, ◌==◌, not};
ghost use Rattle.std.specs.BTreeMap.{IsOrdered};
ghost use Rattle.std.specs.Ordering.{nat_cmp};
ghost use Rattle.std.specs.List.{list_all, list_any};
ghost use Rattle.tgap_model.specs.WindowRecords.{fits_faces_in, fits_comes};
ghost use Rattle.client_replay.specs.Windows.{mending_of, broken_before_in};
ghost use Rattle.client_replay.specs.Working.{rows_of, slice_of};

use crate::faces::has_face;
use crate::order::{edges_ascend, faces_ascend};
use crate::pieces::fits_pieces;
use crate::puts::fits_puts;
use crate::rules::{are_three, fits_mends, fits_step};
use crate::working::Working;
use std::collections::BTreeMap;
use tgap_model::{FaceRow, StepRecord, WindowStep};

/// Rule 2: whether the slice has neither loser nor winner, and the three faces differ and are no outside.
fn fits_faces_in(working: &Working, step: &WindowStep) -> bool
    ensures { result ≡ fits_faces_in (slice_of working.now) step.now }
{
    !has_face(&working.faces, step.loser)
        && !has_face(&working.faces, step.winner)
        && are_three(step.loser, step.winner, step.made)
}

/// Whether the row is of a face that is not the outside and not among these.
fn is_new(faces: &BTreeMap<u32, u32>, row: FaceRow) -> bool
    ensures { result ≡ (not (row.face == 0) && not (list_any (λ f. f.face == row.face) (rows_of faces.now.entries))) }
{
    row.face != 0 && !has_face(faces, row.face)
}

/// Whether each row is of a face that is not the outside and not among these.
fn are_new(faces: &BTreeMap<u32, u32>, rows: &[FaceRow]) -> bool
    ensures { result ≡ list_all (λ row. not (row.face == 0) && not (list_any (λ f. f.face == row.face) (rows_of faces.now.entries))) rows.now }
{
    for row in rows {
        if !is_new(faces, *row) {
            return false;
        }
    }
    true
}

/// Rule 6: whether the keys of the edges that come ascend, and the numbers of the faces, which are new.
fn fits_comes(working: &Working, step: &WindowStep) -> bool
    ensures { result ≡ fits_comes (slice_of working.now) step.now }
{
    let rows = step.faces.as_slice();
    edges_ascend(step.comes.as_slice()) && faces_ascend(rows) && are_new(&working.faces, rows)
}

/// The least of the first six rules that the record breaks, where it breaks one. The record of a whole slice is the one that
/// mends as it does.
pub fn broken_before_in(
    working: &Working,
    step: &WindowStep,
    step_record: &StepRecord,
) -> Option<u8>
    requires same { step_record.now ≡ mending_of step.now }
    ensures { result ≡ broken_before_in (slice_of working.now) step.now }
{
    if !fits_step(working, step_record) {
        Some(1)
    } else if !fits_faces_in(working, step) {
        Some(2)
    } else if !fits_mends(working, step_record) {
        Some(3)
    } else if !fits_puts(working, step_record) {
        Some(4)
    } else if !fits_pieces(working, step_record) {
        Some(5)
    } else if !fits_comes(working, step) {
        Some(6)
    } else {
        None
    }
}
