//! The rules of a record against a slice that speak of the slice as it is: the first six.

ghost use Rattle.std.specs.Prelude.{◌≡◌, ◌&&◌, ◌||◌, ◌==◌, not};
ghost use Rattle.std.specs.BTreeMap.{IsOrdered};
ghost use Rattle.std.specs.Ordering.{nat_cmp};
ghost use Rattle.std.specs.List.{list_all};
ghost use Rattle.tgap_model.specs.declared.slice.Slice.{Slice};
ghost use Rattle.tgap_model.specs.Records.{fits_step, fits_faces, fits_mends, fits_ended, is_edge_between};
ghost use Rattle.client_replay.specs.Working.{slice_of};
ghost use Rattle.client_replay.specs.Rules.{has_made, has_faces, are_apart, are_faces, names_edge, broken_before};

use crate::faces::{has_face, has_row};
use crate::order::{edges_ascend, mends_ascend};
use crate::pieces::fits_pieces;
use crate::puts::fits_puts;
use crate::working::Working;
use tgap_model::{Edge, Mend, StepRecord};

/// Rule 1: whether the step is the slice's, and at least 1.
pub fn fits_step(working: &Working, step_record: &StepRecord) -> bool
    ensures { result ≡ fits_step (slice_of working.now) step_record.now }
{
    working.step == step_record.step && 1 <= step_record.step
}

/// Whether the slice has the new face, with the class of the winner.
fn has_made(working: &Working, step_record: &StepRecord) -> bool
    requires { IsOrdered nat_cmp working.now.faces }
    ensures { result ≡ has_made (slice_of working.now) step_record.now }
{
    has_row(&working.faces, step_record.made, step_record.winner_class)
}

/// Whether the slice has the new face, with the class of the winner, and neither loser nor winner.
fn has_faces(working: &Working, step_record: &StepRecord) -> bool
    requires { IsOrdered nat_cmp working.now.faces }
    ensures { result ≡ has_faces (slice_of working.now) step_record.now }
{
    has_made(working, step_record)
        && !has_face(&working.faces, step_record.loser)
        && !has_face(&working.faces, step_record.winner)
}

/// Whether loser, winner and new face differ.
fn are_apart(loser: u32, winner: u32, made: u32) -> bool
    ensures { result ≡ are_apart loser winner made }
{
    loser != winner && loser != made && winner != made
}

/// Whether neither loser nor winner nor the new face is the outside.
fn are_faces(loser: u32, winner: u32, made: u32) -> bool
    ensures { result ≡ are_faces loser winner made }
{
    loser != 0 && winner != 0 && made != 0
}

/// Whether loser, winner and new face are three faces, none of which is the outside.
pub fn are_three(loser: u32, winner: u32, made: u32) -> bool
    ensures { result ≡ (are_apart loser winner made && are_faces loser winner made) }
{
    are_apart(loser, winner, made) && are_faces(loser, winner, made)
}

/// Rule 2: whether the slice has the faces that the record wants, and no others of it.
fn fits_faces(working: &Working, step_record: &StepRecord) -> bool
    requires { IsOrdered nat_cmp working.now.faces }
    ensures { result ≡ fits_faces (slice_of working.now) step_record.now }
{
    has_faces(working, step_record)
        && are_three(step_record.loser, step_record.winner, step_record.made)
}

/// Whether the face is on exactly one side, of these two.
fn has_one_side(face: u32, left: u32, right: u32) -> bool
    ensures { result ≡ (((left == face) && not (right == face)) || ((right == face) && not (left == face))) }
{
    (left == face && right != face) || (right == face && left != face)
}

/// Whether the mend names an edge that has the new face on exactly one side.
fn names_edge(working: &Working, step_record: &StepRecord, mend: &Mend) -> bool
    ensures { result ≡ names_edge (slice_of working.now) step_record.now mend.now }
{
    match working.line(mend.key) {
        Some(line) => {
            let left = working.labels.face(line.left);
            let right = working.labels.face(line.right);
            has_one_side(step_record.made, left, right)
        }
        None => false,
    }
}

/// Whether each mend names an edge that has the new face on exactly one side.
fn name_edges(working: &Working, step_record: &StepRecord) -> bool
    ensures { result ≡ list_all (names_edge (slice_of working.now) step_record.now) step_record.now.mends }
{
    for mend in step_record.mends.as_slice() {
        if !names_edge(working, step_record, mend) {
            return false;
        }
    }
    true
}

/// Rule 3: whether the keys of the mends ascend, and each names an edge that has the new face on exactly one side.
pub fn fits_mends(working: &Working, step_record: &StepRecord) -> bool
    ensures { result ≡ fits_mends (slice_of working.now) step_record.now }
{
    mends_ascend(step_record.mends.as_slice()) && name_edges(working, step_record)
}

/// Whether the edge has one of the two faces on each side.
fn is_between(face: u32, other: u32, edge: &Edge) -> bool
    ensures { result ≡ is_edge_between face other edge.now }
{
    (edge.left == face && edge.right == other) || (edge.left == other && edge.right == face)
}

/// Whether each ended edge has loser and winner on its sides.
fn are_between(step_record: &StepRecord) -> bool
    ensures { result ≡ list_all (is_edge_between step_record.now.loser step_record.now.winner) step_record.now.ended }
{
    for edge in step_record.ended.as_slice() {
        if !is_between(step_record.loser, step_record.winner, edge) {
            return false;
        }
    }
    true
}

/// Rule 6: whether the ended edges stand by ascending key, each between loser and winner.
fn fits_ended(step_record: &StepRecord) -> bool
    ensures { (s : Slice) → result ≡ fits_ended s step_record.now }
{
    edges_ascend(step_record.ended.as_slice()) && are_between(step_record)
}

/// The least of the first six rules that the record breaks, where it breaks one.
pub fn broken_before(working: &Working, step_record: &StepRecord) -> Option<u8>
    requires { IsOrdered nat_cmp working.now.faces }
    ensures { result ≡ broken_before (slice_of working.now) step_record.now }
{
    if !fits_step(working, step_record) {
        Some(1)
    } else if !fits_faces(working, step_record) {
        Some(2)
    } else if !fits_mends(working, step_record) {
        Some(3)
    } else if !fits_puts(working, step_record) {
        Some(4)
    } else if !fits_pieces(working, step_record) {
        Some(5)
    } else if !fits_ended(step_record) {
        Some(6)
    } else {
        None
    }
}
