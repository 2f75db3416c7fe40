//! The pieces of an edge: whether they fit, and the edge cut into them.

ghost use Rattle.std.specs.Prelude.{◌≡◌, ◌+◌, ◌-◌, ◌≤◌, ◌&&◌, ◌||◌, ◌==◌, ◌++◌, nat_lt, map, take, drop, IfOk, OnOk};
ghost use Rattle.std.specs.List.{list_all};
ghost use Rattle.tgap_model.specs.Records.{starts_after_zero, ends_with_place, fits_pieces, in_place_of, cut_piece, cut_pieces};
ghost use Rattle.client_replay.specs.Rules.{reaches_end, mend_pieces_fit};
ghost use Rattle.client_replay.specs.Working.{slice_of};

use crate::order::pieces_ascend;
use crate::working::Working;
use std::alloc::Global;
use tgap_model::{Edge, List, Memory, Mend, Piece, Point, StepRecord};

/// Whether the first of these pieces ends after the first place.
fn starts_after_zero(pieces: &[Piece]) -> bool
    ensures { result ≡ starts_after_zero (map (λ p. p.last) pieces.now) }
{
    match pieces.first() {
        Some(piece) => 1 <= piece.last,
        None => false,
    }
}

/// Whether the last of these pieces ends at this place.
fn ends_with_place(place: usize, pieces: &[Piece]) -> bool
    ensures { result ≡ ends_with_place place (map (λ p. p.last) pieces.now) }
{
    match pieces.last() {
        Some(piece) => piece.last as usize == place,
        None => false,
    }
}

/// Whether the mend's pieces end where its edge ends, after its puts.
fn reaches_end(working: &Working, mend: &Mend) -> bool
    ensures { result ≡ reaches_end (slice_of working.now) mend.now }
{
    match working.line(mend.key) {
        Some(line) => {
            let count = line.points.as_slice().len() + mend.puts.as_slice().len();
            ends_with_place(count.saturating_sub(1), mend.pieces.as_slice())
        }
        None => true,
    }
}

/// Whether each piece has loser or winner on its side.
fn sides_fit(step_record: &StepRecord, pieces: &[Piece]) -> bool
    ensures { result ≡ list_all (λ p. (p.side == step_record.now.loser) || (p.side == step_record.now.winner)) pieces.now }
{
    let loser = step_record.loser;
    let winner = step_record.winner;
    pieces
        .iter()
        .all(|piece| piece.side == loser || piece.side == winner)
}

/// Whether the mend's pieces cut its edge from its first point to its last.
fn mend_pieces_fit(working: &Working, step_record: &StepRecord, mend: &Mend) -> bool
    ensures { result ≡ mend_pieces_fit (slice_of working.now) step_record.now mend.now }
{
    let pieces = mend.pieces.as_slice();
    pieces_ascend(pieces)
        && starts_after_zero(pieces)
        && reaches_end(working, mend)
        && sides_fit(step_record, pieces)
}

/// Rule 5: whether the pieces of each mend cut its edge from its first point to its last.
pub fn fits_pieces(working: &Working, step_record: &StepRecord) -> bool
    ensures { result ≡ fits_pieces (slice_of working.now) step_record.now }
{
    for mend in step_record.mends.as_slice() {
        if !mend_pieces_fit(working, step_record, mend) {
            return false;
        }
    }
    true
}

/// The points from place `first` on to before place `end`, as far as there are any.
fn part(points: &[Point], first: usize, end: usize) -> &[Point]
    ensures { result.now ≡ take (end - first) (drop first points.now) }
{
    let end = end.min(points.len());
    let first = first.min(end);
    &points[first..end]
}

/// The face, or what takes the new face's place.
pub fn in_place_of(made: u32, side: u32, face: u32) -> u32
    ensures { result ≡ in_place_of made side face }
{
    if face == made { side } else { face }
}

/// The piece of an edge from place `first` on, where the edge has these points.
fn cut_piece(
    alloc: Global,
    step_record: &StepRecord,
    edge: &Edge,
    points: &[Point],
    first: usize,
    piece: &Piece,
) -> Result<Edge, Memory>
    ensures { IfOk result (λ cut. cut ≡ cut_piece step_record.now edge.now points.now first piece.now) }
{
    let mut cut = Vec::from_slice(alloc, part(points, first, piece.last as usize + 1))?;
    let left = in_place_of(step_record.made, piece.side, edge.left);
    let right = in_place_of(step_record.made, piece.side, edge.right);
    if piece.turned {
        cut.reverse();
        Ok(Edge {
            key: piece.key,
            left: right,
            right: left,
            points: List::from(cut),
        })
    } else {
        Ok(Edge {
            key: piece.key,
            left,
            right,
            points: List::from(cut),
        })
    }
}

/// Appends the pieces of an edge, where the edge has these points.
pub fn cut_pieces(
    alloc: Global,
    step_record: &StepRecord,
    edge: &Edge,
    points: &[Point],
    pieces: &[Piece],
    edges: &mut Vec<Edge>,
) -> Result<(), Memory>
    ensures { OnOk result (edges.new.items ≡ edges.old.items ++ cut_pieces step_record.now edge.now points.now 0 pieces.now) }
{
    let mut first = 0;
    for piece in pieces {
        edges.push(cut_piece(alloc, step_record, edge, points, first, piece)?)?;
        first = piece.last as usize;
    }
    Ok(())
}
