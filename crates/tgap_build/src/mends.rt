//! The mends of a step.

ghost use Rattle.std.specs.Prelude.{◌≡◌, ◌<◌, ◌^◌, ◌==◌, ◌+◌, ◌++◌, ℕ, false, List, flat_map, length, All, IfOk, IfSome, OnOk};
ghost use Rattle.std.specs.List.{list_any};
ghost use Rattle.tgap_model.specs.declared.geometry.Point.{Point as Place};
ghost use Rattle.tgap_model.specs.declared.slice.Removal.{Removal};
ghost use Rattle.tgap_model.specs.Removals.{is_removed};
ghost use Rattle.tgap_model.specs.Records.{is_needed, puts_from};
ghost use Rattle.point_rope.specs.Rows.{IsSummary};
ghost use Rattle.tgap_build.specs.Running.{has_point};
ghost use Rattle.tgap_build.specs.Table.{edge_with};
ghost use Rattle.tgap_build.specs.Changes.{count_at, made_mends};

use crate::edge_table::EdgeTable;
use crate::live_edges::Made;
use crate::point_set::PointSet;
use crate::room::trimmed;
use point_rope::{PointTest, Rope, Run};
use std::alloc::Global;
use tgap_model::{List, Memory, Mend, MergeStep, Piece, Point, Put};

/// Whether a run may have a point of the set. (False only where it has none.)
fn may_have(gone: &PointSet, run: &Run<'_>) -> bool
    requires { IfSome run.now.summary (IsSummary run.now.points.now) }
    ensures { result ≡ false → All (λ p. has_point gone.now p ≡ false) run.now.points.now }
{
    match &run.summary {
        Some(summary) => gone.may_pass(&summary.bounds),
        None => true,
    }
}

/// Puts the vertices that come back of these points at the end, with their places, where `first` is that of the first point.
fn push_puts(
    gone: &PointSet,
    points: &[Point],
    first: usize,
    puts: &mut List<Put>,
) -> Result<(), Memory>
    requires { first + length points.now < 2 ^ 32 }
    ensures { (now : List Removal) → ((p : Place) → has_point gone.now p ≡ is_removed now p)
        → OnOk result (puts.new ≡ puts.old ++ puts_from now first points.now) }
{
    for i in 0..points.len() {
        let point = points[i];
        if gone.holds(&point) {
            puts.push(Put {
                at: (first + i) as u32,
                point,
            })?;
        }
    }
    Ok(())
}

/// The vertices that come back of a row of points, which are those of the set, with their places. A run that can have none is
/// passed over whole.
fn puts_of(alloc: Global, gone: &PointSet, row: &Rope) -> Result<List<Put>, Memory>
    requires { length row.now < 2 ^ 32 }
    ensures { (now : List Removal) → ((p : Place) → has_point gone.now p ≡ is_removed now p)
        → IfOk result (λ puts. puts ≡ puts_from now 0 row.now) }
{
    let mut puts = List::new(alloc);
    let mut place = 0;
    while place < row.len() {
        let run = row.run_from(place);
        if may_have(gone, &run) {
            push_puts(gone, run.points, place, &mut puts)?;
        }
        place += run.points.len();
    }
    Ok(trimmed(puts))
}

/// The vertices that come back of the points of the edge with this key.
fn puts_at(alloc: Global, edges: &EdgeTable, gone: &PointSet, key: u32) -> Result<List<Put>, Memory>
    requires room { key < length edges.now.places.items }
    requires few { count_at edges.now.places.items key < 2 ^ 32 }
    ensures { (now : List Removal) → ((p : Place) → has_point gone.now p ≡ is_removed now p)
        → IfOk result (λ puts. puts ≡ puts_from now 0 (edge_with edges.now.places.items key).points) }
{
    match edges.points(key) {
        Some(row) => puts_of(alloc, gone, row),
        None => Ok(List::new(alloc)),
    }
}

/// Whether one of the pieces has the loser's side.
fn has_side_of(loser: u32, pieces: &[Piece]) -> bool
    ensures { result ≡ list_any (λ p. p.side == loser) pieces.now }
{
    for piece in pieces {
        if piece.side == loser {
            return true;
        }
    }
    false
}

/// Whether the mend says more than that an edge gets the winner: it puts a point in, or cuts the edge, or gives a piece to
/// the loser.
fn is_needed(loser: u32, mend: &Mend) -> bool
    ensures { result ≡ is_needed loser mend.now }
{
    0 < mend.puts.len() || 1 < mend.pieces.len() || has_side_of(loser, mend.pieces.as_slice())
}

/// The mends of a step: of these edges, which stand in order of key and still have the points that it takes out, those of the set,
/// the ones that need one. The time is that of the runs of their points, and of the points in those that may have one of the set.
pub fn mends_of(
    alloc: Global,
    edges: &EdgeTable,
    step: &MergeStep,
    made: Vec<Made>,
    gone: &PointSet,
) -> Result<List<Mend>, Memory>
    requires room { All (λ one. one.key < length edges.now.places.items) made.items }
    requires few { (i : ℕ) → count_at edges.now.places.items i < 2 ^ 32 }
    ensures { (now : List Removal) → ((p : Place) → has_point gone.now p ≡ is_removed now p)
        → IfOk result (λ mends. mends ≡ flat_map (made_mends edges.now.places.items step.now.loser now) made.items) }
{
    let mut mends = List::new(alloc);
    for one in made {
        let mend = Mend {
            key: one.key,
            puts: puts_at(alloc, edges, gone, one.key)?,
            pieces: one.pieces,
        };
        if is_needed(step.loser, &mend) {
            mends.push(mend)?;
        }
    }
    Ok(trimmed(mends))
}
