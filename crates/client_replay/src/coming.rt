//! The edges that come by a record: the pieces of mended edges, and the edges that the step ended; and whether their keys
//! differ from each other and from those of the edges that stay.

ghost use Rattle.std.specs.Prelude.{◌≡◌, ◌&&◌, ◌++◌, [], not, nat_lt, map, flat_map, filter, IsPermutation, IfOk, OnOk, IsTrue};
ghost use Rattle.lemmas.specs.Sorting.{is_sorted_by};
ghost use Rattle.std.specs.List.{list_any};
ghost use Rattle.std.specs.List.Sorted.{IsNonDecreasingBy};
ghost use Rattle.tgap_model.specs.declared.slice.Edge.{Edge};
ghost use Rattle.tgap_model.specs.Records.{fits_puts};
ghost use Rattle.tgap_model.specs.Slice.{meets_window};
ghost use Rattle.client_replay.specs.Coming.{mended, coming, stays};
ghost use Rattle.client_replay.specs.Rules.{are_in_order, mends_in_order};
ghost use Rattle.client_replay.specs.Windows.{coming_in};
ghost use Rattle.client_replay.specs.Working.{edge_of, slice_of};

use crate::boxes::meets_window;
use crate::find::has_mend;
use crate::lines::Line;
use crate::order::edges_ascend;
use crate::pieces::cut_pieces;
use crate::puts::put_in;
use crate::working::Working;
use std::alloc::Global;
use tgap_model::{Edge, List, Memory, Mend, StepRecord, Window, copied_edge};

/// The edge of a line, without its points. It takes no memory.
fn edge_without_points(alloc: Global, working: &Working, key: u32, line: &Line) -> Edge
    ensures { result ≡ record (edge_of working.now.labels (key, line.now)) { points = [] } }
{
    Edge {
        key,
        left: working.labels.face(line.left),
        right: working.labels.face(line.right),
        points: List::new(alloc),
    }
}

/// Appends the pieces of the edge that the mend names, where there is such an edge.
fn add_pieces(
    alloc: Global,
    working: &Working,
    step_record: &StepRecord,
    mend: &Mend,
    edges: &mut Vec<Edge>,
) -> Result<(), Memory>
    requires puts { IsTrue (is_sorted_by nat_lt (map (λ p. p.at) mend.now.puts)) }
    ensures { OnOk result (edges.new.items ≡ edges.old.items ++ mended (slice_of working.now).edges step_record.now mend.now) }
{
    let Some(line) = working.line(mend.key) else {
        return Ok(());
    };
    let points = put_in(alloc, line.points.as_slice(), mend.puts.as_slice())?;
    let edge = edge_without_points(alloc, working, mend.key, line);
    let pieces = mend.pieces.as_slice();
    cut_pieces(alloc, step_record, &edge, points.as_slice(), pieces, edges)
}

/// Appends the pieces of all mended edges.
fn add_mended(
    alloc: Global,
    working: &Working,
    step_record: &StepRecord,
    edges: &mut Vec<Edge>,
) -> Result<(), Memory>
    requires puts { IsTrue (fits_puts (slice_of working.now) step_record.now) }
    ensures { OnOk result (edges.new.items ≡ edges.old.items ++ flat_map (mended (slice_of working.now).edges step_record.now) step_record.now.mends) }
{
    for mend in step_record.mends.as_slice() {
        add_pieces(alloc, working, step_record, mend, edges)?;
    }
    Ok(())
}

/// Appends copies of these edges.
pub fn add_copies(alloc: Global, copied: &[Edge], edges: &mut Vec<Edge>) -> Result<(), Memory>
    ensures { OnOk result (edges.new.items ≡ edges.old.items ++ copied.now) }
{
    for edge in copied {
        edges.push(copied_edge(alloc, edge)?)?;
    }
    Ok(())
}

/// Puts the edges in the order of their keys.
fn sort_by_key(edges: &mut Vec<Edge>)
    ensures permutation { IsPermutation edges.old.items edges.new.items }
    ensures sorted { IsNonDecreasingBy (λ (e : Edge). e.key) edges.new.items }
{
    edges.sort_unstable_by_key(|edge| edge.key);
}

/// The edges that come, in the order of their keys. Two may have one key.
pub fn coming(
    alloc: Global,
    working: &Working,
    step_record: &StepRecord,
) -> Result<Vec<Edge>, Memory>
    requires puts { IsTrue (fits_puts (slice_of working.now) step_record.now) }
    ensures permutation { IfOk result (λ edges. IsPermutation (coming (slice_of working.now) step_record.now) edges.items) }
    ensures sorted { IfOk result (λ edges. IsNonDecreasingBy (λ (e : Edge). e.key) edges.items) }
{
    let mut edges = Vec::new(alloc);
    add_mended(alloc, working, step_record, &mut edges)?;
    add_copies(alloc, step_record.ended.as_slice(), &mut edges)?;
    sort_by_key(&mut edges);
    Ok(edges)
}

/// Keeps the edges whose bounding box meets the window.
fn keep_meeting(area: Window, edges: &mut Vec<Edge>)
    ensures { edges.new.items ≡ filter (meets_window area) edges.old.items }
{
    edges.retain(|edge| meets_window(area, edge));
}

/// The edges that come in a window, in the order of their keys: the pieces that meet it, and these. Two may have one key.
pub fn coming_in(
    alloc: Global,
    working: &Working,
    area: Window,
    step_record: &StepRecord,
    comes: &[Edge],
) -> Result<Vec<Edge>, Memory>
    requires puts { IsTrue (fits_puts (slice_of working.now) step_record.now) }
    ensures permutation { IfOk result (λ edges. IsPermutation (coming_in area (slice_of working.now) step_record.now comes.now) edges.items) }
    ensures sorted { IfOk result (λ edges. IsNonDecreasingBy (λ (e : Edge). e.key) edges.items) }
{
    let mut edges = Vec::new(alloc);
    add_mended(alloc, working, step_record, &mut edges)?;
    keep_meeting(area, &mut edges);
    add_copies(alloc, comes, &mut edges)?;
    sort_by_key(&mut edges);
    Ok(edges)
}

/// Whether an edge with this key stays.
fn stays(working: &Working, step_record: &StepRecord, key: u32) -> bool
    requires mends { IsTrue (mends_in_order step_record.now.mends) }
    ensures { result ≡ stays (slice_of working.now) step_record.now key }
{
    working.has_edge(key) && !has_mend(step_record.mends.as_slice(), key)
}

/// Whether one of these edges has the key of an edge that stays.
fn meet_staying(working: &Working, step_record: &StepRecord, edges: &[Edge]) -> bool
    requires mends { IsTrue (mends_in_order step_record.now.mends) }
    ensures { result ≡ list_any (λ e. stays (slice_of working.now) step_record.now e.key) edges.now }
{
    for edge in edges {
        if stays(working, step_record, edge.key) {
            return true;
        }
    }
    false
}

/// Rule 7: whether the keys differ, those of the edges that come, which stand in their order, and of those that stay.
pub fn keys_differ(working: &Working, step_record: &StepRecord, edges: &[Edge]) -> bool
    requires mends { IsTrue (mends_in_order step_record.now.mends) }
    ensures { result ≡ (are_in_order edges.now && not (list_any (λ e. stays (slice_of working.now) step_record.now e.key) edges.now)) }
{
    edges_ascend(edges) && !meet_staying(working, step_record, edges)
}
