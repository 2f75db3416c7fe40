//! Reading the text of a slice.

ghost use Rattle.std.specs.Prelude.{◌≡◌, ◌*◌, ◌≤◌, length, IfOk, Ok, Err};
ghost use Rattle.tgap_model.specs.declared.slice.Slice.{Slice as SliceRead};
ghost use Rattle.wire_text.specs.SliceTexts.{slice_text};
ghost use Rattle.slice_forms.specs.SliceForms.{is_slice_row, segment_count};
ghost use Rattle.wire_text.specs.SliceReading.{IsSliceText, faces_at, edges_at, slice_of_text};
ghost use Rattle.plain_io.specs.Taking.{Gives, GivesWhole};
ghost use Rattle.wire_text.specs.declared.row_reading.BadText.{BadText as Fault};
ghost use Rattle.wire_text.specs.Reading.{bad_text};

use crate::row_reading::{BadText, read_count, read_edge, read_face, read_last};
use plain_io::{Lines, at_line};
use std::alloc::Global;
use tgap_model::{Edge, FaceRow, List, Or, Slice};

/// The slice that a text spells, by 'Slices, windows and packets' of docs/formats.md.
///
/// The fault tells the first line that is out of form; lines are numbered from 1, and all from 4,294,967,295 on have
/// that number. A count is not believed before what it counts is there: memory is taken line by line. It is one pass
/// over the bytes, in memory of a small multiple of them.
pub fn read_slice(alloc: Global, bytes: &[u8]) -> Result<Slice, Or<BadText>>
    // The slice, or the first line at fault, by the function that computes on small texts.
    ensures exact { GivesWhole result (slice_of_text bad_text bytes.now) }
    // What is read is of the form of a slice and is spelled so, each byte of it.
    ensures read { IfOk result (IsSliceText bytes.now) }
    // What is of the form and is spelled so is read, and nothing else comes but want of memory.
    ensures spelled { (s : SliceRead) → IsSliceText bytes.now s → GivesWhole result (Ok s) }
    // A fault comes only where the bytes are the text of no slice.
    ensures fault { (f : Fault) → result ≡ Err (Or.Fault f) → (s : SliceRead) → ¬ (IsSliceText bytes.now s) }
    // Each segment of an edge takes two bytes at least.
    ensures room { IfOk result (λ s. 2 * segment_count s.edges ≤ length bytes.now) }
{
    read_checked(alloc, bytes)
}

/// The slice that the bytes spell, or the first line at fault.
#[tactic(auto, unfolding(crate::specs::SliceReading::slice_of_text))]
fn read_checked(alloc: Global, bytes: &[u8]) -> Result<Slice, Or<BadText>>
    ensures { GivesWhole result (slice_of_text bad_text bytes.now) }
{
    let mut lines = Lines::of(bytes);
    let step = at_line(lines.number(), read_count(&mut lines, b"slice"))?;
    let many_faces = at_line(lines.number(), read_count(&mut lines, b"faces"))?;
    let faces = faces_at(alloc, &mut lines, many_faces)?;
    let many_edges = at_line(lines.number(), read_count(&mut lines, b"edges"))?;
    let edges = edges_at(alloc, &mut lines, many_edges)?;
    read_last(&mut lines)?;
    Ok(Slice { step, faces, edges })
}

/// The next `n` faces, whose numbers ascend from 1 on.
fn faces_at(alloc: Global, lines: &mut Lines, n: u32) -> Result<List<FaceRow>, Or<BadText>>
    ensures { Gives result lines.new (faces_at bad_text 1 n lines.old) }
{
    let mut faces = List::new(alloc);
    let mut least = 1;
    for _ in 0..n {
        let face = at_line(lines.number(), read_face(lines, least))?;
        least = u64::from(face.face) + 1;
        faces.push(face)?;
    }
    Ok(faces)
}

/// The next `n` edges, whose keys ascend.
fn edges_at(alloc: Global, lines: &mut Lines, n: u32) -> Result<List<Edge>, Or<BadText>>
    ensures { Gives result lines.new (edges_at bad_text 0 n lines.old) }
{
    let mut edges = List::new(alloc);
    let mut least = 0;
    for _ in 0..n {
        let edge = read_edge(alloc, lines, least)?;
        least = u64::from(edge.key) + 1;
        edges.push(edge)?;
    }
    Ok(edges)
}
