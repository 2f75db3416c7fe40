//! Reading the text of a packet.

ghost use Rattle.std.specs.Prelude.{◌≡◌, ◌*◌, ◌-◌, ◌≤◌, length, sum_by, IfOk, IfSome, Ok, Err};
ghost use Rattle.tgap_model.specs.declared.record.Packet.{Packet as PacketRead};
ghost use Rattle.line_forms.specs.Lines.{read_row};
ghost use Rattle.slice_forms.specs.SliceForms.{record_load};
ghost use Rattle.wire_text.specs.SliceReading.{IsPacketText, read_packet_head, read_step_head, read_mend_head, read_put, read_piece, records_at, record_at, mends_at, mend_at, puts_at, pieces_at, ended_at, packet_of_text};
ghost use Rattle.plain_io.specs.Taking.{Reads, Gives, GivesWhole};
ghost use Rattle.wire_text.specs.declared.row_reading.BadText.{BadText as Fault};
ghost use Rattle.wire_text.specs.Reading.{bad_text, ReadsAs, mend_numbers, step_numbers};

use crate::row_reading::{BadText, point_at, read_edge, read_last};
use plain_io::{Lines, after_count, after_word, at_line, count_at, ended, natural_at};
use std::alloc::Global;
use tgap_model::{Edge, List, Mend, Or, Packet, Piece, Put, StepRecord};

/// The packet that a text spells, by 'Slices, windows and packets' of docs/formats.md.
///
/// The fault tells the first line that is out of form; lines are numbered from 1, and all from 4,294,967,295 on have
/// that number. A count is not believed before what it counts is there: memory is taken line by line. It is one pass
/// over the bytes, in memory of a small multiple of them.
pub fn read_packet(alloc: Global, bytes: &[u8]) -> Result<Packet, Or<BadText>>
    // The packet, or the first line at fault, by the function that computes on small texts.
    ensures exact { GivesWhole result (packet_of_text bad_text bytes.now) }
    // What is read is of the form of a packet and is spelled so, each byte of it.
    ensures read { IfOk result (IsPacketText bytes.now) }
    // What is of the form and is spelled so is read, and nothing else comes but want of memory.
    ensures spelled { (p : PacketRead) → IsPacketText bytes.now p → GivesWhole result (Ok p) }
    // A fault comes only where the bytes are the text of no packet.
    ensures fault { (f : Fault) → result ≡ Err (Or.Fault f) → (p : PacketRead) → ¬ (IsPacketText bytes.now p) }
    // Each vertex that comes back and each segment of an edge takes two bytes at least.
    ensures room { IfOk result (λ p. 2 * sum_by record_load p.steps ≤ length bytes.now) }
{
    read_checked(alloc, bytes)
}

/// The packet that the bytes spell, or the first line at fault.
#[tactic(auto, unfolding(crate::specs::SliceReading::packet_of_text))]
fn read_checked(alloc: Global, bytes: &[u8]) -> Result<Packet, Or<BadText>>
    ensures { GivesWhole result (packet_of_text bad_text bytes.now) }
{
    let mut lines = Lines::of(bytes);
    let (from, to) = at_line(lines.number(), read_head(&mut lines))?;
    let steps = records_at(alloc, &mut lines, from, from - to)?;
    read_last(&mut lines)?;
    Ok(Packet { from, to, steps })
}

/// The steps between which the packet leads, the second not above the first.
#[tactic(auto, unfolding(crate::specs::SliceReading::read_packet_head))]
fn read_head(lines: &mut Lines) -> Option<(u32, u32)>
    ensures read { Reads result lines.new (read_row read_packet_head lines.old) }
    ensures down { IfSome result (λ ends. ends.1 ≤ ends.0) }
{
    let mut words = lines.next_line()?;
    after_word(&mut words, b"packet")?;
    let from = count_at(&mut words)?;
    let to = natural_at(&mut words, 0, from)?;
    ended(&words, (from, to))
}

/// The records of the next `n` steps, from step `first` down.
fn records_at(
    alloc: Global,
    lines: &mut Lines,
    first: u32,
    n: u32,
) -> Result<List<StepRecord>, Or<BadText>>
    ensures { Gives result lines.new (records_at bad_text first n lines.old) }
{
    let mut records = List::new(alloc);
    let mut step = first;
    for _ in 0..n {
        let record = read_record(alloc, lines, step)?;
        step = step.saturating_sub(1);
        records.push(record)?;
    }
    Ok(records)
}

/// The record of this step: its mends, and then the edges that come back.
#[tactic(auto, unfolding(crate::specs::SliceReading::record_at))]
fn read_record(alloc: Global, lines: &mut Lines, step: u32) -> Result<StepRecord, Or<BadText>>
    ensures { Gives result lines.new (record_at bad_text step lines.old) }
{
    let head = at_line(lines.number(), read_step(lines, step))?;
    let mends = mends_at(alloc, lines, head.mends)?;
    let ended = ended_at(alloc, lines, head.ended)?;
    Ok(StepRecord {
        step,
        loser: head.loser,
        loser_class: head.loser_class,
        winner: head.winner,
        winner_class: head.winner_class,
        made: head.made,
        mends,
        ended,
    })
}

/// What the line of a step tells: its faces and their classes, how many mends it has, and how many edges come back.
#[derive(Clone, Copy)]
struct StepHead {
    loser: u32,
    loser_class: u32,
    winner: u32,
    winner_class: u32,
    made: u32,
    mends: u32,
    ended: u32,
}

/// The line of this step.
#[tactic(auto, unfolding(crate::specs::SliceReading::read_step_head))]
fn read_step(lines: &mut Lines, step: u32) -> Option<StepHead>
    ensures { ReadsAs step_numbers result lines.new (read_row (read_step_head step) lines.old) }
{
    let mut words = lines.next_line()?;
    after_word(&mut words, b"step")?;
    after_count(&mut words, step)?;
    let loser = count_at(&mut words)?;
    let loser_class = count_at(&mut words)?;
    let winner = count_at(&mut words)?;
    let winner_class = count_at(&mut words)?;
    let made = count_at(&mut words)?;
    let mends = count_at(&mut words)?;
    let ended_edges = count_at(&mut words)?;
    ended(
        &words,
        StepHead {
            loser,
            loser_class,
            winner,
            winner_class,
            made,
            mends,
            ended: ended_edges,
        },
    )
}

/// The next `n` mends.
fn mends_at(alloc: Global, lines: &mut Lines, n: u32) -> Result<List<Mend>, Or<BadText>>
    ensures { Gives result lines.new (mends_at bad_text n lines.old) }
{
    let mut mends = List::new(alloc);
    for _ in 0..n {
        let mend = read_mend(alloc, lines)?;
        mends.push(mend)?;
    }
    Ok(mends)
}

/// A mend: the vertices that come back, and then the pieces.
#[tactic(auto, unfolding(crate::specs::SliceReading::mend_at))]
fn read_mend(alloc: Global, lines: &mut Lines) -> Result<Mend, Or<BadText>>
    ensures { Gives result lines.new (mend_at bad_text lines.old) }
{
    let head = at_line(lines.number(), read_mend_head(lines))?;
    let puts = puts_at(alloc, lines, head.puts)?;
    let pieces = pieces_at(alloc, lines, head.pieces)?;
    Ok(Mend {
        key: head.key,
        puts,
        pieces,
    })
}

/// What the line of a mend tells: the key of its edge, and how many vertices come back and how many pieces there are.
#[derive(Clone, Copy)]
struct MendHead {
    key: u32,
    puts: u32,
    pieces: u32,
}

/// The line of a mend.
#[tactic(auto, unfolding(crate::specs::SliceReading::read_mend_head))]
fn read_mend_head(lines: &mut Lines) -> Option<MendHead>
    ensures { ReadsAs mend_numbers result lines.new (read_row read_mend_head lines.old) }
{
    let mut words = lines.next_line()?;
    after_word(&mut words, b"mend")?;
    let key = count_at(&mut words)?;
    let puts = count_at(&mut words)?;
    let pieces = count_at(&mut words)?;
    ended(&words, MendHead { key, puts, pieces })
}

/// The next `n` vertices that come back.
fn puts_at(alloc: Global, lines: &mut Lines, n: u32) -> Result<List<Put>, Or<BadText>>
    ensures { Gives result lines.new (puts_at bad_text n lines.old) }
{
    let mut puts = List::new(alloc);
    for _ in 0..n {
        let put = at_line(lines.number(), read_put(lines))?;
        puts.push(put)?;
    }
    Ok(puts)
}

/// A vertex that comes back, and its place.
#[tactic(auto, unfolding(crate::specs::SliceReading::read_put))]
fn read_put(lines: &mut Lines) -> Option<Put>
    ensures { Reads result lines.new (read_row read_put lines.old) }
{
    let mut words = lines.next_line()?;
    after_word(&mut words, b"put")?;
    let at = count_at(&mut words)?;
    let point = point_at(&mut words)?;
    ended(&words, Put { at, point })
}

/// The next `n` pieces.
fn pieces_at(alloc: Global, lines: &mut Lines, n: u32) -> Result<List<Piece>, Or<BadText>>
    ensures { Gives result lines.new (pieces_at bad_text n lines.old) }
{
    let mut pieces = List::new(alloc);
    for _ in 0..n {
        let piece = at_line(lines.number(), read_piece(lines))?;
        pieces.push(piece)?;
    }
    Ok(pieces)
}

/// A piece of an edge.
#[tactic(auto, unfolding(crate::specs::SliceReading::read_piece))]
fn read_piece(lines: &mut Lines) -> Option<Piece>
    ensures { Reads result lines.new (read_row read_piece lines.old) }
{
    let mut words = lines.next_line()?;
    after_word(&mut words, b"piece")?;
    let key = count_at(&mut words)?;
    let last = count_at(&mut words)?;
    let side = count_at(&mut words)?;
    let turned = natural_at(&mut words, 0, 1)?;
    ended(
        &words,
        Piece {
            key,
            last,
            side,
            turned: turned == 1,
        },
    )
}

/// The next `n` edges, which come back.
fn ended_at(alloc: Global, lines: &mut Lines, n: u32) -> Result<List<Edge>, Or<BadText>>
    ensures { Gives result lines.new (ended_at bad_text n lines.old) }
{
    let mut edges = List::new(alloc);
    for _ in 0..n {
        let edge = read_edge(alloc, lines, 0)?;
        edges.push(edge)?;
    }
    Ok(edges)
}
