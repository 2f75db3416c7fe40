//! The command that tells what a generated map comes to: its counts, those of its last slice, and those of the slice that is
//! reached when all its steps are undone.

ghost use Rattle.std.specs.Prelude.{◌≡◌, ◌++◌, ◌∷◌, ◌<◌, ◌≤◌, decimal, map, string_bytes, length, sum_by, IfOk, IsTrue, None, OnOk};
ghost use Rattle.tgap_model.specs.declared.limits.TheConstants.{MAX_POINTS};
ghost use Rattle.tgap_model.specs.Base.{count_points};
ghost use Rattle.tgap_model.specs.Partition.{IsPartition, base_segments};
ghost use Rattle.tgap_model.specs.History.{history_of};
ghost use Rattle.tgap_model.specs.Records.{replayed};
ghost use Rattle.slice_forms.specs.SliceForms.{is_slice_row, is_packet_row, has_room};
ghost use Rattle.client_replay.specs.Replaying.{outcome as replay_outcome};
ghost use Rattle.commands.specs.declared.outcome.Outcome.TheVariants.{Done};
ghost use Rattle.commands.specs.Asked.{asked};
ghost use Rattle.commands.specs.Answers.{IsEither, outcome_from};
ghost use Rattle.commands.specs.Slice.{IsSliceOf};
ghost use Rattle.commands.specs.Grid.{IsLineOf, IsWayBack, SaysGrid, SaysLine, counts_text, grid_command, grid_outcome, line_of, point_count, put_count as put_total, with_base};

use crate::command::Command;
use crate::grid_size::GridSize;
use crate::outcome::Outcome;
use base_check::check;
use client_replay::replay;
use generator::{MAX_GRID, grid_map};
use plain_io::{put_count, put_size, read_number};
use refine_packets::{PacketFail, packet};
use slice_read::{ReadFail, slice_at};
use std::alloc::Global;
use std::marker::Brand;
use std::sync::ledger::{Blank, Ledger};
use std::thread::Threads;
use tgap_build::{Built, build};
use tgap_model::{
    Base, BaseArc, Checked, Edge, Memory, Or, Packet, Slice, StepRecord, Steps, Text,
};

/// The command of these words after its name.
pub fn parse(words: &[String]) -> Option<Command<'_>>
    ensures { asked result ≡ grid_command (map string_bytes words.now) }
{
    let [rows] = words else {
        return None;
    };
    let rows = read_number(rows.as_bytes(), 1, i64::from(MAX_GRID))?;
    Some(Command::Grid {
        size: GridSize { rows: rows as u32 },
    })
}

/// The line of the generated map of this size.
pub fn answer<R: Threads + Sync>(rt: &R, alloc: Global, size: GridSize) -> Result<Text, Outcome>
    ensures { IsEither (SaysGrid size.rows) (grid_outcome size.rows) (outcome_from result) }
{
    let base = grid_map(alloc, size.rows)?;
    line_of_base(rt, alloc, size.rows, base)
}

/// The line of a base map that is a planar partition, of which the number of rows is given.
fn line_of_base<R: Threads + Sync>(
    rt: &R,
    alloc: Global,
    rows: u32,
    base: Base,
) -> Result<Text, Outcome>
    ensures { IsPartition (base_segments base) → IsEither (SaysLine rows base) (Done (line_of rows base)) (outcome_from result) }
{
    let checked = check(rt, alloc, base)?;
    line_of_checked(rt, alloc, rows, checked)
}

/// The line of a map that was checked, of which the number of rows is given.
fn line_of_checked<R: Threads + Sync>(
    rt: &R,
    alloc: Global,
    rows: u32,
    checked: Checked,
) -> Result<Text, Outcome>
    ensures { IsEither (SaysLine rows checked) (Done (line_of rows checked)) (outcome_from result) }
{
    let built = build(rt, alloc, checked)?;
    line_of_built(alloc, rows, &built)
}

/// The line of what was built of a map, of which the number of rows is given; or what comes in its place.
fn line_of_built(alloc: Global, rows: u32, built: &Built) -> Result<Text, Outcome>
    ensures { IsEither (SaysLine rows built.now) (Done (line_of rows built.now)) (outcome_from result) }
{
    Ok(line_of(alloc, rows, built)?)
}

/// The line of what was built of a map, of which the number of rows is given.
fn line_of(alloc: Global, rows: u32, built: &Built) -> Result<Text, Memory>
    ensures { IfOk result (IsLineOf rows built.now) }
{
    let base = built.base();
    let mut slice = last_slice::<Brand>(alloc, built, Blank::new(1))?;
    let packet = packet_of_all(alloc, built)?;
    let last = Counts::of(slice.edges.as_slice());
    replay_all(alloc, &mut slice, &packet)?;
    let counted = Counted {
        steps: built.steps(),
        removed: count_puts(packet.steps.as_slice()),
        last,
        reached: Counts::of(slice.edges.as_slice()),
    };
    counts_text(alloc, rows, base, &counted)
}

/// The slice after the last step. Nobody counts the looks that it takes.
fn last_slice<L: Ledger>(alloc: Global, built: &Built, blank: Blank) -> Result<Slice, Memory>
    requires name { blank.name ≡ L.name }
    requires parts { blank.parts ≡ L.parts }
    requires some { 0 < blank.parts }
    ensures { IfOk result (IsSliceOf built.now (length (history_of built.now))) }
{
    let mut looks = Steps::<L>::new(blank);
    match slice_at(alloc, built, built.steps(), &mut looks) {
        Ok(slice) => Ok(slice),
        Err(ReadFail::Memory) => Err(Memory),
        Err(ReadFail::StepTooHigh { .. }) => unreachable!(),
    }
}

/// The packet of all steps, from the slice after the last one down.
fn packet_of_all(alloc: Global, built: &Built) -> Result<Packet, Memory>
    ensures { IfOk result (IsWayBack built.now) }
{
    match packet(alloc, built, built.steps(), 0) {
        Ok(packet) => Ok(packet),
        Err(PacketFail::Memory) => Err(Memory),
        Err(PacketFail::NotCoarser) => unreachable!(),
        Err(PacketFail::StepTooHigh { .. }) => unreachable!(),
    }
}

/// Undoes the steps of a packet of which each record fits.
fn replay_all(alloc: Global, slice: &mut Slice, packet: &Packet) -> Result<(), Memory>
    requires slice { IsTrue (is_slice_row slice.old) }
    requires packet { IsTrue (is_packet_row packet.now) }
    requires room { IsTrue (has_room slice.old packet.now.steps) }
    requires fits { replay_outcome slice.old packet.now ≡ (replayed slice.old packet.now, None) }
    ensures { OnOk result (slice.new ≡ replayed slice.old packet.now) }
{
    match replay(alloc, slice, packet) {
        Ok(()) => Ok(()),
        Err(Or::Memory) => Err(Memory),
        Err(Or::Fault(_)) => unreachable!(),
    }
}

/// How many edges there are, and how many points they have.
#[derive(Clone, Copy, Drop)]
struct Counts {
    edges: usize,
    points: usize,
}

impl Counts {
    /// Those of these edges.
    fn of(edges: &[Edge]) -> Counts
        requires { point_count edges.now ≤ MAX_POINTS }
        ensures edges { result.edges ≡ length edges.now }
        ensures points { result.points ≡ point_count edges.now }
    {
        let mut points = 0;
        for edge in edges {
            points += edge.points.len();
        }
        Counts {
            edges: edges.len(),
            points,
        }
    }
}

/// What is counted of a map beside its faces, arcs and points: the steps, the vertices that they remove, the last slice, and
/// the slice that is reached from there.
#[derive(Clone, Copy, Drop)]
struct Counted {
    steps: u32,
    removed: usize,
    last: Counts,
    reached: Counts,
}

/// How many vertices a record brings back.
fn puts_of(step_record: &StepRecord) -> usize
    requires { put_total step_record.now ≤ MAX_POINTS }
    ensures { result ≡ put_total step_record.now }
{
    let mut count = 0;
    for mend in step_record.mends.as_slice() {
        count += mend.puts.len();
    }
    count
}

/// How many vertices these records bring back.
fn count_puts(records: &[StepRecord]) -> usize
    requires { sum_by put_total records.now ≤ MAX_POINTS }
    ensures { result ≡ sum_by put_total records.now }
{
    let mut count = 0;
    for step_record in records {
        count += puts_of(step_record);
    }
    count
}

/// How many points all arcs have.
fn count_points(arcs: &[BaseArc]) -> usize
    requires { count_points arcs.now ≤ MAX_POINTS }
    ensures { result ≡ count_points arcs.now }
{
    let mut count = 0;
    for arc in arcs {
        count += arc.points.len();
    }
    count
}

/// Appends a word and a number.
fn put_named(alloc: Global, text: &mut Text, name: &[u8], number: usize) -> Result<(), Memory>
    ensures { OnOk result (text.new ≡ text.old ++ 32 ∷ name.now ++ 32 ∷ decimal number) }
{
    text.push_slice(b" ")?;
    text.push_slice(name)?;
    put_size(alloc, text, number)
}

/// Appends how many faces, arcs and points a base map has.
fn put_base(alloc: Global, text: &mut Text, base: &Base) -> Result<(), Memory>
    ensures { OnOk result (text.new ≡ with_base text.old base.now) }
{
    put_named(alloc, text, b"faces", base.classes().len())?;
    put_named(alloc, text, b"arcs", base.arcs().len())?;
    put_named(alloc, text, b"points", count_points(base.arcs().as_slice()))
}

/// The line of a map of so many rows and of what was counted of it.
fn counts_text(alloc: Global, rows: u32, base: &Base, counted: &Counted) -> Result<Text, Memory>
    ensures { IfOk result (λ text. text ≡ counts_text rows base.now counted.now.steps counted.now.removed counted.now.last.edges counted.now.last.points
        counted.now.reached.edges counted.now.reached.points) }
{
    let mut text = Text::from_slice(alloc, b"grid")?;
    put_count(alloc, &mut text, rows)?;
    put_base(alloc, &mut text, base)?;
    put_named(alloc, &mut text, b"steps", counted.steps as usize)?;
    put_named(alloc, &mut text, b"removed", counted.removed)?;
    put_named(alloc, &mut text, b"edges", counted.last.edges)?;
    put_named(alloc, &mut text, b"kept", counted.last.points)?;
    put_named(alloc, &mut text, b"replayed", counted.reached.edges)?;
    put_size(alloc, &mut text, counted.reached.points)?;
    text.push_slice(b"\n")?;
    Ok(text)
}
