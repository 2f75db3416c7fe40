//! The command that replays a packet on a slice.

ghost use Rattle.std.specs.Prelude.{◌≡◌, ◌*◌, ◌≤◌, string_bytes, map, length, sum_by, IfOk};
ghost use Rattle.slice_forms.specs.SliceForms.{segment_count, record_load};
ghost use Rattle.wire_text.specs.SliceReading.{IsSliceText, IsPacketText, slice_of_text, packet_of_text};
ghost use Rattle.wire_text.specs.Reading.{bad_text};
ghost use Rattle.commands.specs.declared.outcome.Outcome.TheVariants as outcome;
ghost use Rattle.commands.specs.declared.outcome.Misfit.TheVariants as misfit;
ghost use Rattle.commands.specs.Command as spec;
ghost use Rattle.commands.specs.Asked.{asked};
ghost use Rattle.commands.specs.Answers.{AnswersCommand, Failed, KeepCounts, IsEither, ReadsText, outcome_from};
ghost use Rattle.commands.specs.Replay.{replay_command, files_of_replay, SaysTexts, texts_outcome};

use crate::command::Command;
use crate::load::load;
use crate::outcome::{Misfit, Outcome};
use client_replay::replay;
use plain_io::{Files, Which};
use std::alloc::Global;
use tgap_model::{MAX_TEXT_BYTES, Or, Packet, Slice, Text};
use wire_text::{read_packet, read_slice, slice_text};

/// The command of these words after its name.
pub fn parse(words: &[String]) -> Option<Command<'_>>
    ensures { asked result ≡ replay_command (map string_bytes words.now) }
{
    let [slice, packet] = words else {
        return None;
    };
    Some(Command::Replay {
        slice: slice.as_str(),
        packet: packet.as_str(),
    })
}

/// The text of the slice that is reached, or what comes in its place.
pub fn answer<F: Files>(
    alloc: Global,
    slice: &str,
    packet: &str,
    files: &mut F,
) -> Result<Text, Outcome>
    ensures answers { AnswersCommand (spec.Replay slice.now packet.now) (F.told files.old)
        (Failed (F.faults files.old) (F.faults files.new)) (outcome_from result) }
    ensures counts { KeepCounts (files_of_replay slice.now packet.now) (F.faults files.old) (F.faults files.new)
        (λ kind. outcome_from result ≡ outcome.LoadFault kind) }
{
    let slice = load(alloc, Which::Slice, slice, MAX_TEXT_BYTES, files)?;
    let packet = load(alloc, Which::Packet, packet, MAX_TEXT_BYTES, files)?;
    texts_replayed(alloc, slice.as_slice(), packet.as_slice())
}

/// The text of the slice that a packet leads to from another, of which these are the texts; or why it leads to none.
fn texts_replayed(alloc: Global, slice: &[u8], packet: &[u8]) -> Result<Text, Outcome>
    requires slice { length slice.now ≤ MAX_TEXT_BYTES }
    requires packet { length packet.now ≤ MAX_TEXT_BYTES }
    ensures { IsEither (SaysTexts slice.now packet.now) (texts_outcome slice.now packet.now) (outcome_from result) }
{
    let mut slice = slice_of(alloc, slice)?;
    let packet = packet_of(alloc, packet)?;
    replay(alloc, &mut slice, &packet)?;
    Ok(slice_text(alloc, &slice)?)
}

/// The slice of which these bytes are the text; or the first line that is not of its form.
fn slice_of(alloc: Global, bytes: &[u8]) -> Result<Slice, Outcome>
    ensures read { ReadsText (IsSliceText bytes.now) (slice_of_text bad_text bytes.now) misfit.SliceLine result }
    ensures room { IfOk result (λ s. 2 * segment_count s.edges ≤ length bytes.now) }
{
    match read_slice(alloc, bytes) {
        Ok(slice) => Ok(slice),
        Err(Or::Fault(bad)) => Err(Outcome::Unfit(Misfit::SliceLine { line: bad.line })),
        Err(Or::Memory) => Err(Outcome::OutOfMemory),
    }
}

/// The packet of which these bytes are the text; or the first line that is not of its form.
fn packet_of(alloc: Global, bytes: &[u8]) -> Result<Packet, Outcome>
    ensures read { ReadsText (IsPacketText bytes.now) (packet_of_text bad_text bytes.now) misfit.PacketLine result }
    ensures room { IfOk result (λ p. 2 * sum_by record_load p.steps ≤ length bytes.now) }
{
    match read_packet(alloc, bytes) {
        Ok(packet) => Ok(packet),
        Err(Or::Fault(bad)) => Err(Outcome::Unfit(Misfit::PacketLine { line: bad.line })),
        Err(Or::Memory) => Err(Outcome::OutOfMemory),
    }
}
