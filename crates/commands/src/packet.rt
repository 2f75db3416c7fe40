//! The command that tells the packet of a map between two steps of its history.

ghost use Rattle.std.specs.Prelude.{◌≡◌, string_bytes, map};
ghost use Rattle.commands.specs.declared.outcome.Outcome.TheVariants as outcome;
ghost use Rattle.commands.specs.Command as spec;
ghost use Rattle.commands.specs.MapFile.{files_of_map};
ghost use Rattle.commands.specs.Asked.{asked, source_of};
ghost use Rattle.commands.specs.Answers.{AnswersCommand, Failed, KeepCounts, IsEither, outcome_from};
ghost use Rattle.commands.specs.Outcomes.{packet_refusal};
ghost use Rattle.commands.specs.Packet.{packet_command, SaysPacket, SaysPacketOf, packet_outcome, packet_of_outcome};

use crate::command::{Command, Source, source_named};
use crate::load::load_map;
use crate::outcome::Outcome;
use base_check::check;
use built_text::packet_text_at;
use plain_io::{Files, read_number};
use refine_packets::PacketFail;
use std::alloc::Global;
use std::thread::Threads;
use tgap_build::{Built, build};
use tgap_model::{Base, Checked, Text};

/// The command of these words after its name.
pub fn parse(words: &[String]) -> Option<Command<'_>>
    ensures { asked result ≡ packet_command (map string_bytes words.now) }
{
    let [map, from, to, rest @ ..] = words else {
        return None;
    };
    let map = source_named(map.as_str(), rest)?;
    let from = read_number(from.as_bytes(), 0, i64::from(u32::MAX))?;
    let to = read_number(to.as_bytes(), 0, i64::from(u32::MAX))?;
    Some(Command::Packet {
        map,
        from: from as u32,
        to: to as u32,
    })
}

/// The packet text of the map from one step to another, or what comes in its place.
pub fn answer<R: Threads + Sync, F: Files>(
    rt: &R,
    alloc: Global,
    map: Source<'_>,
    from: u32,
    to: u32,
    files: &mut F,
) -> Result<Text, Outcome>
    ensures answers { AnswersCommand (spec.Packet (source_of map.entry) from to) (F.told files.old)
        (Failed (F.faults files.old) (F.faults files.new)) (outcome_from result) }
    ensures counts { KeepCounts (files_of_map (source_of map.entry)) (F.faults files.old) (F.faults files.new)
        (λ kind. outcome_from result ≡ outcome.LoadFault kind) }
{
    let base = load_map(alloc, map, files)?;
    packet_of_base(rt, alloc, base, from, to)
}

/// The packet text of a base map from one step to another; or its first fault, where it is no planar partition.
fn packet_of_base<R: Threads + Sync>(
    rt: &R,
    alloc: Global,
    base: Base,
    from: u32,
    to: u32,
) -> Result<Text, Outcome>
    ensures { IsEither (SaysPacket from to base) (packet_outcome from to base) (outcome_from result) }
{
    let checked = check(rt, alloc, base)?;
    packet_of_checked(rt, alloc, checked, from, to)
}

/// The packet text of a planar partition from one step to another; or the steps are none between which there is a packet.
fn packet_of_checked<R: Threads + Sync>(
    rt: &R,
    alloc: Global,
    checked: Checked,
    from: u32,
    to: u32,
) -> Result<Text, Outcome>
    ensures { IsEither (SaysPacketOf from to checked) (packet_of_outcome from to checked) (outcome_from result) }
{
    let built = build(rt, alloc, checked)?;
    packet_of(alloc, &built, from, to)
}

/// The packet text of what was built of a map; or the steps are none between which there is a packet.
fn packet_of(alloc: Global, built: &Built, from: u32, to: u32) -> Result<Text, Outcome>
    ensures { IsEither (SaysPacketOf from to built.now) (packet_of_outcome from to built.now) (outcome_from result) }
{
    // Of what is built it is known by its base map that it is a planar partition.
    let _base = built.base();
    match packet_text_at(alloc, built, from, to) {
        Ok(text) => Ok(text),
        Err(fail) => Err(without_packet(fail, from, to)),
    }
}

/// What comes in the place of a packet between these steps.
fn without_packet(fail: PacketFail, from: u32, to: u32) -> Outcome
    ensures { result ≡ packet_refusal from to fail }
{
    match fail {
        PacketFail::NotCoarser => Outcome::NotCoarser { from, to },
        PacketFail::StepTooHigh { steps } => Outcome::StepTooHigh { steps },
        PacketFail::Memory => Outcome::OutOfMemory,
    }
}
