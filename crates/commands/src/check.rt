//! The command that tells whether a map is a planar partition.

ghost use Rattle.std.specs.Prelude.{◌≡◌, string_bytes, map};
ghost use Rattle.commands.specs.declared.outcome.Outcome.TheVariants as outcome;
ghost use Rattle.commands.specs.Command as spec;
ghost use Rattle.commands.specs.MapFile.{files_of_map};
ghost use Rattle.commands.specs.Asked.{asked, source_of};
ghost use Rattle.commands.specs.Answers.{AnswersCommand, Failed, KeepCounts, IsEither, outcome_from};
ghost use Rattle.commands.specs.Check.{check_command, SaysCheck, check_outcome};

use crate::command::{Command, Source, source_named};
use crate::load::load_map;
use crate::outcome::Outcome;
use base_check::check;
use plain_io::Files;
use std::alloc::Global;
use std::thread::Threads;
use tgap_model::{Base, Text};
use wire_text::ok_text;

/// The command of these words after its name.
pub fn parse(words: &[String]) -> Option<Command<'_>>
    ensures { asked result ≡ check_command (map string_bytes words.now) }
{
    let [map, rest @ ..] = words else {
        return None;
    };
    Some(Command::Check {
        map: source_named(map.as_str(), rest)?,
    })
}

/// How many faces, arcs and points a map without a fault has, or what comes in its place.
pub fn answer<R: Threads + Sync, F: Files>(
    rt: &R,
    alloc: Global,
    map: Source<'_>,
    files: &mut F,
) -> Result<Text, Outcome>
    ensures answers { AnswersCommand (spec.Check (source_of map.entry)) (F.told files.old)
        (Failed (F.faults files.old) (F.faults files.new)) (outcome_from result) }
    ensures counts { KeepCounts (files_of_map (source_of map.entry)) (F.faults files.old) (F.faults files.new)
        (λ kind. outcome_from result ≡ outcome.LoadFault kind) }
{
    let base = load_map(alloc, map, files)?;
    check_of(rt, alloc, base)
}

/// How many faces, arcs and points a base map without a fault has, or its first fault.
#[tactic(auto, unfolding(crate::specs::Check::check_outcome))]
fn check_of<R: Threads + Sync>(rt: &R, alloc: Global, base: Base) -> Result<Text, Outcome>
    ensures { IsEither (SaysCheck base) (check_outcome base) (outcome_from result) }
{
    let checked = check(rt, alloc, base)?;
    Ok(ok_text(alloc, checked.base())?)
}
