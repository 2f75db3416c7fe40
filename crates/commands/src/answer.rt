//! What comes of the words of a command line.

ghost use Rattle.std.specs.Prelude.{◌≡◌, string_bytes, map};
ghost use Rattle.commands.specs.declared.outcome.Outcome.TheVariants as outcome;
ghost use Rattle.commands.specs.Commands.{command};
ghost use Rattle.commands.specs.Answers.{Answers, Failed, KeepCounts, files_for, outcome_from};

use crate::command::{Command, parse_command};
use crate::outcome::Outcome;
use crate::{borders, check, grid, packet, replay, slice};
use plain_io::Files;
use std::alloc::Global;
use std::thread::Threads;
use tgap_model::Text;

/// Does what the words of a command line ask for, where they are a command that ends by itself: loads the files that they
/// name, one after the other up to one that cannot be loaded or is too long, and gives the outcome, of which nothing has been
/// put yet. Where they are none, no file is loaded.
pub fn execute<R: Threads + Sync, F: Files>(
    rt: &R,
    alloc: Global,
    words: &[String],
    files: &mut F,
) -> Outcome
    ensures answers { Answers (map string_bytes words.now) (F.told files.old) (Failed (F.faults files.old) (F.faults files.new)) result }
    ensures counts { KeepCounts (files_for (command (map string_bytes words.now))) (F.faults files.old) (F.faults files.new)
        (λ kind. result ≡ outcome.LoadFault kind) }
{
    match answer(rt, alloc, words, files) {
        Ok(text) => Outcome::Done(text),
        Err(outcome) => outcome,
    }
}

/// The text that the words ask for, or what comes in its place.
fn answer<R: Threads + Sync, F: Files>(
    rt: &R,
    alloc: Global,
    words: &[String],
    files: &mut F,
) -> Result<Text, Outcome>
    ensures answers { Answers (map string_bytes words.now) (F.told files.old) (Failed (F.faults files.old) (F.faults files.new))
        (outcome_from result) }
    ensures counts { KeepCounts (files_for (command (map string_bytes words.now))) (F.faults files.old) (F.faults files.new)
        (λ kind. outcome_from result ≡ outcome.LoadFault kind) }
{
    match parse_command(words) {
        None => Err(Outcome::Usage),
        Some(Command::Borders { map, step }) => borders::answer(alloc, map, step, files),
        Some(Command::Check { map }) => check::answer(rt, alloc, map, files),
        Some(Command::Slice { map, step }) => slice::answer(rt, alloc, map, step, files),
        Some(Command::Packet { map, from, to }) => packet::answer(rt, alloc, map, from, to, files),
        Some(Command::Replay { slice, packet }) => replay::answer(alloc, slice, packet, files),
        Some(Command::Grid { size }) => grid::answer(rt, alloc, size),
    }
}
