//! The command that tells the slice of a map after a step of its history.

ghost use Rattle.std.specs.Prelude.{◌≡◌, string_bytes, map};
ghost use Rattle.commands.specs.declared.outcome.Outcome.TheVariants as outcome;
ghost use Rattle.commands.specs.Command as spec;
ghost use Rattle.commands.specs.MapFile.{files_of_map};
ghost use Rattle.commands.specs.Asked.{asked, source_of};
ghost use Rattle.commands.specs.Answers.{AnswersCommand, Failed, KeepCounts, IsEither, outcome_from};
ghost use Rattle.commands.specs.Slice.{slice_command, SaysSlice, SaysSliceOf, slice_outcome, slice_of_outcome};

use crate::command::{Command, Source, source_named};
use crate::load::load_map;
use crate::outcome::Outcome;
use base_check::check;
use built_text::slice_text_at;
use plain_io::{Files, read_number};
use std::alloc::Global;
use std::thread::Threads;
use tgap_build::{Built, build};
use tgap_model::{Base, Checked, Text};

/// The command of these words after its name.
pub fn parse(words: &[String]) -> Option<Command<'_>>
    ensures { asked result ≡ slice_command (map string_bytes words.now) }
{
    let [map, step, rest @ ..] = words else {
        return None;
    };
    let map = source_named(map.as_str(), rest)?;
    let step = read_number(step.as_bytes(), 0, i64::from(u32::MAX))?;
    Some(Command::Slice {
        map,
        step: step as u32,
    })
}

/// The slice text of the map after this step, or what comes in its place.
pub fn answer<R: Threads + Sync, F: Files>(
    rt: &R,
    alloc: Global,
    map: Source<'_>,
    step: u32,
    files: &mut F,
) -> Result<Text, Outcome>
    ensures answers { AnswersCommand (spec.Slice (source_of map.entry) step) (F.told files.old)
        (Failed (F.faults files.old) (F.faults files.new)) (outcome_from result) }
    ensures counts { KeepCounts (files_of_map (source_of map.entry)) (F.faults files.old) (F.faults files.new)
        (λ kind. outcome_from result ≡ outcome.LoadFault kind) }
{
    let base = load_map(alloc, map, files)?;
    slice_of_base(rt, alloc, base, step)
}

/// The slice text of a base map after this step; or its first fault, where it is no planar partition.
fn slice_of_base<R: Threads + Sync>(
    rt: &R,
    alloc: Global,
    base: Base,
    step: u32,
) -> Result<Text, Outcome>
    ensures { IsEither (SaysSlice step base) (slice_outcome step base) (outcome_from result) }
{
    let checked = check(rt, alloc, base)?;
    slice_of_checked(rt, alloc, checked, step)
}

/// The slice text of a planar partition after this step; or the step is above the last one.
fn slice_of_checked<R: Threads + Sync>(
    rt: &R,
    alloc: Global,
    checked: Checked,
    step: u32,
) -> Result<Text, Outcome>
    ensures { IsEither (SaysSliceOf step checked) (slice_of_outcome step checked) (outcome_from result) }
{
    let built = build(rt, alloc, checked)?;
    slice_of(alloc, &built, step)
}

/// The slice text of what was built of a map, after this step; or the step is above the last one.
fn slice_of(alloc: Global, built: &Built, step: u32) -> Result<Text, Outcome>
    ensures { IsEither (SaysSliceOf step built.now) (slice_of_outcome step built.now) (outcome_from result) }
{
    // Of what is built it is known by its base map that it is a planar partition.
    let _base = built.base();
    Ok(slice_text_at(alloc, built, step)?)
}
