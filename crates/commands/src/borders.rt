//! The command that tells the borders of a map after a step of its history.

ghost use Rattle.std.specs.Prelude.{◌≡◌, string_bytes, map};
ghost use Rattle.commands.specs.declared.outcome.Outcome.TheVariants as outcome;
ghost use Rattle.commands.specs.Command as spec;
ghost use Rattle.commands.specs.MapFile.{files_of_map};
ghost use Rattle.commands.specs.Asked.{asked, source_of};
ghost use Rattle.commands.specs.Answers.{AnswersCommand, Failed, KeepCounts, IsEither, outcome_from};
ghost use Rattle.commands.specs.Borders.{borders_command, SaysBorders, borders_outcome};

use crate::border_rows::border_rows;
use crate::command::{Command, Source};
use crate::load::load_map;
use crate::outcome::Outcome;
use face_merge::history;
use plain_io::{Files, read_number};
use std::alloc::Global;
use tgap_model::{Base, Text};
use wire_text::borders_text;

/// The command of these words after its name.
pub fn parse(words: &[String]) -> Option<Command<'_>>
    ensures { asked result ≡ borders_command (map string_bytes words.now) }
{
    let [map, step] = words else {
        return None;
    };
    let step = read_number(step.as_bytes(), 0, i64::from(u32::MAX))?;
    Some(Command::Borders {
        map: Source::Listing(map.as_str()),
        step: step as u32,
    })
}

/// The borders text of the map after this step, or what comes in its place.
pub fn answer<F: Files>(
    alloc: Global,
    map: Source<'_>,
    step: u32,
    files: &mut F,
) -> Result<Text, Outcome>
    ensures answers { AnswersCommand (spec.Borders (source_of map.entry) step) (F.told files.old)
        (Failed (F.faults files.old) (F.faults files.new)) (outcome_from result) }
    ensures counts { KeepCounts (files_of_map (source_of map.entry)) (F.faults files.old) (F.faults files.new)
        (λ kind. outcome_from result ≡ outcome.LoadFault kind) }
{
    let base = load_map(alloc, map, files)?;
    borders_of(alloc, &base, step)
}

/// The borders text of a base map after this step; or the step is above the last one.
#[tactic(auto, unfolding(crate::specs::Borders::borders_outcome))]
fn borders_of(alloc: Global, base: &Base, step: u32) -> Result<Text, Outcome>
    ensures { IsEither (SaysBorders step base.now) (borders_outcome step base.now) (outcome_from result) }
{
    let steps = history(alloc, base)?;
    if step as usize > steps.len() {
        return Err(Outcome::StepTooHigh {
            steps: steps.len() as u32,
        });
    }
    let rows = border_rows(alloc, base, &steps, step)?;
    Ok(borders_text(alloc, step, &rows)?)
}
