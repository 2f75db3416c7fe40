//! What is read from a version as a topology.

ghost use Rattle.std.specs.Prelude.{◌≡◌, ◌↔◌, ◌<◌, ◌≤◌, ℕ, length, Err, IfOk};
ghost use Rattle.line_forms.specs.Texts.{line};
ghost use Rattle.plain_io.specs.Taking.{GivesWhole};
ghost use Rattle.tgap_model.specs.History.{history_of};
ghost use Rattle.tgap_model.specs.Slice.{slice};
ghost use Rattle.slice_read.specs.declared.fail.ReadFail.TheVariants.{StepTooHigh};
ghost use Rattle.slice_read.specs.Ends.{LeaveNodes, slice_ends};
ghost use Rattle.topo_write.specs.Topology.{export};
ghost use Rattle.session.specs.Answers.{IsAnswer, exported, flat_words, topology_answer};

use crate::answer::{Answer, plain};
use plain_io::put_count;
use slice_read::{EdgeEnds, ReadFail, ends_at, slice_at};
use std::alloc::Global;
use std::marker::Brand;
use std::sync::ledger::{Blank, Ledger};
use tgap_build::Built;
use tgap_model::{List, Memory, Or, Slice, Steps, Text, Transform};
use topo_write::{FlatRing, topo_of};
use wire_text::step_too_high_text;

/// The slice after so many steps. Nobody counts the looks that it takes.
fn slice_after<L: Ledger>(
    alloc: Global,
    built: &Built,
    step: u32,
    blank: Blank,
) -> Result<Slice, ReadFail>
    requires name { blank.name ≡ L.name }
    requires parts { blank.parts ≡ L.parts }
    requires some { 0 < blank.parts }
    ensures exact { IfOk result (λ s. s ≡ slice built.now step) }
    ensures high { (steps : ℕ) → (result ≡ Err (StepTooHigh steps)) ↔ ((length (history_of built.now) < step) × (steps ≡ length (history_of built.now))) }
{
    let mut looks = Steps::<L>::new(blank);
    slice_at(alloc, built, step, &mut looks)
}

/// The line of a face that is no polygon.
fn flat_line(alloc: Global, flat: FlatRing) -> Result<Text, Memory>
    ensures { IfOk result (λ text. text ≡ line (flat_words flat)) }
{
    let mut text = Text::from_slice(alloc, b"flat")?;
    put_count(alloc, &mut text, flat.face)?;
    put_count(alloc, &mut text, flat.key)?;
    text.push_slice(b"\n")?;
    Ok(text)
}

/// The ends of the edges of a slice at a step that there is.
fn known_ends(alloc: Global, built: &Built, step: u32) -> Result<List<EdgeEnds>, Memory>
    requires { step ≤ length (history_of built.now) }
    ensures exact { IfOk result (λ ends. ends ≡ slice_ends built.now step) }
    ensures leave { IfOk result (LeaveNodes (slice built.now step).edges) }
{
    match ends_at(alloc, built, step) {
        Ok(ends) => Ok(ends),
        Err(ReadFail::StepTooHigh { .. }) => unreachable!(),
        Err(ReadFail::Memory) => Err(Memory),
    }
}

/// The answer for a slice and the ends of its edges.
fn exported(
    alloc: Global,
    slice: &Slice,
    ends: &List<EdgeEnds>,
    transform: Transform,
) -> Result<Answer, Memory>
    requires { LeaveNodes slice.now.edges ends.now }
    ensures exact { IfOk result (λ a. a ≡ exported (export slice.now ends.now transform)) }
    ensures sendable { IfOk result IsAnswer }
{
    match topo_of(alloc, slice, ends, transform) {
        Ok(text) => Ok(plain(200, text)),
        Err(Or::Fault(flat)) => Ok(plain(422, flat_line(alloc, flat)?)),
        Err(Or::Memory) => Err(Memory),
    }
}

/// The answer for a slice as a topology.
pub(crate) fn topology_answer(alloc: Global, built: &Built, step: u32) -> Result<Answer, Memory>
    ensures exact { IfOk result (λ a. a ≡ topology_answer built.now step) }
    ensures sendable { IfOk result IsAnswer }
{
    match slice_after::<Brand>(alloc, built, step, Blank::new(1)) {
        Ok(slice) => {
            let ends = known_ends(alloc, built, step)?;
            exported(alloc, &slice, &ends, *built.base().transform())
        }
        Err(ReadFail::StepTooHigh { steps }) => {
            Ok(plain(400, step_too_high_text(alloc, steps)?))
        }
        Err(ReadFail::Memory) => Err(Memory),
    }
}
