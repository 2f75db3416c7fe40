//! A record undone on a slice.

ghost use Rattle.std.specs.Prelude.{◌≡◌, ◌&&◌, ℕ, true, not, Some, None, Ok, Err, IfOk, OnOk, OnErr, IsTrue, IsPermutation, [], ◌∷◌, ◌⊎◌};
ghost use Rattle.std.specs.List.{list_any};
ghost use Rattle.tgap_model.specs.declared.failure.Or.TheVariants.{Fault, Memory as WantOfMemory};
ghost use Rattle.slice_forms.specs.SliceForms.{is_slice_row, is_record_row, has_room};
ghost use Rattle.tgap_model.specs.Records.{broken_rule, undo};
ghost use Rattle.client_replay.specs.Coming.{coming, stays};
ghost use Rattle.client_replay.specs.Rules.{are_in_order, broken_before};
ghost use Rattle.client_replay.specs.Replaying.{after};
ghost use Rattle.client_replay.specs.Working.{slice_of, IsSound};

use crate::coming::{coming, keys_differ};
use crate::faces::part;
use crate::lines::change_edges;
use crate::rules::broken_before;
use crate::unfit::Unfit;
use crate::working::Working;
use std::alloc::Global;
use tgap_model::{Edge, Memory, Or, Slice, StepRecord};

/// Undoes the step of a record that keeps the rules, where these are the edges that come.
fn change(working: &mut Working, step_record: &StepRecord, edges: Vec<Edge>) -> Result<(), Memory>
    requires sound { IsSound working.old }
    requires rules { broken_before (slice_of working.old) step_record.now ≡ None }
    requires coming { IsPermutation (coming (slice_of working.old) step_record.now) edges.items }
    requires keys { (are_in_order edges.items && not (list_any (λ e. stays (slice_of working.old) step_record.now e.key) edges.items)) ≡ true }
    ensures done { OnOk result (slice_of working.new ≡ undo (slice_of working.old) step_record.now) }
    ensures sound { OnOk result (IsSound working.new) }
{
    change_edges(&mut working.lines, &mut working.labels, step_record, edges)?;
    part(&mut working.faces, step_record)?;
    working.step -= 1;
    Ok(())
}

/// Undoes the step of a record, or gives the least rule that it breaks; nothing is changed then. It takes the size of the
/// record times a logarithm.
pub fn undo_record(
    alloc: Global,
    working: &mut Working,
    step_record: &StepRecord,
) -> Result<Option<u8>, Memory>
    requires sound { IsSound working.old }
    requires slice { IsTrue (is_slice_row (slice_of working.old)) }
    requires record { IsTrue (is_record_row step_record.now) }
    requires room { IsTrue (has_room (slice_of working.old) (step_record.now ∷ [])) }
    ensures rule { IfOk result (λ rule. broken_rule (slice_of working.old) step_record.now ≡ rule) }
    ensures slice { IfOk result (λ rule. slice_of working.new ≡ after (slice_of working.old) step_record.now rule) }
    ensures sound { OnOk result (IsSound working.new) }
    ensures form { OnOk result (IsTrue (is_slice_row (slice_of working.new))) }
{
    if let Some(rule) = broken_before(working, step_record) {
        return Ok(Some(rule));
    }
    let edges = coming(alloc, working, step_record)?;
    if !keys_differ(working, step_record, edges.as_slice()) {
        return Ok(Some(7));
    }
    change(working, step_record, edges)?;
    Ok(None)
}

/// Undoes the step of a record on a slice, or refuses the record by the least rule that it breaks; the slice is then as it was.
///
/// The new face becomes loser and winner again, the edges that the record mends get their vertices back and are cut into
/// their pieces, and the edges between loser and winner come back.
///
/// It takes the size of the slice and of the record times a logarithm: for many records on one slice, `replay` is the call.
/// All is done on a copy, so that want of memory leaves the slice as it was.
pub fn apply(alloc: Global, slice: &mut Slice, step_record: &StepRecord) -> Result<(), Or<Unfit>>
    requires slice { IsTrue (is_slice_row slice.old) }
    requires record { IsTrue (is_record_row step_record.now) }
    requires room { IsTrue (has_room slice.old (step_record.now ∷ [])) }
    // Done exactly where no rule is broken; then the slice is the one a step back.
    ensures fits { OnOk result (broken_rule slice.old step_record.now ≡ None) }
    ensures done { OnOk result (slice.new ≡ undo slice.old step_record.now) }
    // Refused exactly where a rule is broken, with the least one and the record's step.
    ensures unfit { (u : Unfit) → result ≡ Err (Fault u) → (broken_rule slice.old step_record.now ≡ Some u.rule) × (u.step ≡ step_record.now.step) }
    ensures unfit_only { (rule : ℕ) → broken_rule slice.old step_record.now ≡ Some rule
        → (result ≡ Err (Fault (record { step = step_record.now.step; rule = rule }))) ⊎ (result ≡ Err WantOfMemory) }
    ensures kept { OnErr result (slice.new ≡ slice.old) }
    // It has the form of a slice then too.
    ensures form { IsTrue (is_slice_row slice.new) }
{
    let mut working = Working::of(alloc, slice)?;
    match undo_record(alloc, &mut working, step_record)? {
        Some(rule) => {
            let step = step_record.step;
            Err(Or::Fault(Unfit { step, rule }))
        }
        None => {
            *slice = working.into_slice(alloc)?;
            Ok(())
        }
    }
}
