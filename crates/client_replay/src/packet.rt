//! The records of a packet undone on a slice.

ghost use Rattle.std.specs.Prelude.{◌≡◌, true, IfOk, OnOk, IsTrue};
ghost use Rattle.std.specs.List.{list_all};
ghost use Rattle.slice_forms.specs.SliceForms.{is_slice_row, is_record_row, is_packet_row, has_room};
ghost use Rattle.tgap_model.specs.Records.{replayed};
ghost use Rattle.client_replay.specs.Replaying.{undone, outcome, Leaves, IsPartWay, OnMemory};
ghost use Rattle.client_replay.specs.Working.{slice_of, IsSound};

use crate::undo::undo_record;
use crate::unfit::Unfit;
use crate::working::Working;
use std::alloc::Global;
use tgap_model::{Memory, Or, Packet, Slice, StepRecord};

/// Undoes the steps of records, one after the other, up to the first that breaks a rule.
fn undo_all(
    alloc: Global,
    working: &mut Working,
    records: &[StepRecord],
) -> Result<Option<Unfit>, Memory>
    requires sound { IsSound working.old }
    requires slice { IsTrue (is_slice_row (slice_of working.old)) }
    requires records { list_all is_record_row records.now ≡ true }
    requires room { IsTrue (has_room (slice_of working.old) records.now) }
    ensures done { IfOk result (λ unfit. undone (slice_of working.old) records.now ≡ (slice_of working.new, unfit)) }
    ensures form { OnOk result (IsTrue (is_slice_row (slice_of working.new))) }
{
    for step_record in records {
        if let Some(rule) = undo_record(alloc, working, step_record)? {
            let step = step_record.step;
            return Ok(Some(Unfit { step, rule }));
        }
    }
    Ok(None)
}

/// Undoes the steps of a packet on a slice, one after the other.
///
/// Where the slice is not the one at the step that the packet begins at, it is refused by rule 1 with that step. At the first
/// record that breaks a rule it is refused with the record's step and the least rule; the slice is then as the records
/// before left it. On want of memory it is as it was before the call.
///
/// It takes the size of the slice, of the records and of the slice that comes of them, times a logarithm. A record passes over
/// all edges only where its winner has stood at an edge before, which is so in no packet of a map. All is done on a copy of the
/// slice, which takes its place in the end.
pub fn replay(alloc: Global, slice: &mut Slice, packet: &Packet) -> Result<(), Or<Unfit>>
    requires slice { IsTrue (is_slice_row slice.old) }
    requires packet { IsTrue (is_packet_row packet.now) }
    requires room { IsTrue (has_room slice.old packet.now.steps) }
    // The slice and the refusal, by the definition that computes.
    ensures exact { Leaves result slice.new (outcome slice.old packet.now) }
    // Where nothing is refused, all steps are undone.
    ensures done { OnOk result (slice.new ≡ replayed slice.old packet.now) }
    // On want of memory some first records are undone, each of which fits.
    ensures memory { OnMemory result (IsPartWay slice.old packet.now.steps slice.new) }
    // These are none: the slice is as it was.
    ensures kept { OnMemory result (slice.new ≡ slice.old) }
    // It has the form of a slice in each case.
    ensures form { IsTrue (is_slice_row slice.new) }
{
    if slice.step != packet.from {
        let step = packet.from;
        return Err(Or::Fault(Unfit { step, rule: 1 }));
    }
    let mut working = Working::of(alloc, slice)?;
    let unfit = undo_all(alloc, &mut working, packet.steps.as_slice())?;
    *slice = working.into_slice(alloc)?;
    match unfit {
        Some(unfit) => Err(Or::Fault(unfit)),
        None => Ok(()),
    }
}
