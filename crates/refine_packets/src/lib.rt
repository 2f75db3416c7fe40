//! Packets of a built map: the records that lead from a slice to a finer one, and those that lead a window of a slice to that of
//! a finer one. It stands on `tgap_build`, which keeps the record of each step, on `slice_read`, which has the first window, and on
//! the laws of packets in `record_laws` and `window_laws`.
#![tactic(auto)]

ghost use Rattle.std.specs.Prelude.{◌≡◌, ◌<◌, ◌≤◌, ◌-◌, ◌++◌, ◌↔◌, ℕ, true, length, IfOk, Err};
ghost use Rattle.tgap_model.specs.History.{history_of};
ghost use Rattle.tgap_model.specs.Merged.{merged};
ghost use Rattle.tgap_model.specs.Slice.{slice};
ghost use Rattle.tgap_model.specs.Records.{packet_of, records_down, replayed};
ghost use Rattle.record_laws.specs.PacketLaws.{each_fits};
ghost use Rattle.refine_packets.specs.declared.fail.PacketFail.TheVariants.{NotCoarser, StepTooHigh};

mod changes;
mod copy;
mod counts;
mod fail;
mod known;
mod near;
mod rows;
mod sight;
mod window;
mod window_step;

use copy::copied_record;
pub use fail::PacketFail;
use std::alloc::Global;
use tgap_build::Built;
use tgap_model::{List, Memory, Packet, StepRecord};
pub use window::window_packet;

/// Copies of the records of the steps `from` down to `to + 1`, in this order.
fn records_down(
    alloc: Global,
    built: &Built,
    from: u32,
    to: u32,
) -> Result<List<StepRecord>, Memory>
    requires down { to ≤ from }
    requires within { from ≤ length (history_of built.now) }
    ensures { IfOk result (λ records. records ≡ records_down (merged built.now) from (from - to)) }
{
    let mut records = List::with_capacity(alloc, (from - to) as usize)?;
    for i in 0..from - to {
        records.push(copied_record(alloc, built.record_of(from - i))?)?;
    }
    Ok(records)
}

/// The packet of a built map from the slice at step `from` to the slice at step `to`: the records of the steps `from` down to
/// `to + 1`, copied. There is none to a coarser slice, which is tested first, and none from a step that the history does not
/// have. The time is that of the records.
pub fn packet(alloc: Global, built: &Built, from: u32, to: u32) -> Result<Packet, PacketFail>
    // It is the packet by the definition.
    ensures exact { IfOk result (λ p. p ≡ packet_of (merged built.now) from to) }
    // Each of its records fits the slice that the records before it leave, from the slice at `from` on.
    ensures fits { IfOk result (λ p. each_fits (slice built.now from) p.steps ≡ true) }
    // Undone one after the other they lead to the slice at `to`.
    ensures leads { IfOk result (λ p. replayed (slice built.now from) p ≡ slice built.now to) }
    // Its records are those of the packet to any step between, and then those of the packet on from there.
    ensures joins { (middle : ℕ) → to ≤ middle → middle ≤ from
        → IfOk result (λ p. p.steps ≡ (packet_of (merged built.now) from middle).steps ++ (packet_of (merged built.now) middle to).steps) }
    // It is refused exactly where `from` is below `to`.
    ensures coarser { (result ≡ Err NotCoarser) ↔ (from < to) }
    // Otherwise it is refused exactly where `from` is above the number of the last step, which the refusal tells.
    ensures high { (steps : ℕ) → (result ≡ Err (StepTooHigh steps))
        ↔ ((to ≤ from) × (length (history_of built.now) < from) × (steps ≡ length (history_of built.now))) }
{
    if from < to {
        return Err(PacketFail::NotCoarser);
    }
    let steps = built.steps();
    if from > steps {
        return Err(PacketFail::StepTooHigh { steps });
    }
    // The look at the base, which costs nothing, tells that it is a planar partition.
    let _ = built.base();
    Ok(Packet {
        from,
        to,
        steps: records_down(alloc, built, from, to)?,
    })
}
