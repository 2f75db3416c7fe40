//! The text of a packet.

ghost use Rattle.std.specs.Prelude.{◌≡◌, ◌<◌, ◌≤◌, ◌-◌, ◌++◌, ◌↔◌, ℕ, flat_map, length, IfOk, OnOk, Err};
ghost use Rattle.tgap_model.specs.History.{history_of};
ghost use Rattle.tgap_model.specs.Merged.{merged};
ghost use Rattle.tgap_model.specs.Records.{packet_of, records_down};
ghost use Rattle.line_forms.specs.Texts.{lines};
ghost use Rattle.wire_text.specs.SliceTexts.{record_rows, packet_text};
ghost use Rattle.refine_packets.specs.declared.fail.PacketFail.TheVariants.{NotCoarser, StepTooHigh};

use refine_packets::PacketFail;
use std::alloc::Global;
use tgap_build::Built;
use tgap_model::{Memory, Text};
use wire_text::{put_packet_line, put_record};

/// The text of the packet between two steps, as `wire_text::packet_text` of `refine_packets::packet`, written without
/// copying the records. There is none to a coarser slice, which is tested first, and none from a step that the history does
/// not have. The time is that of the records.
pub fn packet_text_at(alloc: Global, built: &Built, from: u32, to: u32) -> Result<Text, PacketFail>
    // It is the text of the packet by the definition.
    ensures exact { IfOk result (λ text. text ≡ packet_text (packet_of (merged built.now) from to)) }
    // It is refused exactly where `from` is below `to`.
    ensures coarser { (result ≡ Err NotCoarser) ↔ (from < to) }
    // Otherwise it is refused exactly where `from` is above the number of the last step, which the refusal tells.
    ensures high { (steps : ℕ) → (result ≡ Err (StepTooHigh steps))
        ↔ ((to ≤ from) × (length (history_of built.now) < from) × (steps ≡ length (history_of built.now))) }
{
    if from < to {
        return Err(PacketFail::NotCoarser);
    }
    let steps = built.steps();
    if from > steps {
        return Err(PacketFail::StepTooHigh { steps });
    }
    let mut text = Text::new(alloc);
    put_packet_line(&mut text, from, to)?;
    put_records(&mut text, built, from, to)?;
    text.push_slice(b"end\n")?;
    Ok(text)
}

/// Appends the lines of the records of the steps `from` down to `to + 1`, in this order.
fn put_records(out: &mut Text, built: &Built, from: u32, to: u32) -> Result<(), Memory>
    requires down { to ≤ from }
    requires within { from ≤ length (history_of built.now) }
    ensures { OnOk result (out.new ≡ out.old ++ lines (flat_map record_rows (records_down (merged built.now) from (from - to)))) }
{
    for i in 0..from - to {
        put_record(out, built.record_of(from - i))?;
    }
    Ok(())
}
