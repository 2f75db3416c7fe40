//! What is read from a version as the packet of a window.

ghost use Rattle.std.specs.Prelude.{◌≡◌, IfOk};
ghost use Rattle.tgap_model.specs.Merged.{merged};
ghost use Rattle.tgap_model.specs.WindowRecords.{window_packet_of};
ghost use Rattle.wire_text.specs.SliceTexts.{window_packet_text};
ghost use Rattle.session.specs.Answers.{IsAnswer, to_finer, window_packet_answer};

use crate::answer::{Answer, bad_number, plain};
use crate::read::not_coarser_line;
use http_face::is_ordered;
use refine_packets::{PacketFail, window_packet};
use std::alloc::Global;
use tgap_build::Built;
use tgap_model::{Memory, Window};
use wire_text::{step_too_high_text, window_packet_text};

/// The answer for a packet of a window whose ends are in order.
fn ordered_window_packet_answer(
    alloc: Global,
    built: &Built,
    from: u32,
    to: u32,
    area: Window,
) -> Result<Answer, Memory>
    ensures exact { IfOk result (λ a. a ≡ to_finer built.now from to (window_packet_text (window_packet_of (merged built.now) area from to))) }
    ensures sendable { IfOk result IsAnswer }
{
    match window_packet(alloc, built, from, to, area) {
        Ok(packet) => Ok(plain(200, window_packet_text(alloc, &packet)?)),
        Err(PacketFail::NotCoarser) => Ok(plain(400, not_coarser_line(alloc, from, to)?)),
        Err(PacketFail::StepTooHigh { steps }) => {
            Ok(plain(400, step_too_high_text(alloc, steps)?))
        }
        Err(PacketFail::Memory) => Err(Memory),
    }
}

/// The answer for a packet of a window. Ends that are out of order are told before what is wrong with the steps.
pub(crate) fn window_packet_answer(
    alloc: Global,
    built: &Built,
    from: u32,
    to: u32,
    area: Window,
) -> Result<Answer, Memory>
    ensures exact { IfOk result (λ a. a ≡ window_packet_answer built.now from to area) }
    ensures sendable { IfOk result IsAnswer }
{
    if is_ordered(area) {
        ordered_window_packet_answer(alloc, built, from, to, area)
    } else {
        bad_number(alloc)
    }
}
