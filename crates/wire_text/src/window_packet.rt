//! The text of a packet of a window.

ghost use Rattle.std.specs.Prelude.{◌≡◌, ◌++◌, ◌∷◌, [], flat_map, decimal, OnOk, IfOk};
ghost use Rattle.std.specs.Fmt.{signed_decimal};
ghost use Rattle.line_forms.specs.Texts.{line, lines};
ghost use Rattle.wire_text.specs.SliceTexts.{window_packet_words, window_step_words, window_step_rows, window_packet_text};
ghost use Rattle.plain_io.specs.Fields.{fields};

use crate::packet::put_mends;
use crate::rows::{put_counts, put_edges, put_face_rows};
use crate::window::put_area;
use plain_io::put_count;
use std::alloc::Global;
use tgap_model::{Memory, Text, WindowPacket, WindowStep};

/// The packet of a window in lines: the steps between which it leads and the window of the plane, and the record of each step, in
/// the order of the packet. Coordinates are in grid units.
pub fn window_packet_text(alloc: Global, packet: &WindowPacket) -> Result<Text, Memory>
    ensures { IfOk result (λ text. text ≡ window_packet_text packet.now) }
{
    let mut text = Text::new(alloc);
    put_window_packet_line(alloc, &mut text, packet)?;
    put_window_steps(&mut text, packet.steps.as_slice())?;
    text.push_slice(b"end\n")?;
    Ok(text)
}

/// Appends the first line of a packet of a window, with the steps between which it leads and the corners of the window.
fn put_window_packet_line(
    alloc: Global,
    out: &mut Text,
    packet: &WindowPacket,
) -> Result<(), Memory>
    ensures { OnOk result (out.new ≡ out.old ++ line (window_packet_words packet.now)) }
{
    out.push_slice(b"window-packet")?;
    put_ends(alloc, out, packet)
}

/// Appends the steps between which a packet leads and the corners of its window, each number with a space before it, and a line
/// feed.
fn put_ends(alloc: Global, out: &mut Text, packet: &WindowPacket) -> Result<(), Memory>
    ensures { OnOk result (out.new ≡ out.old ++ (fields
        (decimal packet.now.from ∷ decimal packet.now.to
        ∷ signed_decimal packet.now.area.x0 ∷ signed_decimal packet.now.area.y0
        ∷ signed_decimal packet.now.area.x1 ∷ signed_decimal packet.now.area.y1 ∷ []) ++ 10 ∷ [])) }
{
    put_steps(alloc, out, packet.from, packet.to)?;
    put_area(alloc, out, packet.area)?;
    out.push_slice(b"\n")
}

/// Appends the steps between which a packet leads, each with a space before it.
fn put_steps(alloc: Global, out: &mut Text, from: u32, to: u32) -> Result<(), Memory>
    ensures { OnOk result (out.new ≡ out.old ++ fields (decimal from ∷ decimal to ∷ [])) }
{
    put_count(alloc, out, from)?;
    put_count(alloc, out, to)
}

/// Appends the lines of all records.
fn put_window_steps(out: &mut Text, records: &[WindowStep]) -> Result<(), Memory>
    ensures { OnOk result (out.new ≡ out.old ++ lines (flat_map window_step_rows records.now)) }
{
    for record in records {
        put_window_step(out, record)?;
    }
    Ok(())
}

/// Appends the lines of a record of a window: its step, the faces and the mends, and the edges that come.
pub fn put_window_step(out: &mut Text, step: &WindowStep) -> Result<(), Memory>
    ensures { OnOk result (out.new ≡ out.old ++ lines (window_step_rows step.now)) }
{
    put_window_step_line(out, step)?;
    put_face_rows(out, step.faces.as_slice())?;
    put_mends(out, step.mends.as_slice())?;
    put_edges(out, step.comes.as_slice())
}

/// Appends the line of a step of a window.
fn put_window_step_line(out: &mut Text, step: &WindowStep) -> Result<(), Memory>
    ensures { OnOk result (out.new ≡ out.old ++ line (window_step_words step.now)) }
{
    put_counts(
        out,
        b"step",
        &[
            u64::from(step.step),
            u64::from(step.loser),
            u64::from(step.winner),
            u64::from(step.made),
            step.faces.len() as u64,
            step.mends.len() as u64,
            step.comes.len() as u64,
        ],
    )
}
