//! Trials of windows and of their packets.

use crate::edits::natural;
use crate::map::load_built;
use crate::outcome::Outcome;
use plain_io::{Files, Sink, read_number};
use refine_packets::{PacketFail, window_packet};
use slice_read::{ReadFail, window_at};
use std::alloc::Global;
use std::thread::Threads;
use tgap_build::Built;
use tgap_model::{Text, Window};
use wire_text::{window_packet_text, window_text};

/// Puts the text of a window of a map, of which the words name a step and the ends.
pub fn window<R: Threads + Sync, F: Files, S: Sink>(
    rt: &R,
    alloc: Global,
    map: &str,
    words: &[String],
    files: &mut F,
    out: &mut S,
) -> Result<(), Outcome> {
    let [step, ends @ ..] = words else {
        return Err(Outcome::Usage);
    };
    let (step, area) = (natural(step)?, area_of(ends)?);
    let text = text_of_window(rt, alloc, map, step, area, files)?;
    Ok(out.put(text.as_slice())?)
}

/// Puts the text of a packet of a window of a map, of which the words name two steps and the ends.
pub fn packet<R: Threads + Sync, F: Files, S: Sink>(
    rt: &R,
    alloc: Global,
    map: &str,
    words: &[String],
    files: &mut F,
    out: &mut S,
) -> Result<(), Outcome> {
    let [from, to, ends @ ..] = words else {
        return Err(Outcome::Usage);
    };
    let (from, to, area) = (natural(from)?, natural(to)?, area_of(ends)?);
    let text = text_of_packet(rt, alloc, map, from, to, area, files)?;
    Ok(out.put(text.as_slice())?)
}

/// The text of a window of a map.
fn text_of_window<R: Threads + Sync, F: Files>(
    rt: &R,
    alloc: Global,
    map: &str,
    k: u32,
    area: Window,
    files: &mut F,
) -> Result<Text, Outcome> {
    let built = load_built(rt, alloc, map, files)?;
    window_of(alloc, &built, k, area)
}

/// The text of a window of what was built of a map.
fn window_of(alloc: Global, built: &Built, k: u32, area: Window) -> Result<Text, Outcome> {
    match window_at(alloc, built, k, area) {
        Ok(window) => Ok(window_text(alloc, &window, area)?),
        Err(ReadFail::StepTooHigh { .. }) => Err(Outcome::Refused),
        Err(ReadFail::Memory) => Err(Outcome::Memory),
    }
}

/// The text of a packet of a window of a map.
fn text_of_packet<R: Threads + Sync, F: Files>(
    rt: &R,
    alloc: Global,
    map: &str,
    from: u32,
    to: u32,
    area: Window,
    files: &mut F,
) -> Result<Text, Outcome> {
    let built = load_built(rt, alloc, map, files)?;
    packet_of(alloc, &built, from, to, area)
}

/// The text of a packet of a window of what was built of a map.
fn packet_of(
    alloc: Global,
    built: &Built,
    from: u32,
    to: u32,
    area: Window,
) -> Result<Text, Outcome> {
    match window_packet(alloc, built, from, to, area) {
        Ok(packet) => Ok(window_packet_text(alloc, &packet)?),
        Err(PacketFail::NotCoarser | PacketFail::StepTooHigh { .. }) => Err(Outcome::Refused),
        Err(PacketFail::Memory) => Err(Outcome::Memory),
    }
}

/// The window whose ends four words spell.
fn area_of(words: &[String]) -> Result<Window, Outcome> {
    let [x0, y0, x1, y1] = words else {
        return Err(Outcome::Usage);
    };
    Ok(Window {
        x0: whole(x0)?,
        y0: whole(y0)?,
        x1: whole(x1)?,
        y1: whole(y1)?,
    })
}

/// The number that a word spells.
fn whole(word: &String) -> Result<i64, Outcome> {
    match read_number(word.as_bytes(), i64::MIN, i64::MAX) {
        Some(number) => Ok(number),
        None => Err(Outcome::Usage),
    }
}
