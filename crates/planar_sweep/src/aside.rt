//! Which segments to set aside so that the sweep goes through the others. It is a guess: who gets it asks whether the
//! others are apart.

ghost use Rattle.std.specs.Prelude.{◌≡◌, ◌<◌, ◌^◌, length, Contains, IfOk, IfSome};
ghost use Rattle.std.specs.List.{All};
ghost use Rattle.planar_sweep.specs.Ends.{IsReady};
ghost use Rattle.planar_sweep.specs.Line.{IsLineOf};
ghost use Rattle.planar_sweep.specs.Rows.{changes};

use crate::events::{Event, event_of, events_of};
use crate::line::Line;
use crate::marks::{Mark, is_fair_after, is_fair_to_next, marks_of};
use std::alloc::Global;
use tgap_model::{LabelledSegment, Memory, Seg};

/// Sets the segment of a number aside.
fn set_aside(aside: &mut [bool], number: u32) {
    if let Some(flag) = aside.get_mut(number as usize) {
        *flag = true;
    }
}

/// Whether the segment of a number is set aside.
fn is_aside(aside: &[bool], number: u32) -> bool {
    aside.get(number as usize).copied().unwrap_or(false)
}

/// Sets aside the segment of a mark, and of a joint mark the one before it too.
fn set_mark_aside(mark: &Mark, aside: &mut [bool]) {
    set_aside(aside, mark.number);
    if mark.joint {
        set_aside(aside, mark.number.saturating_sub(1));
    }
}

/// Sets aside the segments of the mark at a place and of those of the next two that have its point.
fn set_three_aside(marks: &[Mark], place: usize, aside: &mut [bool])
    requires inside { place < length marks.now }
{
    for mark in marks.iter().skip(place).take(3) {
        if mark.key == marks[place].key {
            set_mark_aside(mark, aside);
        }
    }
}

/// Sets aside the segments with ends that may not share their point with others.
pub fn ends_aside(
    alloc: Global,
    segments: &[LabelledSegment],
    aside: &mut [bool],
) -> Result<(), Memory>
    requires few { length segments.now < 2 ^ 32 }
{
    let marks = marks_of(alloc, segments)?;
    for i in 0..marks.len() {
        if !(is_fair_to_next(segments, &marks, i) && is_fair_after(&marks, i)) {
            set_three_aside(&marks, i, aside);
        }
    }
    Ok(())
}

/// A segment that is not set aside comes into the row, or is set aside where it does not fit there.
fn come_or_aside(
    segs: &[Seg],
    line: &mut Line,
    number: u32,
    aside: &mut [bool],
) -> Result<(), Memory>
    requires ready { All (λ s. IsReady s) segs.now }
    requires line { IsLineOf segs.now line.old }
    requires number { number < length segs.now }
    ensures { IfOk result (λ _. IsLineOf segs.now line.new) }
{
    if is_aside(aside, number) {
        return Ok(());
    }
    let found = line.come(segs, number, None)?;
    if found.is_none() {
        set_aside(aside, number);
    }
    Ok(())
}

/// The number below one of the row, if it does not fit there.
fn misfit_below(segs: &[Seg], line: &Line, upper: u32) -> Option<u32>
    requires ready { All (λ s. IsReady s) segs.now }
    requires line { IsLineOf segs.now line.now }
    ensures { IfSome result (λ lower. Contains line.now.row.row lower) }
{
    if !line.row.has(upper) {
        return None;
    }
    let lower = line.row.below(upper);
    if !line.row.has(lower) || line.fits_above(segs, upper, lower) {
        return None;
    }
    Some(lower)
}

/// Sets aside what does not fit below a number of the row.
fn close(segs: &[Seg], line: &mut Line, upper: u32, aside: &mut [bool])
    requires ready { All (λ s. IsReady s) segs.now }
    requires line { IsLineOf segs.now line.old }
    ensures { IsLineOf segs.now line.new }
{
    for _ in 0..segs.len() {
        let Some(lower) = misfit_below(segs, line, upper) else {
            return;
        };
        line.take_out(segs, lower);
        set_aside(aside, lower);
    }
}

/// A segment leaves the row where it is in it, and what does not fit in its place is set aside.
fn leave_and_close(segs: &[Seg], line: &mut Line, number: u32, aside: &mut [bool])
    requires ready { All (λ s. IsReady s) segs.now }
    requires line { IsLineOf segs.now line.old }
    requires number { number < length segs.now }
    ensures { IsLineOf segs.now line.new }
{
    if !line.row.has(number) {
        return;
    }
    let upper = line.row.above(number);
    line.take_out(segs, number);
    close(segs, line, upper, aside);
}

/// The next event: segments that are not set aside come into the row or leave it.
fn pass(segs: &[Seg], event: Event, line: &mut Line, aside: &mut [bool]) -> Result<(), Memory>
    requires ready { All (λ s. IsReady s) segs.now }
    requires line { IsLineOf segs.now line.old }
    requires known { All (λ c. c.number < length segs.now) (changes event) }
    ensures { IfOk result (λ _. IsLineOf segs.now line.new) }
{
    match event {
        Event::Leaves { number } => leave_and_close(segs, line, number, aside),
        Event::Comes { number } => come_or_aside(segs, line, number, aside)?,
        Event::Passes { from, to } => {
            leave_and_close(segs, line, from, aside);
            come_or_aside(segs, line, to, aside)?;
        }
    }
    Ok(())
}

/// Sets aside the segments that do not fit into the row where the sweep comes to them.
pub fn misfits_aside(
    alloc: Global,
    segments: &[LabelledSegment],
    segs: &[Seg],
    aside: &mut [bool],
) -> Result<(), Memory>
    requires same { length segs.now ≡ length segments.now }
    requires ready { All (λ s. IsReady s) segs.now }
    requires few { length segs.now < 2 ^ 32 }
{
    let keys = events_of(alloc, segments, segs)?;
    let mut line = Line::of(alloc, segs.len() as u32)?;
    for k in 0..keys.len() {
        pass(segs, event_of(keys[k]), &mut line, aside)?;
    }
    Ok(())
}
