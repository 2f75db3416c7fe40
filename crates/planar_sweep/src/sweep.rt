//! The sweep over all events.

ghost use Rattle.std.specs.Prelude.{◌≡◌, ◌⊎◌, ◌<◌, ◌+◌, ◌^◌, pos, ◌+ℤ◌, ◌*ℤ◌, ◌≤ℤ◌, true, length, map, take, drop, get_or, AllPairs, IfOk};
ghost use Rattle.std.specs.List.{All};
ghost use Rattle.tgap_model.specs.Partition.{AreApart};
ghost use Rattle.planar_stack.specs.Sweep.{FacesAgree};
ghost use Rattle.planar_sweep.specs.Over.{forward};
ghost use Rattle.planar_sweep.specs.Rows.{Moment, moment_of, changes_of, AreEvents, HasCome, HasLeft, HasPassed};
ghost use Rattle.planar_sweep.specs.Ends.{IsReady, swept, EndsAgree};
ghost use Rattle.planar_sweep.specs.Faces.{AreOfOneColumn};
ghost use Rattle.planar_sweep.specs.Line.{IsLineOf};
ghost use Rattle.planar_sweep.specs.Swept.{HasFaces, gaps_in, IsSwept};

use crate::events::{Event, column_of, event_of, events_of};
use crate::faces::{differ, faces_of};
use crate::line::Line;
use std::alloc::Global;
use tgap_model::{LabelledSegment, Memory, Seg};

/// What a sweep shows: that no two segments have a point in common but a permitted one, and that the faces agree down
/// each vertical line. What it does not show is not promised to be wrong.
#[derive(Clone, Copy, Debug, PartialEq, Eq)]
pub struct Shown {
    pub apart: bool,
    pub agree: bool,
}

/// A segment from its earlier end to its later one.
fn forward(s: Seg) -> Seg
    ensures { result ≡ forward s }
{
    if s.b < s.a { Seg { a: s.b, b: s.a } } else { s }
}

/// The segments, each from its earlier end to its later one.
pub fn forward_of(alloc: Global, segments: &[LabelledSegment]) -> Result<Vec<Seg>, Memory>
    ensures { IfOk result (λ segs. segs.items ≡ map swept segments.now) }
{
    let mut segs = Vec::with_capacity(alloc, segments.len())?;
    for s in segments {
        segs.push(forward(s.segment))?;
    }
    Ok(segs)
}

/// A segment comes, if it may stand where it belongs, for which there may be a hint, and the places at which the faces
/// differ are counted anew there.
fn come(
    segs: &[Seg],
    faces: &[(u32, u32)],
    line: &mut Line,
    gaps: &mut usize,
    number: u32,
    hint: Option<u32>,
) -> Result<bool, Memory>
    requires ready { All (λ s. IsReady s) segs.now }
    requires line { IsLineOf segs.now line.old }
    requires number { number < length segs.now }
    requires faces { HasFaces segs.now faces.now }
    requires few { length line.old.row.row < 2 ^ 32 }
    requires gaps { gaps.old ≡ gaps_in faces.now line.old.row.row }
    ensures { IfOk result (λ fits. fits ≡ true → IsLineOf segs.now line.new
        × HasCome segs.now number line.old.row.row line.new.row.row × (gaps.new ≡ gaps_in faces.now line.new.row.row)) }
{
    let Some(upper) = line.come(segs, number, hint)? else {
        return Ok(false);
    };
    let lower = line.row.below(number);
    let added = differ(faces, upper, number) + differ(faces, number, lower);
    *gaps = *gaps + added - differ(faces, upper, lower);
    Ok(true)
}

/// A segment leaves, if its neighbours may be neighbours then, and the places are counted anew there.
fn leave(segs: &[Seg], faces: &[(u32, u32)], line: &mut Line, gaps: &mut usize, number: u32) -> bool
    requires ready { All (λ s. IsReady s) segs.now }
    requires line { IsLineOf segs.now line.old }
    requires number { number < length segs.now }
    requires faces { HasFaces segs.now faces.now }
    requires few { length line.old.row.row < 2 ^ 32 }
    requires gaps { gaps.old ≡ gaps_in faces.now line.old.row.row }
    ensures line { IsLineOf segs.now line.new }
    ensures left { result ≡ true → HasLeft segs.now number line.old.row.row line.new.row.row }
    ensures gaps { result ≡ true → gaps.new ≡ gaps_in faces.now line.new.row.row }
{
    if !line.row.has(number) {
        return false;
    }
    let upper = line.row.above(number);
    let lower = line.row.below(number);
    if !line.leave(segs, number) {
        return false;
    }
    let taken = differ(faces, upper, number) + differ(faces, number, lower);
    *gaps = *gaps + differ(faces, upper, lower) - taken;
    true
}

/// A segment comes in the place of another one, and the places are counted anew there.
fn pass(
    segs: &[Seg],
    faces: &[(u32, u32)],
    line: &mut Line,
    gaps: &mut usize,
    from: u32,
    to: u32,
) -> Result<bool, Memory>
    requires ready { All (λ s. IsReady s) segs.now }
    requires line { IsLineOf segs.now line.old }
    requires from { from < length segs.now }
    requires to { to < length segs.now }
    requires faces { HasFaces segs.now faces.now }
    requires few { length line.old.row.row + 1 < 2 ^ 32 }
    requires gaps { gaps.old ≡ gaps_in faces.now line.old.row.row }
    ensures { IfOk result (λ fits. fits ≡ true → IsLineOf segs.now line.new
        × HasPassed segs.now from to line.old.row.row line.new.row.row × (gaps.new ≡ gaps_in faces.now line.new.row.row)) }
{
    let came = come(segs, faces, line, gaps, to, Some(from))?;
    Ok(came && leave(segs, faces, line, gaps, from))
}

/// The next event: a segment comes into the row or leaves it, or one comes in the place of another.
fn step(
    segs: &[Seg],
    faces: &[(u32, u32)],
    keys: &[u64],
    k: usize,
    line: &mut Line,
    gaps: &mut usize,
) -> Result<bool, Memory>
    requires ready { All (λ s. IsReady s) segs.now }
    requires few { length segs.now + 1 < 2 ^ 32 }
    requires events { AreEvents segs.now (map moment_of keys.now) }
    requires inside { k < length keys.now }
    requires faces { HasFaces segs.now faces.now }
    requires swept { IsSwept segs.now faces.now (changes_of (take k (map moment_of keys.now))) line.old gaps.old }
    ensures { IfOk result (λ fits. fits ≡ true → IsSwept segs.now faces.now (changes_of (take (k + 1) (map moment_of keys.now))) line.new gaps.new) }
{
    match event_of(keys[k]) {
        Event::Leaves { number } => Ok(leave(segs, faces, line, gaps, number)),
        Event::Comes { number } => come(segs, faces, line, gaps, number, None),
        Event::Passes { from, to } => pass(segs, faces, line, gaps, from, to),
    }
}

/// Whether the event after the one at a place has the same abscissa.
fn goes_on(keys: &[u64], k: usize) -> bool
    requires inside { k < length keys.now }
    ensures { (d : Moment) → result ≡ true → (k + 1 < length (map moment_of keys.now))
        × AreOfOneColumn (get_or (map moment_of keys.now) k d).time (get_or (map moment_of keys.now) (k + 1) d).time }
{
    1 < keys.len() - k && column_of(keys[k]) == column_of(keys[k + 1])
}

/// Whether after the event at a place no faces differ, or the next event has the same abscissa.
fn agrees_behind(keys: &[u64], k: usize, gaps: usize) -> bool
    requires inside { k < length keys.now }
    ensures { (d : Moment) → result ≡ true → (gaps ≡ 0) ⊎ ((k + 1 < length (map moment_of keys.now))
        × AreOfOneColumn (get_or (map moment_of keys.now) k d).time (get_or (map moment_of keys.now) (k + 1) d).time) }
{
    gaps == 0 || goes_on(keys, k)
}

/// What a line shows that passes over all segments and compares those that become neighbours.
pub fn sweep_over(
    alloc: Global,
    segments: &[LabelledSegment],
    segs: &[Seg],
) -> Result<Shown, Memory>
    requires few { length segments.now < 2 ^ 32 }
    requires same { segs.now ≡ map swept segments.now }
    requires ready { All (λ s. IsReady s) segs.now }
    requires ends { EndsAgree segments.now }
    ensures apart { IfOk result (λ shown. shown.apart ≡ true → AllPairs AreApart segments.now) }
    ensures agree { IfOk result (λ shown. shown.agree ≡ true → FacesAgree segments.now) }
{
    let faces = faces_of(alloc, segments)?;
    let keys = events_of(alloc, segments, segs)?;
    let mut line = Line::of(alloc, segs.len() as u32)?;
    let mut gaps = 0;
    let mut agree = true;
    for k in 0..keys.len() {
        let fits = step(segs, &faces, &keys, k, &mut line, &mut gaps)?;
        if !fits {
            return Ok(Shown {
                apart: false,
                agree: false,
            });
        }
        agree = agree && agrees_behind(&keys, k, gaps);
    }
    Ok(Shown { apart: true, agree })
}
