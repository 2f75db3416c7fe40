//! Whether segments meet nowhere but where they may, and whether the faces agree down each vertical line, by a line that
//! sweeps the plane from left to right. It stands on `grid_geo`, which tells the side of a point, on `linked_row` and
//! `chunked_row`, which keep what the line meets, on `planar_stack`, which says what it is that the faces agree, and on
//! `tgap_model`, whose `Partition` defines which ends may share a point.
#![tactic(auto)]

ghost use Rattle.std.specs.Prelude.{◌≡◌, ◌<◌, ◌^◌, true, length, AllPairs, IfOk, IsTrue};
ghost use Rattle.std.specs.List.{list_all};
ghost use Rattle.tgap_model.specs.Partition.{is_proper, AreApart};
ghost use Rattle.planar_stack.specs.Sweep.{FacesAgree};

mod aside;
mod events;
mod faces;
mod line;
mod marks;
mod over;
mod sample;
mod sweep;

use aside::{ends_aside, misfits_aside};
use marks::ends_agree;
use std::alloc::Global;
pub use sweep::Shown;
use sweep::{forward_of, sweep_over};
use tgap_model::{LabelledSegment, Memory};

/// What a sweep shows of segments: whether no two have a point in common but a permitted one, and whether the faces
/// agree down each vertical line between whole abscissas. A no is not promised to be right: who gets it looks for what
/// is wrong.
///
/// The line goes over the segments from left to right and keeps those that it meets in a row from top to bottom. Where
/// two become neighbours, they are compared in whole; the first two that meet but at ends of both end the sweep. Which
/// ends may share a point is asked before, of the ends in the order of their points. At each change of the row the
/// places are counted at which the face below a segment is not the face above the next one: there must be none where the
/// line leaves an abscissa.
///
/// A segment knows its neighbours in the row. One that goes on to the right where the segment beside it in its arc ends
/// comes in the place of that one, in one event. The place of any other one that comes is guessed: beside the segments
/// before and behind it in the list, or what came last, and else it is searched in a sample of the row. So the time is
/// that of sorting, and for each segment at most a logarithm of the height of the row; the memory is a small multiple
/// of the segments, and where it is wanting, or the segments are 2^27 or more, that is the answer. The sweep is that of
/// Shamos and Hoey, 1976.
pub fn swept(alloc: Global, segments: &[LabelledSegment]) -> Result<Shown, Memory>
    requires proper { IsTrue (list_all is_proper segments.now) }
    requires few { length segments.now < 2 ^ 32 }
    ensures apart { IfOk result (λ shown. shown.apart ≡ true → AllPairs AreApart segments.now) }
    ensures agree { IfOk result (λ shown. shown.agree ≡ true → FacesAgree segments.now) }
{
    let agree = ends_agree(alloc, segments)?;
    if !agree {
        return Ok(Shown {
            apart: false,
            agree: false,
        });
    }
    let segs = forward_of(alloc, segments)?;
    sweep_over(alloc, segments, &segs)
}

/// Whether a sweep shows that no two segments have a point in common but a permitted one, as `swept`.
pub fn all_apart(alloc: Global, segments: &[LabelledSegment]) -> Result<bool, Memory>
    requires proper { IsTrue (list_all is_proper segments.now) }
    requires few { length segments.now < 2 ^ 32 }
    ensures { IfOk result (λ apart. apart ≡ true → AllPairs AreApart segments.now) }
{
    let shown = swept(alloc, segments)?;
    Ok(shown.apart)
}

/// Segments to set aside, true at their numbers, so that the others are apart. It is a guess: who gets it asks
/// `all_apart` of the others.
///
/// Where ends may not share their point, their segments are set aside; then the sweep sets aside what does not fit where
/// it comes to it. It takes the time and the memory of `all_apart`.
pub fn set_aside(alloc: Global, segments: &[LabelledSegment]) -> Result<Vec<bool>, Memory>
    requires proper { IsTrue (list_all is_proper segments.now) }
    requires few { length segments.now < 2 ^ 32 }
    ensures { IfOk result (λ aside. length aside.items ≡ length segments.now) }
{
    let mut aside = vec![in alloc; false; segments.len()]?;
    ends_aside(alloc, segments, aside.as_mut_slice())?;
    let segs = forward_of(alloc, segments)?;
    misfits_aside(alloc, segments, &segs, aside.as_mut_slice())?;
    Ok(aside)
}
