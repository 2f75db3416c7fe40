//! The vertices that come back in an edge: whether they fit, and the edge with them.

ghost use Rattle.std.specs.Prelude.{◌≡◌, ◌-◌, ◌≤◌, ◌&&◌, nat_lt, map, take, drop, not, IfOk, IsTrue};
ghost use Rattle.std.specs.List.{list_all};
ghost use Rattle.lemmas.specs.Sorting.{is_sorted_by};
ghost use Rattle.tgap_model.specs.Base.{same_point};
ghost use Rattle.tgap_model.specs.Records.{puts_fit, fits_puts, put_in};
ghost use Rattle.client_replay.specs.Between.{is_between};
ghost use Rattle.client_replay.specs.Rules.{mend_puts_fit};
ghost use Rattle.client_replay.specs.Working.{slice_of};

use crate::order::puts_ascend;
use crate::working::Working;
use std::alloc::Global;
use tgap_model::{Memory, Mend, Point, Put, StepRecord};

/// Whether the points are not one.
fn differ(a: Point, b: Point) -> bool
    ensures { result ≡ not (same_point a b) }
{
    a.x != b.x || a.y != b.y
}

/// Whether the point is between two others and differs from both.
fn is_between(before: Option<Point>, after: Option<Point>, point: Point) -> bool
    ensures { result ≡ is_between before after point }
{
    match (before, after) {
        (Some(before), Some(after)) => differ(before, point) && differ(after, point),
        _ => false,
    }
}

/// The first so many points, all if there are not so many, and the rest.
fn split(points: &[Point], count: usize) -> (&[Point], &[Point])
    ensures passed { result.0.now ≡ take count points.now }
    ensures later { result.1.now ≡ drop count points.now }
{
    points.split_at(count.min(points.len()))
}

/// Whether each put, at its turn, is between two points and differs from both. As the places ascend, a put leaves the
/// points before it as they are.
fn puts_fit(points: &[Point], puts: &[Put]) -> bool
    requires { IsTrue (is_sorted_by nat_lt (map (λ p. p.at) puts.now)) }
    ensures { result ≡ puts_fit points.now puts.now }
{
    let mut place = 0;
    let mut before = None;
    let mut rest = points;
    for put in puts {
        let (passed, later) = split(rest, put.at as usize - place);
        let last = passed.last().copied().or(before);
        if !is_between(last, later.first().copied(), put.point) {
            return false;
        }
        place = put.at as usize + 1;
        before = Some(put.point);
        rest = later;
    }
    true
}

/// Whether the places of the mend's puts ascend, and each fits in the mend's edge.
fn mend_puts_fit(working: &Working, mend: &Mend) -> bool
    ensures { result ≡ mend_puts_fit (slice_of working.now) mend.now }
{
    if !puts_ascend(mend.puts.as_slice()) {
        return false;
    }
    match working.line(mend.key) {
        Some(line) => puts_fit(line.points.as_slice(), mend.puts.as_slice()),
        None => true,
    }
}

/// Rule 4: whether the places of each mend's puts ascend, and each put fits.
pub fn fits_puts(working: &Working, step_record: &StepRecord) -> bool
    ensures { result ≡ fits_puts (slice_of working.now) step_record.now }
{
    for mend in step_record.mends.as_slice() {
        if !mend_puts_fit(working, mend) {
            return false;
        }
    }
    true
}

/// The points with the puts in their places.
pub fn put_in(alloc: Global, points: &[Point], puts: &[Put]) -> Result<Vec<Point>, Memory>
    requires { IsTrue (is_sorted_by nat_lt (map (λ p. p.at) puts.now)) }
    ensures { IfOk result (λ all. all.items ≡ put_in puts.now points.now) }
{
    let mut all = Vec::with_capacity(alloc, points.len() + puts.len())?;
    let mut rest = points;
    for put in puts {
        let (passed, later) = split(rest, put.at as usize - all.len());
        all.extend_from_slice(passed)?;
        all.push(put.point)?;
        rest = later;
    }
    all.extend_from_slice(rest)?;
    Ok(all)
}
