//! The ends of the segments in the order of their points, and whether those at one point may share it. Where a segment
//! goes on with the next one of the list, the two ends there have one mark, which no other mark may meet: so the sort is
//! of hardly more marks than segments.

ghost use Rattle.std.specs.Prelude.{◌≡◌, ℕ, pos, neg_ℤ, ◌≤ℤ◌, ◌<◌, ◌+◌, ◌^◌, ◌++◌, ◌∷◌, [], true, length, map, filter, get_or, IfOk};
ghost use Rattle.std.specs.List.{range_with_len};
ghost use Rattle.tgap_model.specs.Partition.{follows};
ghost use Rattle.planar_sweep.specs.declared.marks.Mark.{Mark};
ghost use Rattle.planar_sweep.specs.Ends.{bounded, point_key, goes_on, is_joined, front_mark, last_mark, is_loose, may_share, may_meet, joins, are_free, AreMarks, IsFair, EndsAgree};

use std::alloc::Global;
use tgap_model::{LabelledSegment, Memory, Point};

/// Numbers of points have room for coordinates up to here.
const BOUND: i64 = 2_147_483_647;

/// An end of the segment of a number: the last point, or else the first. It is free where it is an end of the arc. A
/// joint mark is of a first point and of the last point of the segment before it in the list, which goes on there.
#[derive(Clone, Copy)]
pub struct Mark {
    pub key: i64,
    pub number: u32,
    pub last: bool,
    pub free: bool,
    pub joint: bool,
}

/// A coordinate, or the bound that it is beyond.
fn bounded(z: i64) -> i64
    ensures exact { result ≡ bounded z }
    ensures low { neg_ℤ (pos 2147483647) ≤ℤ result }
    ensures high { result ≤ℤ pos 2147483647 }
{
    z.max(-BOUND).min(BOUND)
}

/// The number of a point by which the ends are sorted. Points at the edge of the plane may have one number; then their
/// ends count as ends at one point.
fn point_key(v: Point) -> i64
    ensures { result ≡ point_key v }
{
    4_294_967_296 * bounded(v.x) + bounded(v.y)
}

/// Whether the second segment is the next one of the same arc.
pub fn follows(s: &LabelledSegment, t: &LabelledSegment) -> bool
    ensures { result ≡ follows s.now t.now }
{
    s.arc == t.arc && u64::from(s.place) + 1 == u64::from(t.place)
}

/// Whether the segment after this one in the list is the next one of the arc, and begins where this one ends.
fn goes_on(segments: &[LabelledSegment], number: usize) -> bool
    requires inside { number < length segments.now }
    ensures { result ≡ goes_on segments.now number }
{
    number + 1 < segments.len()
        && (follows(&segments[number], &segments[number + 1])
            && segments[number].segment.b == segments[number + 1].segment.a)
}

/// Whether the segment before this one in the list goes on with it.
fn is_joined(segments: &[LabelledSegment], number: usize) -> bool
    requires inside { number < length segments.now }
    ensures { result ≡ is_joined segments.now number }
{
    0 < number && goes_on(segments, number - 1)
}

/// The mark of the first end of a segment: a joint one where the segment before it in the list goes on with it.
fn front_mark(segments: &[LabelledSegment], number: usize) -> Mark
    requires few { length segments.now < 2 ^ 32 }
    requires inside { number < length segments.now }
    ensures { result ≡ front_mark segments.now number }
{
    Mark {
        key: point_key(segments[number].segment.a),
        number: number as u32,
        last: false,
        free: segments[number].starts,
        joint: is_joined(segments, number),
    }
}

/// The mark of the last end of a segment alone.
fn last_mark(segments: &[LabelledSegment], number: usize) -> Mark
    requires few { length segments.now < 2 ^ 32 }
    requires inside { number < length segments.now }
    ensures { result ≡ last_mark segments.now number }
{
    Mark {
        key: point_key(segments[number].segment.b),
        number: number as u32,
        last: true,
        free: segments[number].ends,
        joint: false,
    }
}

/// Puts the marks of the first ends of the segments after the marks.
fn push_fronts(marks: &mut Vec<Mark>, segments: &[LabelledSegment]) -> Result<(), Memory>
    requires few { length segments.now < 2 ^ 32 }
    ensures { IfOk result (λ _. marks.new.items ≡ marks.old.items ++ map (front_mark segments.now) (range_with_len 0 (length segments.now))) }
{
    for number in 0..segments.len() {
        marks.push(front_mark(segments, number))?;
    }
    Ok(())
}

/// Puts the mark of the last end of a segment after the marks where it has no joint mark.
fn push_loose(
    marks: &mut Vec<Mark>,
    segments: &[LabelledSegment],
    number: usize,
) -> Result<(), Memory>
    requires few { length segments.now < 2 ^ 32 }
    requires inside { number < length segments.now }
    ensures { IfOk result (λ _. marks.new.items ≡ marks.old.items ++ filter (is_loose segments.now) (last_mark segments.now number ∷ [])) }
{
    if !goes_on(segments, number) {
        marks.push(last_mark(segments, number))?;
    }
    Ok(())
}

/// Puts the marks of the last ends that have no joint mark after the marks.
fn push_lasts(marks: &mut Vec<Mark>, segments: &[LabelledSegment]) -> Result<(), Memory>
    requires few { length segments.now < 2 ^ 32 }
    ensures { IfOk result (λ _. marks.new.items ≡ marks.old.items ++ filter (is_loose segments.now) (map (last_mark segments.now) (range_with_len 0 (length segments.now)))) }
{
    for number in 0..segments.len() {
        push_loose(marks, segments, number)?;
    }
    Ok(())
}

/// The marks of the ends of the segments in the order of their points.
pub fn marks_of(alloc: Global, segments: &[LabelledSegment]) -> Result<Vec<Mark>, Memory>
    requires few { length segments.now < 2 ^ 32 }
    ensures { IfOk result (λ marks. AreMarks segments.now marks.items) }
{
    let mut marks = Vec::with_capacity(alloc, 2 * segments.len())?;
    push_fronts(&mut marks, segments)?;
    push_lasts(&mut marks, segments)?;
    marks.sort_unstable_by_key(|m| m.key);
    Ok(marks)
}

/// Whether the first mark is the last point of a segment, and the second the first point of the next one of the arc.
fn joins(segments: &[LabelledSegment], e: &Mark, f: &Mark) -> bool
    requires e { e.now.number < length segments.now }
    requires f { f.now.number < length segments.now }
    ensures { result ≡ joins segments.now e.now f.now }
{
    e.last && (!f.last && follows(&segments[e.number as usize], &segments[f.number as usize]))
}

/// Whether two ends may share a point.
fn may_share(segments: &[LabelledSegment], e: &Mark, f: &Mark) -> bool
    requires e { e.now.number < length segments.now }
    requires f { f.now.number < length segments.now }
    ensures { result ≡ may_share segments.now e.now f.now }
{
    e.free && f.free || (joins(segments, e, f) || joins(segments, f, e))
}

/// Whether two marks may have one point: neither is joint, and their ends may share it.
fn may_meet(segments: &[LabelledSegment], e: &Mark, f: &Mark) -> bool
    requires e { e.now.number < length segments.now }
    requires f { f.now.number < length segments.now }
    ensures { result ≡ may_meet segments.now e.now f.now }
{
    !(e.joint || f.joint) && may_share(segments, e, f)
}

/// Whether the mark at a place may meet the next one, where they have one point.
pub fn is_fair_to_next(segments: &[LabelledSegment], marks: &[Mark], i: usize) -> bool
    requires inside { i < length marks.now }
    requires numbers { (k : ℕ) (d : Mark) → k < length marks.now → (get_or marks.now k d).number < length segments.now }
    ensures { result ≡ true → (d : Mark) → i + 1 < length marks.now → (get_or marks.now i d).key ≡ (get_or marks.now (i + 1) d).key
        → may_meet segments.now (get_or marks.now i d) (get_or marks.now (i + 1) d) ≡ true }
{
    marks.len() - i <= 1
        || marks[i].key != marks[i + 1].key
        || may_meet(segments, &marks[i], &marks[i + 1])
}

/// Whether the end at a place and that two places on are ends of arcs, where they have one point.
pub fn is_fair_after(marks: &[Mark], i: usize) -> bool
    requires inside { i < length marks.now }
    ensures { result ≡ true → (d : Mark) → i + 2 < length marks.now → (get_or marks.now i d).key ≡ (get_or marks.now (i + 2) d).key
        → are_free (get_or marks.now i d) (get_or marks.now (i + 2) d) ≡ true }
{
    marks.len() - i <= 2 || marks[i].key != marks[i + 2].key || marks[i].free && marks[i + 2].free
}

/// Whether all ends at one point may share it.
fn are_fair(segments: &[LabelledSegment], marks: &[Mark]) -> bool
    requires marks { AreMarks segments.now marks.now }
    ensures { result ≡ true → (i : ℕ) → i < length marks.now → IsFair segments.now marks.now i }
{
    for i in 0..marks.len() {
        if !(is_fair_to_next(segments, marks, i) && is_fair_after(marks, i)) {
            return false;
        }
    }
    true
}

/// Whether ends of different segments at one point may share it: all are ends of arcs, or there are two, where one
/// segment of an arc goes on with the next. It takes the time of a sort.
pub fn ends_agree(alloc: Global, segments: &[LabelledSegment]) -> Result<bool, Memory>
    requires few { length segments.now < 2 ^ 32 }
    ensures { IfOk result (λ agree. agree ≡ true → EndsAgree segments.now) }
{
    let marks = marks_of(alloc, segments)?;
    Ok(are_fair(segments, &marks))
}
