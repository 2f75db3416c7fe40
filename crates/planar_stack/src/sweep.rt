//! The sweep: from abscissa to abscissa the segments that end there leave the stack, and those that begin there come
//! in.

ghost use Rattle.std.specs.Prelude.{◌≡◌, ℕ, ◌<◌, ◌≤◌, ◌<ℤ◌, ◌≤ℤ◌, ◌+◌, ◌^◌, ◌==◌, ◌++◌, ◌∷◌, [], List, length, map, take, drop, filter, not, Contains, IfOk, IsTrue};
ghost use Rattle.std.specs.List.{All};
ghost use Rattle.std.specs.Option.{option_map};
ghost use Rattle.lemmas.specs.Sorting.{insert_by};
ghost use Rattle.tgap_model.specs.Bounds.{HasNearEnds};
ghost use Rattle.tgap_model.specs.Partition.{stack_fault_from, agree_from};
ghost use Rattle.planar_stack.specs.Sweep.{disagrees, left_end as left_of, right_end as right_of, segment_at, sides_at, crossed_at, higher_at, stays_at, differing, AreReady, AreEnds, EndInOrder, IsOrdered, IsPlace, IsActive, HaveEnded, AreLeft, AreTouched, IsFirstOf};
ghost use Rattle.planar_stack.specs.Parts.{IsReached};

use crate::events::{End, left_end, right_end};
use crate::gap::{StackGap, face_reached, faces, gap_at};
use crate::higher::is_higher;
use crate::scan::first_place;
use chunked_row::Row;
use std::alloc::Global;
use tgap_model::{LabelledSegment, Memory};

/// To search a tall stack for the place of one member takes the time in which about so many members are looked at.
const SEARCH: usize = 32;

/// The place of a segment in a stack: above the first segment that it is higher than.
fn place_of(starts: &[LabelledSegment], stack: &Row, number: u32, line: i64) -> usize
    requires near { All (λ s. HasNearEnds s.segment) starts.now }
    requires ordered { IsOrdered line starts.now stack.now }
    requires known { number < length starts.now }
    requires crossed { IsTrue (crossed_at line starts.now number) }
    ensures { IsPlace line starts.now number stack.now result }
{
    stack.search(
        |other: u32| -> bool
            requires near { All (λ s. HasNearEnds s.segment) starts.now }
            requires known { (number < length starts.now) × IsTrue (crossed_at line starts.now number) }
            requires other { (other < length starts.now) × IsTrue (crossed_at line starts.now other) }
            ensures { result ≡ not (higher_at line starts.entry.now number other) }
        { !is_higher(starts, number, other, line) },
    )
}

/// Touches a segment, unless its upper face is the one that is reached above it.
fn touch(
    starts: &[LabelledSegment],
    touched: &mut Vec<u32>,
    number: u32,
    reached: u32,
) -> Result<(), Memory>
    requires known { number < length starts.now }
    ensures { IfOk result (λ _. touched.new.items ≡ touched.old.items ++ differing starts.now reached (number ∷ [])) }
{
    if faces(&starts[number as usize]).0 != reached {
        touched.push(number)?;
    }
    Ok(())
}

/// Touches the segment at a place of a stack, where there is one, unless its upper face is the one that is reached above
/// it.
fn touch_at(
    starts: &[LabelledSegment],
    stack: &Row,
    touched: &mut Vec<u32>,
    place: usize,
    reached: u32,
) -> Result<(), Memory>
    requires known { All (λ n. n < length starts.now) stack.now }
    ensures { IfOk result (λ _. touched.new.items ≡ touched.old.items ++ differing starts.now reached (take 1 (drop place stack.now))) }
{
    if place < stack.len() {
        touch(starts, touched, stack.at(place), reached)?;
    }
    Ok(())
}

/// Takes a segment out of a stack. The one below it is touched, unless it has the face that is reached then.
fn take_out(
    starts: &[LabelledSegment],
    stack: &mut Row,
    touched: &mut Vec<u32>,
    number: u32,
    line: i64,
) -> Result<(), Memory>
    requires near { All (λ s. HasNearEnds s.segment) starts.now }
    requires ordered { IsOrdered line starts.now stack.old }
    requires member { Contains stack.old number }
    requires touched { AreTouched line starts.now stack.old touched.old.items }
    ensures out { IfOk result (λ _. stack.new ≡ filter (λ n. not (n == number)) stack.old) }
    ensures touched { IfOk result (λ _. AreTouched line starts.now stack.new touched.new.items) }
{
    let below = place_of(starts, stack, number, line);
    let place = below - 1;
    let reached = face_reached(starts, stack, place);
    touch_at(starts, stack, touched, below, reached)?;
    stack.remove(place);
    Ok(())
}

/// Puts a segment into a stack. It is touched, and the one below it, unless they have the faces that are reached above
/// them.
fn put_in(
    starts: &[LabelledSegment],
    stack: &mut Row,
    touched: &mut Vec<u32>,
    number: u32,
    line: i64,
) -> Result<(), Memory>
    requires near { All (λ s. HasNearEnds s.segment) starts.now }
    requires ordered { IsOrdered line starts.now stack.old }
    requires known { number < length starts.now }
    requires crossed { IsTrue (crossed_at line starts.now number) }
    requires touched { AreTouched line starts.now stack.old touched.old.items }
    ensures placed { IfOk result (λ _. stack.new ≡ insert_by (higher_at line starts.now) number stack.old) }
    ensures touched { IfOk result (λ _. AreTouched line starts.now stack.new touched.new.items) }
{
    let place = place_of(starts, stack, number, line);
    touch(starts, touched, number, face_reached(starts, stack, place))?;
    let lower = faces(&starts[number as usize]).1;
    touch_at(starts, stack, touched, place, lower)?;
    stack.insert(place, number)?;
    Ok(())
}

/// Takes the segments that end up to an abscissa out of the stack of the line one half beyond `before`, where the first
/// `ended` ends have left before. It gives how many have left then.
fn remove_ended(
    starts: &[LabelledSegment],
    ends: &[End],
    ended: usize,
    stack: &mut Row,
    touched: &mut Vec<u32>,
    before: i64,
    line: i64,
) -> Result<usize, Memory>
    requires near { All (λ s. HasNearEnds s.segment) starts.now }
    requires ends { AreEnds starts.now ends.now }
    requires ordered { IsOrdered before starts.now stack.old }
    requires left { AreLeft line starts.now ends.now ended stack.old }
    requires touched { AreTouched before starts.now stack.old touched.old.items }
    ensures out { IfOk result (λ _. stack.new ≡ filter (stays_at line starts.now) stack.old) }
    ensures ended { IfOk result (λ gone. HaveEnded line ends.now gone) }
    ensures touched { IfOk result (λ _. AreTouched before starts.now stack.new touched.new.items) }
{
    let mut gone = ended;
    while gone < ends.len() && ends[gone].abscissa <= line {
        take_out(starts, stack, touched, ends[gone].number, before)?;
        gone += 1;
    }
    Ok(gone)
}

/// Puts a segment that has begun into the stack, where the line one half beyond the abscissa crosses it.
fn bring_in(
    starts: &[LabelledSegment],
    stack: &mut Row,
    touched: &mut Vec<u32>,
    number: u32,
    line: i64,
) -> Result<(), Memory>
    requires ready { AreReady starts.now }
    requires active { IsActive line starts.now number stack.old }
    requires known { number < length starts.now }
    requires begins { left_of (segment_at starts.now number) ≤ℤ line }
    requires touched { AreTouched line starts.now stack.old touched.old.items }
    ensures active { IfOk result (λ _. IsActive line starts.now (number + 1) stack.new) }
    ensures touched { IfOk result (λ _. AreTouched line starts.now stack.new touched.new.items) }
{
    if right_end(&starts[number as usize]) <= line {
        return Ok(());
    }
    put_in(starts, stack, touched, number, line)
}

/// Puts the segments that begin up to an abscissa and end beyond it into the stack, where the first `next` starts have
/// begun before. It gives how many have begun then.
fn insert_begun(
    starts: &[LabelledSegment],
    next: usize,
    stack: &mut Row,
    touched: &mut Vec<u32>,
    line: i64,
) -> Result<usize, Memory>
    requires ready { AreReady starts.now }
    requires few { length starts.now < 2 ^ 32 }
    requires active { IsActive line starts.now next stack.old }
    requires touched { AreTouched line starts.now stack.old touched.old.items }
    ensures active { IfOk result (λ begun. IsActive line starts.now begun stack.new) }
    ensures later { IfOk result (λ begun. All (λ s. line <ℤ left_of s) (drop begun starts.now)) }
    ensures touched { IfOk result (λ _. AreTouched line starts.now stack.new touched.new.items) }
{
    let mut begun = next;
    while begun < starts.len() && left_end(&starts[begun]) <= line {
        bring_in(starts, stack, touched, begun as u32, line)?;
        begun += 1;
    }
    Ok(begun)
}

/// The higher of a place, and the place of a segment where the faces disagree there.
fn higher_gap(
    starts: &[LabelledSegment],
    stack: &Row,
    place: usize,
    number: u32,
    line: i64,
) -> usize
    requires near { All (λ s. HasNearEnds s.segment) starts.now }
    requires ordered { IsOrdered line starts.now stack.now }
    requires few { length stack.now < 2 ^ 32 }
    requires known { number < length starts.now }
    requires begun { left_of (segment_at starts.now number) ≤ℤ line }
    requires member { IsTrue (crossed_at line starts.now number) → Contains stack.now number }
    requires within { place ≤ length stack.now }
    ensures seen { (seen : List ℕ) → IsFirstOf seen (map (sides_at starts.now) stack.now) stack.now place
        → IsFirstOf (seen ++ number ∷ []) (map (sides_at starts.now) stack.now) stack.now result }
    ensures within { result ≤ length stack.now }
{
    if right_end(&starts[number as usize]) <= line {
        return place;
    }
    let here = place_of(starts, stack, number, line) - 1;
    if here < place && gap_at(starts, stack, here, line).is_some() {
        return here;
    }
    place
}

/// The first place of touched segments of a stack at which the faces differ, or that below its last member.
fn touched_place(starts: &[LabelledSegment], stack: &Row, touched: &[u32], line: i64) -> usize
    requires near { All (λ s. HasNearEnds s.segment) starts.now }
    requires ordered { IsOrdered line starts.now stack.now }
    requires few { length stack.now < 2 ^ 32 }
    requires all { (n : ℕ) → n < length starts.now → IsTrue (crossed_at line starts.now n) → Contains stack.now n }
    requires known { All (λ n. n < length starts.now) touched.now }
    requires begun { All (λ n. left_of (segment_at starts.now n) ≤ℤ line) touched.now }
    ensures { IsFirstOf touched.now (map (sides_at starts.now) stack.now) stack.now result }
{
    let mut place = stack.len();
    for number in touched {
        place = higher_gap(starts, stack, place, *number, line);
    }
    place
}

/// The first place of touched segments at which the faces differ, or another such place of the stack above it. Where
/// there are many of them the whole stack is looked at.
fn differing_place(starts: &[LabelledSegment], stack: &Row, touched: &[u32], line: i64) -> usize
    requires near { All (λ s. HasNearEnds s.segment) starts.now }
    requires ordered { IsOrdered line starts.now stack.now }
    requires few { length stack.now < 2 ^ 32 }
    requires all { (n : ℕ) → n < length starts.now → IsTrue (crossed_at line starts.now n) → Contains stack.now n }
    requires touched { AreTouched line starts.now stack.now touched.now }
    ensures { IsFirstOf touched.now (map (sides_at starts.now) stack.now) stack.now result }
{
    if touched.len() < stack.len() / SEARCH {
        return touched_place(starts, stack, touched, line);
    }
    first_place(starts, stack, line)
}

/// The first gap of a stack, where only above touched segments the faces may disagree.
pub fn touched_gap(
    starts: &[LabelledSegment],
    stack: &Row,
    touched: &[u32],
    line: i64,
) -> Option<StackGap>
    requires near { All (λ s. HasNearEnds s.segment) starts.now }
    requires ordered { IsOrdered line starts.now stack.now }
    requires few { length stack.now < 2 ^ 32 }
    requires all { (n : ℕ) → n < length starts.now → IsTrue (crossed_at line starts.now n) → Contains stack.now n }
    requires touched { AreTouched line starts.now stack.now touched.now }
    ensures { option_map disagrees result ≡ stack_fault_from line 0 0 (map (sides_at starts.now) stack.now) }
{
    let place = differing_place(starts, stack, touched, line);
    gap_at(starts, stack, place, line)
}

/// How many of the ends are those up to an abscissa.
fn ended_by(ends: &[End], line: i64) -> usize
    requires { EndInOrder ends.now }
    ensures { HaveEnded line ends.now result }
{
    let mut ended = 0;
    while ended < ends.len() && ends[ended].abscissa <= line {
        ended += 1;
    }
    ended
}

/// The stack of the line one half beyond an abscissa, the segments above which the faces may disagree there, and how
/// many of the starts have begun and of the ends have passed.
#[derive(Drop)]
pub struct Sweep {
    pub stack: Row,
    pub touched: Vec<u32>,
    pub begun: usize,
    pub ended: usize,
}

impl Sweep {
    /// The sweep at an abscissa, of which all segments of the stack are touched.
    pub fn at(
        alloc: Global,
        starts: &[LabelledSegment],
        ends: &[End],
        line: i64,
    ) -> Result<Sweep, Memory>
        requires ready { AreReady starts.now }
        requires few { length starts.now < 2 ^ 32 }
        requires ends { AreEnds starts.now ends.now }
        ensures { IfOk result (IsReached line starts.now ends.now) }
    {
        let mut stack = Row::new(alloc);
        let mut touched = Vec::new(alloc);
        let begun = insert_begun(starts, 0, &mut stack, &mut touched, line)?;
        Ok(Sweep {
            stack,
            touched,
            begun,
            ended: ended_by(ends, line),
        })
    }

    /// From an abscissa, where the faces agree, to a later one, where no segment begins or ends between them.
    pub fn advance(
        &mut self,
        starts: &[LabelledSegment],
        ends: &[End],
        line: i64,
        after: i64,
    ) -> Result<(), Memory>
        requires ready { AreReady starts.now }
        requires few { length starts.now < 2 ^ 32 }
        requires ends { AreEnds starts.now ends.now }
        requires reached { IsReached line starts.now ends.now self.old }
        requires agree { IsTrue (agree_from 0 (map (sides_at starts.now) self.old.stack)) }
        requires up { line ≤ℤ after }
        requires none { All (λ s. after ≤ℤ left_of s) (drop self.old.begun starts.now) }
        ensures { IfOk result (λ _. IsReached after starts.now ends.now self.new) }
    {
        self.touched.clear();
        self.ended = remove_ended(
            starts,
            ends,
            self.ended,
            &mut self.stack,
            &mut self.touched,
            line,
            after,
        )?;
        self.begun = insert_begun(
            starts,
            self.begun,
            &mut self.stack,
            &mut self.touched,
            after,
        )?;
        Ok(())
    }
}
