//! The line of the sweep: the segments that it meets, from top to bottom, each over the next one.

ghost use Rattle.std.specs.Prelude.{◌≡◌, ℕ, ◌<◌, ◌≤◌, ◌^◌, true, List, [], Contains, length, get_or, IfOk, IfSome};
ghost use Rattle.std.specs.List.{All};
ghost use Rattle.tgap_model.specs.declared.geometry.Seg.{Seg as Forward};
ghost use Rattle.linked_row.specs.Linked.{IsNode, uppers, lowers};
ghost use Rattle.planar_sweep.specs.Ends.{IsReady};
ghost use Rattle.planar_sweep.specs.Line.{IsLineOf, MayBeAbove, MayBeBelow, Fits, CameBelow, GoneOut, MayClose};
ghost use Rattle.planar_sweep.specs.Rows.{Over};

use crate::over::{is_over_at_line, stands_over};
use crate::sample::Sample;
use linked_row::Links;
use std::alloc::Global;
use tgap_model::{Memory, Seg};

/// How often a number that has left leads to what it stood below, while a place is guessed.
const HOPS: usize = 2;

/// A segment whose place is more steps from both its neighbours in the sample comes into it, so that walks stay short.
const NEAR: u32 = 8;

/// The numbers of the segments that the line meets, a sample of them, in which a place is searched, and the number that
/// came last. A place is only guessed: whether a segment may stand there is asked before it comes.
#[derive(Drop)]
pub struct Line {
    pub row: Links,
    pub sample: Sample,
    pub last: u32,
}

/// Whether the segment of one number may stand next above that of another.
fn is_next(segs: &[Seg], upper: u32, lower: u32) -> bool
    requires ready { All (λ s. IsReady s) segs.now }
    requires upper { upper < length segs.now }
    requires lower { lower < length segs.now }
    ensures { result ≡ true → Over segs.now upper lower }
{
    stands_over(segs[upper as usize], segs[lower as usize])
}

/// Whether the segment of one number is over that of another.
fn is_over(segs: &[Seg], upper: u32, lower: u32) -> bool
    requires ready { All (λ s. IsReady s) segs.now }
    requires upper { upper < length segs.now }
    requires lower { lower < length segs.now }
{
    is_over_at_line(segs[upper as usize], segs[lower as usize])
}

impl Line {
    /// The line before all segments of a count.
    pub fn of(alloc: Global, count: u32) -> Result<Line, Memory>
        ensures line { IfOk result (λ line. (segs : List Forward) → length segs ≡ count → IsLineOf segs line) }
        ensures row { IfOk result (λ line. line.row.row ≡ []) }
    {
        let row = Links::of(alloc, count)?;
        let sample = Sample::of(alloc, count)?;
        Ok(Line {
            row,
            sample,
            last: count,
        })
    }

    /// Whether a node may stand next above a segment.
    fn fits_below(&self, segs: &[Seg], upper: u32, number: u32) -> bool
        requires ready { All (λ s. IsReady s) segs.now }
        requires line { IsLineOf segs.now self.now }
        requires node { IsNode self.now.row upper }
        requires number { number < length segs.now }
        ensures { result ≡ true → MayBeAbove segs.now upper number }
    {
        upper == self.row.end() || is_next(segs, upper, number)
    }

    /// Whether a node may stand next below a segment.
    pub fn fits_above(&self, segs: &[Seg], number: u32, lower: u32) -> bool
        requires ready { All (λ s. IsReady s) segs.now }
        requires line { IsLineOf segs.now self.now }
        requires node { IsNode self.now.row lower }
        requires number { number < length segs.now }
        ensures { result ≡ true → MayBeBelow segs.now number lower }
    {
        lower == self.row.end() || is_next(segs, number, lower)
    }

    /// Whether a segment may stand below a node.
    fn fits(&self, segs: &[Seg], upper: u32, number: u32) -> bool
        requires ready { All (λ s. IsReady s) segs.now }
        requires line { IsLineOf segs.now self.now }
        requires node { IsNode self.now.row upper }
        requires number { number < length segs.now }
        ensures { result ≡ true → Fits segs.now self.now.row upper number }
    {
        let lower = self.row.below(upper);
        self.fits_below(segs, upper, number) && self.fits_above(segs, number, lower)
    }

    /// A node: a number of the row or the end, or else the one to which some hops lead, each to what a number stood below
    /// last.
    fn node_from(&self, number: u32) -> Option<u32>
        requires { number ≤ self.now.row.count }
        ensures { IfSome result (λ node. IsNode self.now.row node) }
    {
        let end = self.row.end();
        let mut node = number;
        for _ in 0..HOPS {
            if node == end || self.row.has(node) {
                return Some(node);
            }
            node = self.row.last_above(node);
        }
        None
    }

    /// The node from a number, or the one above it, if a segment may stand below it.
    fn node_beside(&self, segs: &[Seg], number: u32, other: u32) -> Option<u32>
        requires ready { All (λ s. IsReady s) segs.now }
        requires line { IsLineOf segs.now self.now }
        requires number { number < length segs.now }
        requires other { other ≤ length segs.now }
        ensures { IfSome result (λ upper. Fits segs.now self.now.row upper number) }
    {
        let node = self.node_from(other)?;
        if self.fits(segs, node, number) {
            return Some(node);
        }
        let above = self.row.above(node);
        if self.fits(segs, above, number) {
            return Some(above);
        }
        None
    }

    /// Whether another segment is in the row or ended where a segment begins, so that its place may be that of the
    /// segment.
    fn leads_to(&self, segs: &[Seg], other: u32, number: u32) -> bool
        requires line { IsLineOf segs.now self.now }
        requires number { number < length segs.now }
        ensures { result ≡ true → other < length segs.now }
    {
        other < self.row.end()
            && (self.row.has(other) || segs[other as usize].b == segs[number as usize].a)
    }

    /// The node beside another segment, if that leads to it and a segment may stand there.
    fn node_by(&self, segs: &[Seg], number: u32, other: u32) -> Option<u32>
        requires ready { All (λ s. IsReady s) segs.now }
        requires line { IsLineOf segs.now self.now }
        requires number { number < length segs.now }
        ensures { IfSome result (λ upper. Fits segs.now self.now.row upper number) }
    {
        if !self.leads_to(segs, other, number) {
            return None;
        }
        self.node_beside(segs, number, other)
    }

    /// The node below which a segment may stand, beside the segments before and behind it in the list or what came last.
    fn node_near(&self, segs: &[Seg], number: u32) -> Option<u32>
        requires ready { All (λ s. IsReady s) segs.now }
        requires line { IsLineOf segs.now self.now }
        requires number { number < length segs.now }
        ensures { IfSome result (λ upper. Fits segs.now self.now.row upper number) }
    {
        let before = self.node_by(segs, number, number.saturating_sub(1));
        if before.is_some() {
            return before;
        }
        let behind = self.node_by(segs, number, number.saturating_add(1));
        if behind.is_some() {
            return behind;
        }
        self.node_beside(segs, number, self.last)
    }

    /// A number of the row, or else the end.
    fn node_or_end(&self, number: Option<u32>) -> u32
        ensures { IsNode self.now.row result }
    {
        match number {
            Some(n) if self.row.has(n) => n,
            _ => self.row.end(),
        }
    }

    /// The lowest node over a segment, by a walk from a higher one down and from a lower one up, a step of each in turn;
    /// and whether it took many steps.
    fn node_between(&self, segs: &[Seg], upper: u32, lower: u32, number: u32) -> (u32, bool)
        requires ready { All (λ s. IsReady s) segs.now }
        requires line { IsLineOf segs.now self.now }
        requires upper { IsNode self.now.row upper }
        requires lower { IsNode self.now.row lower }
        requires number { number < length segs.now }
        ensures { IsNode self.now.row result.0 }
    {
        let end = self.row.end();
        let (mut over, mut under) = (upper, lower);
        for steps in 0..end {
            let below = self.row.below(over);
            if below == end || !is_over(segs, below, number) {
                return (over, NEAR < steps);
            }
            over = below;
            let above = self.row.above(under);
            if above == end || is_over(segs, above, number) {
                return (above, NEAR < steps);
            }
            under = above;
        }
        (over, true)
    }

    /// The node below which a segment may stand, searched from the sample, and whether that was far from it.
    fn node_searched(&self, segs: &[Seg], number: u32) -> Option<(u32, bool)>
        requires ready { All (λ s. IsReady s) segs.now }
        requires line { IsLineOf segs.now self.now }
        requires number { number < length segs.now }
        ensures { IfSome result (λ found. Fits segs.now self.now.row found.0 number) }
    {
        let place = self.sample.place_of(segs, number);
        let upper = if place == 0 {
            self.row.end()
        } else {
            self.node_or_end(self.sample.get(place - 1))
        };
        let lower = self.node_or_end(self.sample.get(place));
        let (node, is_far) = self.node_between(segs, upper, lower, number);
        if self.fits(segs, node, number) {
            Some((node, is_far))
        } else {
            None
        }
    }

    /// A number of the row, if a segment may stand below it.
    fn node_at(&self, segs: &[Seg], number: u32, upper: u32) -> Option<u32>
        requires ready { All (λ s. IsReady s) segs.now }
        requires line { IsLineOf segs.now self.now }
        requires number { number < length segs.now }
        ensures { IfSome result (λ node. Fits segs.now self.now.row node number) }
    {
        if self.row.has(upper) && self.fits(segs, upper, number) {
            Some(upper)
        } else {
            None
        }
    }

    /// The node below which a segment may stand, and whether it belongs to the sample then. A number that stands over it is
    /// a hint.
    fn node_for(&self, segs: &[Seg], number: u32, hint: Option<u32>) -> Option<(u32, bool)>
        requires ready { All (λ s. IsReady s) segs.now }
        requires line { IsLineOf segs.now self.now }
        requires number { number < length segs.now }
        ensures { IfSome result (λ found. Fits segs.now self.now.row found.0 number) }
    {
        let near = match hint {
            Some(upper) => self.node_at(segs, number, upper),
            None => self.node_near(segs, number),
        };
        match near {
            Some(node) => Some((node, false)),
            None => self.node_searched(segs, number),
        }
    }

    /// A segment comes into the row, if it may stand where it belongs: below the node that is given. A number that
    /// stands over it is a hint.
    pub fn come(
        &mut self,
        segs: &[Seg],
        number: u32,
        hint: Option<u32>,
    ) -> Result<Option<u32>, Memory>
        requires ready { All (λ s. IsReady s) segs.now }
        requires line { IsLineOf segs.now self.old }
        requires number { number < length segs.now }
        ensures line { IfOk result (λ _. IsLineOf segs.now self.new) }
        ensures came { IfOk result (λ found. IfSome found (λ upper. CameBelow segs.now number upper self.old.row self.new.row)) }
    {
        if self.row.has(number) {
            return Ok(None);
        }
        let Some((upper, is_far)) = self.node_for(segs, number, hint) else {
            return Ok(None);
        };
        self.sample.come(segs, number, is_far)?;
        self.row.insert_below(upper, number);
        self.last = number;
        Ok(Some(upper))
    }

    /// Whether the neighbours of a number of the row may be neighbours.
    fn closes(&self, segs: &[Seg], number: u32) -> bool
        requires ready { All (λ s. IsReady s) segs.now }
        requires line { IsLineOf segs.now self.now }
        requires member { Contains self.now.row.row number }
        ensures { result ≡ true → (k : ℕ) → k < length self.now.row.row → get_or self.now.row.row k 0 ≡ number → MayClose segs.now self.now.row k }
    {
        let upper = self.row.above(number);
        let lower = self.row.below(number);
        upper == self.row.end() || self.fits_above(segs, upper, lower)
    }

    /// A segment of the row goes out.
    pub fn take_out(&mut self, segs: &[Seg], number: u32)
        requires ready { All (λ s. IsReady s) segs.now }
        requires line { IsLineOf segs.now self.old }
        requires member { Contains self.old.row.row number }
        ensures line { IsLineOf segs.now self.new }
        ensures gone { GoneOut number self.old.row self.new.row }
    {
        self.sample.leave(segs, number);
        self.row.remove(number);
    }

    /// A segment leaves the row, if its neighbours may be neighbours then.
    pub fn leave(&mut self, segs: &[Seg], number: u32) -> bool
        requires ready { All (λ s. IsReady s) segs.now }
        requires line { IsLineOf segs.now self.old }
        requires number { number < length segs.now }
        ensures line { IsLineOf segs.now self.new }
        ensures gone { result ≡ true → GoneOut number self.old.row self.new.row }
        ensures closed { result ≡ true → (k : ℕ) → k < length self.old.row.row → get_or self.old.row.row k 0 ≡ number → MayClose segs.now self.old.row k }
    {
        if !self.row.has(number) || !self.closes(segs, number) {
            return false;
        }
        self.take_out(segs, number);
        true
    }
}
