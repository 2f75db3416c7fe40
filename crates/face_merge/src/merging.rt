//! A map while it is merged. Each live face stands in a slot, at first that of its number; a new face takes the slot of
//! the loser or the winner. So the links of one of the two stay where they are.

ghost use Rattle.std.specs.Prelude.{◌≡◌, ◌≢◌, ◌≤◌, ◌<◌, ◌*◌, ◌+◌, ◌*ℤ◌, ◌+ℤ◌, pos, unsigned_abs, nat_lt, length, slice_index, IfOk, IsTrue, MatchOption, None, Some};
ghost use Rattle.tgap_model.specs.declared.limits.TheConstants.{MAX_WEIGHT};
ghost use Rattle.tgap_model.specs.Base.{is_rules};
ghost use Rattle.tgap_model.specs.Bounds.{max_area};
ghost use Rattle.tgap_model.specs.History.{class_of, area_of};
ghost use Rattle.face_merge.specs.Merging.{importance_of, next_of};
ghost use Rattle.face_merge.specs.Running.{IsRunning, IsLive, IsNextPair, state_of, number_in};

mod neighbours;
mod start;
mod step;
mod winner;

use crate::links::{Link, Links};
use crate::queue::Queue;
use std::alloc::Global;
use tgap_model::{Base, List, Memory, MergeStep, Rules};

/// A map while it is merged, after the steps so far. The classes begin with that of face 1 and go on in order of number;
/// the number of the face in a slot is 0 where there is none.
#[derive(Drop)]
pub struct Merging<'a> {
    base: &'a Base,
    steps: List<MergeStep>,
    classes: Vec<u32>,
    numbers: Vec<u32>,
    areas: Vec<i128>,
    links: Links,
    queue: Queue,
}

/// A live face.
#[derive(Clone, Copy)]
struct Face {
    number: u32,
    class: u32,
    area: i128,
    importance: i128,
}

/// Two faces that are to be merged, by their slots, with the links of the loser.
#[derive(Drop)]
pub struct Pair {
    loser: u32,
    winner: u32,
    links: Vec<Link>,
}

/// The weight of a class.
fn weight(rules: &Rules, class: u32) -> u32
    requires rules { IsTrue (is_rules rules.now) }
    requires class { class < length rules.now.weights }
    ensures value { result ≡ slice_index rules.now.weights class }
    ensures small { result ≤ MAX_WEIGHT }
{
    rules.weights.as_slice()[class as usize]
}

/// The importance of a face: twice its area times the weight of its class.
fn importance(rules: &Rules, class: u32, area: i128) -> i128
    requires rules { IsTrue (is_rules rules.now) }
    requires class { class < length rules.now.weights }
    requires area { unsigned_abs area ≤ max_area }
    ensures { result ≡ area *ℤ pos (slice_index rules.now.weights class) }
{
    area * i128::from(weight(rules, class))
}

/// The compatibility of a class, the row of the table, with another, the column.
fn compatibility(rules: &Rules, class: u32, other: u32) -> u32
    requires rules { IsTrue (is_rules rules.now) }
    requires class { class < length rules.now.weights }
    requires other { other < length rules.now.weights }
    ensures { result ≡ slice_index rules.now.compat (class * length rules.now.weights + other) }
{
    let row = class as usize * rules.weights.len();
    rules.compat.as_slice()[row + other as usize]
}

/// Whether a face of a class permits a neighbour of another class: their compatibility is above 0.
fn permits(rules: &Rules, class: u32, other: u32) -> bool
    requires rules { IsTrue (is_rules rules.now) }
    requires class { class < length rules.now.weights }
    requires other { other < length rules.now.weights }
    ensures { result ≡ nat_lt 0 (slice_index rules.now.compat (class * length rules.now.weights + other)) }
{
    compatibility(rules, class, other) > 0
}

impl<'a> Merging<'a> {
    /// The steps so far.
    pub fn into_steps(self) -> List<MergeStep>
        ensures { result ≡ self.entry.steps }
    {
        self.steps
    }

    /// The face in a slot.
    fn face(&self, slot: u32) -> Face
        requires running { IsRunning self.now }
        requires live { IsLive self.now slot }
        ensures number { result.number ≡ number_in self.now slot }
        ensures class { result.class ≡ class_of (state_of self.now).classes (number_in self.now slot) }
        ensures below { result.class < length (state_of self.now).rules.weights }
        ensures area { result.area ≡ area_of (state_of self.now).arcs (number_in self.now slot) }
        ensures small { unsigned_abs result.area ≤ max_area }
        ensures importance { result.importance ≡ importance_of (state_of self.now) (number_in self.now slot) }
    {
        let number = self.numbers[slot as usize];
        let class = self.classes[number as usize - 1];
        let area = self.areas[slot as usize];
        let importance = importance(self.base.rules(), class, area);
        Face {
            number,
            class,
            area,
            importance,
        }
    }

    /// The next two faces to be merged; none where no face has a permitted neighbour.
    pub fn next_pair(&self, alloc: Global) -> Result<Option<Pair>, Memory>
        requires { IsRunning self.now }
        ensures { IfOk result (λ next. MatchOption next (next_of (state_of self.now) ≡ None) (IsNextPair self.now)) }
    {
        let Some(loser) = self.queue.first() else {
            return Ok(None);
        };
        let links = self.links.of(alloc, loser)?;
        let Some(best) = self.best_link(loser, &links) else {
            return Ok(None);
        };
        Ok(Some(Pair {
            loser,
            winner: best.slot,
            links,
        }))
    }
}
