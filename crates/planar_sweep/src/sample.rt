//! A sample of the row of the sweep, in which the place of a segment is searched.

ghost use Rattle.std.specs.Prelude.{◌≡◌, ℕ, ◌<◌, ◌≤◌, [], length, IfOk, IfSome};
ghost use Rattle.std.specs.List.{All};
ghost use Rattle.planar_sweep.specs.Ends.{IsReady};

use crate::over::is_over_at_line;
use chunked_row::Row;
use std::alloc::Global;
use tgap_model::{Memory, Seg};

/// Some of the numbers of a row, in its order, and which these are. What it tells is a guess.
#[derive(Drop)]
pub struct Sample {
    pub numbers: Row,
    held: Vec<bool>,
}

impl Sample {
    /// The empty sample of numbers below a count.
    pub fn of(alloc: Global, count: u32) -> Result<Sample, Memory>
        ensures { IfOk result (λ sample. sample.numbers ≡ []) }
    {
        let held = vec![in alloc; false; count as usize]?;
        Ok(Sample {
            numbers: Row::new(alloc),
            held,
        })
    }

    /// The place below the numbers that are over a segment.
    pub fn place_of(&self, segs: &[Seg], number: u32) -> usize
        requires ready { All (λ s. IsReady s) segs.now }
        requires known { All (λ n. n < length segs.now) self.now.numbers }
        requires number { number < length segs.now }
        ensures { result ≤ length self.now.numbers }
    {
        self.numbers.search(
            |other: u32| -> bool
                requires ready { All (λ s. IsReady s) segs.now }
                requires number { number < length segs.now }
                requires other { other < length segs.now }
            { is_over_at_line(segs[other as usize], segs[number as usize]) },
        )
    }

    /// The number at a place, where there is one.
    pub fn get(&self, place: usize) -> Option<u32> {
        if place < self.numbers.len() {
            Some(self.numbers.at(place))
        } else {
            None
        }
    }

    /// A number comes into the row, and is taken in, if it is far from the others.
    pub fn come(&mut self, segs: &[Seg], number: u32, is_far: bool) -> Result<(), Memory>
        requires ready { All (λ s. IsReady s) segs.now }
        requires known { All (λ n. n < length segs.now) self.old.numbers }
        requires number { number < length segs.now }
        ensures { IfOk result (λ _. All (λ n. n < length segs.now) self.new.numbers) }
    {
        if !is_far {
            return Ok(());
        }
        let place = self.place_of(segs, number);
        self.numbers.insert(place, number)?;
        if let Some(held) = self.held.get_mut(number as usize) {
            *held = true;
        }
        Ok(())
    }

    /// Takes a number out, where it is found. A slanted segment is over itself, an upright one is not.
    fn take_out(&mut self, segs: &[Seg], number: u32)
        requires ready { All (λ s. IsReady s) segs.now }
        requires known { All (λ n. n < length segs.now) self.old.numbers }
        requires number { number < length segs.now }
        ensures { All (λ n. n < length segs.now) self.new.numbers }
    {
        let place = self.place_of(segs, number);
        if 0 < place && self.numbers.at(place - 1) == number {
            self.numbers.remove(place - 1);
        } else if place < self.numbers.len() && self.numbers.at(place) == number {
            self.numbers.remove(place);
        }
    }

    /// A number leaves the row.
    pub fn leave(&mut self, segs: &[Seg], number: u32)
        requires ready { All (λ s. IsReady s) segs.now }
        requires known { All (λ n. n < length segs.now) self.old.numbers }
        requires number { number < length segs.now }
        ensures { All (λ n. n < length segs.now) self.new.numbers }
    {
        if !self.held.get(number as usize).copied().unwrap_or(false) {
            return;
        }
        self.take_out(segs, number);
        if let Some(held) = self.held.get_mut(number as usize) {
            *held = false;
        }
    }
}
