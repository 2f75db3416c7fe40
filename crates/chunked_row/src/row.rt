//! A row of numbers with cheap changes in the middle.

ghost use Rattle.std.specs.Prelude.{◌≡◌, ℕ, ◌<◌, ◌≤◌, ◌+◌, ◌-◌, ◌↔◌, true, false, [], length, get_or, is_ok, if◌then◌else◌, IsTrue};
ghost use Rattle.std.specs.List.{All, insert, remove};

use crate::chunks::Chunks;
use crate::edits::{insert_at, number_at, remove_at, run_of};
use crate::search::place_in;
use std::alloc::Global;
use std::marker::Model;
use tgap_model::Memory;

/// A row of numbers. Contracts see the list of the numbers.
#[derive(Drop)]
pub struct Row {
    alloc: Global,
    chunks: Chunks,
    count: usize,
}

impl Model for Row {
    ghost use Rattle.std.specs.Prelude.{ℕ, List as Sequence};
    ghost use Rattle.std.specs.List.{concat};
    ghost use Rattle.chunked_row.specs.Chunks.{AreCounted};

    ghost Value = { Sequence ℕ };

    ghost view = { λ r. concat r.chunks };

    ghost invariant = { λ r. AreCounted r.chunks r.count };
}

impl Row {
    /// The empty row. It takes no memory.
    pub fn new(alloc: Global) -> Row
        ensures { result ≡ [] }
    {
        Row {
            alloc,
            chunks: Chunks::new(alloc),
            count: 0,
        }
    }

    /// How many numbers it has.
    pub fn len(&self) -> usize
        ensures { result ≡ length self.now }
    {
        self.count
    }

    /// Whether it has no number.
    pub fn is_empty(&self) -> bool
        ensures { IsTrue result ↔ (self.now ≡ []) }
    {
        self.chunks.is_empty()
    }

    /// The number at a place. Its chunk is searched among the starts of the chunks, of which there are at most two for
    /// each thousand numbers that came in.
    pub fn at(&self, place: usize) -> u32
        requires { place < length self.now }
        ensures { result ≡ get_or self.now place 0 }
    {
        number_at(&self.chunks, place)
    }

    /// The numbers from a place on that lie side by side in memory: one at least, and as many as a chunk has. So a row
    /// is read in order, from run to run, in a time of its length.
    pub fn run_from(&self, place: usize) -> &[u32]
        requires { place < length self.now }
        ensures some { 0 < length result.now }
        ensures within { place + length result.now ≤ length self.now }
        ensures numbers { (k d : ℕ) → k < length result.now → get_or result.now k d ≡ get_or self.now (place + k) d }
    {
        run_of(&self.chunks, place)
    }

    /// A place at which the test turns: the number before it passes, and the one at it fails. Where those that pass
    /// stand before all others, there is one such place. The test is tried on about as many numbers as the length has
    /// bits.
    pub fn search<P: Fn(u32) -> bool>(&self, passes: P) -> usize
        requires { All (P.pre passes) self.now }
        ensures within { result ≤ length self.now }
        ensures passed { 0 < result → P.post passes (get_or self.now (result - 1) 0) true }
        ensures failed { result < length self.now → P.post passes (get_or self.now result 0) false }
    {
        place_in(&self.chunks, &passes)
    }

    /// Puts a number in at a place: those from there on move up by one. On want of memory the row is as before.
    pub fn insert(&mut self, place: usize, number: u32) -> Result<(), Memory>
        requires { place ≤ length self.old }
        ensures { self.new ≡ (if is_ok result then insert self.old place number else self.old) }
    {
        let count = self.count.checked_add(1).ok_or(Memory)?;
        insert_at(self.alloc, &mut self.chunks, place, number)?;
        self.count = count;
        Ok(())
    }

    /// Takes the number at a place out: those behind it move down by one.
    pub fn remove(&mut self, place: usize)
        requires { place < length self.old }
        ensures { self.new ≡ remove self.old place }
    {
        remove_at(&mut self.chunks, place);
        self.count -= 1;
    }
}
