//! The chunks of a row, with the places at which they begin.

ghost use Rattle.std.specs.Prelude.{◌≡◌, ◌<◌, ◌≤◌, ◌+◌, ◌^◌, ◌↔◌, ◌∷◌, [], length, get_or, take, drop, is_ok, slice_set, if◌then◌else◌, IsTrue};
ghost use Rattle.std.specs.List.{concat, insert, remove};
ghost use Rattle.chunked_row.specs.Chunks.{IsSpot};

use crate::chunk::Chunk;
use crate::spot::Spot;
use crate::starts::{last_before, move_down, move_up};
use std::alloc::Global;
use std::marker::Model;
use tgap_model::Memory;

/// Some chunks. Contracts see the list of the chunks. The starts lie side by side in memory: a place is searched among
/// them, and where a number comes or goes, those behind it are moved in about the time in which it is moved in its chunk.
#[derive(Drop)]
pub struct Chunks {
    chunks: Vec<Chunk>,
    starts: Vec<usize>,
}

impl Model for Chunks {
    ghost use Rattle.std.specs.Prelude.{ℕ, ◌≡◌, List as Sequence};
    ghost use Rattle.chunked_row.specs.Chunks.{starts_from};

    ghost Value = { Sequence (Sequence ℕ) };

    ghost view = { λ c. c.chunks.items };

    ghost invariant = { λ c. c.starts.items ≡ starts_from 0 c.chunks.items };
}

impl Chunks {
    /// No chunks. They take no memory.
    pub fn new(alloc: Global) -> Chunks
        ensures { result ≡ [] }
    {
        Chunks {
            chunks: Vec::new(alloc),
            starts: Vec::new(alloc),
        }
    }

    /// How many chunks there are.
    pub fn len(&self) -> usize
        ensures { result ≡ length self.now }
    {
        self.chunks.len()
    }

    /// Whether there is none.
    pub fn is_empty(&self) -> bool
        ensures { IsTrue result ↔ (self.now ≡ []) }
    {
        self.chunks.is_empty()
    }

    /// The chunk of a number.
    pub fn get(&self, chunk: usize) -> &Chunk
        requires { chunk < length self.now }
        ensures { result.now ≡ get_or self.now chunk [] }
    {
        &self.chunks[chunk]
    }

    /// The place at which a chunk begins: so many numbers the chunks before it have.
    pub fn start(&self, chunk: usize) -> usize
        requires { chunk < length self.now }
        ensures { result ≡ length (concat (take chunk self.now)) }
    {
        self.starts[chunk]
    }

    /// The spot of a place, in the first chunk that reaches up to it.
    pub fn spot_of(&self, place: usize) -> Spot
        requires some { 0 < length self.now }
        requires within { place ≤ length (concat self.now) }
        ensures { IsSpot self.now place result }
    {
        let chunk = last_before(&self.starts, place);
        Spot {
            chunk,
            index: place - self.starts[chunk],
        }
    }

    /// Puts a chunk of one number in, as the first one. On want of memory there is none.
    pub fn insert_first(&mut self, alloc: Global, number: u32) -> Result<(), Memory>
        requires { self.old ≡ [] }
        ensures { self.new ≡ (if is_ok result then (number ∷ []) ∷ [] else self.old) }
    {
        let first = Chunk::of_one(alloc, number)?;
        self.starts.reserve(1)?;
        self.chunks.push(first)?;
        self.starts.push_reserved(0);
        Ok(())
    }

    /// Puts a number in at an index of a chunk. On want of memory the chunks are as before.
    pub fn insert_in(&mut self, chunk: usize, index: usize, number: u32) -> Result<(), Memory>
        requires chunk { chunk < length self.old }
        requires index { index ≤ length (get_or self.old chunk []) }
        requires few { length (concat self.old) + 1 < 2 ^ 64 }
        ensures { self.new ≡ (if is_ok result then slice_set self.old chunk (insert (get_or self.old chunk []) index number) else self.old) }
    {
        self.chunks[chunk].insert(index, number)?;
        move_up(&mut self.starts, chunk + 1);
        Ok(())
    }

    /// Takes the number at an index of a chunk out.
    pub fn remove_in(&mut self, chunk: usize, index: usize)
        requires chunk { chunk < length self.old }
        requires index { index < length (get_or self.old chunk []) }
        ensures { self.new ≡ slice_set self.old chunk (remove (get_or self.old chunk []) index) }
    {
        self.chunks[chunk].remove(index);
        move_down(&mut self.starts, chunk + 1);
    }

    /// Cuts a chunk in two at an index. On want of memory the chunks are as before.
    pub fn cut(&mut self, alloc: Global, chunk: usize, index: usize) -> Result<(), Memory>
        requires chunk { chunk < length self.old }
        requires index { index ≤ length (get_or self.old chunk []) }
        requires few { length (concat self.old) < 2 ^ 64 }
        ensures { self.new ≡ (if is_ok result then slice_set (insert self.old (chunk + 1) (drop index (get_or self.old chunk []))) chunk (take index (get_or self.old chunk [])) else self.old) }
    {
        let upper = self.chunks[chunk].copy_from(alloc, index)?;
        self.starts.reserve(1)?;
        self.chunks.insert(chunk + 1, upper)?;
        self.chunks[chunk].truncate(index);
        self.starts.insert(chunk + 1, self.starts[chunk] + index)?;
        Ok(())
    }

    /// Takes an empty chunk out.
    pub fn remove(&mut self, chunk: usize)
        requires chunk { chunk < length self.old }
        requires empty { get_or self.old chunk [] ≡ [] }
        ensures { self.new ≡ remove self.old chunk }
    {
        self.chunks.remove(chunk);
        self.starts.remove(chunk);
    }
}
