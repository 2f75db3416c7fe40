//! Some neighbouring numbers of a row.

ghost use Rattle.std.specs.Prelude.{◌≡◌, ◌<◌, ◌≤◌, ◌∷◌, [], length, get_or, take, drop, is_ok, if◌then◌else◌, IfOk};
ghost use Rattle.std.specs.List.{insert, remove};

use std::alloc::Global;
use std::marker::Model;
use tgap_model::Memory;

/// How many numbers a chunk has at most: few enough that they are moved in the time of a few comparisons, and many
/// enough that there are few chunks.
pub const FULL: usize = 1024;

/// Some numbers in a row. Contracts see the list of the numbers.
#[derive(Drop)]
pub struct Chunk {
    numbers: Vec<u32>,
}

impl Model for Chunk {
    ghost use Rattle.std.specs.Prelude.{ℕ, List as Sequence};

    ghost Value = { Sequence ℕ };

    ghost view = { λ c. c.numbers.items };
}

impl Chunk {
    /// The chunk of one number, with room for as many as fill it.
    pub fn of_one(alloc: Global, number: u32) -> Result<Chunk, Memory>
        ensures { IfOk result (λ chunk. chunk ≡ number ∷ []) }
    {
        let mut numbers = Vec::with_capacity(alloc, FULL)?;
        numbers.push(number)?;
        Ok(Chunk { numbers })
    }

    /// A copy of the numbers from an index on, with room for as many as fill a chunk.
    pub fn copy_from(&self, alloc: Global, index: usize) -> Result<Chunk, Memory>
        requires { index ≤ length self.now }
        ensures { IfOk result (λ chunk. chunk ≡ drop index self.now) }
    {
        let mut numbers = Vec::with_capacity(alloc, FULL)?;
        numbers.extend_from_slice(&self.numbers[index..])?;
        Ok(Chunk { numbers })
    }

    /// How many numbers it has.
    pub fn len(&self) -> usize
        ensures { result ≡ length self.now }
    {
        self.numbers.len()
    }

    /// The number at an index.
    pub fn at(&self, index: usize) -> u32
        requires { index < length self.now }
        ensures { result ≡ get_or self.now index 0 }
    {
        self.numbers[index]
    }

    /// The numbers, in order.
    pub fn as_slice(&self) -> &[u32]
        ensures { result.now ≡ self.now }
    {
        self.numbers.as_slice()
    }

    /// Puts a number in at an index. On want of memory the chunk is as before.
    pub fn insert(&mut self, index: usize, number: u32) -> Result<(), Memory>
        requires { index ≤ length self.old }
        ensures { self.new ≡ (if is_ok result then insert self.old index number else self.old) }
    {
        self.numbers.insert(index, number)?;
        Ok(())
    }

    /// Takes the number at an index out.
    pub fn remove(&mut self, index: usize)
        requires { index < length self.old }
        ensures { self.new ≡ remove self.old index }
    {
        self.numbers.remove(index);
    }

    /// Keeps the first numbers, up to an index.
    pub fn truncate(&mut self, index: usize)
        ensures { self.new ≡ take index self.old }
    {
        self.numbers.truncate(index);
    }
}
