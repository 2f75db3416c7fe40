//! The doors of a harbour in memory: those to be given, and room for those that come back.

ghost use Rattle.std.specs.Prelude.{[], IfOk, is_ok, if◌then◌else◌, ◌≡◌, ◌<◌, ◌≤◌, ◌+◌, ◌++◌, ◌∷◌, length, take, drop, vec_capacity};

use std::alloc::Global;
use std::mem;
use tgap_model::{List, Memory};

/// Doors that are ready to be given, how many were given, and those that came back, with room for all that were given.
#[derive(Drop)]
pub struct DoorStore<D> {
    doors: Vec<D>,
    given: usize,
    back: Vec<D>,
    ghost no_more_back: { length back.items ≤ given },
    ghost room: { given ≤ vec_capacity back },
}

impl<D: Drop> DoorStore<D> {
    ghost use Rattle.plain_io.specs.Harbours.{Doors};
    ghost use Rattle.plain_io.specs.DoorStores.{ready_of, doors_of};

    /// These doors are ready. It takes no memory.
    pub fn new(alloc: Global, doors: List<D>) -> Self
        ensures ready { ready_of result ≡ doors }
        ensures told { doors_of result ≡ record { given = 0; back = [] } }
    {
        DoorStore {
            doors: doors.into_vec(),
            given: 0,
            back: Vec::new(alloc),
        }
    }

    /// How many doors are ready.
    pub fn ready(&self) -> usize
        ensures { result ≡ length (ready_of self.now) }
    {
        self.doors.len()
    }

    /// One door more is ready, after the others.
    pub fn add(&mut self, door: D) -> Result<(), Memory>
        ensures ready { ready_of self.new ≡ (if is_ok result then ready_of self.old ++ door ∷ [] else ready_of self.old) }
        ensures told { doors_of self.new ≡ doors_of self.old }
    {
        self.doors.push(door)?;
        Ok(())
    }

    /// Gives the first doors that are ready, and takes the room for them to come back. On want of memory all is as before.
    pub fn give(&mut self, n: usize) -> Result<Vec<D>, Memory>
        requires { n ≤ length (ready_of self.old) }
        ensures gives { IfOk result (λ doors. doors.items ≡ take n (ready_of self.old)) }
        ensures ready { ready_of self.new ≡ (if is_ok result then drop n (ready_of self.old) else ready_of self.old) }
        ensures told { doors_of self.new
            ≡ (if is_ok result then record { given = (doors_of self.old).given + n; back = (doors_of self.old).back } else doors_of self.old) }
    {
        let room = (self.given - self.back.len()).checked_add(n).ok_or(Memory)?;
        self.back.reserve(room)?;
        let rest = self.doors.split_off(n)?;
        self.given += n;
        Ok(mem::replace(&mut self.doors, rest))
    }

    /// Keeps a door that came back.
    pub fn keep(&mut self, door: D)
        requires { length (doors_of self.old).back < (doors_of self.old).given }
        ensures ready { ready_of self.new ≡ ready_of self.old }
        ensures told { doors_of self.new ≡ record { given = (doors_of self.old).given; back = (doors_of self.old).back ++ door ∷ [] } }
    {
        // There is room for all doors that were given.
        let _ = self.back.push(door);
    }

    /// The doors that came back.
    pub fn back(&self) -> &[D]
        ensures { result.now ≡ (doors_of self.now).back }
    {
        self.back.as_slice()
    }
}
