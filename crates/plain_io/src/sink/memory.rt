//! A sink in memory, of which the listed puts fail.

ghost use Rattle.std.specs.Prelude.{ℕ, List, [], IfOk, OnErr, IsErr, ◌≡◌, ◌≤◌, ◌<◌, ◌+◌, ◌⊎◌, ◌↔◌, Some, length, vec_capacity};

use super::{Failed, Sink};
use crate::calls::Calls;
use std::alloc::Global;
use tgap_model::{List, Memory};

/// A sink in memory, with room for a number of bytes. It tells its bytes. A put that does not fit is a fault, and so is a
/// listed one.
#[derive(Drop)]
pub struct MemorySink {
    bytes: Vec<u8>,
    room: usize,
    calls: Calls,
    faults: u64,
    ghost filled: { length bytes.items ≤ room },
    ghost taken: { room ≤ vec_capacity bytes },
}

impl MemorySink {
    ghost use Rattle.plain_io.specs.Held.{puts_of, room_of};

    /// An empty sink with that much room, which is taken now. The puts with the listed numbers, counted from 0, fail.
    pub fn new(alloc: Global, room: usize, failing: List<u64>) -> Result<Self, Memory>
        ensures told { IfOk result (λ sink. ⟦<MemorySink as Sink>⟧.told sink ≡ Some []) }
        ensures faults { IfOk result (λ sink. ⟦<MemorySink as Sink>⟧.faults sink ≡ 0) }
        ensures calls { IfOk result (λ sink. puts_of sink ≡ record { made = 0; failing = failing }) }
        ensures room { IfOk result (λ sink. room_of sink ≡ room) }
    {
        Ok(MemorySink {
            bytes: Vec::with_capacity(alloc, room)?,
            room,
            calls: Calls::new(failing),
            faults: 0,
        })
    }

    /// The bytes that were put.
    pub fn bytes(&self) -> &[u8]
        ensures { ⟦<MemorySink as Sink>⟧.told self.now ≡ Some result.now }
    {
        self.bytes.as_slice()
    }
}

impl Sink for MemorySink {
    ghost use Rattle.plain_io.specs.Puts.{Puts, CountsPut};
    ghost use Rattle.plain_io.specs.Calls.{CountsCall, FailsNext};
    ghost use Rattle.plain_io.specs.Held.{puts_of, put_faults, room_of, bytes_of};

    ghost told = { λ s. Some (bytes_of s) };

    ghost faults = { put_faults };

    fn put(&mut self, bytes: &[u8]) -> Result<(), Failed>
        ensures bytes { Puts (Some (bytes_of self.old)) (Some (bytes_of self.new)) bytes.now result }
        ensures faults { CountsPut result (put_faults self.old) (put_faults self.new) }
        // The put is counted, and it fails exactly where it is listed, or the bytes do not fit. Then nothing is taken.
        ensures counted { CountsCall (puts_of self.old) (puts_of self.new) }
        ensures room { room_of self.new ≡ room_of self.old }
        ensures exact { IsErr result
            ↔ (FailsNext (puts_of self.old) ⊎ (room_of self.old < length (bytes_of self.old) + length bytes.now)) }
        ensures nothing { OnErr result (bytes_of self.new ≡ bytes_of self.old) }
    {
        let fails = self.calls.count();
        let fits = bytes.len() <= self.room - self.bytes.len();
        if !fails && fits && self.bytes.extend_from_slice(bytes).is_ok() {
            return Ok(());
        }
        self.faults = self.faults.saturating_add(1);
        Err(Failed)
    }
}
