//! The calls that a disk in memory has seen.

ghost use Rattle.std.specs.Prelude.{◌≡◌, ◌<◌, ◌≤◌, ◌+◌, ◌∷◌, [], ℕ, List, length, vec_len, vec_capacity, IfOk, IsTrue, ◌↔◌};

use std::alloc::Global;
use tgap_model::Memory;

/// A call that changed what a crash may leave.
#[derive(Clone, Copy, PartialEq, Eq)]
pub enum Step {
    /// A write at this place, of so many bytes.
    Wrote { at: u64, len: u64 },
    /// A write that failed.
    Tore { at: u64, len: u64 },
    /// A sync that succeeded.
    Sure,
}

/// The calls so far, with the bytes of the writes that succeeded, one after the other, in room that is taken at first.
#[derive(Drop)]
pub struct DiskLog {
    steps: Vec<Step>,
    bytes: Vec<u8>,
    room: usize,
    ghost steps_fit: { vec_len steps ≤ room },
    ghost bytes_fit: { vec_len bytes ≤ room },
    ghost steps_room: { room ≤ vec_capacity steps },
    ghost bytes_room: { room ≤ vec_capacity bytes },
}

impl DiskLog {
    ghost use Rattle.edit_journal.specs.DiskLogs.{Logged, Write, Tear, MadeSure, calls_in};
    ghost use Rattle.edit_journal.specs.LogRoom.{has_room_for};

    /// No calls, with room for so many and for so many bytes.
    pub fn new(alloc: Global, room: usize) -> Result<Self, Memory>
        ensures { IfOk result (λ log. calls_in log ≡ []) }
    {
        Ok(DiskLog {
            steps: Vec::with_capacity(alloc, room)?,
            bytes: Vec::with_capacity(alloc, room)?,
            room,
        })
    }

    /// Whether there is room for one call more, with so many bytes.
    pub fn has_room(&self, len: usize) -> bool
        ensures { IsTrue result ↔ has_room_for self.now len }
    {
        self.steps.len() < self.room && len <= self.room - self.bytes.len()
    }

    /// Adds a write that succeeded.
    pub fn wrote(&mut self, at: u64, bytes: &[u8])
        requires { has_room_for self.old (length bytes.now) }
        ensures { calls_in self.new ≡ Write at bytes.now ∷ calls_in self.old }
    {
        // There is room for both.
        let _ = self.bytes.extend_from_slice(bytes);
        let len = bytes.len() as u64;
        let _ = self.steps.push(Step::Wrote { at, len });
    }

    /// Adds a write that failed.
    pub fn tore(&mut self, at: u64, len: usize)
        requires { has_room_for self.old 0 }
        ensures { calls_in self.new ≡ Tear at len ∷ calls_in self.old }
    {
        let len = len as u64;
        let _ = self.steps.push(Step::Tore { at, len });
    }

    /// Adds a sync that succeeded.
    pub fn sure(&mut self)
        requires { has_room_for self.old 0 }
        ensures { calls_in self.new ≡ MadeSure ∷ calls_in self.old }
    {
        let _ = self.steps.push(Step::Sure);
    }
}
