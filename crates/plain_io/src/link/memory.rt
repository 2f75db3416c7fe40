//! A link in memory, of which the listed calls fail.

ghost use Rattle.std.specs.Prelude.{ℕ, List, [], IfOk, OnErr, IsErr, ◌≡◌, ◌≤◌, ◌<◌, ◌+◌, ◌⊎◌, ◌↔◌, ◌||◌, false, Some, length, take, drop, min};

use super::Link;
use super::input::Input;
use crate::calls::Calls;
use crate::sink::{Failed, MemorySink, Sink};
use std::alloc::Global;
use tgap_model::{List, Memory, Text};

/// The numbers of the takes and of the puts that fail, each counted from 0.
#[derive(Drop)]
pub struct FailingCalls {
    pub takes: List<u64>,
    pub puts: List<u64>,
}

/// A link in memory, with room for a number of bytes that are put. It tells all its bytes. A put that does not fit is a
/// fault, and so is each listed call.
#[derive(Drop)]
pub struct MemoryLink {
    input: Input,
    step: usize,
    takes: Calls,
    take_faults: u64,
    output: MemorySink,
    ghost moves: { 0 < step },
}

impl MemoryLink {
    ghost use Rattle.plain_io.specs.MemoryLinks.{left_of, step_of, takes_of, puts_of, room_of};

    /// A link that gives these bytes, at most `step` of them at a take, and has that much room for what is put, which is
    /// taken now.
    pub fn new(
        alloc: Global,
        input: Text,
        step: usize,
        room: usize,
        failing: FailingCalls,
    ) -> Result<Self, Memory>
        requires { 0 < step }
        ensures taken { IfOk result (λ link. ⟦<MemoryLink as Link>⟧.taken link ≡ Some []) }
        ensures told { IfOk result (λ link. ⟦<MemoryLink as Link>⟧.told link ≡ Some []) }
        ensures take_faults { IfOk result (λ link. ⟦<MemoryLink as Link>⟧.take_faults link ≡ 0) }
        ensures put_faults { IfOk result (λ link. ⟦<MemoryLink as Link>⟧.put_faults link ≡ 0) }
        ensures unended { IfOk result (λ link. ⟦<MemoryLink as Link>⟧.ended link ≡ false) }
        ensures left { IfOk result (λ link. left_of link ≡ input) }
        ensures step { IfOk result (λ link. step_of link ≡ step) }
        ensures room { IfOk result (λ link. room_of link ≡ room) }
        ensures takes { IfOk result (λ link. takes_of link ≡ record { made = 0; failing = failing.takes }) }
        ensures puts { IfOk result (λ link. puts_of link ≡ record { made = 0; failing = failing.puts }) }
    {
        Ok(MemoryLink {
            input: Input::new(input),
            step,
            takes: Calls::new(failing.takes),
            take_faults: 0,
            output: MemorySink::new(alloc, room, failing.puts)?,
        })
    }

    /// The bytes that were put.
    pub fn bytes(&self) -> &[u8]
        ensures { ⟦<MemoryLink as Link>⟧.told self.now ≡ Some result.now }
    {
        self.output.bytes()
    }
}

impl Link for MemoryLink {
    ghost use Rattle.plain_io.specs.Puts.{Puts, CountsPut};
    ghost use Rattle.plain_io.specs.Links.{Receives, is_end, CountsTake};
    ghost use Rattle.plain_io.specs.Calls.{CountsCall, FailsNext};
    ghost use Rattle.plain_io.specs.MemoryLinks.{taken_of, told_of, take_faults_of, put_faults_of, is_ended, left_of, step_of, takes_of, puts_of, room_of};

    ghost taken = { λ s. Some (taken_of s) };

    ghost told = { λ s. Some (told_of s) };

    ghost take_faults = { take_faults_of };

    ghost put_faults = { put_faults_of };

    ghost ended = { is_ended };

    fn take(&mut self, buf: &mut [u8]) -> Result<usize, Failed>
        requires { 0 < length buf.old }
        ensures count { IfOk result (λ n. n ≤ length buf.new) }
        ensures bytes { Receives (Some (taken_of self.old)) (Some (taken_of self.new)) buf.new result }
        ensures end { is_ended self.new ≡ (is_ended self.old || is_end result) }
        ensures faults { CountsTake result (take_faults_of self.old) (take_faults_of self.new) }
        ensures told { Some (told_of self.new) ≡ Some (told_of self.old) }
        ensures put_faults { put_faults_of self.new ≡ put_faults_of self.old }
        // The take is counted, and it fails exactly where it is listed.
        ensures counted { CountsCall (takes_of self.old) (takes_of self.new) }
        ensures exact { IsErr result ↔ FailsNext (takes_of self.old) }
        // It gives the next bytes: as many as there are, at most the link's step and at most the buffer's length.
        ensures gives { IfOk result (λ n. n ≡ min (step_of self.old) (min (length buf.old) (length (left_of self.old)))) }
        ensures front { IfOk result (λ n. take n buf.new ≡ take n (left_of self.old)) }
        ensures left { IfOk result (λ n. left_of self.new ≡ drop n (left_of self.old)) }
        ensures nothing { OnErr result (left_of self.new ≡ left_of self.old) }
        ensures step { step_of self.new ≡ step_of self.old }
        ensures puts { puts_of self.new ≡ puts_of self.old }
        ensures room { room_of self.new ≡ room_of self.old }
    {
        if self.takes.count() {
            self.take_faults = self.take_faults.saturating_add(1);
            return Err(Failed);
        }
        Ok(self.input.give(buf, self.step))
    }

    fn put(&mut self, bytes: &[u8]) -> Result<(), Failed>
        ensures bytes { Puts (Some (told_of self.old)) (Some (told_of self.new)) bytes.now result }
        ensures faults { CountsPut result (put_faults_of self.old) (put_faults_of self.new) }
        ensures taken { Some (taken_of self.new) ≡ Some (taken_of self.old) }
        ensures take_faults { take_faults_of self.new ≡ take_faults_of self.old }
        ensures end { is_ended self.new ≡ is_ended self.old }
        // The put is counted, and it fails exactly where it is listed, or the bytes do not fit. Then nothing is put.
        ensures counted { CountsCall (puts_of self.old) (puts_of self.new) }
        ensures exact { IsErr result
            ↔ (FailsNext (puts_of self.old) ⊎ (room_of self.old < length (told_of self.old) + length bytes.now)) }
        ensures nothing { OnErr result (told_of self.new ≡ told_of self.old) }
        ensures room { room_of self.new ≡ room_of self.old }
        ensures left { left_of self.new ≡ left_of self.old }
        ensures step { step_of self.new ≡ step_of self.old }
        ensures takes { takes_of self.new ≡ takes_of self.old }
    {
        self.output.put(bytes)
    }
}
