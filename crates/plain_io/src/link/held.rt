//! A link for a test, whose input may be held until another link was written to.

ghost use Rattle.std.specs.Prelude.{ℕ, List, [], IfOk, OnErr, IsErr, ◌≡◌, ◌≤◌, ◌<◌, ◌+◌, ◌++◌, ◌↔◌, ◌||◌, false, Some, length, take, drop, is_ok, if◌then◌else◌};
ghost use Rattle.plain_io.specs.Held.{puts_of};

use super::Link;
use super::input::Input;
use crate::sink::{Failed, MemorySink, Sink};
use std::alloc::Global;
use std::collections::VecDeque;
use std::hint::spin_loop;
use std::sync::Arc;
use std::sync::atomic::{AtomicBool, Ordering};
use std::thread;
use tgap_model::{List, Memory, Text};

/// How often a take looks at a flag before it fails.
const TURNS: u32 = 100_000_000;

/// After so many looks at a flag other threads are let run.
const TURNS_ALONE: u32 = 256;

/// A flag that links share. It is raised once and for all.
#[derive(Drop)]
pub struct Flag {
    raised: Arc<AtomicBool>,
}

impl Flag {
    /// A flag that is not raised.
    pub fn new(alloc: Global) -> Result<Self, Memory> {
        Ok(Flag {
            raised: Arc::new(alloc, AtomicBool::new(false))?,
        })
    }

    /// The same flag once more.
    pub fn share(&self) -> Result<Self, Memory> {
        Ok(Flag {
            raised: Arc::try_clone(&self.raised)?,
        })
    }

    fn raise(&self) {
        self.raised.store(true, Ordering::SeqCst);
    }

    /// Waits until the flag is raised, and says whether it was in time.
    fn wait(&self) -> bool {
        for turn in 0..TURNS {
            if self.raised.load(Ordering::SeqCst) {
                return true;
            }
            if turn % TURNS_ALONE == 0 {
                thread::yield_now();
            } else {
                spin_loop();
            }
        }
        false
    }
}

/// The end of a piece among all bytes, and the flag until which it is held.
#[derive(Drop)]
struct Piece {
    end: usize,
    until: Option<Flag>,
}

/// A link for a test over pieces of input, one for each take, with room for a number of bytes that are put. It tells all
/// its bytes. A put that does not fit is a fault, and so is a take of a piece whose flag is not raised in time.
#[derive(Drop)]
pub struct HeldLink {
    input: Input,
    pieces: VecDeque<Piece>,
    flags: VecDeque<Flag>,
    take_faults: u64,
    output: MemorySink,
    ghost sound: { (puts_of output).failing ≡ [] },
}

impl HeldLink {
    ghost use Rattle.plain_io.specs.HeldLinks.{left_of, room_of, SameButLeft};

    /// A link without input, with that much room for what is put, which is taken now.
    pub fn new(alloc: Global, room: usize) -> Result<Self, Memory>
        ensures taken { IfOk result (λ link. ⟦<HeldLink as Link>⟧.taken link ≡ Some []) }
        ensures told { IfOk result (λ link. ⟦<HeldLink as Link>⟧.told link ≡ Some []) }
        ensures take_faults { IfOk result (λ link. ⟦<HeldLink as Link>⟧.take_faults link ≡ 0) }
        ensures put_faults { IfOk result (λ link. ⟦<HeldLink as Link>⟧.put_faults link ≡ 0) }
        ensures unended { IfOk result (λ link. ⟦<HeldLink as Link>⟧.ended link ≡ false) }
        ensures left { IfOk result (λ link. left_of link ≡ []) }
        ensures room { IfOk result (λ link. room_of link ≡ room) }
    {
        Ok(HeldLink {
            input: Input::new(Text::new(alloc)),
            pieces: VecDeque::new(alloc),
            flags: VecDeque::new(alloc),
            take_faults: 0,
            output: MemorySink::new(alloc, room, List::new(alloc))?,
        })
    }

    /// Adds a piece of input, which is held until the flag is raised. One of no bytes is passed over.
    pub fn add_piece(&mut self, bytes: &[u8], until: Option<Flag>) -> Result<(), Memory>
        ensures left { left_of self.new ≡ (if is_ok result then left_of self.old ++ bytes.now else left_of self.old) }
        ensures same { SameButLeft self.old self.new }
    {
        if bytes.is_empty() {
            return Ok(());
        }
        self.pieces.reserve(1)?;
        let end = self.input.add(bytes)?;
        // There is room for it.
        let _ = self.pieces.push_back(Piece { end, until });
        Ok(())
    }

    /// Adds a flag. The first put that succeeds raises the first flag, the next one the next.
    pub fn add_flag(&mut self, flag: Flag) -> Result<(), Memory>
        ensures left { left_of self.new ≡ left_of self.old }
        ensures same { SameButLeft self.old self.new }
    {
        self.flags.push_back(flag)?;
        Ok(())
    }

    /// The bytes that were put.
    pub fn bytes(&self) -> &[u8]
        ensures { ⟦<HeldLink as Link>⟧.told self.now ≡ Some result.now }
    {
        self.output.bytes()
    }
}

impl Link for HeldLink {
    ghost use Rattle.plain_io.specs.Puts.{Puts, CountsPut};
    ghost use Rattle.plain_io.specs.Links.{Receives, is_end, CountsTake};
    ghost use Rattle.plain_io.specs.HeldLinks.{taken_of, told_of, take_faults_of, put_faults_of, is_ended, left_of, room_of};

    ghost taken = { λ s. Some (taken_of s) };

    ghost told = { λ s. Some (told_of s) };

    ghost take_faults = { take_faults_of };

    ghost put_faults = { put_faults_of };

    ghost ended = { is_ended };

    fn take(&mut self, buf: &mut [u8]) -> Result<usize, Failed>
        requires { 0 < length buf.old }
        ensures count { IfOk result (λ n. n ≤ length buf.new) }
        ensures bytes { Receives (Some (taken_of self.old)) (Some (taken_of self.new)) buf.new result }
        ensures end { is_ended self.new ≡ (is_ended self.old || is_end result) }
        ensures faults { CountsTake result (take_faults_of self.old) (take_faults_of self.new) }
        ensures told { Some (told_of self.new) ≡ Some (told_of self.old) }
        ensures put_faults { put_faults_of self.new ≡ put_faults_of self.old }
        // It gives the next bytes, at least one where any are left.
        ensures front { IfOk result (λ n. take n buf.new ≡ take n (left_of self.old)) }
        ensures left { IfOk result (λ n. left_of self.new ≡ drop n (left_of self.old)) }
        ensures none_left { IfOk result (λ n. n ≡ 0 → left_of self.old ≡ []) }
        ensures nothing { OnErr result (left_of self.new ≡ left_of self.old) }
        ensures room { room_of self.new ≡ room_of self.old }
    {
        let Some(piece) = self.pieces.front() else {
            let most = buf.len();
            return Ok(self.input.give(buf, most));
        };
        if !piece.until.as_ref().is_none_or(Flag::wait) {
            self.take_faults = self.take_faults.saturating_add(1);
            return Err(Failed);
        }
        let most = piece.end.saturating_sub(self.input.given()).max(1);
        let count = self.input.give(buf, most);
        if count == most {
            self.pieces.pop_front();
        }
        Ok(count)
    }

    fn put(&mut self, bytes: &[u8]) -> Result<(), Failed>
        ensures bytes { Puts (Some (told_of self.old)) (Some (told_of self.new)) bytes.now result }
        ensures faults { CountsPut result (put_faults_of self.old) (put_faults_of self.new) }
        ensures taken { Some (taken_of self.new) ≡ Some (taken_of self.old) }
        ensures take_faults { take_faults_of self.new ≡ take_faults_of self.old }
        ensures end { is_ended self.new ≡ is_ended self.old }
        // The put fails exactly where the bytes do not fit. Then nothing is put.
        ensures exact { IsErr result ↔ (room_of self.old < length (told_of self.old) + length bytes.now) }
        ensures nothing { OnErr result (told_of self.new ≡ told_of self.old) }
        ensures room { room_of self.new ≡ room_of self.old }
        ensures left { left_of self.new ≡ left_of self.old }
    {
        self.output.put(bytes)?;
        if let Some(flag) = self.flags.pop_front() {
            flag.raise();
        }
        Ok(())
    }
}
