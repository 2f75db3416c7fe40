//! The bytes that came in on a connection and were not yet passed over.

ghost use Rattle.std.specs.Prelude.{◌≡◌, ◌<◌, ◌≤◌, ◌+◌, ◌-◌, ◌||◌, ℕ, [], length, take, drop, slice_range, IfOk, OnErr};
ghost use Rattle.plain_io.specs.Links.{is_end, CountsTake};
ghost use Rattle.session.specs.Reading.{Follows, Received};

use plain_io::{Failed, Link};
use std::alloc::Global;
use std::marker::Model;
use tgap_model::Memory;

/// How many bytes are held at most: a head of 8,192 bytes and a body of 1,048,576.
pub const ROOM: usize = 1_056_768;

/// The bytes that came in and were not yet passed over, in room that is taken once.
#[derive(Drop)]
pub struct Room {
    bytes: Vec<u8>,
    start: usize,
    end: usize,
}

impl Model for Room {
    ghost use Rattle.std.specs.Prelude.{List, ℕ, ◌≡◌, ◌≤◌, length, slice_range};
    ghost use Rattle.session.specs.declared.room.TheConstants.{ROOM};

    ghost Value = { List ℕ };

    ghost view = { λ r. slice_range r.bytes.items r.start r.end };

    ghost invariant = { λ r. (length r.bytes.items ≡ ROOM) × (r.start ≤ r.end) × (r.end ≤ ROOM) };
}

/// Moves a range to the front of the buffer where it reaches the end, and gives where it stands then.
fn make_way(buffer: &mut [u8], start: usize, end: usize) -> (usize, usize)
    requires order { start ≤ end }
    requires within { end ≤ length buffer.old }
    requires room { end - start < length buffer.old }
    ensures bytes { slice_range buffer.new result.0 result.1 ≡ slice_range buffer.old start end }
    ensures order { result.0 ≤ result.1 }
    ensures room { result.1 < length buffer.new }
{
    if end < buffer.len() {
        return (start, end);
    }
    buffer.copy_within(start..end, 0);
    (0, end - start)
}

/// Takes bytes from the link into the buffer, from a place on.
fn take_into<L: Link>(link: &mut L, buffer: &mut [u8], from: usize) -> Result<usize, Failed>
    requires { from < length buffer.old }
    ensures count { IfOk result (λ n. from + n ≤ length buffer.new) }
    ensures front { take from buffer.new ≡ take from buffer.old }
    ensures bytes { IfOk result (λ n. Follows (L.taken link.old) (L.taken link.new) (slice_range buffer.new from (from + n))) }
    ensures failed { OnErr result (L.taken link.new ≡ L.taken link.old) }
    ensures end { L.ended link.new ≡ (L.ended link.old || is_end result) }
    ensures faults { CountsTake result (L.take_faults link.old) (L.take_faults link.new) }
    ensures told { L.told link.new ≡ L.told link.old }
    ensures put_faults { L.put_faults link.new ≡ L.put_faults link.old }
{
    link.take(&mut buffer[from..])
}

impl Room {
    /// Room that holds no byte.
    pub fn new(alloc: Global) -> Result<Room, Memory>
        ensures { IfOk result (λ room. room ≡ []) }
    {
        Ok(Room {
            bytes: Vec::from_elem(alloc, 0, ROOM)?,
            start: 0,
            end: 0,
        })
    }

    /// The bytes that are held.
    pub fn bytes(&self) -> &[u8]
        ensures { result.now ≡ self.now }
    {
        &self.bytes[self.start..self.end]
    }

    /// Passes over the first bytes, so many.
    pub fn pass(&mut self, n: usize)
        requires { n ≤ length self.old }
        ensures { self.new ≡ drop n self.old }
    {
        self.start += n;
    }

    /// Holds no byte from then on.
    pub fn clear(&mut self)
        ensures { self.new ≡ [] }
    {
        self.start = 0;
        self.end = 0;
    }

    /// Takes more bytes from the link, and gives their number: at least one, or 0 at the end of the input.
    pub fn fill<L: Link>(&mut self, link: &mut L) -> Result<usize, Failed>
        requires { length self.old < ROOM }
        ensures bytes { IfOk result (λ n. Received (L.taken link.old) (L.taken link.new) self.old self.new) }
        ensures count { IfOk result (λ n. length self.new ≡ length self.old + n) }
        ensures failed { OnErr result ((L.taken link.new ≡ L.taken link.old) × (self.new ≡ self.old)) }
        ensures end { L.ended link.new ≡ (L.ended link.old || is_end result) }
        ensures faults { CountsTake result (L.take_faults link.old) (L.take_faults link.new) }
        ensures told { L.told link.new ≡ L.told link.old }
        ensures put_faults { L.put_faults link.new ≡ L.put_faults link.old }
    {
        let buffer = self.bytes.as_mut_slice();
        let (start, end) = make_way(buffer, self.start, self.end);
        let taken = take_into(link, buffer, end);
        self.start = start;
        self.end = end;
        match taken {
            Ok(n) => {
                self.end += n;
                Ok(n)
            }
            Err(failed) => Err(failed),
        }
    }
}
