//! Bytes that a link in memory gives, one front after another.

ghost use Rattle.std.specs.Prelude.{◌≡◌, ◌≤◌, ◌||◌, ◌==◌, ◌++◌, false, [], length, take, drop, min, is_ok, if◌then◌else◌};

use tgap_model::{Memory, Text};

/// Bytes of which a front was given, and whether their end was told.
#[derive(Drop)]
pub struct Input {
    bytes: Text,
    given: usize,
    ended: bool,
    ghost within: { given ≤ length bytes },
}

impl Input {
    ghost use Rattle.plain_io.specs.Inputs.{given_of, rest_of, ended_of};

    /// All the bytes are still to be given.
    pub fn new(bytes: Text) -> Self
        ensures given { given_of result ≡ [] }
        ensures rest { rest_of result ≡ bytes }
        ensures end { ended_of result ≡ false }
    {
        Input {
            bytes,
            given: 0,
            ended: false,
        }
    }

    /// How many bytes were given.
    pub fn given(&self) -> usize {
        self.given
    }

    /// Adds bytes after the others, and gives the number of all bytes. On want of memory all is as before.
    pub fn add(&mut self, bytes: &[u8]) -> Result<usize, Memory>
        ensures given { given_of self.new ≡ given_of self.old }
        ensures rest { rest_of self.new ≡ (if is_ok result then rest_of self.old ++ bytes.now else rest_of self.old) }
        ensures end { ended_of self.new ≡ ended_of self.old }
    {
        self.bytes.push_slice(bytes)?;
        Ok(self.bytes.len())
    }

    /// Gives the next bytes, at most so many and at most as many as the buffer has room for, and their number.
    pub fn give(&mut self, buf: &mut [u8], most: usize) -> usize
        ensures count { result ≡ min most (min (length buf.old) (length (rest_of self.old))) }
        ensures bytes { take result buf.new ≡ take result (rest_of self.old) }
        ensures given { given_of self.new ≡ given_of self.old ++ take result (rest_of self.old) }
        ensures rest { rest_of self.new ≡ drop result (rest_of self.old) }
        ensures end { ended_of self.new ≡ (ended_of self.old || (result == 0)) }
    {
        let rest = &self.bytes.as_slice()[self.given..];
        let count = most.min(buf.len().min(rest.len()));
        buf[..count].copy_from_slice(&rest[..count]);
        self.given += count;
        self.ended = self.ended || count == 0;
        count
    }
}
