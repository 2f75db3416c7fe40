//! A short text in a fixed array.

ghost use Rattle.std.specs.Prelude.{◌≡◌, ◌+◌, ◌≤◌, ◌++◌, [], length, decimal};

use itoa::Buffer;
use std::marker::Model;

/// Room for the longest head of a reply, and for the body of the reply that is made without memory.
pub(crate) const ROOM: usize = 200;

/// At most 200 bytes.
#[derive(Drop)]
pub(crate) struct FixedText {
    bytes: [u8; ROOM],
    len: usize,
}

impl Model for FixedText {
    ghost use Rattle.std.specs.Prelude.{List, ℕ, ◌≤◌, take};
    ghost use Rattle.http_face.specs.declared.fixed_text.TheConstants.{ROOM};

    ghost Value = { List ℕ };

    ghost view = { λ text. take text.len text.bytes };

    ghost invariant = { λ text. text.len ≤ ROOM };
}

impl FixedText {
    /// The empty text.
    pub(crate) fn new() -> Self
        ensures { result ≡ [] }
    {
        FixedText {
            bytes: [0; ROOM],
            len: 0,
        }
    }

    /// The bytes, in order.
    pub(crate) fn as_slice(&self) -> &[u8]
        ensures { result.now ≡ self.now }
    {
        &self.bytes[..self.len]
    }

    /// Appends bytes, for which there is room.
    pub(crate) fn push(&mut self, bytes: &[u8])
        requires { length self.old + length bytes.now ≤ ROOM }
        ensures text { self.new ≡ self.old ++ bytes.now }
        ensures len { length self.new ≡ length self.old + length bytes.now }
    {
        let end = self.len + bytes.len();
        self.bytes[self.len..end].copy_from_slice(bytes);
        self.len = end;
    }

    /// Appends a number in decimal, for which there is room.
    pub(crate) fn push_number(&mut self, number: u64)
        requires { length self.old + 20 ≤ ROOM }
        ensures text { self.new ≡ self.old ++ decimal number }
        ensures len { length self.new ≤ length self.old + 20 }
    {
        let mut buffer = Buffer::new();
        self.push(buffer.format(number).as_bytes());
    }
}
