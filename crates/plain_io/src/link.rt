//! The two ways of a connection: bytes that come in, and bytes that go out.

ghost use Rattle.std.specs.Prelude.{ℕ, Bool, List, Option, IfOk, ◌≡◌, ◌<◌, ◌≤◌, ◌||◌, length};
ghost use Rattle.plain_io.specs.Puts.{Puts, CountsPut};
ghost use Rattle.plain_io.specs.Links.{Receives, is_end, CountsTake};

mod held;
mod input;
mod memory;
mod sure;
mod tcp;

use crate::sink::Failed;
pub use held::{Flag, HeldLink};
pub use memory::{FailingCalls, MemoryLink};
pub use sure::SureLink;
pub use tcp::{PEER_SECONDS, TcpLink};

/// A link to a peer. It may be let go at any time.
pub trait Link: Drop {
    /// The bytes that were taken, where they are told.
    ghost taken: { Self → Option (List ℕ) };

    /// The bytes that were put, where they are told.
    ghost told: { Self → Option (List ℕ) };

    /// How often a take has failed.
    ghost take_faults: { Self → ℕ };

    /// How often a put has failed.
    ghost put_faults: { Self → ℕ };

    /// Whether a take has answered 0.
    ghost ended: { Self → Bool };

    /// Takes the next bytes into the front of the buffer, and gives their number: at least one, or 0 at the end of the
    /// input. A take that failed took nothing.
    fn take(&mut self, buf: &mut [u8]) -> Result<usize, Failed>
        requires { 0 < length buf.old }
        ensures count { IfOk result (λ n. n ≤ length buf.new) }
        ensures bytes { Receives (taken self.old) (taken self.new) buf.new result }
        ensures end { ended self.new ≡ (ended self.old || is_end result) }
        ensures faults { CountsTake result (take_faults self.old) (take_faults self.new) }
        ensures told { told self.new ≡ told self.old }
        ensures put_faults { put_faults self.new ≡ put_faults self.old };

    /// Puts all the bytes after those that were put before. After a failure a front of them may have been put.
    fn put(&mut self, bytes: &[u8]) -> Result<(), Failed>
        ensures bytes { Puts (told self.old) (told self.new) bytes.now result }
        ensures faults { CountsPut result (put_faults self.old) (put_faults self.new) }
        ensures taken { taken self.new ≡ taken self.old }
        ensures take_faults { take_faults self.new ≡ take_faults self.old }
        ensures end { ended self.new ≡ ended self.old };
}
