//! Where a program puts its text.

ghost use Rattle.std.specs.Prelude.{ℕ, List, Option};
ghost use Rattle.plain_io.specs.Puts.{Puts, CountsPut};

mod host;
mod memory;
mod sure;

pub use host::HostSink;
pub use memory::MemorySink;
pub use sure::SureSink;

/// A fault of the outside.
#[derive(Clone, Copy, Debug, PartialEq, Eq)]
pub struct Failed;

/// A place to which bytes are put.
pub trait Sink {
    /// The bytes that were put, where they are told.
    ghost told: { Self → Option (List ℕ) };

    /// How often a put has failed.
    ghost faults: { Self → ℕ };

    /// Puts all the bytes after those that were put before. After a failure a front of them may have been put.
    fn put(&mut self, bytes: &[u8]) -> Result<(), Failed>
        ensures bytes { Puts (told self.old) (told self.new) bytes.now result }
        ensures faults { CountsPut result (faults self.old) (faults self.new) };
}
