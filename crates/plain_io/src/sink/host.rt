//! A real sink: the trusted edge. It tells nothing of its bytes.

ghost use Rattle.std.specs.Prelude.{◌≡◌, None};

use super::{Failed, Sink};
use std::io::{ErrorKind, Write};

/// A sink over a writer, such as the standard output.
#[derive(Drop)]
pub struct HostSink<W> {
    writer: W,
    faults: u64,
}

impl<W: Write> HostSink<W> {
    /// A sink that writes here.
    pub fn new(writer: W) -> Self
        ensures { ⟦<HostSink<W> as Sink>⟧.faults result ≡ 0 }
    {
        HostSink { writer, faults: 0 }
    }
}

impl<W: Write> Sink for HostSink<W> {
    ghost told = { λ s. None };

    ghost faults = { λ s. s.faults };

    fn put(&mut self, bytes: &[u8]) -> Result<(), Failed> {
        let put = write_all(&mut self.writer, bytes);
        if put.is_err() {
            self.faults = self.faults.saturating_add(1);
        }
        put
    }
}

/// Writes all the bytes. A write of no bytes is a fault.
fn write_all<W: Write>(writer: &mut W, bytes: &[u8]) -> Result<(), Failed> {
    let mut rest = bytes;
    for _ in 0..u64::MAX {
        if rest.is_empty() {
            return Ok(());
        }
        match writer.write(rest) {
            Ok(0) => return Err(Failed),
            Ok(count) => rest = &rest[count..],
            Err(error) if error.kind() == ErrorKind::Interrupted => {}
            Err(_) => return Err(Failed),
        }
    }
    Err(Failed)
}
