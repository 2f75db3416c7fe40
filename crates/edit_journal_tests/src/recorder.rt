//! A disk that records what is written to it.

ghost use Rattle.std.specs.Prelude.{false, [], ⊤, refl};

use edit_journal::Disk;
use plain_io::{Failed, LoadFail};
use std::alloc::Global;
use tgap_model::{Memory, Text};

/// A write at a place, or a sync where nothing is written.
#[derive(Debug, Drop)]
pub struct Written {
    pub at: usize,
    pub bytes: Text,
}

/// A disk that records each write and each sync. It tells nothing, so that tests may look at the calls alone.
#[derive(Debug, Drop)]
pub struct Recorder {
    pub alloc: Global,
    pub held: Vec<u8>,
    pub calls: Vec<Written>,
}

/// These bytes with others written over them at a place, which is at most their length.
pub fn overwritten(alloc: Global, bytes: &[u8], at: usize, new: &[u8]) -> Result<Vec<u8>, Memory> {
    let front = at.min(bytes.len());
    let mut out = Vec::from_slice(alloc, &bytes[..front])?;
    out.extend_from_slice(new)?;
    if out.len() < bytes.len() {
        let rest = &bytes[out.len()..];
        out.extend_from_slice(rest)?;
    }
    Ok(out)
}

impl Recorder {
    /// Records a write, and what the disk holds then.
    fn write(&mut self, at: usize, bytes: &[u8]) -> Result<(), Memory> {
        let held = overwritten(self.alloc, self.held.as_slice(), at, bytes)?;
        self.calls.push(Written {
            at,
            bytes: Text::from_slice(self.alloc, bytes)?,
        })?;
        self.held = held;
        Ok(())
    }
}

impl Disk for Recorder {
    ghost told = { λ disk. false };

    ghost seen = { λ disk. [] };

    ghost may_leave = { λ disk image. ⊤ };

    ghost moment = { λ disk. 0 };

    ghost left_since = { λ disk start image. ⊤ };

    ghost faults = { λ disk. 0 };

    fn read(&mut self, alloc: Global, max: u64) -> Result<Text, LoadFail> {
        if self.held.len() as u64 > max {
            return Err(LoadFail::TooLong { max });
        }
        Text::from_slice(alloc, self.held.as_slice()).map_err(|_| LoadFail::Memory)
    }

    fn write_at(&mut self, at: u64, bytes: &[u8]) -> Result<(), Failed> {
        // A test has memory.
        let _ = self.write(at as usize, bytes);
        Ok(())
    }

    fn sync(&mut self) -> Result<(), Failed> {
        let _ = self.write(0, b"");
        Ok(())
    }

    fn faults(&self) -> u64 {
        0
    }

    ghost told_alike = { λ one other. refl };

    ghost seen_is_left = { λ disk told. tt };

    ghost counts_now = { λ disk start image le left. tt };

    ghost only_now = { λ disk image left. tt };
}
