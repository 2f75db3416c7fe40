//! A disk in memory, of which the listed calls fail, and which may crash at any moment.

ghost use Rattle.std.specs.Prelude.{◌≡◌, ◌≤◌, ◌+◌, ◌++◌, ◌∷◌, [], ℕ, List, true, IfOk, OnOk, length, take, drop, refl};
ghost use Rattle.edit_journal.specs.DiskLogs.{calls_in, seen_after, left_after, left_from, are_within, held_left, left_now, left_only};

use super::Disk;
use super::log::DiskLog;
use plain_io::{Calls, Failed, LoadFail};
use std::alloc::{AllocError, Global};
use std::mem;
use tgap_model::{List, Memory, Text};

/// A disk in memory. It tells its bytes, and what a crash at each moment may leave. A listed call fails, and so does a write or
/// a sync that finds no room left in which to remember it. A write that fails writes nothing that a read gives, but a crash may
/// leave any bytes in its place.
#[derive(Drop)]
pub struct MemoryDisk {
    first: Text,
    held: Vec<u8>,
    spare: Vec<u8>,
    log: DiskLog,
    calls: Calls,
    faults: u64,
    ghost seen: { held.items ≡ seen_after first (calls_in log) },
    ghost within: { are_within first (calls_in log) ≡ true },
}

impl MemoryDisk {
    ghost use Rattle.edit_journal.specs.MemoryDisks.{disk_calls};

    /// A disk with these bytes, all of them made sure, and room to remember so many calls and so many bytes written. The calls
    /// with the listed numbers, counted from 0, fail.
    pub fn new(alloc: Global, bytes: &[u8], failing: List<u64>, room: usize) -> Result<Self, Memory>
        ensures seen { IfOk result (λ disk. ⟦<MemoryDisk as Disk>⟧.seen disk ≡ bytes.now) }
        ensures only { IfOk result (λ disk. (image : List ℕ) → ⟦<MemoryDisk as Disk>⟧.may_leave disk image → image ≡ bytes.now) }
        ensures told { IfOk result (λ disk. ⟦<MemoryDisk as Disk>⟧.told disk ≡ true) }
        ensures faults { IfOk result (λ disk. ⟦<MemoryDisk as Disk>⟧.faults disk ≡ 0) }
        ensures calls { IfOk result (λ disk. disk_calls disk ≡ record { made = 0; failing = failing }) }
    {
        let first = Text::from_slice(alloc, bytes)?;
        let mut held = Vec::new(alloc);
        held.reserve(bytes.len().saturating_add(room))?;
        held.extend_from_slice(bytes)?;
        let mut spare = Vec::new(alloc);
        spare.reserve(bytes.len().saturating_add(room))?;
        Ok(MemoryDisk {
            first,
            held,
            spare,
            log: DiskLog::new(alloc, room)?,
            calls: Calls::new(failing),
            faults: 0,
        })
    }

    /// The bytes that a read gives.
    pub fn bytes(&self) -> &[u8]
        ensures { result.now ≡ ⟦<MemoryDisk as Disk>⟧.seen self.now }
    {
        self.held.as_slice()
    }
}

/// Puts into the vector what stands after these bytes are written over others at this place.
fn overwritten(spare: &mut Vec<u8>, held: &[u8], at: usize, bytes: &[u8]) -> Result<(), AllocError>
    requires { at ≤ length held.now }
    ensures { OnOk result (spare.new.items ≡ take at held.now ++ bytes.now ++ drop (at + length bytes.now) held.now) }
{
    spare.clear();
    spare.extend_from_slice(&held[..at])?;
    spare.extend_from_slice(bytes)?;
    if bytes.len() < held.len() - at {
        spare.extend_from_slice(&held[at + bytes.len()..])?;
    }
    Ok(())
}

impl Disk for MemoryDisk {
    ghost told = { λ disk. true };

    ghost seen = { λ disk. disk.held.items };

    ghost may_leave = { λ disk. left_after disk.first (calls_in disk.log) };

    ghost moment = { λ disk. length (calls_in disk.log) };

    ghost left_since = { λ disk. left_from disk.first (calls_in disk.log) };

    ghost faults = { λ disk. disk.faults };

    fn read(&mut self, alloc: Global, max: u64) -> Result<Text, LoadFail> {
        if self.calls.count() {
            self.faults = self.faults.saturating_add(1);
            return Err(LoadFail::Failed);
        }
        if self.held.len() as u64 > max {
            return Err(LoadFail::TooLong { max });
        }
        Text::from_slice(alloc, self.held.as_slice()).map_err(|_| LoadFail::Memory)
    }

    fn write_at(&mut self, at: u64, bytes: &[u8]) -> Result<(), Failed> {
        let fails = self.calls.count();
        if !self.log.has_room(bytes.len()) {
            self.faults = self.faults.saturating_add(1);
            return Err(Failed);
        }
        if fails {
            self.faults = self.faults.saturating_add(1);
            self.log.tore(at, bytes.len());
            return Err(Failed);
        }
        let Ok(()) = overwritten(&mut self.spare, self.held.as_slice(), at as usize, bytes) else {
            self.faults = self.faults.saturating_add(1);
            self.log.tore(at, bytes.len());
            return Err(Failed);
        };
        mem::swap(&mut self.held, &mut self.spare);
        self.log.wrote(at, bytes);
        Ok(())
    }

    fn sync(&mut self) -> Result<(), Failed> {
        let fails = self.calls.count();
        if fails || !self.log.has_room(0) {
            self.faults = self.faults.saturating_add(1);
            return Err(Failed);
        }
        self.log.sure();
        Ok(())
    }

    fn faults(&self) -> u64 {
        self.faults
    }

    ghost told_alike = { λ one other. refl };

    ghost seen_is_left = { λ disk told. held_left disk.first (calls_in disk.log) disk.held.items disk.seen disk.within };

    ghost counts_now = { λ disk start image le left. left_now disk.first (calls_in disk.log) start image left };

    ghost only_now = { λ disk image left. left_only disk.first (calls_in disk.log) image left };
}
