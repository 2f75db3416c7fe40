//! Disks in memory, of which the listed calls fail.

ghost use Rattle.std.specs.Prelude.{◌≡◌, [], true, None, Some, IfOk};
ghost use Rattle.edit_journal.specs.NamedBytes.{bytes_of};

use super::Disks;
use crate::disk::{Disk, MemoryDisk};
use plain_io::{Calls, HarbourFail, MemoryFile};
use std::alloc::Global;
use std::mem;
use tgap_model::List;

/// Disks in memory. They tell the bytes of each name, and keep the disk that came back last. A listed call for a disk fails.
#[derive(Drop)]
pub struct MemoryDisks {
    files: List<MemoryFile>,
    calls: Calls,
    failing: List<u64>,
    room: usize,
    returned: Option<MemoryDisk>,
    faults: u64,
}

impl MemoryDisks {
    /// Disks with these bytes. The calls for a disk with the listed numbers, counted from 0, fail. Of the first disk that is
    /// given the calls listed as `failing` fail, and each disk has room to remember so much.
    pub fn new(files: List<MemoryFile>, refused: List<u64>, failing: List<u64>, room: usize) -> Self
        ensures held { (name : _) → ⟦<MemoryDisks as Disks>⟧.held result name ≡ bytes_of files name }
        ensures told { ⟦<MemoryDisks as Disks>⟧.told result ≡ true }
        ensures faults { ⟦<MemoryDisks as Disks>⟧.faults result ≡ 0 }
        ensures returned { ⟦<MemoryDisks as Disks>⟧.returned result ≡ None }
    {
        MemoryDisks {
            files,
            calls: Calls::new(refused),
            failing,
            room,
            returned: None,
            faults: 0,
        }
    }

    /// The disk that came back last.
    pub fn came_back(&self) -> Option<&MemoryDisk> {
        self.returned.as_ref()
    }
}

/// The bytes of the first file of that name, or none.
fn find<'a>(files: &'a [MemoryFile], name: &[u8]) -> &'a [u8]
    ensures { result.now ≡ bytes_of files.now name.now }
{
    for file in files {
        if file.name.as_slice() == name {
            return file.bytes.as_slice();
        }
    }
    &[]
}

impl Disks for MemoryDisks {
    type One = MemoryDisk;

    ghost told = { λ disks. true };

    ghost held = { λ disks name. bytes_of disks.files name };

    ghost returned = { λ disks. disks.returned };

    ghost faults = { λ disks. disks.faults };

    fn disk(&mut self, alloc: Global, name: &str) -> Result<MemoryDisk, HarbourFail> {
        if self.calls.count() {
            self.faults = self.faults.saturating_add(1);
            return Err(HarbourFail::Failed);
        }
        let failing = mem::replace(&mut self.failing, List::new(alloc));
        let bytes = find(self.files.as_slice(), name.as_bytes());
        MemoryDisk::new(alloc, bytes, failing, self.room).map_err(|_| HarbourFail::Memory)
    }

    fn back(&mut self, disk: MemoryDisk) {
        if disk.faults() > 0 {
            self.faults = self.faults.saturating_add(1);
        }
        self.returned = Some(disk);
    }
}
