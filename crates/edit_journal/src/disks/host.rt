//! Real disks: the trusted edge. They tell nothing.

ghost use Rattle.std.specs.Prelude.{◌≡◌, false, [], None, IfOk};

use super::Disks;
use crate::disk::{Disk, HostDisk};
use plain_io::HarbourFail;
use std::alloc::Global;
use std::fs::{File, OpenOptions};
use std::io;
use std::os::unix::fs::FileExt;
use std::path::Path;
use std::rt::Files as FileSystem;

/// The files of the system, each held by one program at a time.
#[derive(Drop)]
pub struct HostDisks<'a, R> {
    system: &'a R,
    faults: u64,
}

impl<'a, R: FileSystem<File = File>> HostDisks<'a, R> {
    /// The files that this runtime reaches.
    pub fn new(system: &'a R) -> Self
        ensures { ⟦<HostDisks<'a, R> as Disks>⟧.faults result ≡ 0 }
    {
        HostDisks { system, faults: 0 }
    }
}

impl<'a, R: FileSystem<File = File>> Disks for HostDisks<'a, R> {
    type One = HostDisk;

    ghost told = { λ disks. false };

    ghost held = { λ disks name. [] };

    ghost returned = { λ disks. None };

    ghost faults = { λ disks. disks.faults };

    fn disk(&mut self, _alloc: Global, name: &str) -> Result<HostDisk, HarbourFail> {
        match open(self.system, name) {
            Ok(disk) => Ok(disk),
            Err(_) => {
                self.faults = self.faults.saturating_add(1);
                Err(HarbourFail::Failed)
            }
        }
    }

    fn back(&mut self, disk: HostDisk) {
        if disk.faults() > 0 {
            self.faults = self.faults.saturating_add(1);
        }
    }
}

/// Opens a journal, which is made where it is missing, and locks it. What is no regular file, what another program holds, and
/// what begins as no journal does is refused, and nothing is written to it.
fn open<R: FileSystem<File = File>>(system: &R, name: &str) -> io::Result<HostDisk>
    ensures { IfOk result (λ disk. ⟦<HostDisk as Disk>⟧.faults disk ≡ 0) }
{
    let file = OpenOptions::new()
        .read(true)
        .write(true)
        .create(true)
        .open(system, name)?;
    if !file.metadata()?.is_file() || file.try_lock().is_err() || !may_be_journal(&file)? {
        return Err(io::ErrorKind::InvalidInput.into());
    }
    let folder = File::open(system, folder_of(name))?;
    HostDisk::settled(file, &folder)
}

/// Whether a file is empty or begins with a byte with which a journal begins.
fn may_be_journal(file: &File) -> io::Result<bool> {
    let mut first = [0u8; 1];
    let count = file.read_at(&mut first, 0)?;
    Ok(count == 0 || first[0] < 2)
}

/// The folder of a file.
fn folder_of(name: &str) -> &str {
    match Path::new(name).parent() {
        Some(folder) if !folder.as_str().is_empty() => folder.as_str(),
        _ => ".",
    }
}
