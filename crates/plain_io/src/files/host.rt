//! Real files: the trusted edge. They tell nothing of their bytes.

ghost use Rattle.std.specs.Prelude.{◌≡◌, ◌≤◌, length};
ghost use Rattle.plain_io.specs.Held.{count_of};
ghost use Rattle.plain_io.specs.Loads.{Untold, Loads};

use super::{FaultCounts, Files, LoadFail, Which};
use std::alloc::Global;
use std::fs::File;
use std::io::{ErrorKind, Read};
use std::rt::Files as FileSystem;
use tgap_model::Text;

/// The files of the system.
#[derive(Drop)]
pub struct HostFiles<'a, R> {
    system: &'a R,
    faults: FaultCounts,
}

impl<'a, R: FileSystem> HostFiles<'a, R> {
    /// The files that this runtime reaches.
    pub fn new(system: &'a R) -> Self
        ensures { (which : Which) → ⟦<HostFiles<'a, R> as Files>⟧.faults result which ≡ 0 }
    {
        HostFiles {
            system,
            faults: FaultCounts::new(),
        }
    }
}

impl<'a, R: FileSystem> Files for HostFiles<'a, R> {
    ghost told = { λ f which name. Untold };

    ghost faults = { λ f. count_of f.faults };

    fn load(
        &mut self,
        alloc: Global,
        which: Which,
        name: &str,
        max: u64,
    ) -> Result<Text, LoadFail> {
        let loaded = read_file(self.system, alloc, name, max);
        if let Err(LoadFail::Failed) = loaded {
            self.faults.raise(which);
        }
        loaded
    }
}

/// The bytes of a file, at most `max` of them.
fn read_file<R: FileSystem>(
    system: &R,
    alloc: Global,
    name: &str,
    max: u64,
) -> Result<Text, LoadFail>
    ensures { Loads Untold max result }
{
    let mut file = File::open(system, name).map_err(|_| LoadFail::Failed)?;
    let mut text = Text::new(alloc);
    let mut buffer = [0u8; 8192];
    for _ in 0..u64::MAX {
        let count = match file.read(&mut buffer) {
            Ok(0) => return Ok(text),
            Ok(count) => count,
            Err(error) if error.kind() == ErrorKind::Interrupted => continue,
            Err(_) => return Err(LoadFail::Failed),
        };
        if count as u64 > max - text.len() as u64 {
            return Err(LoadFail::TooLong { max });
        }
        text.push_slice(&buffer[..count])
            .map_err(|_| LoadFail::Memory)?;
    }
    Err(LoadFail::Failed)
}
