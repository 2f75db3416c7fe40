//! Files in memory, of which the listed loads fail.

ghost use Rattle.std.specs.Prelude.{ℕ, List, ◌≡◌, ◌⊎◌, ◌↔◌, Err, MatchOption};
ghost use Rattle.plain_io.specs.Calls.{CountsCall, FailsNext};
ghost use Rattle.plain_io.specs.Loads.{Missing, Holds, Loads, CountsLoad, OthersStay};
ghost use Rattle.plain_io.specs.Held.{file_of, told_of, load_faults, loads_of};

use super::{FaultCounts, Files, LoadFail, Which, copy};
use crate::calls::Calls;
use std::alloc::Global;
use tgap_model::{List, Text};

/// A file in memory.
#[derive(Drop)]
pub struct MemoryFile {
    pub name: Text,
    pub bytes: Text,
}

/// Files in memory. They tell their bytes. A load of a name that none of them has is a fault, and so is a listed one.
#[derive(Drop)]
pub struct MemoryFiles {
    files: List<MemoryFile>,
    calls: Calls,
    faults: FaultCounts,
}

impl MemoryFiles {
    /// These files. The loads with the listed numbers, counted from 0, fail.
    pub fn new(files: List<MemoryFile>, failing: List<u64>) -> Self
        ensures told { (which : Which) (name : List ℕ)
            → ⟦<MemoryFiles as Files>⟧.told result which name ≡ file_of files name }
        ensures faults { (which : Which) → ⟦<MemoryFiles as Files>⟧.faults result which ≡ 0 }
        ensures calls { loads_of result ≡ record { made = 0; failing = failing } }
    {
        MemoryFiles {
            files,
            calls: Calls::new(failing),
            faults: FaultCounts::new(),
        }
    }
}

impl Files for MemoryFiles {
    ghost told = { λ f which name. told_of f name };

    ghost faults = { load_faults };

    fn load(&mut self, alloc: Global, which: Which, name: &str, max: u64) -> Result<Text, LoadFail>
        ensures bytes { Loads (told_of self.old name.now) max result }
        ensures faults { CountsLoad result (load_faults self.old which) (load_faults self.new which) }
        ensures others { OthersStay which (load_faults self.old) (load_faults self.new) }
        ensures told { (kind : Which) (file : List ℕ) → told_of self.new file ≡ told_of self.old file }
        // The load is counted, and it fails exactly where it is listed, or no file has the name.
        ensures counted { CountsCall (loads_of self.old) (loads_of self.new) }
        ensures exact { (result ≡ Err LoadFail.Failed)
            ↔ (FailsNext (loads_of self.old) ⊎ (told_of self.old name.now ≡ Missing)) }
    {
        let fails = self.calls.count();
        match find(self.files.as_slice(), name.as_bytes()) {
            Some(bytes) if !fails => copy(alloc, bytes, max),
            _ => {
                self.faults.raise(which);
                Err(LoadFail::Failed)
            }
        }
    }
}

/// The bytes of the first file of that name.
fn find<'a>(files: &'a [MemoryFile], name: &[u8]) -> Option<&'a [u8]>
    ensures { let file = file_of files.now name.now in
        MatchOption result (file ≡ Missing) (λ bytes. file ≡ Holds bytes.now) }
{
    for file in files {
        if file.name.as_slice() == name {
            return Some(file.bytes.as_slice());
        }
    }
    None
}
