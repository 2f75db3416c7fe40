//! The files of a program.

ghost use Rattle.std.specs.Prelude.{◌≡◌, ◌≢◌, ℕ, List, Err};
ghost use Rattle.tgap_model.specs.Faults.{Rises};
ghost use Rattle.plain_io.specs.Loads.{Told, Holds, Loads, CountsLoad, OthersStay};

mod host;
mod memory;
mod sure;

pub use host::HostFiles;
pub use memory::{MemoryFile, MemoryFiles};
use std::alloc::Global;
pub use sure::{FileTexts, SureFiles};
use tgap_model::Text;

/// What a file is loaded as.
#[derive(Clone, Copy, Debug, PartialEq, Eq)]
pub enum Which {
    Map,
    Rules,
    Slice,
    Packet,
}

/// Why a file was not loaded.
#[derive(Clone, Copy, PartialEq, Eq)]
pub enum LoadFail {
    /// The file is missing, or reading it failed.
    Failed,
    /// It has more bytes than were allowed.
    TooLong { max: u64 },
    /// An allocation was refused.
    Memory,
}

/// Files that are loaded whole, by name.
pub trait Files {
    ghost use Rattle.plain_io.specs.declared.files.Which.{Which};

    /// What is told of the file that a load of this kind and name reads.
    ghost told: { Self → Which → List ℕ → Told };

    /// How often a load of this kind has failed.
    ghost faults: { Self → Which → ℕ };

    /// The bytes of the named file, at most `max` of them.
    fn load(&mut self, alloc: Global, which: Which, name: &str, max: u64) -> Result<Text, LoadFail>
        ensures bytes { Loads (told self.old which name.now) max result }
        ensures faults { CountsLoad result (faults self.old which) (faults self.new which) }
        ensures others { OthersStay which (faults self.old) (faults self.new) }
        ensures told { (kind : Which) (file : List ℕ) → told self.new kind file ≡ told self.old kind file };
}

/// A count of faults for each kind of file. A count that stands at its type's end stays there.
#[derive(Clone, Copy, PartialEq, Eq)]
pub struct FaultCounts {
    pub map: u64,
    pub rules: u64,
    pub slice: u64,
    pub packet: u64,
}

impl FaultCounts {
    ghost use Rattle.plain_io.specs.Held.{count_of};

    /// No fault of any kind.
    pub fn new() -> Self
        ensures { (which : Which) → count_of result which ≡ 0 }
    {
        FaultCounts {
            map: 0,
            rules: 0,
            slice: 0,
            packet: 0,
        }
    }

    /// Counts one more fault of this kind.
    pub fn raise(&mut self, which: Which)
        ensures this { Rises (count_of self.old which) (count_of self.new which) }
        ensures others { OthersStay which (count_of self.old) (count_of self.new) }
    {
        match which {
            Which::Map => self.map = self.map.saturating_add(1),
            Which::Rules => self.rules = self.rules.saturating_add(1),
            Which::Slice => self.slice = self.slice.saturating_add(1),
            Which::Packet => self.packet = self.packet.saturating_add(1),
        }
    }
}

/// A copy of the bytes, where they are at most `max`.
fn copy(alloc: Global, bytes: &[u8], max: u64) -> Result<Text, LoadFail>
    ensures bytes { Loads (Holds bytes.now) max result }
    ensures fault { result ≢ Err LoadFail.Failed }
{
    if bytes.len() as u64 > max {
        return Err(LoadFail::TooLong { max });
    }
    Text::from_slice(alloc, bytes).map_err(|_| LoadFail::Memory)
}
