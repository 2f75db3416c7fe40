//! Where the disks of a program come from, and where they come back.

ghost use Rattle.std.specs.Prelude.{◌≡◌, ℕ, List, Bool, true, Option, Some, IfOk};
ghost use Rattle.plain_io.specs.Harbours.{CountsDoors, CountsBack};
ghost use Rattle.edit_journal.specs.Disk.{Only};

mod host;
mod memory;

use crate::disk::Disk;
pub use host::HostDisks;
pub use memory::MemoryDisks;
use plain_io::HarbourFail;
use std::alloc::Global;
use std::marker::Send;

/// Disks by name.
pub trait Disks {
    type One: Disk + Send;

    /// Whether it is told what the disks hold.
    ghost told: { Self → Bool };

    /// The bytes that are held of a name; none of a name that is not held.
    ghost held: { Self → List ℕ → List ℕ };

    /// The disk that came back last.
    ghost returned: { Self → Option Self.One };

    /// How often no disk could be given, and how many disks with a fault came back.
    ghost faults: { Self → ℕ };

    /// The disk of this name, which is empty where there is none yet.
    fn disk(&mut self, alloc: Global, name: &str) -> Result<Self::One, HarbourFail>
        ensures sound { IfOk result (λ disk. Self.One.faults disk ≡ 0) }
        ensures one_told { told self.old ≡ true → IfOk result (λ disk. Self.One.told disk ≡ true) }
        ensures seen { told self.old ≡ true → IfOk result (λ disk. Self.One.seen disk ≡ held self.old name.now) }
        ensures only { told self.old ≡ true → IfOk result (λ disk. Only (held self.old name.now) (Self.One.may_leave disk)) }
        ensures told { told self.new ≡ told self.old }
        ensures held { (other : List ℕ) → held self.new other ≡ held self.old other }
        ensures returned { returned self.new ≡ returned self.old }
        ensures faults { CountsDoors result (faults self.old) (faults self.new) };

    /// Takes a disk back. One with a fault counts as a fault of the disks.
    fn back(&mut self, disk: Self::One)
        ensures told { told self.new ≡ told self.old }
        ensures held { (other : List ℕ) → held self.new other ≡ held self.old other }
        ensures returned { told self.old ≡ true → returned self.new ≡ Some disk }
        ensures faults { CountsBack (Self.One.faults disk) (faults self.old) (faults self.new) };
}
