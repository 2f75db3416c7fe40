//! A disk: bytes that are read, written and made sure, and that a crash may change at any moment.

ghost use Rattle.std.specs.Prelude.{◌≡◌, ◌≤◌, ℕ, List, Bool, true, length, OnOk};
ghost use Rattle.plain_io.specs.Loads.{Loads, CountsLoad};
ghost use Rattle.plain_io.specs.Puts.{CountsPut};
ghost use Rattle.edit_journal.specs.Disk.{bytes_told, IsWritten, Torn, Follows, Stays, Only, Elapses};

mod host;
mod log;
mod memory;
mod sure;

pub use host::HostDisk;
pub use memory::MemoryDisk;
use plain_io::{Failed, LoadFail};
use std::alloc::Global;
pub use sure::SureDisk;
use tgap_model::Text;

/// A disk. Where it is told what it holds, a read gives one of the images that a crash at that moment may leave. A crash may
/// leave any bytes in the ranges that were written since the last sync that succeeded, and past the old end; all other bytes
/// stay. A sync that failed makes nothing sure.
pub trait Disk {
    /// Whether it is told what the disk holds.
    ghost told: { Self → Bool };

    /// The bytes that a read gives.
    ghost seen: { Self → List ℕ };

    /// What a crash at this moment may leave.
    ghost may_leave: { Self → List ℕ → Type 0 };

    /// The moment, as a number that does not fall.
    ghost moment: { Self → ℕ };

    /// What a crash at some moment from that one on might have left, within a call or between two.
    ghost left_since: { Self → ℕ → List ℕ → Type 0 };

    /// How often a call has failed.
    ghost faults: { Self → ℕ };

    /// All the bytes, at most `max` of them.
    fn read(&mut self, alloc: Global, max: u64) -> Result<Text, LoadFail>
        ensures told { told self.new ≡ told self.old }
        ensures bytes { Loads (bytes_told (told self.old) (seen self.old)) max result }
        ensures seen { told self.old ≡ true → OnOk result (seen self.new ≡ seen self.old) }
        ensures crash { told self.old ≡ true → Stays (may_leave self.old) (may_leave self.new) }
        ensures time { told self.old ≡ true → Elapses (moment self.old) (moment self.new) (left_since self.old) (left_since self.new) (may_leave self.new) }
        ensures faults { CountsLoad result (faults self.old) (faults self.new) };

    /// Writes bytes over those that are there, and past the end. Until a sync, a crash may leave any bytes in their place.
    fn write_at(&mut self, at: u64, bytes: &[u8]) -> Result<(), Failed>
        requires { told self.old ≡ true → at ≤ length (seen self.old) }
        ensures told { told self.new ≡ told self.old }
        // After a write that succeeded a read gives the bytes as they were written.
        ensures written { told self.old ≡ true → OnOk result (IsWritten (seen self.old) at bytes.now (seen self.new)) }
        ensures crash { told self.old ≡ true → Follows (Torn at (length bytes.now)) (may_leave self.old) (may_leave self.new) }
        ensures time { told self.old ≡ true → Elapses (moment self.old) (moment self.new) (left_since self.old) (left_since self.new) (may_leave self.new) }
        ensures faults { CountsPut result (faults self.old) (faults self.new) };

    /// Makes sure what was written: after a sync that succeeded, a crash leaves what a read gives.
    fn sync(&mut self) -> Result<(), Failed>
        ensures told { told self.new ≡ told self.old }
        ensures sure { told self.old ≡ true → OnOk result (Only (seen self.old) (may_leave self.new)) }
        ensures seen { told self.old ≡ true → OnOk result (seen self.new ≡ seen self.old) }
        ensures crash { told self.old ≡ true → Stays (may_leave self.old) (may_leave self.new) }
        ensures time { told self.old ≡ true → Elapses (moment self.old) (moment self.new) (left_since self.old) (left_since self.new) (may_leave self.new) }
        ensures faults { CountsPut result (faults self.old) (faults self.new) };

    /// How often a call has failed. A count that stands at its type's end stays there.
    fn faults(&self) -> u64
        ensures { result ≡ faults self.now };

    /// Of a kind of disk each one is told, or none.
    ghost told_alike: { (one other : Self) → told one ≡ told other };

    /// A read gives what a crash might leave.
    ghost seen_is_left: { (disk : Self) → told disk ≡ true → may_leave disk (seen disk) };

    /// This moment is one of those since an earlier one.
    ghost counts_now: { (disk : Self) (start : ℕ) (image : List ℕ) → start ≤ moment disk → may_leave disk image → left_since disk start image };

    /// Since this moment there was no other.
    ghost only_now: { (disk : Self) (image : List ℕ) → left_since disk (moment disk) image → may_leave disk image };
}
