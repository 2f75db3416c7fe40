//! A write that is made sure.

ghost use Rattle.std.specs.Prelude.{◌≡◌, ◌≤◌, true, length, OnOk};
ghost use Rattle.plain_io.specs.Puts.{CountsPut};
ghost use Rattle.edit_journal.specs.Disk.{IsWritten, Torn, Follows, Only, LeftOrChanged, LeavesOnly};

use crate::disk::Disk;
use plain_io::Failed;

/// Writes bytes and makes them sure. A crash within the call leaves what it might have left before, with any bytes in this
/// place or without.
pub fn write_sure<D: Disk>(disk: &mut D, at: u64, bytes: &[u8]) -> Result<(), Failed>
    requires { D.told disk.old ≡ true → at ≤ length (D.seen disk.old) }
    ensures told { D.told disk.new ≡ D.told disk.old }
    ensures written { D.told disk.old ≡ true → OnOk result (IsWritten (D.seen disk.old) at bytes.now (D.seen disk.new)) }
    ensures sure { D.told disk.old ≡ true → OnOk result (Only (D.seen disk.new) (D.may_leave disk.new)) }
    ensures crash { D.told disk.old ≡ true → Follows (Torn at (length bytes.now)) (D.may_leave disk.old) (D.may_leave disk.new) }
    ensures any_moment { D.told disk.old ≡ true → LeavesOnly D.moment D.left_since disk.old disk.new
        (LeftOrChanged (Torn at (length bytes.now)) (D.may_leave disk.old)) }
    ensures faults { CountsPut result (D.faults disk.old) (D.faults disk.new) }
{
    disk.write_at(at, bytes)?;
    disk.sync()
}
