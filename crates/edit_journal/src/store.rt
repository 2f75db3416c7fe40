//! How an entry is stored.

ghost use Rattle.std.specs.Prelude.{◌≡◌, ◌≤◌, ◌+◌, ◌++◌, ◌∷◌, [], ℕ, List, true, length, OnOk};
ghost use Rattle.plain_io.specs.Puts.{CountsPut};
ghost use Rattle.edit_journal.specs.Disk.{Only, LeavesOnly};
ghost use Rattle.edit_journal.specs.Entries.{entries_of};
ghost use Rattle.edit_journal.specs.Images.{IsLeft, IsSettled};
ghost use Rattle.edit_journal.specs.Told.{kept_of};

use crate::disk::Disk;
use crate::row::Row;
use crate::written::write_sure;
use plain_io::Failed;

/// Stores an entry behind those of a settled journal, which end here. First all of it but its first byte is made sure, and a
/// byte 0 behind it, and then its first byte: so a crash leaves the entry whole, or no part of it.
pub fn store<D: Disk>(disk: &mut D, end: u64, row: &Row) -> Result<(), Failed>
    requires end { D.told disk.old ≡ true → end ≡ (entries_of (D.seen disk.old)).1 }
    requires settled { D.told disk.old ≡ true → IsSettled 67108864 (entries_of (D.seen disk.old)).0 (D.seen disk.old) }
    requires sure { D.told disk.old ≡ true → Only (D.seen disk.old) (D.may_leave disk.old) }
    requires room { end + 14 + length row.now.entry.batch ≤ 67108864 }
    ensures told { D.told disk.new ≡ D.told disk.old }
    ensures stored { D.told disk.old ≡ true
        → OnOk result (IsSettled 67108864 ((entries_of (D.seen disk.old)).0 ++ kept_of row.now.entry ∷ []) (D.seen disk.new)) }
    ensures sure { D.told disk.old ≡ true → OnOk result (Only (D.seen disk.new) (D.may_leave disk.new)) }
    ensures left { D.told disk.old ≡ true → (image : List ℕ) → D.may_leave disk.new image
        → IsLeft 67108864 (entries_of (D.seen disk.old)).0 (kept_of row.now.entry ∷ []) image }
    ensures any_moment { D.told disk.old ≡ true → LeavesOnly D.moment D.left_since disk.old disk.new
        (IsLeft 67108864 (entries_of (D.seen disk.old)).0 (kept_of row.now.entry ∷ [])) }
    ensures faults { CountsPut result (D.faults disk.old) (D.faults disk.new) }
{
    write_sure(disk, end + 1, row.bytes.as_slice())?;
    write_sure(disk, end, &[1])
}
