//! What a disk holds of a journal, after it was made sure.

ghost use Rattle.std.specs.Prelude.{◌≡◌, ◌≤◌, ◌==◌, ◌||◌, nat_le, slice_index_or, true, false, sum_by, length, IfOk, OnOk};
ghost use Rattle.edit_journal.specs.Counts.{CountsJournal};
ghost use Rattle.edit_journal.specs.Disk.{Only, Stays, LeavesOnly};
ghost use Rattle.edit_journal.specs.Entries.{entries_of, entry_size};
ghost use Rattle.edit_journal.specs.Images.{is_closed, IsSettled, KeepsEntries};
ghost use Rattle.plain_io.specs.Puts.{CountsPut};
ghost use Rattle.edit_journal.specs.Journals.{TellsLength};
ghost use Rattle.edit_journal.specs.Told.{all_kept, read_of};

use crate::disk::Disk;
use crate::entry::{Entry, JournalFail};
use crate::reading::read_entries;
use crate::written::write_sure;
use plain_io::Failed;
use std::alloc::Global;
use tgap_model::{List, MAX_TEXT_BYTES, Memory, Text};

/// The entries that were read, the place where they end, and whether they are closed there: by a byte 0, or by the limit.
#[derive(Drop)]
pub struct Found {
    pub entries: List<Entry>,
    pub end: u64,
    pub closed: bool,
}

/// Makes the disk sure, and reads its bytes.
fn sure_text<D: Disk>(alloc: Global, disk: &mut D) -> Result<Text, JournalFail>
    ensures told { D.told disk.new ≡ D.told disk.old }
    ensures room { IfOk result (λ text. length text ≤ 67108864) }
    ensures text { D.told disk.old ≡ true → IfOk result (λ text. text ≡ D.seen disk.new) }
    ensures seen { D.told disk.old ≡ true → OnOk result (D.seen disk.new ≡ D.seen disk.old) }
    ensures sure { D.told disk.old ≡ true → OnOk result (Only (D.seen disk.new) (D.may_leave disk.new)) }
    ensures long { D.told disk.old ≡ true → TellsLength 67108864 (length (D.seen disk.old)) result }
    ensures crash { D.told disk.old ≡ true → Stays (D.may_leave disk.old) (D.may_leave disk.new) }
    ensures any_moment { D.told disk.old ≡ true → LeavesOnly D.moment D.left_since disk.old disk.new (D.may_leave disk.old) }
    ensures faults { CountsJournal result (D.faults disk.old) (D.faults disk.new) }
{
    disk.sync()?;
    Ok(disk.read(alloc, MAX_TEXT_BYTES)?)
}

/// Whether the entries that end at this place are closed there.
fn is_closed_at(bytes: &[u8], end: usize) -> bool
    ensures { result ≡ ((slice_index_or bytes.now end 1 == 0) || nat_le 67108864 end) }
{
    let byte = match bytes.get(end) {
        Some(byte) => *byte,
        None => 1,
    };
    byte == 0 || end as u64 >= MAX_TEXT_BYTES
}

/// The entries of a journal with these bytes.
fn found_in(alloc: Global, bytes: &[u8]) -> Result<Found, Memory>
    ensures sized { IfOk result (λ found. found.end ≡ sum_by entry_size (all_kept found.entries)) }
    ensures room { IfOk result (λ found. found.end ≤ length bytes.now) }
    ensures found { IfOk result (λ found. read_of (found.entries, found.end) ≡ entries_of bytes.now) }
    ensures closed { IfOk result (λ found. found.closed ≡ is_closed 67108864 bytes.now) }
{
    let (entries, end) = read_entries(alloc, bytes)?;
    let closed = is_closed_at(bytes, end);
    Ok(Found {
        entries,
        end: end as u64,
        closed,
    })
}

/// Makes the disk sure, and reads its entries anew.
pub fn read_sure<D: Disk>(alloc: Global, disk: &mut D) -> Result<Found, JournalFail>
    ensures told { D.told disk.new ≡ D.told disk.old }
    ensures sized { IfOk result (λ found. found.end ≡ sum_by entry_size (all_kept found.entries)) }
    ensures room { IfOk result (λ found. found.end ≤ 67108864) }
    ensures found { D.told disk.old ≡ true → IfOk result (λ found. read_of (found.entries, found.end) ≡ entries_of (D.seen disk.new)) }
    ensures closed { D.told disk.old ≡ true → IfOk result (λ found. found.closed ≡ is_closed 67108864 (D.seen disk.new)) }
    ensures seen { D.told disk.old ≡ true → OnOk result (D.seen disk.new ≡ D.seen disk.old) }
    ensures sure { D.told disk.old ≡ true → OnOk result (Only (D.seen disk.new) (D.may_leave disk.new)) }
    ensures long { D.told disk.old ≡ true → TellsLength 67108864 (length (D.seen disk.old)) result }
    ensures crash { D.told disk.old ≡ true → Stays (D.may_leave disk.old) (D.may_leave disk.new) }
    ensures any_moment { D.told disk.old ≡ true → LeavesOnly D.moment D.left_since disk.old disk.new (D.may_leave disk.old) }
    ensures faults { CountsJournal result (D.faults disk.old) (D.faults disk.new) }
{
    let text = sure_text(alloc, disk)?;
    Ok(found_in(alloc, text.as_slice())?)
}

/// Writes a byte 0 where the entries of a disk end that is made sure and has none there, and makes it sure.
fn close<D: Disk>(disk: &mut D, end: u64) -> Result<(), Failed>
    requires end { D.told disk.old ≡ true → end ≡ (entries_of (D.seen disk.old)).1 }
    requires not_closed { D.told disk.old ≡ true → is_closed 67108864 (D.seen disk.old) ≡ false }
    requires within { D.told disk.old ≡ true → length (D.seen disk.old) ≤ 67108864 }
    requires sure { D.told disk.old ≡ true → Only (D.seen disk.old) (D.may_leave disk.old) }
    ensures told { D.told disk.new ≡ D.told disk.old }
    ensures settled { D.told disk.old ≡ true → OnOk result (IsSettled 67108864 (entries_of (D.seen disk.old)).0 (D.seen disk.new)) }
    ensures sure { D.told disk.old ≡ true → OnOk result (Only (D.seen disk.new) (D.may_leave disk.new)) }
    ensures any_moment { D.told disk.old ≡ true → LeavesOnly D.moment D.left_since disk.old disk.new
        (λ image. entries_of image ≡ entries_of (D.seen disk.old)) }
    ensures faults { CountsPut result (D.faults disk.old) (D.faults disk.new) }
{
    write_sure(disk, end, &[0])
}

/// Makes the disk sure, reads its entries, and closes the journal behind them.
pub fn open<D: Disk>(alloc: Global, disk: &mut D) -> Result<Found, JournalFail>
    ensures told { D.told disk.new ≡ D.told disk.old }
    ensures sized { IfOk result (λ found. found.end ≡ sum_by entry_size (all_kept found.entries)) }
    ensures room { IfOk result (λ found. found.end ≤ 67108864) }
    ensures entries { D.told disk.old ≡ true → IfOk result (λ found. all_kept found.entries ≡ (entries_of (D.seen disk.old)).0) }
    ensures settled { D.told disk.old ≡ true → IfOk result (λ found. IsSettled 67108864 (all_kept found.entries) (D.seen disk.new)) }
    ensures sure { D.told disk.old ≡ true → OnOk result (Only (D.seen disk.new) (D.may_leave disk.new)) }
    ensures long { D.told disk.old ≡ true → TellsLength 67108864 (length (D.seen disk.old)) result }
    ensures any_moment { D.told disk.old ≡ true → LeavesOnly D.moment D.left_since disk.old disk.new (KeepsEntries (D.may_leave disk.old)) }
    ensures faults { CountsJournal result (D.faults disk.old) (D.faults disk.new) }
{
    let found = read_sure(alloc, disk)?;
    if !found.closed {
        close(disk, found.end)?;
    }
    Ok(found)
}
