//! A journal of batches on a disk.

ghost use Rattle.std.specs.Prelude.{◌≡◌, ◌≤◌, ℕ, List, true, false, sum_by, is_some};
ghost use Rattle.edit_journal.specs.Disk.{Only};
ghost use Rattle.edit_journal.specs.Entries.{entry_size};
ghost use Rattle.edit_journal.specs.Told.{all_kept, doubted};
ghost use Rattle.edit_journal.specs.Images.{IsLeft};
ghost use Rattle.std.proofs.Props.{props};

use crate::disk::Disk;
use crate::entry::{AppendFail, Entry, JournalFail, NotOpened};
use crate::found::{open, read_sure};
use crate::reading::HEAD;
use crate::row::{Row, row_of};
use crate::rows::{with_entry, with_room};
use crate::store::store;
use plain_io::Failed;
use std::alloc::Global;
use tgap_model::{List, MAX_TEXT_BYTES};

/// A journal of batches on a disk, one entry for each.
#[derive(Drop)]
pub struct Journal<D: Disk> {
    disk: D,
    entries: List<Entry>,
    end: u64,
    doubt: Option<Entry>,
    ghost sized: { end ≡ sum_by entry_size (all_kept entries) },
    ghost room: { end ≤ 67108864 },
    ghost only: { D.told disk ≡ true → is_some doubt ≡ false → Only (D.seen disk) (D.may_leave disk) },
    ghost left: { D.told disk ≡ true → (image : List ℕ) → D.may_leave disk image → IsLeft 67108864 (all_kept entries) (doubted doubt) image } by { Prim.hlevel props },
}

impl<D: Disk> Journal<D> {
    ghost use Rattle.std.specs.Prelude.{◌<◌, ◌↔◌, ◌+◌, ◌≢◌, Err, IfOk, OnOk, OnErr, IsTrue, MatchResult, length};
    ghost use Rattle.tgap_model.specs.Keeping.{KeptEntry, sure_of, keep_size};
    ghost use Rattle.edit_journal.specs.Counts.{CountsCause, CountsJournal, CountsAppend};
    ghost use Rattle.edit_journal.specs.Disk.{LeavesOnly};
    ghost use Rattle.edit_journal.specs.Entries.{entries_of};
    ghost use Rattle.edit_journal.specs.Images.{KeepsEntries};
    ghost use Rattle.edit_journal.specs.Journals.{disk_of, held_by, is_sure, IsOf, TellsLength, Appends, Settles, Untouched, doubting, keep_end};
    ghost use Rattle.edit_journal.specs.declared.entry.AppendFail.TheVariants.{Full as IsFull};
    ghost use Rattle.edit_journal.specs.declared.entry.JournalFail.TheVariants.{TooLong as IsTooLong};

    /// The journal on this disk, with the entries that the disk has after it was made sure. It is closed behind them, by a byte 0
    /// that is made sure too, where they do not take all the room.
    pub fn on(alloc: Global, disk: D) -> Result<Journal<D>, NotOpened<D>>
        ensures told { MatchResult result (λ journal. D.told (disk_of journal) ≡ D.told disk) (λ refused. D.told refused.disk ≡ D.told disk) }
        ensures sure { IfOk result (λ journal. is_sure (held_by journal) ≡ true) }
        ensures entries { D.told disk ≡ true → IfOk result (λ journal. held_by journal ≡ sure_of (entries_of (D.seen disk)).0) }
        ensures left { D.told disk ≡ true → IfOk result (λ journal. (image : List ℕ) → D.may_leave (disk_of journal) image → IsOf (held_by journal) image) }
        // A crash at any moment of the call leaves the entries of a disk that a crash before it might have left.
        ensures any_moment { D.told disk ≡ true → MatchResult result
            (λ journal. LeavesOnly D.moment D.left_since disk (disk_of journal) (KeepsEntries (D.may_leave disk)))
            (λ refused. LeavesOnly D.moment D.left_since disk refused.disk (KeepsEntries (D.may_leave disk))) }
        ensures too_long { D.told disk ≡ true → MatchResult result
            (λ journal. length (D.seen disk) ≤ 67108864)
            (λ refused. TellsLength {T = ℕ} 67108864 (length (D.seen disk)) (Err refused.cause)) }
        ensures faults { MatchResult result
            (λ journal. D.faults (disk_of journal) ≡ D.faults disk)
            (λ refused. CountsCause refused.cause (D.faults disk) (D.faults refused.disk)) }
    {
        let mut disk = disk;
        match open(alloc, &mut disk) {
            Ok(found) => Ok(Journal {
                disk,
                entries: found.entries,
                end: found.end,
                doubt: None,
            }),
            Err(cause) => Err(NotOpened { disk, cause }),
        }
    }

    /// The entries, in order, without one that is in doubt.
    pub fn entries(&self) -> &List<Entry>
        ensures { all_kept result.now ≡ (held_by self.now).entries }
    {
        &self.entries
    }

    /// Whether no entry is in doubt: false exactly from an append that failed to the next settling that succeeds.
    pub fn sure(&self) -> bool
        ensures { result ≡ is_sure (held_by self.now) }
    {
        self.doubt.is_none()
    }

    /// Makes the disk sure and reads its entries anew: then no entry is in doubt. After a refusal the journal is as it was.
    pub fn settle(&mut self, alloc: Global) -> Result<(), JournalFail>
        ensures told { D.told (disk_of self.new) ≡ D.told (disk_of self.old) }
        ensures settled { D.told (disk_of self.old) ≡ true → Settles (held_by self.old) result (held_by self.new) }
        ensures refused { OnErr result (held_by self.new ≡ held_by self.old) }
        ensures sure { OnOk result (is_sure (held_by self.new) ≡ true) }
        ensures entries { D.told (disk_of self.old) ≡ true → OnOk result ((held_by self.new).entries ≡ (entries_of (D.seen (disk_of self.old))).0) }
        ensures left { D.told (disk_of self.old) ≡ true → (image : List ℕ) → D.may_leave (disk_of self.new) image → IsOf (held_by self.new) image }
        // A crash at any moment of the call leaves the entries, with the one in doubt or without.
        ensures any_moment { D.told (disk_of self.old) ≡ true
            → LeavesOnly D.moment D.left_since (disk_of self.old) (disk_of self.new) (IsOf (held_by self.old)) }
        // The journal writes nothing past the limit.
        ensures too_long { D.told (disk_of self.old) ≡ true → (max : ℕ) → result ≢ Err (IsTooLong max) }
        ensures faults { CountsJournal result (D.faults (disk_of self.old)) (D.faults (disk_of self.new)) }
    {
        let found = read_sure(alloc, &mut self.disk)?;
        self.entries = found.entries;
        self.end = found.end;
        self.doubt = None;
        Ok(())
    }

    /// Whether an entry with a batch of this length has room, with a byte 0 behind it.
    fn has_room(&self, len: usize) -> bool
        ensures { IsTrue result ↔ (keep_end self.now + 14 + len ≤ 67108864) }
    {
        let room = MAX_TEXT_BYTES - self.end;
        14 <= room && len as u64 <= room - 14
    }

    /// Stores an entry behind the others, so that from then on each crash leaves it. After a failure it is in doubt whether the
    /// entry is stored, and the journal has to be settled before the next. Full and Memory come before anything is written.
    pub fn append(&mut self, alloc: Global, number: u64, batch: &[u8]) -> Result<(), AppendFail>
        requires { is_sure (held_by self.old) ≡ true }
        ensures told { D.told (disk_of self.new) ≡ D.told (disk_of self.old) }
        ensures appended { Appends (held_by self.old) (record { number = number; batch = batch.now }) result (held_by self.new) }
        ensures full { (limit : ℕ) → (result ≡ Err (IsFull limit))
            ↔ ((limit ≡ 67108864) × (67108864 < keep_size (held_by self.old).entries (record { number = number; batch = batch.now }))) }
        ensures untouched { Untouched result (disk_of self.old) (disk_of self.new) }
        ensures left { D.told (disk_of self.old) ≡ true → (image : List ℕ) → D.may_leave (disk_of self.new) image → IsOf (held_by self.new) image }
        // A crash at any moment of the call leaves the entries from before it, with the new one or without.
        ensures any_moment { D.told (disk_of self.old) ≡ true
            → LeavesOnly D.moment D.left_since (disk_of self.old) (disk_of self.new) (IsOf (doubting (held_by self.old) (record { number = number; batch = batch.now }))) }
        ensures faults { CountsAppend result (D.faults (disk_of self.old)) (D.faults (disk_of self.new)) }
    {
        if !self.has_room(batch.len()) {
            return Err(AppendFail::Full {
                limit: MAX_TEXT_BYTES,
            });
        }
        let row = row_of(alloc, number, batch)?;
        let rows = with_room(alloc, &mut self.entries)?;
        let stored = store(&mut self.disk, self.end, &row);
        let Row { entry, bytes: _ } = row;
        match stored {
            Ok(()) => {
                self.end += (HEAD + entry.batch.len()) as u64;
                self.entries = with_entry(rows, entry);
                Ok(())
            }
            Err(Failed) => {
                self.entries = List::from(rows);
                self.doubt = Some(entry);
                Err(AppendFail::Failed)
            }
        }
    }

    /// The disk, as it is: a crash leaves the entries, with the one in doubt or without.
    pub fn into_disk(self) -> D
        ensures disk { result ≡ disk_of self }
        ensures left { D.told result ≡ true → (image : List ℕ) → D.may_leave result image → IsOf (held_by self) image }
    {
        self.disk
    }
}
