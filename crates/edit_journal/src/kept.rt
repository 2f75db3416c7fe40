//! A keeper of batches over a journal.

ghost use Rattle.std.specs.Prelude.{◌≡◌, ℕ, Some, None, true, Err, OnOk, OnErr, if◌then◌else◌};
ghost use Rattle.edit_journal.specs.Journals.{disk_of, held_by};

use crate::disk::Disk;
use crate::entry::{AppendFail, JournalFail};
use crate::journal::Journal;
use std::alloc::Global;
use std::marker::Send;
use tgap_model::{Keep, KeepFail, MAX_TEXT_BYTES};

/// A keeper that holds a journal: it settles the journal where it is not sure, and then appends.
#[derive(Drop)]
pub struct Kept<D: Disk> {
    journal: Journal<D>,
}

impl<D: Disk> Kept<D> {
    ghost use Rattle.tgap_model.specs.declared.keep.KeepFail.TheVariants.{Full as IsFull};
    ghost use Rattle.tgap_model.specs.Keeping.{IsStart, CountsKeep};
    ghost use Rattle.edit_journal.specs.Journals.{is_sure};
    ghost use Rattle.edit_journal.specs.Keepers.{journal_of};

    /// A keeper over this journal.
    pub fn new(journal: Journal<D>) -> Self
        ensures { journal_of result ≡ journal }
    {
        Kept { journal }
    }

    /// The journal, as it is.
    pub fn into_journal(self) -> Journal<D>
        ensures { result ≡ journal_of self }
    {
        self.journal
    }

    /// Settles the journal, where it is not sure.
    fn make_sure(&mut self, alloc: Global) -> Result<(), KeepFail>
        ensures told { D.told (disk_of (journal_of self.new)) ≡ D.told (disk_of (journal_of self.old)) }
        ensures sure { OnOk result (is_sure (held_by (journal_of self.new)) ≡ true) }
        ensures start { D.told (disk_of (journal_of self.old)) ≡ true
            → OnOk result (IsStart (held_by (journal_of self.old)) (held_by (journal_of self.new)).entries) }
        ensures refused { OnErr result (held_by (journal_of self.new) ≡ held_by (journal_of self.old)) }
        ensures limit { (most : ℕ) → result ≡ Err (IsFull most) → most ≡ 67108864 }
        ensures room { D.told (disk_of (journal_of self.old)) ≡ true → (most : ℕ) → result ≡ Err (IsFull most) → ⊥ }
        ensures faults { CountsKeep result (D.faults (disk_of (journal_of self.old))) (D.faults (disk_of (journal_of self.new))) }
    {
        if self.journal.sure() {
            return Ok(());
        }
        match self.journal.settle(alloc) {
            Ok(()) => Ok(()),
            Err(JournalFail::Failed) => Err(KeepFail::Failed),
            Err(JournalFail::TooLong { .. }) => Err(KeepFail::Full {
                limit: MAX_TEXT_BYTES,
            }),
            Err(JournalFail::Memory) => Err(KeepFail::Memory),
        }
    }
}

impl<D: Disk + Send> Keep for Kept<D> {
    ghost faults = { λ keeper. D.faults (disk_of keeper.journal) };

    ghost limit = { λ keeper. Some 67108864 };

    ghost told = { λ keeper. if D.told (disk_of keeper.journal) then Some (held_by keeper.journal) else None };

    fn keep(&mut self, alloc: Global, number: u64, batch: &[u8]) -> Result<(), KeepFail> {
        self.make_sure(alloc)?;
        match self.journal.append(alloc, number, batch) {
            Ok(()) => Ok(()),
            Err(AppendFail::Failed) => Err(KeepFail::Failed),
            Err(AppendFail::Full { limit }) => Err(KeepFail::Full { limit }),
            Err(AppendFail::Memory) => Err(KeepFail::Memory),
        }
    }
}
