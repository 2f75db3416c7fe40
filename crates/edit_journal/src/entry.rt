//! The entries of a journal, and why a journal refuses.

ghost use Rattle.std.specs.Prelude.{◌≡◌};
ghost use Rattle.edit_journal.specs.declared.entry.JournalFail.TheVariants.{Failed as HasFailed, Memory as WantOfMemory};
ghost use Rattle.edit_journal.specs.declared.entry.AppendFail.TheVariants as Append;
ghost use Rattle.edit_journal.specs.Counts.{cause_of};

use plain_io::{Failed, LoadFail};
use tgap_model::{Memory, Text};

/// A batch of an edit, with the number of the version that it makes.
#[derive(Drop)]
pub struct Entry {
    pub number: u64,
    pub batch: Text,
}

/// Why a journal was not opened or settled.
#[derive(Clone, Copy, Debug, PartialEq, Eq)]
pub enum JournalFail {
    /// A call of the disk failed.
    Failed,
    /// The disk has more bytes than a journal may have.
    TooLong { max: u64 },
    /// An allocation was refused.
    Memory,
}

/// A disk of which no journal was made, with the cause.
#[derive(Drop)]
pub struct NotOpened<D> {
    pub disk: D,
    pub cause: JournalFail,
}

/// Why an entry was not appended.
#[derive(Clone, Copy, Debug, PartialEq, Eq)]
pub enum AppendFail {
    /// A call of the disk failed. The entry may stand in the journal all the same.
    Failed,
    /// The journal has no room for it: it may have so many bytes.
    Full { limit: u64 },
    /// An allocation was refused, before anything was written.
    Memory,
}

impl From<LoadFail> for JournalFail {
    ghost from_gives = { λ fail cause. cause ≡ cause_of fail };

    fn from(fail: LoadFail) -> JournalFail {
        match fail {
            LoadFail::Failed => JournalFail::Failed,
            LoadFail::TooLong { max } => JournalFail::TooLong { max },
            LoadFail::Memory => JournalFail::Memory,
        }
    }
}

impl From<Failed> for JournalFail {
    ghost from_gives = { λ _ cause. cause ≡ HasFailed };

    fn from(_failed: Failed) -> JournalFail {
        JournalFail::Failed
    }
}

impl From<Memory> for JournalFail {
    ghost from_gives = { λ _ cause. cause ≡ WantOfMemory };

    fn from(_refused: Memory) -> JournalFail {
        JournalFail::Memory
    }
}

impl From<Failed> for AppendFail {
    ghost from_gives = { λ _ cause. cause ≡ Append.Failed };

    fn from(_failed: Failed) -> AppendFail {
        AppendFail::Failed
    }
}

impl From<Memory> for AppendFail {
    ghost from_gives = { λ _ cause. cause ≡ Append.Memory };

    fn from(_refused: Memory) -> AppendFail {
        AppendFail::Memory
    }
}
