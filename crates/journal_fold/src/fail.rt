//! Why a journal gives no versions.

ghost use Rattle.std.specs.Prelude.{◌≡◌};
ghost use Rattle.journal_fold.specs.declared.fail.FoldFail.TheVariants.{Memory as WantOfMemory};

use tgap_model::Memory;

/// Why a journal gives no versions.
#[derive(Clone, Copy, Debug, PartialEq, Eq)]
pub enum FoldFail {
    /// The entry at this place, from 0, has a number that does not follow those before it, or its batch makes no map.
    Entry { place: u64 },
    /// The entries come to so many batches, and with the first version there are too many versions.
    Long { batches: u64 },
    /// An allocation was refused.
    Memory,
}

impl From<Memory> for FoldFail {
    ghost from_gives = { λ _ fail. fail ≡ WantOfMemory };

    fn from(_refused: Memory) -> FoldFail {
        FoldFail::Memory
    }
}
