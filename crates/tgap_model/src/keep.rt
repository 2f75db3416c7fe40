//! Where the batches of the versions of a map are kept, each before its version is published.

ghost use Rattle.std.specs.Prelude.{◌≡◌, ℕ, Option, Some, None, Err, IsOk, MatchOption};
ghost use Rattle.tgap_model.specs.declared.keep.KeepFail.TheVariants.{Full as IsFull};
ghost use Rattle.tgap_model.specs.Keeping.{Kept, CountsKeep, Keeps};

use std::alloc::Global;

/// Why a batch was not kept.
#[derive(Clone, Copy, PartialEq, Eq)]
pub enum KeepFail {
    /// Storing it failed. It may have been stored all the same.
    Failed,
    /// There is no room for it: what is kept may have so many bytes.
    Full { limit: u64 },
    /// An allocation was refused.
    Memory,
}

/// A keeper of batches, one entry for each, by the number of the version that the batch makes.
pub trait Keep {
    ghost use Rattle.tgap_model.specs.Keeping.{Kept};

    /// How often keeping has failed.
    ghost faults: { Self → ℕ };

    /// How many bytes what is kept may have, where there is such a limit.
    ghost limit: { Self → Option ℕ };

    /// What is kept, where it is told: a list of entries, and at most one entry of which it is in doubt whether it is kept.
    ghost told: { Self → Option Kept };

    /// Keeps the batch of the version with this number.
    fn keep(&mut self, alloc: Global, number: u64, batch: &[u8]) -> Result<(), KeepFail>
        // The limit never changes.
        ensures limit { limit self.new ≡ limit self.old }
        // The count rises where keeping failed, and else it stays.
        ensures faults { CountsKeep result (faults self.old) (faults self.new) }
        // Full comes only where there is a limit, and tells it.
        ensures full { (most : ℕ) → result ≡ Err (IsFull most) → limit self.old ≡ Some most }
        // Where it is told what is kept: what is kept after the call, and when the room is too small.
        ensures kept { MatchOption (told self.old) (told self.new ≡ None)
            (λ before. Keeps (limit self.old) before (told self.new) (record { number = number; batch = batch.now }) result) };
}

/// A keeper that keeps nothing: it answers that all is well, has no limit, and tells nothing.
#[derive(Clone, Copy, PartialEq, Eq)]
pub struct NoKeeper;

impl Keep for NoKeeper {
    ghost faults = { λ k. 0 };

    ghost limit = { λ k. None };

    ghost told = { λ k. None };

    fn keep(&mut self, _alloc: Global, _number: u64, _batch: &[u8]) -> Result<(), KeepFail>
        ensures always { IsOk result }
    {
        Ok(())
    }
}
