//! Why a version is not published.

ghost use Rattle.std.specs.Prelude.{◌≡◌};
ghost use Rattle.version_store.specs.declared.press.fail.PublishFail.TheVariants.{Memory as WantOfMemory};

use tgap_model::Memory;

/// Why a version is not published.
#[derive(Clone, Copy, Debug, PartialEq, Eq)]
pub enum PublishFail {
    /// The version that it was made from is older than the newest one, which has this number.
    Stale { newest: u64 },
    /// As many versions are published as there may be.
    VersionsFull { limit: u64 },
    /// The keeper failed to keep the batch. It may be kept all the same.
    Unkept,
    /// The keeper has no room for the batch: what it keeps may have so many bytes.
    KeeperFull { limit: u64 },
    /// An allocation was refused.
    Memory,
}

impl From<Memory> for PublishFail {
    ghost from_gives = { λ _ e. e ≡ WantOfMemory };

    fn from(_refused: Memory) -> PublishFail {
        PublishFail::Memory
    }
}
