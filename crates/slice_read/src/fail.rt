//! Why there is no slice.

ghost use Rattle.std.specs.Prelude.{◌≡◌};
ghost use Rattle.slice_read.specs.declared.fail.ReadFail.TheVariants.{Memory as WantOfMemory};

use tgap_model::Memory;

/// Why a map is not read at a step.
#[derive(Clone, Copy, Debug, PartialEq, Eq)]
pub enum ReadFail {
    /// The step is above the last one, which has this number.
    StepTooHigh { steps: u32 },
    /// An allocation was refused.
    Memory,
}

impl From<Memory> for ReadFail {
    ghost from_gives = { λ _ e. e ≡ WantOfMemory };

    fn from(_refused: Memory) -> ReadFail {
        ReadFail::Memory
    }
}
