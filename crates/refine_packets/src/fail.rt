//! Why there is no packet.

ghost use Rattle.std.specs.Prelude.{◌≡◌};
ghost use Rattle.refine_packets.specs.declared.fail.PacketFail.TheVariants.{Memory as WantOfMemory};

use tgap_model::Memory;

/// Why there is no packet from one step to another.
#[derive(Clone, Copy, PartialEq, Eq)]
pub enum PacketFail {
    /// The step to start from is below the one to end at.
    NotCoarser,
    /// The step to start from is above the last one, which has this number.
    StepTooHigh { steps: u32 },
    /// An allocation was refused.
    Memory,
}

impl From<Memory> for PacketFail {
    ghost from_gives = { λ _ e. e ≡ WantOfMemory };

    fn from(_refused: Memory) -> PacketFail {
        PacketFail::Memory
    }
}
