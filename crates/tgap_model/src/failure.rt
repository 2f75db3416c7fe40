//! Want of memory, alone and beside a fault.

ghost use Rattle.std.specs.Prelude.{◌≡◌};
ghost use Rattle.tgap_model.specs.declared.failure.Or.TheVariants.{Memory as WantOfMemory};

use std::alloc::{AllocError, AllocFailed};

/// Want of memory: an allocation was refused.
#[derive(Clone, Copy, Debug, PartialEq, Eq)]
pub struct Memory;

impl From<AllocError> for Memory {
    fn from(_refused: AllocError) -> Memory {
        Memory
    }
}

impl<T: Drop> From<AllocFailed<T>> for Memory {
    fn from(_refused: AllocFailed<T>) -> Memory {
        Memory
    }
}

/// A fault, or want of memory.
#[derive(Debug, Drop)]
pub enum Or<E> {
    /// The fault.
    Fault(E),
    /// An allocation was refused.
    Memory,
}

impl<E> From<Memory> for Or<E> {
    ghost from_gives = { λ _ e. e ≡ WantOfMemory };

    fn from(_refused: Memory) -> Or<E> {
        Or::Memory
    }
}

impl<E> From<AllocError> for Or<E> {
    ghost from_gives = { λ _ e. e ≡ WantOfMemory };

    fn from(_refused: AllocError) -> Or<E> {
        Or::Memory
    }
}
