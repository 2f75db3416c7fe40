//! How a trial ends.

use plain_io::Failed;
use tgap_model::Memory;

/// How a trial ends.
#[derive(Clone, Copy, Drop)]
pub enum Outcome {
    /// The calls were made, and what came of them was put.
    Done,
    /// The words ask for nothing.
    Usage,
    /// A file could not be had.
    FileFault,
    /// A call refused what it was given.
    Refused,
    /// What came of the calls could not be put.
    SinkFault,
    /// Memory is wanting.
    Memory,
}

impl Outcome {
    /// The exit status.
    pub fn status(self) -> u8 {
        match self {
            Outcome::Done => 0,
            Outcome::Usage => 2,
            Outcome::FileFault => 3,
            Outcome::Refused => 4,
            Outcome::SinkFault => 6,
            Outcome::Memory => 7,
        }
    }
}

impl From<Memory> for Outcome {
    fn from(_refused: Memory) -> Outcome {
        Outcome::Memory
    }
}

impl From<Failed> for Outcome {
    fn from(_failed: Failed) -> Outcome {
        Outcome::SinkFault
    }
}
