//! How the connection of a client ended.

use tgap_model::List;

/// Why a connection ended.
#[derive(Clone, Copy, Debug, PartialEq, Eq)]
pub enum EndKind {
    /// The client sent nothing more, or asked to close.
    Closed,
    /// The input ended within a message.
    CutShort,
    /// The head of a message was at fault.
    BadHead,
    /// As many messages were answered as one connection may have.
    Spent,
    /// A take from the link failed.
    ReadFault,
    /// A put to the link failed.
    WriteFault,
    /// There was no memory to begin with.
    Memory,
}

/// The end of a connection: why it ended, its first and its last pinned version, and for each message that was handled
/// the number of the version that the reply rests on and the row of its outcome, counted from 0.
#[derive(Drop)]
pub struct ConnectionEnd {
    pub how: EndKind,
    pub first: u64,
    pub last: u64,
    pub numbers: List<u64>,
    pub rows: List<u8>,
}
