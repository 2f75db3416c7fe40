//! The outside: files, sinks, links, doors and harbours, each a trait with forms in memory, one that never fails, and one over
//! the system; and what texts are read and written with: canonical decimals, lines and words, and JSON trees. It stands on
//! `tgap_model`.
#![tactic(auto)]

mod calls;
mod connection;
mod door;
mod files;
mod harbour;
pub mod json;
mod link;
mod sink;
mod text;

pub use calls::Calls;
pub use connection::{ConnectionEnd, EndKind};
pub use door::{Arrival, Door, MemoryDoor, SureDoor, TcpDoor};
pub use files::{
    FaultCounts, FileTexts, Files, HostFiles, LoadFail, MemoryFile, MemoryFiles, SureFiles, Which,
};
pub use harbour::{Harbour, HarbourFail, MemoryHarbour, SureHarbour, TcpHarbour};
pub use link::{FailingCalls, Flag, HeldLink, Link, MemoryLink, PEER_SECONDS, SureLink, TcpLink};
pub use sink::{Failed, HostSink, MemorySink, Sink, SureSink};
pub use text::{
    LineFault, Lines, Pieces, after_count, after_word, at_line, count_at, ended, natural_at,
    next_line, number_at, put_count, put_field, put_number, put_size, read_number,
};
