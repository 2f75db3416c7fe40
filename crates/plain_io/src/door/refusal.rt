//! What a failed accept says. The numbers are those of Linux on x86-64.

use std::io::Error;

/// What a failed accept is about.
#[derive(Clone, Copy, PartialEq, Eq)]
pub enum Refusal {
    /// The connection that was coming: others may come.
    OfConnection,
    /// Descriptors, buffers or memory, which may be there again in a moment.
    OfWant,
    /// The listener, or what is not known: nothing more can be expected of it.
    OfListener,
}

/// What an error of an accept is about: those that the system's manual says to treat like 'try again', and the word of a
/// firewall, are of the connection.
pub fn refusal_of(error: &Error) -> Refusal {
    match error.raw_os_error() {
        // Not permitted, interrupted, try again; no network, protocol error, no such option; not supported; network
        // down or out of reach; aborted, reset, timed out; host down or out of reach.
        Some(1 | 4 | 11 | 64 | 71 | 92 | 95 | 100 | 101 | 103 | 104 | 110 | 112 | 113) => {
            Refusal::OfConnection
        }
        // Memory; descriptors of the system, of the process; buffers.
        Some(12 | 23 | 24 | 105) => Refusal::OfWant,
        _ => Refusal::OfListener,
    }
}
