//! A link over a connection of the network: the trusted edge. It tells nothing of its bytes.

ghost use Rattle.std.specs.Prelude.{◌≡◌, ◌≤◌, length, IfOk, None, false};

use super::Link;
use crate::sink::Failed;
use std::io::{ErrorKind, Read, Write};
use std::net::{Shutdown, TcpStream};
use std::time::{Clock, Duration, Instant};

/// How many seconds a take or a put waits for a peer that sends or accepts nothing. Then it fails.
pub const PEER_SECONDS: u64 = 5;

/// How many seconds at most a connection is read on after its last reply, so that the reply comes to a peer that still sends.
const LAST_SECONDS: u64 = 1;

/// How many bytes are dropped at once.
const DROPPED_AT_ONCE: usize = 16_384;

/// A link over a connection. A peer that resets it, or that sends or accepts nothing for [`PEER_SECONDS`], makes the call
/// fail.
#[derive(Drop)]
pub struct TcpLink {
    stream: TcpStream,
    ended: bool,
    take_faults: u64,
    put_faults: u64,
}

impl TcpLink {
    /// A link over this connection. What is put is sent at once, and neither call waits for ever. Fails where the system
    /// refuses one of these.
    pub fn new(stream: TcpStream) -> Result<Self, Failed>
        ensures take_faults { IfOk result (λ link. ⟦<TcpLink as Link>⟧.take_faults link ≡ 0) }
        ensures put_faults { IfOk result (λ link. ⟦<TcpLink as Link>⟧.put_faults link ≡ 0) }
        ensures unended { IfOk result (λ link. ⟦<TcpLink as Link>⟧.ended link ≡ false) }
    {
        let wait = Some(Duration::from_secs(PEER_SECONDS));
        let turn = Some(Duration::from_secs(1));
        stream.set_nodelay(true).map_err(|_| Failed)?;
        stream.set_read_timeout(wait).map_err(|_| Failed)?;
        stream.set_write_timeout(turn).map_err(|_| Failed)?;
        Ok(TcpLink {
            stream,
            ended: false,
            take_faults: 0,
            put_faults: 0,
        })
    }

    /// Ends the connection. Where neither side has ended or failed before, the end of the output is sent, and for
    /// [`LAST_SECONDS`] at most what still comes is dropped: a connection that is closed over unread bytes is reset, and
    /// its peer may lose the last reply.
    pub fn close<C: Clock>(mut self, clock: &C) {
        if self.ended || self.take_faults > 0 || self.put_faults > 0 {
            return;
        }
        if self.stream.shutdown(Shutdown::Write).is_ok() {
            drop_rest(&mut self.stream, clock);
        }
    }
}

impl Link for TcpLink {
    ghost taken = { λ s. None };

    ghost told = { λ s. None };

    ghost take_faults = { λ s. s.take_faults };

    ghost put_faults = { λ s. s.put_faults };

    ghost ended = { λ s. s.ended };

    fn take(&mut self, buf: &mut [u8]) -> Result<usize, Failed> {
        let taken = read_some(&mut self.stream, buf);
        match taken {
            Ok(count) => self.ended = self.ended || count == 0,
            Err(Failed) => self.take_faults = self.take_faults.saturating_add(1),
        }
        taken
    }

    fn put(&mut self, bytes: &[u8]) -> Result<(), Failed> {
        let put = send_all(&mut self.stream, bytes);
        if put.is_err() {
            self.put_faults = self.put_faults.saturating_add(1);
        }
        put
    }
}

/// The next bytes of a reader, and their number.
fn read_some<R: Read>(reader: &mut R, buf: &mut [u8]) -> Result<usize, Failed>
    ensures { IfOk result (λ n. n ≤ length buf.new) }
{
    for _ in 0..u64::MAX {
        match reader.read(buf) {
            Ok(count) => return Ok(count),
            Err(error) if error.kind() == ErrorKind::Interrupted => {}
            Err(_) => return Err(Failed),
        }
    }
    Err(Failed)
}

/// Sends all the bytes. Each turn of waiting for a peer that accepts none takes a second, and after [`PEER_SECONDS`] of them in a row
/// the call fails.
fn send_all<W: Write>(stream: &mut W, bytes: &[u8]) -> Result<(), Failed> {
    let mut rest = bytes;
    let mut turns = PEER_SECONDS;
    for _ in 0..u64::MAX {
        if rest.is_empty() {
            return Ok(());
        }
        match stream.write(rest) {
            Ok(0) => return Err(Failed),
            Ok(count) => {
                rest = &rest[count..];
                turns = PEER_SECONDS;
            }
            Err(error) if error.kind() == ErrorKind::Interrupted => {}
            Err(error) if error.kind() == ErrorKind::WouldBlock && turns > 1 => turns -= 1,
            Err(_) => return Err(Failed),
        }
    }
    Err(Failed)
}

/// Reads on and drops what comes, until the peer ends or fails, or [`LAST_SECONDS`] have passed.
fn drop_rest<C: Clock>(stream: &mut TcpStream, clock: &C) {
    let last = Duration::from_secs(LAST_SECONDS);
    let mut dropped = [0; DROPPED_AT_ONCE];
    let Ok(start) = Instant::now(clock) else {
        return;
    };
    for _ in 0..u64::MAX {
        let Ok(passed) = start.elapsed(clock) else {
            return;
        };
        // A wait of no time is refused by the system.
        let left = last.checked_sub(passed);
        if left.is_none() || stream.set_read_timeout(left).is_err() {
            return;
        }
        match read_some(stream, &mut dropped) {
            Ok(0) | Err(Failed) => return,
            Ok(_) => {}
        }
    }
}
