//! A door over a listener of the network: the trusted edge. It tells no links.

ghost use Rattle.std.specs.Prelude.{◌≡◌, None, false, IfOk};

use super::refusal::{Refusal, refusal_of};
use super::{Arrival, Door};
use crate::connection::ConnectionEnd;
use crate::link::{Link, TcpLink};
use crate::sink::Failed;
use std::net::TcpListener;
use std::thread;
use std::time::{Clock, Duration};

/// How long a door waits for memory or descriptors before it tries again, in milliseconds.
const WANT_MILLISECONDS: u64 = 100;

/// A door over a listener, which other doors may share. It is never closed.
#[derive(Drop)]
pub struct TcpDoor<'a, R> {
    listener: TcpListener,
    clock: &'a R,
    faults: u64,
}

impl<'a, R: Clock> TcpDoor<'a, R> {
    /// A door over this listener, which waits by this clock.
    pub fn new(listener: TcpListener, clock: &'a R) -> Self
        ensures faults { ⟦<TcpDoor<'a, R> as Door>⟧.faults result ≡ 0 }
        ensures unclosed { ⟦<TcpDoor<'a, R> as Door>⟧.closed result ≡ false }
    {
        TcpDoor {
            listener,
            clock,
            faults: 0,
        }
    }

    /// The port at which it is reached.
    pub fn port(&self) -> Result<u16, Failed> {
        let address = self.listener.local_addr().map_err(|_| Failed)?;
        Ok(address.port())
    }
}

impl<'a, R: Clock> Door for TcpDoor<'a, R> {
    type Line = TcpLink;

    ghost told = { λ s. None };

    ghost faults = { λ s. s.faults };

    ghost closed = { λ s. false };

    fn next(&mut self) -> Arrival<TcpLink> {
        match accept(&self.listener, self.clock) {
            Ok(link) => Arrival::Came(link),
            Err(Failed) => {
                self.faults = self.faults.saturating_add(1);
                Arrival::Failed
            }
        }
    }

    fn done(&mut self, line: TcpLink, _end: ConnectionEnd) {
        line.close(self.clock);
    }

    fn faults(&self) -> u64 {
        self.faults
    }

    ghost no_more_back = { λ door. tt };
}

/// The next connection that can be used. One that went wrong before it could be used is passed over, and where the system is short of
/// descriptors, buffers or memory, the call waits a moment and tries again. It fails where the listener itself is broken.
fn accept<C: Clock>(listener: &TcpListener, clock: &C) -> Result<TcpLink, Failed>
    ensures take_faults { IfOk result (λ link. ⟦<TcpLink as Link>⟧.take_faults link ≡ 0) }
    ensures put_faults { IfOk result (λ link. ⟦<TcpLink as Link>⟧.put_faults link ≡ 0) }
    ensures unended { IfOk result (λ link. ⟦<TcpLink as Link>⟧.ended link ≡ false) }
{
    for _ in 0..u64::MAX {
        match listener.accept() {
            Ok((stream, _)) => {
                if let Ok(link) = TcpLink::new(stream) {
                    return Ok(link);
                }
            }
            Err(error) => match refusal_of(&error) {
                Refusal::OfConnection => {}
                Refusal::OfWant => thread::sleep(clock, Duration::from_millis(WANT_MILLISECONDS)),
                Refusal::OfListener => return Err(Failed),
            },
        }
    }
    Err(Failed)
}
