//! A harbour of the network: the trusted edge. It tells no doors.

ghost use Rattle.std.specs.Prelude.{◌≡◌, All, IfOk, false, None, vec_len};

use super::{Harbour, HarbourFail};
use crate::door::{Door, TcpDoor};
use std::alloc::Global;
use std::net::{Ipv4Addr, Net, SocketAddrV4, TcpListener, TcpStream};
use std::time::Clock;

/// The ports of this machine, as its own programs reach them: connections from other machines do not come here.
#[derive(Drop)]
pub struct TcpHarbour<'a, R> {
    rt: &'a R,
    faults: u64,
}

impl<'a, R: Net<Listener = TcpListener, Stream = TcpStream> + Clock> TcpHarbour<'a, R> {
    /// The ports that this runtime reaches.
    pub fn new(rt: &'a R) -> Self
    where
        R: Sync,
        ensures { ⟦<TcpHarbour<'a, R> as Harbour>⟧.faults result ≡ 0 }
    {
        TcpHarbour { rt, faults: 0 }
    }
}

impl<'a, R: Net<Listener = TcpListener, Stream = TcpStream> + Clock + Sync> Harbour
    for TcpHarbour<'a, R> {
    type Gate = TcpDoor<'a, R>;

    ghost told = { λ s. None };

    ghost faults = { λ s. s.faults };

    fn doors(
        &mut self,
        alloc: Global,
        port: u16,
        n: u32,
    ) -> Result<Vec<TcpDoor<'a, R>>, HarbourFail> {
        let doors = open(self.rt, alloc, port, n);
        if let Err(HarbourFail::Failed) = doors {
            self.faults = self.faults.saturating_add(1);
        }
        doors
    }

    fn back(&mut self, door: TcpDoor<'a, R>) {
        if door.faults() > 0 {
            self.faults = self.faults.saturating_add(1);
        }
    }

    ghost no_more_back = { λ harbour. tt };
}

/// So many doors, which share one listener at that port of this machine.
fn open<'a, R: Net<Listener = TcpListener, Stream = TcpStream> + Clock>(
    rt: &'a R,
    alloc: Global,
    port: u16,
    n: u32,
) -> Result<Vec<TcpDoor<'a, R>>, HarbourFail>
    ensures number { IfOk result (λ doors. vec_len doors ≡ n) }
    ensures sound { IfOk result (λ doors. All (λ door. ⟦<TcpDoor<'a, R> as Door>⟧.faults door ≡ 0) doors.items) }
{
    let mut doors = Vec::with_capacity(alloc, n as usize).map_err(|_| HarbourFail::Memory)?;
    let address = SocketAddrV4::new(Ipv4Addr::LOCALHOST, port);
    let listener = TcpListener::bind(rt, address).map_err(|_| HarbourFail::Failed)?;
    for _ in 0..n {
        let shared = listener.try_clone().map_err(|_| HarbourFail::Failed)?;
        doors
            .push(TcpDoor::new(shared, rt))
            .map_err(|_| HarbourFail::Memory)?;
    }
    Ok(doors)
}
