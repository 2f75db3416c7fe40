//! A door in memory, of which the listed calls fail.

ghost use Rattle.std.specs.Prelude.{[], All, IfOk, ◌≡◌, ◌≢◌, ◌||◌, ◌↔◌, ◌+◌, false, Some, length};
ghost use Rattle.plain_io.specs.Links.{IsNew};

use super::{Arrival, Door, SureDoor};
use crate::calls::Calls;
use crate::connection::ConnectionEnd;
use crate::link::Link;
use std::alloc::Global;
use tgap_model::{List, Memory};

/// A door in memory. It tells its links, and keeps those that are handed back, each with its end. A listed call for the
/// next link is a fault.
#[derive(Drop)]
pub struct MemoryDoor<L: Link> {
    door: SureDoor<L>,
    calls: Calls,
    faults: u64,
}

impl<L: Link> MemoryDoor<L> {
    ghost use Rattle.plain_io.specs.Doors.{Connections};
    ghost use Rattle.plain_io.specs.MemoryDoors.{left_of, came_of, calls_of, IsUnused};

    /// A door that gives these new links, one after the other, with room for what comes back, which is taken now. The
    /// calls for the next link with the listed numbers, counted from 0, fail.
    pub fn new(alloc: Global, links: List<L>, failing: List<u64>) -> Result<Self, Memory>
        requires { All (λ link. IsNew (L.taken link) (L.told link) (L.take_faults link) (L.put_faults link) (L.ended link)) links }
        ensures told { IfOk result (λ door. ⟦<MemoryDoor<L> as Door>⟧.told door ≡ Some (record { came = 0; back = [] })) }
        ensures faults { IfOk result (λ door. ⟦<MemoryDoor<L> as Door>⟧.faults door ≡ 0) }
        ensures unclosed { IfOk result (λ door. ⟦<MemoryDoor<L> as Door>⟧.closed door ≡ false) }
        ensures left { IfOk result (λ door. left_of door ≡ links) }
        ensures unused { IfOk result IsUnused }
        ensures calls { IfOk result (λ door. calls_of door ≡ record { made = 0; failing = failing }) }
    {
        Ok(MemoryDoor {
            door: SureDoor::new(alloc, links)?,
            calls: Calls::new(failing),
            faults: 0,
        })
    }

    /// The links that were handed back, each with its end.
    pub fn handed_back(&self) -> &[(L, ConnectionEnd)]
        ensures { ⟦<MemoryDoor<L> as Door>⟧.told self.now ≡ Some (record { came = came_of self.now; back = result.now }) }
    {
        self.door.handed_back()
    }
}

impl<L: Link> Door for MemoryDoor<L> {
    ghost use Rattle.plain_io.specs.Links.{HasNone};
    ghost use Rattle.plain_io.specs.Calls.{CountsCall, FailsNext};
    ghost use Rattle.plain_io.specs.Doors.{Connections, FewerBack, IfCame, is_closed, Arrives, CountsArrival, HandsBack, ComesFirst};
    ghost use Rattle.plain_io.specs.MemoryDoors.{left_of, connections_of, faults_of, closed_of, calls_of};

    type Line = L;

    ghost told = { λ s. Some (connections_of s) };

    ghost faults = { faults_of };

    ghost closed = { closed_of };

    fn next(&mut self) -> Arrival<L>
        ensures told { Arrives result (Some (connections_of self.old)) (Some (connections_of self.new)) }
        ensures faults { CountsArrival result (faults_of self.old) (faults_of self.new) }
        ensures closed { closed_of self.new ≡ (closed_of self.old || is_closed result) }
        ensures untaken { IfCame result (λ link. HasNone (L.taken link)) }
        ensures unput { IfCame result (λ link. HasNone (L.told link)) }
        ensures take_faults { IfCame result (λ link. L.take_faults link ≡ 0) }
        ensures put_faults { IfCame result (λ link. L.put_faults link ≡ 0) }
        ensures unended { IfCame result (λ link. L.ended link ≡ false) }
        // The call is counted, and it fails exactly where it is listed; else it gives the first link that is left.
        ensures counted { CountsCall (calls_of self.old) (calls_of self.new) }
        ensures exact { (result ≡ Arrival.Failed) ↔ FailsNext (calls_of self.old) }
        ensures gives { ComesFirst result (left_of self.old) (left_of self.new) }
    {
        if self.calls.count() {
            self.faults = self.faults.saturating_add(1);
            return Arrival::Failed;
        }
        self.door.next()
    }

    fn done(&mut self, line: L, end: ConnectionEnd)
        requires { FewerBack (Some (connections_of self.old)) }
        ensures told { HandsBack (Some (connections_of self.old)) (Some (connections_of self.new)) line end }
        ensures faults { faults_of self.new ≡ faults_of self.old }
        ensures closed { closed_of self.new ≡ closed_of self.old }
        ensures left { left_of self.new ≡ left_of self.old }
        ensures calls { calls_of self.new ≡ calls_of self.old }
    {
        self.door.done(line, end);
    }

    fn faults(&self) -> u64 {
        self.faults
    }

    ghost no_more_back = { λ door. door.door.no_more_back };
}
