//! A harbour in memory, of which the listed calls fail.

ghost use Rattle.std.specs.Prelude.{[], All, IfOk, ◌≡◌, ◌≢◌, ◌<◌, ◌≤◌, ◌⊎◌, ◌↔◌, ◌+◌, false, Some, Err, length, take, drop, is_ok, if◌then◌else◌, vec_len};
ghost use Rattle.std.proofs.Props.{props};
ghost use Rattle.plain_io.specs.MemoryDoors.{IsUnused};
ghost use Rattle.plain_io.specs.DoorStores.{ready_of};

use super::store::DoorStore;
use super::{Harbour, HarbourFail};
use crate::calls::Calls;
use crate::door::{Door, MemoryDoor};
use crate::link::Link;
use std::alloc::Global;
use tgap_model::List;

/// A harbour in memory. It tells its doors, and keeps those that come back. Asking it for more doors than are ready is a
/// fault, and so is a listed call for doors.
#[derive(Drop)]
pub struct MemoryHarbour<L: Link> {
    store: DoorStore<MemoryDoor<L>>,
    calls: Calls,
    faults: u64,
    ghost unused: { All IsUnused (ready_of store) } by { Prim.hlevel props },
}

impl<L: Link + Send> MemoryHarbour<L> {
    ghost use Rattle.plain_io.specs.Harbours.{Doors};
    ghost use Rattle.plain_io.specs.MemoryHarbours.{left_of, given_of, calls_of};

    /// A harbour that gives these unused doors. The calls for doors with the listed numbers, counted from 0, fail.
    pub fn new(alloc: Global, doors: List<MemoryDoor<L>>, failing: List<u64>) -> Self
        requires { All IsUnused doors }
        ensures told { ⟦<MemoryHarbour<L> as Harbour>⟧.told result ≡ Some (record { given = 0; back = [] }) }
        ensures faults { ⟦<MemoryHarbour<L> as Harbour>⟧.faults result ≡ 0 }
        ensures left { left_of result ≡ doors }
        ensures calls { calls_of result ≡ record { made = 0; failing = failing } }
    {
        MemoryHarbour {
            store: DoorStore::new(alloc, doors),
            calls: Calls::new(failing),
            faults: 0,
        }
    }

    /// The doors that came back.
    pub fn came_back(&self) -> &[MemoryDoor<L>]
        ensures { ⟦<MemoryHarbour<L> as Harbour>⟧.told self.now ≡ Some (record { given = given_of self.now; back = result.now }) }
    {
        self.store.back()
    }
}

impl<L: Link + Send> Harbour for MemoryHarbour<L> {
    ghost use Rattle.plain_io.specs.Doors.{NoneCame};
    ghost use Rattle.plain_io.specs.Harbours.{Doors, FewerBack, GivesDoors, CountsDoors, TakesBack, CountsBack};
    ghost use Rattle.plain_io.specs.Calls.{CountsCall, FailsNext};
    ghost use Rattle.plain_io.specs.MemoryHarbours.{left_of, told_of, faults_of, calls_of};
    ghost use Rattle.plain_io.specs.MemoryDoors as Gate;

    type Gate = MemoryDoor<L>;

    ghost told = { λ s. Some (told_of s) };

    ghost faults = { faults_of };

    fn doors(
        &mut self,
        _alloc: Global,
        _port: u16,
        n: u32,
    ) -> Result<Vec<MemoryDoor<L>>, HarbourFail>
        requires least { 1 ≤ n }
        requires most { n ≤ 16 }
        ensures number { IfOk result (λ doors. vec_len doors ≡ n) }
        ensures empty { IfOk result (λ doors. All (λ door. NoneCame (Some (Gate.connections_of door))) doors.items) }
        ensures sound { IfOk result (λ doors. All (λ door. Gate.faults_of door ≡ 0) doors.items) }
        ensures unclosed { IfOk result (λ doors. All (λ door. Gate.closed_of door ≡ false) doors.items) }
        ensures told { GivesDoors n result (Some (told_of self.old)) (Some (told_of self.new)) }
        ensures faults { CountsDoors result (faults_of self.old) (faults_of self.new) }
        // The call is counted, and it fails exactly where it is listed, or fewer doors are ready.
        ensures counted { CountsCall (calls_of self.old) (calls_of self.new) }
        ensures exact { (result ≡ Err HarbourFail.Failed)
            ↔ (FailsNext (calls_of self.old) ⊎ (length (left_of self.old) < n)) }
        // It gives the first doors that are ready.
        ensures gives { IfOk result (λ doors. doors.items ≡ take n (left_of self.old)) }
        ensures left { left_of self.new ≡ (if is_ok result then drop n (left_of self.old) else left_of self.old) }
    {
        let fails = self.calls.count();
        if fails || self.store.ready() < n as usize {
            self.faults = self.faults.saturating_add(1);
            return Err(HarbourFail::Failed);
        }
        self.store.give(n as usize).map_err(|_| HarbourFail::Memory)
    }

    fn back(&mut self, door: MemoryDoor<L>)
        requires { FewerBack (Some (told_of self.old)) }
        ensures told { TakesBack (Some (told_of self.old)) (Some (told_of self.new)) door }
        ensures faults { CountsBack (Gate.faults_of door) (faults_of self.old) (faults_of self.new) }
        ensures left { left_of self.new ≡ left_of self.old }
        ensures calls { calls_of self.new ≡ calls_of self.old }
    {
        if door.faults() > 0 {
            self.faults = self.faults.saturating_add(1);
        }
        self.store.keep(door);
    }

    ghost no_more_back = { λ harbour. harbour.store.no_more_back };
}
