//! A harbour in memory that never fails.

ghost use Rattle.std.specs.Prelude.{[], All, IfOk, OnOk, OnErr, ◌≡◌, ◌≢◌, ◌<◌, ◌≤◌, ◌+◌, false, Some, Err, length, vec_len};
ghost use Rattle.std.proofs.Props.{props};
ghost use Rattle.plain_io.specs.SureDoors.{IsUnused, IsEmpty};
ghost use Rattle.plain_io.specs.Harbours.{GivesFirst};
ghost use Rattle.plain_io.specs.DoorStores.{ready_of, doors_of};

use super::store::DoorStore;
use super::{Harbour, HarbourFail};
use crate::door::SureDoor;
use crate::link::Link;
use std::alloc::Global;
use tgap_model::{List, Memory};

/// A harbour in memory that never fails. It tells its doors, and keeps those that come back.
#[derive(Drop)]
pub struct SureHarbour<L: Link> {
    store: DoorStore<SureDoor<L>>,
    ghost unused: { All IsUnused (ready_of store) } by { Prim.hlevel props },
}

impl<L: Link + Send> SureHarbour<L> {
    ghost use Rattle.plain_io.specs.Harbours.{Doors};
    ghost use Rattle.plain_io.specs.SureHarbours.{left_of, given_of};

    /// A harbour that gives these unused doors, and after them doors without links.
    pub fn new(alloc: Global, doors: List<SureDoor<L>>) -> Self
        requires { All IsUnused doors }
        ensures told { ⟦<SureHarbour<L> as Harbour>⟧.told result ≡ Some (record { given = 0; back = [] }) }
        ensures left { left_of result ≡ doors }
    {
        SureHarbour {
            store: DoorStore::new(alloc, doors),
        }
    }

    /// The doors that came back.
    pub fn came_back(&self) -> &[SureDoor<L>]
        ensures { ⟦<SureHarbour<L> as Harbour>⟧.told self.now ≡ Some (record { given = given_of self.now; back = result.now }) }
    {
        self.store.back()
    }
}

impl<L: Link + Send> Harbour for SureHarbour<L> {
    ghost use Rattle.plain_io.specs.Doors.{NoneCame};
    ghost use Rattle.plain_io.specs.Harbours.{Doors, FewerBack, GivesDoors, CountsDoors, TakesBack, CountsBack, GivesFirst};
    ghost use Rattle.plain_io.specs.SureHarbours.{left_of, told_of, faults_of};
    ghost use Rattle.plain_io.specs.SureDoors as Gate;

    type Gate = SureDoor<L>;

    ghost told = { λ s. Some (told_of s) };

    ghost faults = { faults_of };

    fn doors(&mut self, alloc: Global, _port: u16, n: u32) -> Result<Vec<SureDoor<L>>, HarbourFail>
        requires least { 1 ≤ n }
        requires most { n ≤ 16 }
        ensures number { IfOk result (λ doors. vec_len doors ≡ n) }
        ensures empty { IfOk result (λ doors. All (λ door. NoneCame (Some (Gate.connections_of door))) doors.items) }
        ensures sound { IfOk result (λ doors. All (λ door. Gate.faults_of door ≡ 0) doors.items) }
        ensures unclosed { IfOk result (λ doors. All (λ door. Gate.closed_of door ≡ false) doors.items) }
        ensures told { GivesDoors n result (Some (told_of self.old)) (Some (told_of self.new)) }
        ensures faults { CountsDoors result (faults_of self.old) (faults_of self.new) }
        // It gives the first doors that are ready, and where they are too few, doors without links.
        ensures never { result ≢ Err HarbourFail.Failed }
        ensures gives { IfOk result (λ doors. GivesFirst Gate.IsEmpty doors.items (left_of self.old) (left_of self.new)) }
        ensures left { OnErr result (GivesFirst Gate.IsEmpty [] (left_of self.old) (left_of self.new)) }
    {
        fill(&mut self.store, alloc, n as usize).map_err(|_| HarbourFail::Memory)?;
        self.store.give(n as usize).map_err(|_| HarbourFail::Memory)
    }

    fn back(&mut self, door: SureDoor<L>)
        requires { FewerBack (Some (told_of self.old)) }
        ensures told { TakesBack (Some (told_of self.old)) (Some (told_of self.new)) door }
        ensures faults { CountsBack (Gate.faults_of door) (faults_of self.old) (faults_of self.new) }
        ensures left { left_of self.new ≡ left_of self.old }
    {
        self.store.keep(door);
    }

    ghost no_more_back = { λ harbour. harbour.store.no_more_back };
}

/// Makes doors without links, until so many are ready.
fn fill<L: Link>(store: &mut DoorStore<SureDoor<L>>, alloc: Global, n: usize) -> Result<(), Memory>
    requires { All IsUnused (ready_of store.old) }
    ensures unused { All IsUnused (ready_of store.new) }
    ensures enough { OnOk result (n ≤ length (ready_of store.new)) }
    ensures more { GivesFirst IsEmpty [] (ready_of store.old) (ready_of store.new) }
    ensures told { doors_of store.new ≡ doors_of store.old }
{
    for _ in store.ready()..n {
        let door = SureDoor::new(alloc, List::new(alloc))?;
        store.add(door)?;
    }
    Ok(())
}
