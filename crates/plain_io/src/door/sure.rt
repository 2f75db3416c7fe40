//! A door in memory that never fails.

ghost use Rattle.std.specs.Prelude.{[], All, IfOk, ◌≡◌, ◌≢◌, ◌≤◌, ◌+◌, ◌||◌, false, Some, length, vec_capacity};
ghost use Rattle.std.specs.VecDeque.{deque_len};
ghost use Rattle.std.proofs.Props.{props};
ghost use Rattle.plain_io.specs.Links.{IsNew};

use super::{Arrival, Door};
use crate::connection::ConnectionEnd;
use crate::link::Link;
use std::alloc::Global;
use std::collections::VecDeque;
use tgap_model::{List, Memory};

/// A door in memory that never fails. It tells its links, and keeps those that are handed back, each with its end.
#[derive(Drop)]
pub struct SureDoor<L: Link> {
    links: VecDeque<L>,
    came: usize,
    back: Vec<(L, ConnectionEnd)>,
    closed: bool,
    ghost unused: { All (λ link. IsNew (L.taken link) (L.told link) (L.take_faults link) (L.put_faults link) (L.ended link)) links.items } by { Prim.hlevel props },
    ghost no_more_back: { length back.items ≤ came },
    ghost room: { came + deque_len links ≤ vec_capacity back },
}

impl<L: Link> SureDoor<L> {
    ghost use Rattle.plain_io.specs.Doors.{Connections};
    ghost use Rattle.plain_io.specs.SureDoors.{left_of, came_of, IsUnused};

    /// A door that gives these new links, one after the other, with room for what comes back, which is taken now.
    pub fn new(alloc: Global, links: List<L>) -> Result<Self, Memory>
        requires { All (λ link. IsNew (L.taken link) (L.told link) (L.take_faults link) (L.put_faults link) (L.ended link)) links }
        ensures told { IfOk result (λ door. ⟦<SureDoor<L> as Door>⟧.told door ≡ Some (record { came = 0; back = [] })) }
        ensures unclosed { IfOk result (λ door. ⟦<SureDoor<L> as Door>⟧.closed door ≡ false) }
        ensures left { IfOk result (λ door. left_of door ≡ links) }
        ensures unused { IfOk result IsUnused }
    {
        let links = VecDeque::from_vec(links.into_vec());
        Ok(SureDoor {
            back: Vec::with_capacity(alloc, links.len())?,
            links,
            came: 0,
            closed: false,
        })
    }

    /// The links that were handed back, each with its end.
    pub fn handed_back(&self) -> &[(L, ConnectionEnd)]
        ensures { ⟦<SureDoor<L> as Door>⟧.told self.now ≡ Some (record { came = came_of self.now; back = result.now }) }
    {
        self.back.as_slice()
    }
}

impl<L: Link> Door for SureDoor<L> {
    ghost use Rattle.plain_io.specs.Links.{HasNone};
    ghost use Rattle.plain_io.specs.Doors.{Connections, FewerBack, IfCame, is_closed, Arrives, CountsArrival, HandsBack, ComesFirst};
    ghost use Rattle.plain_io.specs.SureDoors.{left_of, connections_of, faults_of, closed_of};

    type Line = L;

    ghost told = { λ s. Some (connections_of s) };

    ghost faults = { faults_of };

    ghost closed = { closed_of };

    fn next(&mut self) -> Arrival<L>
        ensures told { Arrives result (Some (connections_of self.old)) (Some (connections_of self.new)) }
        ensures faults { CountsArrival result (faults_of self.old) (faults_of self.new) }
        ensures closed { closed_of self.new ≡ (closed_of self.old || is_closed result) }
        ensures untaken { IfCame result (λ link. HasNone (L.taken link)) }
        ensures unput { IfCame result (λ link. HasNone (L.told link)) }
        ensures take_faults { IfCame result (λ link. L.take_faults link ≡ 0) }
        ensures put_faults { IfCame result (λ link. L.put_faults link ≡ 0) }
        ensures unended { IfCame result (λ link. L.ended link ≡ false) }
        // It gives the first link that is left.
        ensures never { result ≢ Arrival.Failed }
        ensures gives { ComesFirst result (left_of self.old) (left_of self.new) }
    {
        match self.links.pop_front() {
            Some(link) => {
                self.came += 1;
                Arrival::Came(link)
            }
            None => {
                self.closed = true;
                Arrival::Closed
            }
        }
    }

    fn done(&mut self, line: L, end: ConnectionEnd)
        requires { FewerBack (Some (connections_of self.old)) }
        ensures told { HandsBack (Some (connections_of self.old)) (Some (connections_of self.new)) line end }
        ensures faults { faults_of self.new ≡ faults_of self.old }
        ensures closed { closed_of self.new ≡ closed_of self.old }
        ensures left { left_of self.new ≡ left_of self.old }
    {
        // There is room for all links.
        let _ = self.back.push((line, end));
    }

    fn faults(&self) -> u64 {
        0
    }

    ghost no_more_back = { λ door. door.no_more_back };
}
