//! A worker at a door.

ghost use Rattle.std.specs.Prelude.{◌≡◌, ◌↔◌, ◌⊎◌, ◌++◌, ◌∷◌, List, [], false, true};
ghost use Rattle.tgap_model.specs.Faults.{Rises, Rose};
ghost use Rattle.plain_io.specs.Links.{HasNone};
ghost use Rattle.std.specs.Thread.{IsSync};
ghost use Rattle.workers.specs.declared.end.ServeEnd.TheVariants.{DoorFailed};
ghost use Rattle.workers.specs.Served.{Talk, ServesDoor};

use crate::end::{ServeEnd, end_by_counts};
use plain_io::{Arrival, ConnectionEnd, Door, Link};
use std::sync::Wait;
use std::thread::Threads;

/// What serves one connection after the other, with what all workers share.
pub trait Attend<B> {
    /// What it keeps from one connection to the next while it serves those of a door.
    type Desk;

    /// It has served these connections since it was as it was before.
    ghost served: { Self → Self → List Talk → Type 0 };

    /// The desk is one at which it may serve as it is now.
    ghost ready: { Self → Self.Desk → Type 0 };

    /// A desk at which nothing was kept yet.
    fn desk(&self, shared: &B) -> Self::Desk
        ensures { ready self.now result };

    /// Leaves the desk, where no more links come.
    fn leave(&self, desk: Self::Desk);

    /// Serves the connection of a link that has just come, and so one connection more.
    fn attend<L: Link, R: Threads + Wait + Sync>(
        &mut self,
        rt: &R,
        shared: &B,
        link: &mut L,
        desk: &mut Self::Desk,
    ) -> ConnectionEnd
        requires ready { ready self.old desk.old }
        requires runtime { IsSync R.row }
        requires untaken { HasNone (L.taken link.old) }
        requires unput { HasNone (L.told link.old) }
        requires take_faults { L.take_faults link.old ≡ 0 }
        requires put_faults { L.put_faults link.old ≡ 0 }
        requires unended { L.ended link.old ≡ false }
        ensures served { (before : Self) (talks : List Talk) → served before self.old talks
            → served before self.new (talks ++ record {
              taken_before = L.taken link.old;
              told_before = L.told link.old;
              taken = L.taken link.new;
              told = L.told link.new;
              ended = L.ended link.new;
              take_faults = L.take_faults link.new;
              put_faults = L.put_faults link.new;
              end = result;
            } ∷ []) }
        ensures ready { ready self.new desk.new };

    /// At first it has served none.
    ghost served_none: { (now : Self) → served now now [] };
}

/// Serves the connections of a door until it gives no more, and hands each link back with the end of its connection. However a connection
/// ends, the next one is served.
pub fn serve_door<B, D: Door, A: Attend<B>, R: Threads + Wait + Sync>(
    rt: &R,
    shared: &B,
    door: &mut D,
    attendant: &mut A,
) -> ServeEnd
    // The links that came were all handed back, and with their ends they are connections that were served.
    ensures served { ServesDoor D.Line.Link (D.told door.old) (D.told door.new) (A.served attendant.old attendant.new) }
    // No more links will come, or the door failed, which the end tells exactly.
    ensures stopped { (D.closed door.new ≡ true) ⊎ Rose (D.faults door.old) (D.faults door.new) }
    ensures end { (result ≡ DoorFailed) ↔ Rose (D.faults door.old) (D.faults door.new) }
{
    let before = door.faults();
    serve_links(rt, shared, door, attendant);
    end_by_counts(before, door.faults())
}

/// Serves the connections of a door until it gives no more, all at one desk.
fn serve_links<B, D: Door, A: Attend<B>, R: Threads + Wait + Sync>(
    rt: &R,
    shared: &B,
    door: &mut D,
    attendant: &mut A,
)
    ensures served { ServesDoor D.Line.Link (D.told door.old) (D.told door.new) (A.served attendant.old attendant.new) }
    ensures stopped { ((D.closed door.new ≡ true) × (D.faults door.new ≡ D.faults door.old)) ⊎ Rises (D.faults door.old) (D.faults door.new) }
{
    let mut desk = attendant.desk(shared);
    for _ in rt.forever() {
        let Arrival::Came(mut link) = door.next() else {
            break;
        };
        let end = attendant.attend(rt, shared, &mut link, &mut desk);
        door.done(link, end);
    }
    attendant.leave(desk);
}
