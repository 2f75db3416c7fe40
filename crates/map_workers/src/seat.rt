//! A seat of a store of versions serves the connections of a door.

ghost use Rattle.std.specs.Prelude.{◌≡◌, ◌↔◌, ◌⊎◌, All, true};
ghost use Rattle.tgap_model.specs.Faults.{Rose};
ghost use Rattle.session.specs.Versions.{seen_of};
ghost use Rattle.workers.specs.declared.end.ServeEnd.TheVariants.{Closed, DoorFailed};
ghost use Rattle.workers.specs.Each.{EachBecame, OneBecame};
ghost use Rattle.workers.specs.Served.{ServesDoor};
ghost use Rattle.map_workers.specs.Seats.{Served};

use map_version::Version;
use plain_io::{ConnectionEnd, Door, Link};
use session::{Desk, serve_connection_at};
use std::alloc::Global;
use std::sync::{Mutex, Wait};
use std::thread::Threads;
use tgap_model::Keep;
use version_store::{Press, Seat, StoreName};
use workers::{Attend, PostOf, ServeEnd, serve_posts};

/// What all workers share: where memory comes from, and the press behind its lock.
#[derive(Drop)]
struct Shared<'a, N: StoreName, K: Keep> {
    alloc: Global,
    press: &'a Mutex<Press<Version, N, K>>,
}

impl<N: StoreName, K: Keep> Attend<Shared<'_, N, K>> for Seat<Version, N> {
    ghost use Rattle.session.specs.Keeping.{IsDeskOf};
    ghost use Rattle.session.specs.Versions.{seen_of};
    ghost use Rattle.map_workers.specs.Seats.{Served, served_none};

    type Desk = Desk;

    ghost served = { λ before now talks. Served (seen_of before) (seen_of now) talks };

    ghost ready = { λ now desk. IsDeskOf (seen_of now) desk };

    fn desk(&self, shared: &Shared<'_, N, K>) -> Desk {
        Desk::new(shared.alloc)
    }

    fn leave(&self, _desk: Desk) {}

    fn attend<L: Link, R: Threads + Wait + Sync>(
        &mut self,
        rt: &R,
        shared: &Shared<'_, N, K>,
        link: &mut L,
        desk: &mut Desk,
    ) -> ConnectionEnd {
        serve_connection_at(rt, shared.alloc, link, self, shared.press, desk)
    }

    ghost served_none = { λ now. served_none (seen_of now) };
}

/// What one worker is given: a door, and a seat of the store.
pub type Post<D, N> = PostOf<D, Seat<Version, N>>;

/// Serves the connections of all doors side by side, each by a worker at its post, until each door gives no more. A connection's link is
/// handed back with its end, and however it ends, the next one is served.
///
/// `DoorFailed` is told exactly where the count of faults of a door rose in this call; otherwise each door is closed.
pub fn serve<D: Door + Send, N: StoreName + Send + Sync, K: Keep + Send, R: Threads + Wait + Sync>(
    rt: &R,
    alloc: Global,
    posts: &mut [Post<D, N>],
    press: &Mutex<Press<Version, N, K>>,
) -> ServeEnd
where
    D::Line: Send,
    // At each post the links that came were all handed back, each with the end of its connection, and over the seat's list of versions at
    // the end each connection is right. The versions that they published and the tellings that they rest on are counted.
    ensures served { EachBecame (λ old new. ServesDoor D.Line.Link (D.told old.door) (D.told new.door)
        (Served (seen_of old.seat) (seen_of new.seat))) posts.old posts.new }
    // No more links will come of a door, or it failed.
    ensures stopped { EachBecame (λ old new. (D.closed new.door ≡ true) ⊎ Rose (D.faults old.door) (D.faults new.door))
        posts.old posts.new }
    // The end tells exactly whether a door failed. Otherwise each is closed.
    ensures failed { (result ≡ DoorFailed) ↔ OneBecame (λ old new. Rose (D.faults old.door) (D.faults new.door)) posts.old posts.new }
    ensures closed { result ≡ Closed → All (λ post. D.closed post.door ≡ true) posts.new }
{
    let shared = Shared { alloc, press };
    serve_posts(rt, &shared, posts)
}
