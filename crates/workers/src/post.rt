//! A worker's post: a door, and what serves the connections that come in there.

ghost use Rattle.std.specs.Prelude.{◌≡◌, ◌↔◌, ◌⊎◌, All, true};
ghost use Rattle.tgap_model.specs.Faults.{Rose};
ghost use Rattle.workers.specs.declared.end.ServeEnd.TheVariants.{Closed, DoorFailed};
ghost use Rattle.workers.specs.Each.{EachBecame, OneBecame};
ghost use Rattle.workers.specs.Served.{ServesDoor};

use crate::attend::{Attend, serve_door};
use crate::end::ServeEnd;
use crate::work::{Work, work_all};
use plain_io::Door;
use std::sync::Wait;
use std::thread::Threads;

/// What one worker is given: a door, and its seat, which serves the connections.
#[derive(Drop)]
pub struct PostOf<D, S> {
    pub door: D,
    pub seat: S,
}

impl<B, D: Door, S: Attend<B>> Work<B> for PostOf<D, S> {
    ghost use Rattle.std.specs.Prelude.{◌≡◌, ◌⊎◌, true};
    ghost use Rattle.tgap_model.specs.Faults.{Rose};
    ghost use Rattle.workers.specs.Served.{ServesDoor};

    ghost done = { λ old new. ServesDoor D.Line.Link (D.told old.door) (D.told new.door) (S.served old.seat new.seat)
        × ((D.closed new.door ≡ true) ⊎ Rose (D.faults old.door) (D.faults new.door)) };

    ghost failed = { λ old new. Rose (D.faults old.door) (D.faults new.door) };

    fn work<R: Threads + Wait + Sync>(&mut self, rt: &R, shared: &B) -> ServeEnd {
        serve_door(rt, shared, &mut self.door, &mut self.seat)
    }
}

/// Serves the connections of all doors side by side, each by the worker at its post, until each door gives no more.
pub fn serve_posts<B: Sync, D: Door + Send, S: Attend<B> + Send, R: Threads + Wait + Sync>(
    rt: &R,
    shared: &B,
    posts: &mut [PostOf<D, S>],
) -> ServeEnd
where
    D::Line: Send,
    // At each post the links that came were all handed back, and with their ends they are connections that its seat has served.
    ensures served { EachBecame (λ old new. ServesDoor D.Line.Link (D.told old.door) (D.told new.door) (S.served old.seat new.seat))
        posts.old posts.new }
    // No more links will come of a door, or it failed.
    ensures stopped { EachBecame (λ old new. (D.closed new.door ≡ true) ⊎ Rose (D.faults old.door) (D.faults new.door))
        posts.old posts.new }
    // The end tells exactly whether a door failed. Otherwise each is closed.
    ensures failed { (result ≡ DoorFailed) ↔ OneBecame (λ old new. Rose (D.faults old.door) (D.faults new.door)) posts.old posts.new }
    ensures closed { result ≡ Closed → All (λ post. D.closed post.door ≡ true) posts.new }
{
    work_all(rt, shared, posts)
}
