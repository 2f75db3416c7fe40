//! Work that is done side by side.

ghost use Rattle.std.specs.Prelude.{◌≡◌, ◌↔◌, length};
ghost use Rattle.std.specs.Thread.{IsSync};
ghost use Rattle.workers.specs.declared.end.ServeEnd.TheVariants.{DoorFailed};
ghost use Rattle.workers.specs.Each.{EachBecame, OneBecame};

use crate::end::ServeEnd;
use std::sync::Wait;
use std::thread::{Threads, join_mut};

/// What a worker does, with what all workers share.
pub trait Work<B> {
    /// What its work may have made of it.
    ghost done: { Self → Self → Type 0 };

    /// Whether it failed in that.
    ghost failed: { Self → Self → Type 0 };

    /// Does its work.
    fn work<R: Threads + Wait + Sync>(&mut self, rt: &R, shared: &B) -> ServeEnd
        requires { IsSync R.row }
        ensures done { done self.old self.new }
        ensures end { (result ≡ DoorFailed) ↔ failed self.old self.new };
}

/// Lets all workers work side by side; where no thread more can be made, some of them work one after the other.
pub fn work_all<P: Work<B> + Send, B: Sync, R: Threads + Wait + Sync>(
    rt: &R,
    shared: &B,
    workers: &mut [P],
) -> ServeEnd
    ensures done { EachBecame P.Work.done workers.old workers.new }
    ensures end { (result ≡ DoorFailed) ↔ OneBecame P.Work.failed workers.old workers.new }
{
    match workers {
        [] => ServeEnd::Closed,
        [worker] => worker.work(rt, shared),
        _ => {
            let (front, back) = workers.split_at_mut(workers.len() / 2);
            let (first, second) = join_mut(
                rt,
                &mut || -> ServeEnd
                    requires { IsSync R.row }
                    ensures done { EachBecame P.Work.done front.entry.now front.exit.now }
                    ensures end { (result ≡ DoorFailed) ↔ OneBecame P.Work.failed front.entry.now front.exit.now }
                { work_all(rt, shared, front) },
                &mut || -> ServeEnd
                    requires { IsSync R.row }
                    ensures done { EachBecame P.Work.done back.entry.now back.exit.now }
                    ensures end { (result ≡ DoorFailed) ↔ OneBecame P.Work.failed back.entry.now back.exit.now }
                { work_all(rt, shared, back) },
            );
            first.both(second)
        }
    }
}
