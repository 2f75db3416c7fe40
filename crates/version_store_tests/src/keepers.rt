//! A press whose keeper fails at first, has no room then, and keeps in the end.

ghost use Rattle.std.specs.Prelude.{◌≡◌};
ghost use Rattle.version_store.specs.Store.{fresh_store, fresh_limit, fresh_places};

use crate::store::{Numbered, version};
use std::alloc::Global;
use std::marker::Brand;
use std::sync::Wait;
use std::test::Fail;
use tgap_model::{Keep, KeepFail};
use version_store::{Fresh, Press, PublishFail, Seat, StoreName, start};

/// A keeper that keeps from the third call on, and counts the calls. It tells nothing of what it keeps.
struct Third {
    asked: u64,
    faults: u64,
}

impl Keep for Third {
    ghost use Rattle.std.specs.Prelude.{None, Some};

    ghost faults = { λ keeper. keeper.faults };

    ghost limit = { λ keeper. Some 5 };

    ghost told = { λ keeper. None };

    fn keep(&mut self, _alloc: Global, _number: u64, _batch: &[u8]) -> Result<(), KeepFail> {
        self.asked = self.asked.saturating_add(1);
        if self.asked == 1 {
            self.faults = self.faults.saturating_add(1);
            return Err(KeepFail::Failed);
        }
        if self.asked == 2 {
            return Err(KeepFail::Full { limit: 5 });
        }
        Ok(())
    }
}

/// What comes of a seat's call to publish the second version.
fn published<N: StoreName, R: Wait>(
    rt: &R,
    alloc: Global,
    press: &mut Press<Numbered, N, Third>,
    seat: &mut Seat<Numbered, N>,
) -> Result<u64, PublishFail> {
    let next = version(alloc, 1)?;
    press.publish(rt, alloc, seat, 0, next)
}

/// What comes of four calls, one after the other.
type Answers = [Result<u64, PublishFail>; 4];

/// What comes of the calls of a seat, and how often the keeper was asked.
fn answers<N: StoreName, R: Wait>(
    rt: &R,
    alloc: Global,
    store: Fresh<Numbered>,
) -> Result<(Answers, u64), Fail>
    requires store { fresh_store store ≡ N.store }
    requires limit { fresh_limit store ≡ N.limit }
    requires seats { fresh_places store ≡ N.seats }
{
    let (press, mut seats) = store.open::<N, R>(rt, alloc)?;
    let mut seat = seats.pop().ok_or("a seat")?;
    let mut press = press.attach(Third {
        asked: 0,
        faults: 0,
    });
    let first = published(rt, alloc, &mut press, &mut seat);
    let second = published(rt, alloc, &mut press, &mut seat);
    let third = published(rt, alloc, &mut press, &mut seat);
    let fourth = published(rt, alloc, &mut press, &mut seat);
    press.gather(seat);
    let Third { asked, faults: _ } = press.part(rt);
    Ok(([first, second, third, fourth], asked))
}

#[test]
fn a_keeper_is_asked_before_each_version(rt: HostRuntime) -> Result<(), Fail> {
    let alloc = rt.alloc();
    let store = start(alloc, version(alloc, 0)?, 2, 1)?;
    let (told, asked) = answers::<Brand, HostRuntime>(&rt, alloc, store)?;
    let [first, second, third, fourth] = told;
    assert_eq!(rt; first, Err(PublishFail::Unkept));
    assert_eq!(rt; second, Err(PublishFail::KeeperFull { limit: 5 }));
    assert_eq!(rt; third, Ok(1));
    assert_eq!(rt; fourth, Err(PublishFail::Stale { newest: 1 }));
    assert_eq!(rt; asked, 3);
    Ok(())
}
