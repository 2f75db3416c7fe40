//! Sixteen seats, the most there may be, each of which publishes from the first version: in turn, and each on a thread
//! of its own.

ghost use Rattle.std.specs.Prelude.{◌≡◌};
ghost use Rattle.version_store.specs.Store.{fresh_store, fresh_limit, fresh_places};

use crate::store::{Numbered, version};
use std::alloc::Global;
use std::marker::Brand;
use std::sync::{Mutex, Wait};
use std::test::Fail;
use std::thread::{Threads, map_vec};
use tgap_model::{Memory, NoKeeper};
use version_store::{Fresh, Press, PublishFail, Seat, StoreName, start};

/// What came of a seat's call, and the number of the version that it pins after it.
type Told = (Result<u64, PublishFail>, u64);

/// One seat publishes from the first version, and then pins.
fn publish_and_pin<N: StoreName, R: Wait>(
    rt: &R,
    alloc: Global,
    press: &Mutex<Press<Numbered, N, NoKeeper>>,
    seat: Seat<Numbered, N>,
) -> Result<Told, Memory> {
    let mut seat = seat;
    let next = version(alloc, 1)?;
    let mut locked = press.lock(rt);
    let published = locked.publish(rt, alloc, &mut seat, 0, next);
    drop(locked);
    Ok((published, seat.pin(alloc)?.number))
}

fn in_turn<N: StoreName, R: Wait>(
    rt: &R,
    alloc: Global,
    store: Fresh<Numbered>,
) -> Result<Vec<Told>, Fail>
    requires store { fresh_store store ≡ N.store }
    requires limit { fresh_limit store ≡ N.limit }
    requires seats { fresh_places store ≡ N.seats }
{
    let (press, seats) = store.open::<N, R>(rt, alloc)?;
    let press = Mutex::new(press);
    let mut told = Vec::new(alloc);
    for seat in seats {
        told.push(publish_and_pin(rt, alloc, &press, seat)?)?;
    }
    Ok(told)
}

fn at_once<N: StoreName + Send + Sync, R: Threads + Wait + Sync>(
    rt: &R,
    alloc: Global,
    store: Fresh<Numbered>,
) -> Result<Vec<Told>, Fail>
    requires store { fresh_store store ≡ N.store }
    requires limit { fresh_limit store ≡ N.limit }
    requires seats { fresh_places store ≡ N.seats }
{
    let (press, seats) = store.open::<N, R>(rt, alloc)?;
    let press = Mutex::new(press);
    let shared = &press;
    let job = move |seat: Seat<Numbered, N>| publish_and_pin(rt, alloc, shared, seat);
    let mut told = Vec::new(alloc);
    for one in map_vec(rt, seats, &job)? {
        told.push(one?)?;
    }
    Ok(told)
}

#[test]
fn sixteen_seats_in_turn(rt: HostRuntime) -> Result<(), Fail> {
    let alloc = rt.alloc();
    let store = start(alloc, version(alloc, 0)?, 64, 16)?;
    let told = in_turn::<Brand, HostRuntime>(&rt, alloc, store)?;
    assert_eq!(rt; told.len(), 16);
    let mut wanted = Ok(1);
    for (published, pinned) in told {
        assert_eq!(rt; published, wanted);
        assert_eq!(rt; pinned, 1);
        wanted = Err(PublishFail::Stale { newest: 1 });
    }
    Ok(())
}

#[test]
fn sixteen_seats_on_threads_of_their_own(rt: HostRuntime) -> Result<(), Fail> {
    let alloc = rt.alloc();
    let store = start(alloc, version(alloc, 0)?, 64, 16)?;
    let told = at_once::<Brand, HostRuntime>(&rt, alloc, store)?;
    assert_eq!(rt; told.len(), 16);
    let mut numbers = Vec::new(alloc);
    for (published, pinned) in told {
        assert_eq!(rt; pinned, 1);
        match published {
            Ok(number) => numbers.push(number)?,
            Err(fail) => assert_eq!(rt; fail, PublishFail::Stale { newest: 1 }),
        }
    }
    assert_eq!(rt; numbers.as_slice(), [1].as_slice());
    Ok(())
}
