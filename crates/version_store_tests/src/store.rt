//! A press with its seats: on one thread, and on two.

ghost use Rattle.std.specs.Prelude.{◌≡◌, ◌+◌, [], IfOk};
ghost use Rattle.std.specs.Arc.{arc_value};
ghost use Rattle.version_store.specs.Store.{fresh_store, fresh_limit, fresh_places};

use crate::maps::triangle;
use std::alloc::Global;
use std::marker::Brand;
use std::sync::{Arc, Mutex, Wait};
use std::test::Fail;
use std::thread::{Threads, join};
use tgap_model::{Base, Holds, Memory, NoKeeper};
use version_store::{Fresh, Press, PublishFail, Seat, StoreName, start};

/// A map with its number. No batch is told of it.
#[derive(Drop)]
pub struct Numbered {
    number: u64,
    base: Base,
}

impl Holds for Numbered {
    ghost numbered = { λ v. v.number };

    ghost base = { λ v. v.base };

    ghost batched = { λ v. [] };

    fn number(&self) -> u64 {
        self.number
    }

    fn batch(&self) -> &[u8] {
        b""
    }
}

/// The version of this number: a triangle whose width tells it.
pub fn version(alloc: Global, number: u64) -> Result<Arc<Numbered>, Memory>
    ensures { IfOk result (λ v. (arc_value v).number ≡ number) }
{
    let width = if number == 0 { 10 } else { 20 };
    let base = triangle(alloc, width)?.ok_or(Memory)?;
    Ok(Arc::new(alloc, Numbered { number, base })?)
}

const STALE: PublishFail = PublishFail::Stale { newest: 1 };

const FULL: PublishFail = PublishFail::VersionsFull { limit: 2 };

/// Whether a seat publishes from the first version, and then may not do so again.
fn publishes_once<N: StoreName, R: Wait>(
    rt: &R,
    alloc: Global,
    press: &mut Press<Numbered, N, NoKeeper>,
    seat: &mut Seat<Numbered, N>,
) -> Result<bool, Memory> {
    let next = version(alloc, 1)?;
    let free = press.ready(seat, 0);
    let published = press.publish(rt, alloc, seat, 0, next);
    let older = press.ready(seat, 0);
    Ok(free == Ok(()) && published == Ok(1) && older == Err(STALE))
}

/// Whether a seat that publishes from the first version is told that it is not the newest.
fn is_stale<N: StoreName, R: Wait>(
    rt: &R,
    alloc: Global,
    press: &mut Press<Numbered, N, NoKeeper>,
    seat: &mut Seat<Numbered, N>,
) -> Result<bool, Memory> {
    let next = version(alloc, 1)?;
    Ok(press.publish(rt, alloc, seat, 0, next) == Err(STALE))
}

/// Whether a seat that pins the second version is told that there may be no third one.
fn is_full<N: StoreName, R: Wait>(
    rt: &R,
    alloc: Global,
    press: &mut Press<Numbered, N, NoKeeper>,
    seat: &mut Seat<Numbered, N>,
) -> Result<bool, Memory> {
    let pinned = seat.pin(alloc)?.number;
    let next = version(alloc, pinned + 1)?;
    let published = press.publish(rt, alloc, seat, pinned, next);
    let again = seat.pin(alloc)?.number;
    let ready = press.ready(seat, again);
    Ok(pinned == 1 && published == Err(FULL) && ready == Err(FULL))
}

/// Whether three seats of a store of two versions are told what is right, one after the other. The last of them has done
/// nothing before it pins: a pin without a step would give 0.
fn are_told<N: StoreName, R: Wait>(
    rt: &R,
    alloc: Global,
    press: &mut Press<Numbered, N, NoKeeper>,
    seats: &mut [Seat<Numbered, N>],
) -> Result<bool, Fail> {
    let [first, second, last] = seats else {
        return Err("there are three seats".into());
    };
    Ok(
        publishes_once(rt, alloc, press, first)?
            && is_stale(rt, alloc, press, second)?
            && is_full(rt, alloc, press, second)?
            && press.newest(alloc, first)? == 1
            && last.pin(alloc)?.number == 1,
    )
}

/// The same for the seats of a store, which are gathered then.
fn are_told_and_gathered<N: StoreName, R: Wait>(
    rt: &R,
    alloc: Global,
    store: Fresh<Numbered>,
) -> Result<bool, Fail>
    requires store { fresh_store store ≡ N.store }
    requires limit { fresh_limit store ≡ N.limit }
    requires seats { fresh_places store ≡ N.seats }
{
    let (mut press, mut seats) = store.open::<N, R>(rt, alloc)?;
    let is_right = are_told(rt, alloc, &mut press, seats.as_mut_slice())?;
    for seat in seats {
        press.gather(seat);
    }
    press.end(rt);
    Ok(is_right)
}

#[test]
fn three_seats_on_one_thread(rt: HostRuntime) -> Result<(), Fail> {
    let store = start(rt.alloc(), version(rt.alloc(), 0)?, 2, 3)?;
    assert!(rt; are_told_and_gathered::<Brand, HostRuntime>(&rt, rt.alloc(), store)?);
    Ok(())
}

fn publish_one<N: StoreName, R: Wait>(
    rt: &R,
    alloc: Global,
    press: &Mutex<Press<Numbered, N, NoKeeper>>,
    seat: Seat<Numbered, N>,
) -> Result<u64, PublishFail> {
    let mut seat = seat;
    let next = version(alloc, 1)?;
    let mut press = press.lock(rt);
    press.publish(rt, alloc, &mut seat, 0, next)
}

/// Pins a hundred times, and gives the last number. No pin is older than the one before.
fn pin_often<N: StoreName>(
    alloc: Global,
    seat: Seat<Numbered, N>,
) -> Result<Option<(u64, Seat<Numbered, N>)>, Memory> {
    let mut seat = seat;
    let mut last = 0;
    for _ in 0..100u64 {
        let pinned = seat.pin(alloc)?.number;
        if pinned < last {
            return Ok(None);
        }
        last = pinned;
    }
    Ok(Some((last, seat)))
}

fn side_by_side<N: StoreName + Send + Sync, R: Threads + Wait + Sync>(
    rt: &R,
    alloc: Global,
    store: Fresh<Numbered>,
) -> Result<(Result<u64, PublishFail>, u64, u64), Fail>
    requires store { fresh_store store ≡ N.store }
    requires limit { fresh_limit store ≡ N.limit }
    requires seats { fresh_places store ≡ N.seats }
{
    let (press, mut seats) = store.open::<N, R>(rt, alloc)?;
    let writer = seats.pop().ok_or("a seat")?;
    let reader = seats.pop().ok_or("a seat")?;
    let press = Mutex::new(press);
    let shared = &press;
    let (published, read) = join(
        rt,
        move || publish_one(rt, alloc, shared, writer),
        move || pin_often(alloc, reader),
    );
    let (seen, mut reader) = read?.ok_or("a pin is older than the one before")?;
    let last = reader.pin(alloc)?.number;
    Ok((published, seen, last))
}

#[test]
fn one_publishes_and_one_pins(rt: HostRuntime) -> Result<(), Fail> {
    let alloc = rt.alloc();
    let store = start(alloc, version(alloc, 0)?, 2, 2)?;
    let (published, seen, last) = side_by_side::<Brand, HostRuntime>(&rt, alloc, store)?;
    assert_eq!(rt; published, Ok(1));
    assert!(rt; seen <= 1);
    assert_eq!(rt; last, 1);
    Ok(())
}
