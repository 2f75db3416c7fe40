//! The versions that a journal adds to the first one of a store.

ghost use Rattle.std.specs.Prelude.{◌≡◌, ◌≤◌, ◌<◌, ◌+◌, ◌∷◌, ◌++◌, [], replicate, length, All, IfOk, OnOk};
ghost use Rattle.std.specs.Arc.{arc_value};
ghost use Rattle.version_store.specs.Store.{seat_versions, seat_limit, seat_number, seat_numbers, press_versions, press_publishers, press_limit, AreSeatsFrom};
ghost use Rattle.map_workers.specs.Seats.{SeesAll};
ghost use Rattle.journal_fold.specs.Made.{values};
ghost use Rattle.serving.specs.Later.{FollowFrom};

use crate::serve_store::room_for;
use map_version::Version;
use std::alloc::Global;
use std::sync::{Arc, Wait};
use tgap_model::{Memory, NoKeeper};
use version_store::{Press, Seat, StoreName};

/// Publishes later versions, one after the other, in the name of the first of the seats, and tells all seats of them.
pub(crate) fn with_later<N: StoreName, R: Wait>(
    rt: &R,
    alloc: Global,
    press: &mut Press<Version, N, NoKeeper>,
    seats: Vec<Seat<Version, N>>,
    later: Vec<Arc<Version>>,
) -> Result<Vec<Seat<Version, N>>, Memory>
    requires some { 1 ≤ length seats.items }
    requires numbers { AreSeatsFrom 1 seats.items }
    requires sees { All (SeesAll press.old) seats.items }
    requires first { length (press_versions press.old) ≡ 1 }
    requires nobody { press_publishers press.old ≡ 0 ∷ [] }
    requires later { FollowFrom 1 (values later.items) }
    ensures versions { OnOk result (press_versions press.new ≡ press_versions press.old ++ values later.items) }
    ensures publishers { OnOk result (press_publishers press.new ≡ 0 ∷ replicate (length later.items) 1) }
    ensures limit { OnOk result (press_limit press.new ≡ press_limit press.old) }
    ensures sees { IfOk result (λ told. All (SeesAll press.new) told.items) }
    ensures numbers { IfOk result (λ told. AreSeatsFrom 1 told.items) }
    ensures number { IfOk result (λ told. length told.items ≡ length seats.items) }
{
    let mut told = room_for(alloc, seats.len())?;
    let mut left = seats.into_iter();
    let Some(first) = left.next() else {
        return Ok(told);
    };
    told.push_reserved(published(rt, alloc, press, first, later)?);
    for seat in left {
        told.push_reserved(told_of_all(alloc, press, seat)?);
    }
    Ok(told)
}

/// Publishes versions, one after the other, in the name of a seat.
fn published<N: StoreName, R: Wait>(
    rt: &R,
    alloc: Global,
    press: &mut Press<Version, N, NoKeeper>,
    seat: Seat<Version, N>,
    later: Vec<Arc<Version>>,
) -> Result<Seat<Version, N>, Memory>
    requires sees { SeesAll press.old seat }
    requires seat { seat_number seat ≡ 1 }
    requires first { length (press_versions press.old) ≡ 1 }
    requires nobody { press_publishers press.old ≡ 0 ∷ [] }
    requires later { FollowFrom 1 (values later.items) }
    ensures versions { OnOk result (press_versions press.new ≡ press_versions press.old ++ values later.items) }
    ensures publishers { OnOk result (press_publishers press.new ≡ 0 ∷ replicate (length later.items) 1) }
    ensures sees { IfOk result (SeesAll press.new) }
    ensures seat { IfOk result (λ seat. seat_number seat ≡ 1) }
{
    let mut seat = seat;
    let mut newest = 0;
    for version in later {
        newest = publish_next(rt, alloc, press, &mut seat, newest, version)?;
    }
    Ok(seat)
}

/// Publishes the version after the newest one, and gives its number.
fn publish_next<N: StoreName, R: Wait>(
    rt: &R,
    alloc: Global,
    press: &mut Press<Version, N, NoKeeper>,
    seat: &mut Seat<Version, N>,
    newest: u64,
    version: Arc<Version>,
) -> Result<u64, Memory>
    requires sees { SeesAll press.old seat.old }
    requires seat { seat_number seat.old ≡ 1 }
    requires newest { newest + 1 ≡ length (press_versions press.old) }
    requires next { (arc_value version).number ≡ newest + 1 }
    requires publishers { press_publishers press.old ≡ 0 ∷ replicate newest 1 }
    ensures number { IfOk result (λ number. number ≡ newest + 1) }
    ensures versions { OnOk result (press_versions press.new ≡ press_versions press.old ++ arc_value version ∷ []) }
    ensures publishers { OnOk result (press_publishers press.new ≡ 0 ∷ replicate (newest + 1) 1) }
    ensures sees { OnOk result (SeesAll press.new seat.new) }
    ensures seat { OnOk result (seat_number seat.new ≡ 1) }
{
    // Nobody else publishes yet, and nobody keeps batches: memory alone may be wanting.
    match press.publish(rt, alloc, seat, newest, version) {
        Ok(number) => Ok(number),
        Err(_) => Err(Memory),
    }
}

/// Tells a seat of all published versions.
fn told_of_all<N: StoreName>(
    alloc: Global,
    press: &mut Press<Version, N, NoKeeper>,
    seat: Seat<Version, N>,
) -> Result<Seat<Version, N>, Memory>
    ensures versions { press_versions press.new ≡ press_versions press.old }
    ensures publishers { press_publishers press.new ≡ press_publishers press.old }
    ensures seen { IfOk result (λ told. seat_versions told ≡ press_versions press.new) }
    ensures number { IfOk result (λ told. seat_number told ≡ seat_number seat) }
    ensures numbers { IfOk result (λ told. seat_numbers told ≡ seat_numbers seat) }
{
    let mut seat = seat;
    press.newest(alloc, &mut seat)?;
    Ok(seat)
}
