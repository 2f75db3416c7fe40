//! What becomes of a request, and the reply to it.

ghost use Rattle.std.specs.Prelude.{◌≡◌, true, ◌<◌, ◌≤◌, ◌+◌, ℕ, List, length, take, drop, Ok, Err, IfOk, OnErr};
ghost use Rattle.http_face.specs.declared.request.Route.TheVariants.{Pin as PinRoute, PinSeen as PinSeenRoute};
ghost use Rattle.session.specs.Items.{Route as RouteAsked, FaultyHead};
ghost use Rattle.tgap_model.specs.Base.{BaseMap};
ghost use Rattle.session.specs.Keeping.{AreKept};
ghost use Rattle.session.specs.Versions.{Seen, Continues, SameCounts, IsPin};
ghost use Rattle.session.specs.declared.row.Row.TheVariants.{Read as RowRead};
ghost use Rattle.session.specs.Turns.{IsTurned, CountsTurn, CountsTold, IsSought, Reads};

use crate::answer::{fault_answer, numbered_line, plain, sent};
use crate::coming::Due;
use crate::desk::Fittings;
use crate::edit::edit;
use crate::kept_texts::KeptTexts;
use crate::read::pinned_reply;
use crate::row::Row;
use crate::sending::Sending;
use crate::versions::Versions;
use http_face::Route;
use map_version::Version;
use std::alloc::Global;
use std::sync::Wait;
use std::thread::Threads;
use tgap_model::Memory;
use version_store::Pin;

/// What became of a request: the number that the reply rests on, the outcome, and the bytes of the reply.
#[derive(Drop)]
pub(crate) struct Turned {
    pub number: u64,
    pub row: Row,
    pub reply: Sending,
}

/// Pins the newest version. Without memory the old pin stays.
pub(crate) fn pin_newest<P, V: Versions<P>>(
    alloc: Global,
    versions: &mut V,
    pin: &mut Pin<Version>,
    close: bool,
) -> Result<Turned, Memory>
    requires { IsPin (V.seen versions.old).history pin.old }
    ensures turned { IfOk result (λ t. (body : List ℕ)
        → IsTurned (V.seen versions.old) (V.seen versions.new) pin.old.number pin.new.number (RouteAsked PinRoute body) close t) }
    ensures pin { IsPin (V.seen versions.new).history pin.new }
    ensures kept { OnErr result (pin.new ≡ pin.old) }
    ensures continues { Continues (V.seen versions.old) (V.seen versions.new) }
    ensures counts { CountsTurn (V.seen versions.old) (V.seen versions.new) result }
    ensures told { CountsTold (V.seen versions.old) (V.seen versions.new) result }
{
    let fresh = versions.pin(alloc)?;
    let number = fresh.number;
    let answer = plain(200, numbered_line(alloc, b"pin", number)?);
    let reply = sent(alloc, answer, number, close)?;
    *pin = fresh;
    Ok(Turned {
        number,
        row: Row::Pinned,
        reply,
    })
}

/// The newest version, or its number where a client has seen a newer one.
enum Sought {
    Found(Pin<Version>),
    Behind(u64),
}

/// The newest version, where its number is at least the one that the client has seen. The press is asked where it is not.
fn seek<R: Wait, P, V: Versions<P>>(
    rt: &R,
    alloc: Global,
    versions: &mut V,
    press: &P,
    seen: u64,
) -> Result<Sought, Memory>
    ensures sought { IfOk result (IsSought (V.seen versions.old) (V.seen versions.new) seen) }
    ensures continues { Continues (V.seen versions.old) (V.seen versions.new) }
    ensures counts { SameCounts (V.seen versions.old) (V.seen versions.new) }
{
    let pin = versions.pin(alloc)?;
    if seen <= pin.number {
        return Ok(Sought::Found(pin));
    }
    let newest = versions.newest(rt, alloc, press)?;
    if newest < seen {
        return Ok(Sought::Behind(newest));
    }
    Ok(Sought::Found(versions.pin(alloc)?))
}

/// Pins the newest version where it is no older than the one that the client has seen; otherwise, and without memory, the old pin stays.
pub(crate) fn pin_seen<R: Wait, P, V: Versions<P>>(
    rt: &R,
    alloc: Global,
    versions: &mut V,
    press: &P,
    pin: &mut Pin<Version>,
    seen: u64,
    close: bool,
) -> Result<Turned, Memory>
    requires { IsPin (V.seen versions.old).history pin.old }
    ensures turned { IfOk result (λ t. (body : List ℕ)
        → IsTurned (V.seen versions.old) (V.seen versions.new) pin.old.number pin.new.number (RouteAsked (PinSeenRoute seen) body) close t) }
    ensures pin { IsPin (V.seen versions.new).history pin.new }
    ensures kept { OnErr result (pin.new ≡ pin.old) }
    ensures continues { Continues (V.seen versions.old) (V.seen versions.new) }
    ensures counts { CountsTurn (V.seen versions.old) (V.seen versions.new) result }
    ensures told { CountsTold (V.seen versions.old) (V.seen versions.new) result }
{
    match seek(rt, alloc, versions, press, seen)? {
        Sought::Found(fresh) => {
            let number = fresh.number;
            let answer = plain(200, numbered_line(alloc, b"pin", number)?);
            let reply = sent(alloc, answer, number, close)?;
            *pin = fresh;
            Ok(Turned {
                number,
                row: Row::SeenPinned,
                reply,
            })
        }
        Sought::Behind(newest) => {
            let answer = plain(409, numbered_line(alloc, b"behind", newest)?);
            Ok(Turned {
                number: newest,
                row: Row::Behind,
                reply: sent(alloc, answer, pin.number, close)?,
            })
        }
    }
}

/// Answers from the version that is pinned.
pub(crate) fn read(
    alloc: Global,
    pin: &Pin<Version>,
    kept: &mut KeptTexts,
    asked: Route,
    close: bool,
) -> Result<Turned, Memory>
    requires { Reads asked }
    ensures turned { IfOk result (λ t. (body : List ℕ) (seen : Seen) → IsPin seen.history pin.now → AreKept seen.history kept.old
        → IsTurned seen seen pin.now.number pin.now.number (RouteAsked asked body) close t) }
    ensures row { IfOk result (λ t. t.row ≡ RowRead) }
    ensures texts { (history : List BaseMap) → IsPin history pin.now → AreKept history kept.old → AreKept history kept.new }
{
    let reply = pinned_reply(alloc, pin, kept, asked, close)?;
    Ok(Turned {
        number: pin.number,
        row: Row::Read,
        reply,
    })
}

/// Answers a head at fault. The connection ends after the reply.
pub(crate) fn refuse_head(alloc: Global, pin: &Pin<Version>, status: u16) -> Result<Turned, Memory>
    ensures turned { IfOk result (λ t. (seen : Seen) → IsPin seen.history pin.now
        → IsTurned seen seen pin.now.number pin.now.number (FaultyHead status) true t) }
    ensures row { IfOk result (λ t. t.row ≡ RowRead) }
{
    let answer = fault_answer(alloc, status)?;
    Ok(Turned {
        number: pin.number,
        row: Row::Read,
        reply: sent(alloc, answer, pin.number, true)?,
    })
}

/// The bytes of a body of this size, behind a head of that size.
fn body_of(held: &[u8], head: usize, body: usize) -> &[u8]
    requires { head + body ≤ length held.now }
    ensures { result.now ≡ take body (drop head held.now) }
{
    &held[head..head + body]
}

/// Answers the request that the bytes that are held begin with. They stay.
pub(crate) fn answer<R: Threads + Wait + Sync, P, V: Versions<P>>(
    rt: &R,
    versions: &mut V,
    press: &P,
    pin: &mut Pin<Version>,
    fittings: &mut Fittings,
    due: Due,
) -> Result<Turned, Memory>
    requires pin { IsPin (V.seen versions.old).history pin.old }
    requires sizes { due.request.head + due.request.body ≤ length fittings.old.room }
    requires texts { AreKept (V.seen versions.old).history fittings.old.kept }
    ensures turned { IfOk result (IsTurned (V.seen versions.old) (V.seen versions.new) pin.old.number pin.new.number
        (RouteAsked due.request.asked (take due.request.body (drop due.request.head fittings.old.room))) due.ends) }
    ensures pin { IsPin (V.seen versions.new).history pin.new }
    ensures kept { OnErr result (pin.new ≡ pin.old) }
    ensures continues { Continues (V.seen versions.old) (V.seen versions.new) }
    ensures counts { CountsTurn (V.seen versions.old) (V.seen versions.new) result }
    ensures told { CountsTold (V.seen versions.old) (V.seen versions.new) result }
    ensures texts { AreKept (V.seen versions.new).history fittings.new.kept }
    ensures room { fittings.new.room ≡ fittings.old.room }
{
    let Due { request, ends } = due;
    let alloc = fittings.alloc;
    match request.asked {
        Route::Pin => pin_newest(alloc, versions, pin, ends),
        Route::PinSeen(seen) => pin_seen(rt, alloc, versions, press, pin, seen, ends),
        Route::Edit => {
            let batch = body_of(fittings.room.bytes(), request.head, request.body);
            edit(rt, alloc, versions, press, pin, batch, ends)
        }
        reading => read(alloc, pin, &mut fittings.kept, reading, ends),
    }
}
