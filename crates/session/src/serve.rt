//! The requests of a connection, one after the other.

ghost use Rattle.std.specs.Prelude.{◌≡◌, ◌<◌, ◌≤◌, ◌+◌, ◌-◌, ◌++◌, ◌∷◌, [], ◌||◌, ◌==◌, ℕ, Bool, true, false, List, length, take, drop, if◌then◌else◌};
ghost use Rattle.tgap_model.specs.Faults.{Rose};
ghost use Rattle.plain_io.specs.Puts.{Puts, CountsPut};
ghost use Rattle.plain_io.specs.declared.connection.EndKind.TheVariants as kind;
ghost use Rattle.session.specs.declared.serve.TheConstants.{MAX_REQUESTS};
ghost use Rattle.session.specs.Coming.{BeginsWith, BeginsAtFault};
ghost use Rattle.session.specs.Conversation.{Conversation, is_empty};
ghost use Rattle.session.specs.Keeping.{AreKept};
ghost use Rattle.session.specs.Outcomes.{place_of};
ghost use Rattle.session.specs.Progress.{Exchange};
ghost use Rattle.session.specs.Turns.{settled};
ghost use Rattle.session.specs.Versions.{Seen, IsPin};

use crate::coming::{Arrival, Due, next_item};
use crate::desk::Fittings;
use crate::log::Log;
use crate::room::Room;
use crate::row::Row;
use crate::talk::Talk;
use crate::turn::{Turned, answer, refuse_head};
use crate::versions::Versions;
use http_face::short_reply;
use plain_io::{EndKind, Failed, Link};
use std::alloc::Global;
use std::sync::Wait;
use std::thread::Threads;
use tgap_model::Memory;

/// How many requests of one connection are answered.
pub const MAX_REQUESTS: usize = 10_000;

/// The limit as a number: definitions read the constant, and would follow a wrong one.
pub fn limit_as_number()
    ensures { MAX_REQUESTS ≡ 10000 }
{}

/// The place of an outcome in the table.
pub(crate) fn place_of(row: Row) -> u8
    ensures { result ≡ place_of row }
{
    row as u8
}

/// Notes what became of an item, and puts the reply. Where there was no memory to answer it, the reply says so.
fn respond<L: Link>(
    link: &mut L,
    log: &mut Log,
    pin: u64,
    turned: Result<Turned, Memory>,
    close: bool,
) -> Result<(), Failed>
    requires { length log.old.numbers < MAX_REQUESTS }
    ensures numbers { log.new.numbers ≡ log.old.numbers ++ (settled pin close turned).number ∷ [] }
    ensures rows { log.new.rows ≡ log.old.rows ++ place_of (settled pin close turned).row ∷ [] }
    ensures put { Puts (L.told link.old) (L.told link.new) (settled pin close turned).reply result }
    ensures put_faults { CountsPut result (L.put_faults link.old) (L.put_faults link.new) }
    ensures taken { L.taken link.new ≡ L.taken link.old }
    ensures take_faults { L.take_faults link.new ≡ L.take_faults link.old }
    ensures end { L.ended link.new ≡ L.ended link.old }
{
    match turned {
        Ok(Turned { number, row, reply }) => {
            log.note(number, row);
            reply.put(link)
        }
        Err(_) => {
            log.note(pin, Row::NoMemory);
            link.put(short_reply(pin, close).bytes())
        }
    }
}

/// Whether the connection ends after the reply to the request of this number, from 1, which asks to close or not.
fn is_final(count: usize, close: bool) -> bool
    ensures { result ≡ (close || (count == MAX_REQUESTS)) }
{
    close || count == MAX_REQUESTS
}

/// Answers the request that the bytes that are held begin with, and passes over it. The reply says whether the connection ends.
fn serve_request<R: Threads + Wait + Sync, L: Link, P, V: Versions<P>>(
    rt: &R,
    link: &mut L,
    versions: &mut V,
    press: &P,
    talk: &mut Talk,
    fittings: &mut Fittings,
    due: Due,
) -> Result<(), Failed>
    requires pin { IsPin (V.seen versions.old).history talk.old.pin }
    requires log { length talk.old.log.numbers < MAX_REQUESTS }
    requires sizes { due.request.head + due.request.body ≤ length fittings.old.room }
    requires request { BeginsWith fittings.old.room due.request }
    requires texts { AreKept (V.seen versions.old).history fittings.old.kept }
    ensures exchange { Exchange (V.seen versions.old) (V.seen versions.new) talk.old.pin talk.new.pin fittings.old.room fittings.new.room
        talk.old.log talk.new.log (L.told link.old) (L.told link.new) false due.request.close due.ends result }
    ensures put_faults { CountsPut result (L.put_faults link.old) (L.put_faults link.new) }
    ensures taken { L.taken link.new ≡ L.taken link.old }
    ensures take_faults { L.take_faults link.new ≡ L.take_faults link.old }
    ensures end { L.ended link.new ≡ L.ended link.old }
    ensures texts { AreKept (V.seen versions.new).history fittings.new.kept }
{
    let turned = answer(rt, versions, press, &mut talk.pin, fittings, due);
    fittings.room.pass(due.request.head);
    fittings.room.pass(due.request.body);
    respond(link, &mut talk.log, talk.pin.number, turned, due.ends)
}

/// Answers the head at fault that the bytes that are held begin with.
fn serve_fault<L: Link>(
    alloc: Global,
    link: &mut L,
    talk: &mut Talk,
    status: u16,
) -> Result<(), Failed>
    requires log { length talk.old.log.numbers < MAX_REQUESTS }
    ensures exchange { (seen : Seen) (held : List ℕ) → IsPin seen.history talk.old.pin → BeginsAtFault held status
        → Exchange seen seen talk.old.pin talk.new.pin held held talk.old.log talk.new.log (L.told link.old) (L.told link.new) true true true result }
    ensures put_faults { CountsPut result (L.put_faults link.old) (L.put_faults link.new) }
    ensures taken { L.taken link.new ≡ L.taken link.old }
    ensures take_faults { L.take_faults link.new ≡ L.take_faults link.old }
    ensures end { L.ended link.new ≡ L.ended link.old }
{
    let turned = refuse_head(alloc, &talk.pin, status);
    respond(link, &mut talk.log, talk.pin.number, turned, true)
}

/// Serves the requests of a connection, each answered from the version that is pinned then, until it ends, and tells how it ended.
pub(crate) fn serve<R: Threads + Wait + Sync, L: Link, P, V: Versions<P>>(
    rt: &R,
    link: &mut L,
    versions: &mut V,
    press: &P,
    talk: &mut Talk,
    fittings: &mut Fittings,
) -> EndKind
    requires pin { IsPin (V.seen versions.old).history talk.old.pin }
    requires numbers { talk.old.log.numbers ≡ [] }
    requires rows { talk.old.log.rows ≡ [] }
    requires room { fittings.old.room ≡ [] }
    requires texts { AreKept (V.seen versions.old).history fittings.old.kept }
    requires open { L.ended link.old ≡ false }
    ensures conversation { Conversation (V.seen versions.old) (V.seen versions.new) (L.taken link.old) (L.taken link.new)
        (L.told link.old) (L.told link.new) (L.ended link.new)
        (record { how = result; first = talk.old.pin.number; last = talk.new.pin.number; numbers = talk.new.log.numbers; rows = talk.new.log.rows }) }
    ensures read_fault { result ≡ kind.ReadFault → Rose (L.take_faults link.old) (L.take_faults link.new) }
    ensures write_fault { result ≡ kind.WriteFault → Rose (L.put_faults link.old) (L.put_faults link.new) }
    ensures texts { AreKept (V.seen versions.new).history fittings.new.kept }
{
    for count in 0..MAX_REQUESTS {
        match next_item(link, &fittings.routes, &mut fittings.room) {
            Arrival::End => return ended(&fittings.room),
            Arrival::Failed => return EndKind::ReadFault,
            Arrival::Fault { status } => {
                return match serve_fault(fittings.alloc, link, talk, status) {
                    Ok(()) => EndKind::BadHead,
                    Err(_) => EndKind::WriteFault,
                };
            }
            Arrival::Request(request) => {
                let ends = is_final(count + 1, request.close);
                let due = Due { request, ends };
                let Ok(()) = serve_request(rt, link, versions, press, talk, fittings, due) else {
                    return EndKind::WriteFault;
                };
                if ends {
                    return if count + 1 == MAX_REQUESTS {
                        EndKind::Spent
                    } else {
                        EndKind::Closed
                    };
                }
            }
        }
    }
    EndKind::Spent
}

/// How a connection ends at the end of its input.
fn ended(room: &Room) -> EndKind
    ensures { result ≡ (if is_empty room.now then kind.Closed else kind.CutShort) }
{
    if room.bytes().is_empty() {
        EndKind::Closed
    } else {
        EndKind::CutShort
    }
}
