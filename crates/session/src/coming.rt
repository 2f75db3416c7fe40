//! What comes next on a connection.

ghost use Rattle.std.specs.Prelude.{◌≡◌, ◌≤◌, ◌+◌, false};
ghost use Rattle.session.specs.Reading.{Received};
ghost use Rattle.session.specs.Coming.{BeginsHead, IsComing, HasRoom, IsArrival, is_end, CountsArrival};
ghost use Rattle.session.specs.declared.room.TheConstants.{ROOM};

use crate::room::Room;
use http_face::{HeadAsks, Route, Routes, head_asks};
use plain_io::Link;

/// A request at the front of the bytes that are held: the sizes of its head and of its body, whether it asks to close
/// the connection, and what it asks for.
#[derive(Clone, Copy)]
pub(crate) struct NextRequest {
    pub head: usize,
    pub body: usize,
    pub close: bool,
    pub asked: Route,
}

/// A request that is to be answered, and whether the connection ends after the reply.
#[derive(Clone, Copy)]
pub(crate) struct Due {
    pub request: NextRequest,
    pub ends: bool,
}

/// What the bytes that are held begin with.
#[derive(Clone, Copy)]
pub(crate) enum Coming {
    /// A whole and good head, with what it announces. Its body may still be coming.
    Head(NextRequest),
    /// A head at fault, with the status of the reply.
    Fault { status: u16 },
    /// Less than a head.
    Part,
}

/// What comes next on a connection.
#[derive(Clone, Copy)]
pub(crate) enum Arrival {
    /// A request.
    Request(NextRequest),
    /// A head at fault, with the status of the reply.
    Fault { status: u16 },
    /// Nothing: the input is at its end.
    End,
    /// Nothing: the input failed.
    Failed,
}

/// What the bytes begin with.
fn look(routes: &Routes, held: &[u8]) -> Coming
    ensures exact { IsComing held.now result }
    ensures room { HasRoom held.now result }
{
    match head_asks(routes, held) {
        HeadAsks::Whole {
            length,
            body,
            close,
            asked,
        } => Coming::Head(NextRequest {
            head: length as usize,
            body: body as usize,
            close,
            asked,
        }),
        HeadAsks::More => Coming::Part,
        HeadAsks::Bad { status } => Coming::Fault { status },
    }
}

/// Takes bytes from the link until the body is whole that stands behind a head. The head is not read again.
fn await_body<L: Link>(link: &mut L, room: &mut Room, request: NextRequest) -> Arrival
    requires open { L.ended link.old ≡ false }
    requires head { BeginsHead room.old request }
    requires size { request.head + request.body ≤ ROOM }
    ensures bytes { Received (L.taken link.old) (L.taken link.new) room.old room.new }
    ensures exact { IsArrival room.new result }
    ensures end { L.ended link.new ≡ is_end result }
    ensures faults { CountsArrival result (L.take_faults link.old) (L.take_faults link.new) }
    ensures told { L.told link.new ≡ L.told link.old }
    ensures put_faults { L.put_faults link.new ≡ L.put_faults link.old }
{
    let size = request.head + request.body;
    'awaiting: while room.bytes().len() < size {
        match room.fill(link) {
            Ok(0) => return Arrival::End,
            Ok(_) => {}
            Err(_) => return Arrival::Failed,
        }
    }
    Arrival::Request(request)
}

/// Takes bytes from the link until it is known what comes next.
pub(crate) fn next_item<L: Link>(link: &mut L, routes: &Routes, room: &mut Room) -> Arrival
    requires { L.ended link.old ≡ false }
    ensures bytes { Received (L.taken link.old) (L.taken link.new) room.old room.new }
    ensures exact { IsArrival room.new result }
    ensures end { L.ended link.new ≡ is_end result }
    ensures faults { CountsArrival result (L.take_faults link.old) (L.take_faults link.new) }
    ensures told { L.told link.new ≡ L.told link.old }
    ensures put_faults { L.put_faults link.new ≡ L.put_faults link.old }
{
    'reading: loop {
        match look(routes, room.bytes()) {
            Coming::Head(request) => return await_body(link, room, request),
            Coming::Fault { status } => return Arrival::Fault { status },
            Coming::Part => {}
        }
        match room.fill(link) {
            Ok(0) => return Arrival::End,
            Ok(_) => {}
            Err(_) => return Arrival::Failed,
        }
    }
}
