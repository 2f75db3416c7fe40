//! What clients get over their links.

ghost use Rattle.std.specs.Prelude.{◌<◌, IfOk};
ghost use Rattle.plain_io.specs.Links.{IsNew};

use crate::served::served;
use plain_io::{EndKind, FailingCalls, Link, MemoryDoor, MemoryHarbour, MemoryLink};
use std::alloc::Global;
use std::sync::Wait;
use std::test::Fail;
use std::thread::Threads;
use tgap_model::{List, Memory, Text};

pub const INFO: &[u8] = b"GET /info HTTP/1.1\r\nHost: t\r\n\r\n";

pub const INFO_REPLY: &str =
    "HTTP/1.1 200 OK\r\nContent-Type: text/plain\r\nTgap-Version: 0\r\nContent-Length: 43\r\n\r\nversion 0 steps 1 faces 2 arcs 3 points 10\n";

/// No call fails.
pub fn none(alloc: Global) -> FailingCalls {
    FailingCalls {
        takes: List::new(alloc),
        puts: List::new(alloc),
    }
}

/// A link over which these bytes come, at most `step` of them at once. The listed calls fail.
pub fn link_of(
    alloc: Global,
    input: &[u8],
    step: usize,
    failing: FailingCalls,
) -> Result<MemoryLink, Memory>
    requires { 0 < step }
    ensures { IfOk result (λ l. IsNew (⟦<MemoryLink as Link>⟧.taken l) (⟦<MemoryLink as Link>⟧.told l) (⟦<MemoryLink as Link>⟧.take_faults l) (⟦<MemoryLink as Link>⟧.put_faults l) (⟦<MemoryLink as Link>⟧.ended l)) }
{
    MemoryLink::new(
        alloc,
        Text::from_slice(alloc, input)?,
        step,
        10_000,
        failing,
    )
}

/// A harbour with one door, through which this link comes. The listed calls of the door fail.
pub fn harbour_of(
    alloc: Global,
    link: MemoryLink,
    failing: List<u64>,
) -> Result<MemoryHarbour<MemoryLink>, Memory>
    requires { IsNew (⟦<MemoryLink as Link>⟧.taken link) (⟦<MemoryLink as Link>⟧.told link) (⟦<MemoryLink as Link>⟧.take_faults link) (⟦<MemoryLink as Link>⟧.put_faults link) (⟦<MemoryLink as Link>⟧.ended link) }
{
    let mut links = List::new(alloc);
    links.push(link)?;
    let mut doors = List::new(alloc);
    doors.push(MemoryDoor::new(alloc, links, failing)?)?;
    Ok(MemoryHarbour::new(alloc, doors, List::new(alloc)))
}

/// Serves at a harbour, and gives the bytes that were put to its only link and how the connection ended.
fn put_and_end<R: Threads + Wait + Sync>(
    rt: &R,
    alloc: Global,
    harbour: &mut MemoryHarbour<MemoryLink>,
) -> Result<(Text, EndKind), Fail> {
    served(rt, alloc, "serve map 8080 1 1", harbour)?;
    let door = harbour.came_back().first().ok_or("no door came back")?;
    let (link, end) = door.handed_back().first().ok_or("no link came back")?;
    Ok((Text::from_slice(alloc, link.bytes())?, end.how))
}

/// What a client gets that sends these bytes, at most `step` of them at once, where the listed calls fail, and how its connection ends.
pub fn exchange<R: Threads + Wait + Sync>(
    rt: &R,
    alloc: Global,
    input: &[u8],
    step: usize,
    failing: FailingCalls,
) -> Result<(Text, EndKind), Fail>
    requires { 0 < step }
{
    let link = link_of(alloc, input, step, failing)?;
    let mut harbour = harbour_of(alloc, link, List::new(alloc))?;
    put_and_end(rt, alloc, &mut harbour)
}

/// Whether a client that sends these bytes gets those, and its connection ends so.
fn gets<R: Threads + Wait + Sync>(
    rt: &R,
    alloc: Global,
    sent: &[u8],
    wanted: &[u8],
    how: EndKind,
) -> Result<bool, Fail> {
    let (put, found) = exchange(rt, alloc, sent, 7, none(alloc))?;
    Ok(put.as_slice() == wanted && found == how)
}

#[test]
fn ends_of_connections(rt: HostRuntime) -> Result<(), Fail> {
    let alloc = rt.alloc();
    let bad =
        b"HTTP/1.1 400 Bad Request\r\nContent-Type: text/plain\r\nTgap-Version: 0\r\nConnection: close\r\nContent-Length: 12\r\n\r\nbad request\n";
    assert!(rt; gets(&rt, alloc, INFO, INFO_REPLY.as_bytes(), EndKind::Closed)?);
    assert!(rt; gets(&rt, alloc, b"GET /info HTT", b"", EndKind::CutShort)?);
    assert!(rt; gets(&rt, alloc, b"GET\n/ HTTP/1.1", bad, EndKind::BadHead)?);
    Ok(())
}
