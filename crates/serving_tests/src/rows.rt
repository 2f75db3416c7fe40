//! A row of requests on one link, of which each call fails in turn.

ghost use Rattle.std.specs.Prelude.{◌<◌};

use crate::links::{INFO, exchange, none};
use plain_io::{EndKind, FailingCalls};
use std::alloc::Global;
use std::sync::Wait;
use std::test::Fail;
use std::thread::Threads;
use tgap_model::{Memory, Text};

/// The two squares as a topology.
const TOPOLOGY: &str =
    "{\"arcs\":[[[10,10],[-10,0],[0,-10],[10,0]],[[10,0],[10,0],[0,10],[-10,0]],[[10,0],[0,10]]],\"objects\":{\"map\":{\"geometries\":[{\"arcs\":[[0,2]],\"properties\":{\"class\":0,\"face\":1},\"type\":\"Polygon\"},{\"arcs\":[[1,-3]],\"properties\":{\"class\":0,\"face\":2},\"type\":\"Polygon\"}],\"type\":\"GeometryCollection\"}},\"transform\":{\"scale\":[1,1],\"translate\":[0,0]},\"type\":\"Topology\"}";

/// Requests, each with the status and the body of its reply.
const SIX: &[(&str, &str, &str)] = &[
    (
        "GET /info",
        "200 OK",
        "version 0 steps 1 faces 2 arcs 3 points 10\n",
    ),
    ("GET /topo/0", "200 OK", TOPOLOGY),
    ("GET /slice/2", "400 Bad Request", "step too high 1\n"),
    ("GET /slice/01", "400 Bad Request", "bad number\n"),
    ("GET /nothing", "404 Not Found", "no route\n"),
    ("POST /pin/9", "409 Conflict", "behind 0\n"),
];

/// A request that is whole.
fn request(alloc: Global, line: &str) -> Result<String, Memory> {
    Ok(format!(in alloc; "{line} HTTP/1.1\r\nHost: t\r\n\r\n")?)
}

/// The bytes of a reply.
fn reply(alloc: Global, status: &str, body: &str) -> Result<String, Memory> {
    Ok(format!(in alloc;
        "HTTP/1.1 {status}\r\nContent-Type: text/plain\r\nTgap-Version: 0\r\nContent-Length: {}\r\n\r\n{body}",
        body.len()
    )?)
}

/// All requests in a row.
fn requests(alloc: Global) -> Result<String, Memory> {
    let mut sent = String::new(alloc);
    for (line, _, _) in SIX {
        sent.push_str(request(alloc, line)?.as_str())?;
    }
    Ok(sent)
}

/// The replies to the requests that are whole within so many bytes.
fn replies_within(alloc: Global, size: usize) -> Result<String, Memory> {
    let mut wanted = String::new(alloc);
    let mut end = 0usize;
    for (line, status, body) in SIX {
        end = end.saturating_add(request(alloc, line)?.len());
        if end <= size {
            wanted.push_str(reply(alloc, status, body)?.as_str())?;
        }
    }
    Ok(wanted)
}

/// What a client gets that sends all requests, where the listed calls fail, and how its connection ends.
fn exchange_all<R: Threads + Wait + Sync>(
    rt: &R,
    alloc: Global,
    step: usize,
    failing: FailingCalls,
) -> Result<(Text, EndKind), Fail>
    requires { 0 < step }
{
    let sent = requests(alloc)?;
    exchange(rt, alloc, sent.as_bytes(), step, failing)
}

fn failing_take(alloc: Global, take: u64) -> Result<FailingCalls, Memory> {
    let mut failing = none(alloc);
    failing.takes.push(take)?;
    Ok(failing)
}

fn failing_put(alloc: Global, put: u64) -> Result<FailingCalls, Memory> {
    let mut failing = none(alloc);
    failing.puts.push(put)?;
    Ok(failing)
}

/// Whether a client whose take of this number fails gets the replies to what came before.
fn is_right_where_a_take_fails<R: Threads + Wait + Sync>(
    rt: &R,
    alloc: Global,
    take: usize,
    how: EndKind,
) -> Result<bool, Fail> {
    let failing = failing_take(alloc, take as u64)?;
    let (put, found) = exchange_all(rt, alloc, INFO.len(), failing)?;
    let wanted = replies_within(alloc, take.saturating_mul(INFO.len()))?;
    Ok(put.as_slice() == wanted.as_bytes() && found == how)
}

/// The last take finds the end of the input, and no other one follows.
#[test]
fn each_take_that_fails(rt: HostRuntime) -> Result<(), Fail> {
    let takes = requests(rt.alloc())?
        .len()
        .div_ceil(INFO.len())
        .saturating_add(1);
    for take in 0..takes {
        assert!(rt;
            is_right_where_a_take_fails(&rt, rt.alloc(), take, EndKind::ReadFault)?,
            "{take}"
        );
    }
    assert!(rt; is_right_where_a_take_fails(&rt, rt.alloc(), takes, EndKind::Closed)?);
    Ok(())
}

/// Whether what came is a front of the replies, and whether it is all of them.
fn is_front_and_all(alloc: Global, came: &[u8]) -> Result<(bool, bool), Memory> {
    let wanted = replies_within(alloc, usize::MAX)?;
    Ok((
        wanted.as_bytes().starts_with(came),
        came == wanted.as_bytes(),
    ))
}

/// What a client gets whose put of this number fails: how its connection ends, whether a front of the replies came, and
/// whether all of them did.
fn told_where_a_put_fails<R: Threads + Wait + Sync>(
    rt: &R,
    alloc: Global,
    put: u64,
) -> Result<(EndKind, bool, bool), Fail> {
    let failing = failing_put(alloc, put)?;
    let (came, how) = exchange_all(rt, alloc, 1000, failing)?;
    let (is_front, is_all) = is_front_and_all(alloc, came.as_slice())?;
    Ok((how, is_front, is_all))
}

/// Each reply is one put.
#[test]
fn each_put_that_fails(rt: HostRuntime) -> Result<(), Fail> {
    for put in 0..6u64 {
        let told = told_where_a_put_fails(&rt, rt.alloc(), put)?;
        assert_eq!(rt; told, (EndKind::WriteFault, true, false));
    }
    let told = told_where_a_put_fails(&rt, rt.alloc(), 6)?;
    assert_eq!(rt; told, (EndKind::Closed, true, true));
    Ok(())
}
