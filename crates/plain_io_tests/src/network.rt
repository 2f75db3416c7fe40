//! Links, doors and harbours of the network, over loopback.

use crate::links::tell_take;
use plain_io::{
    Arrival, ConnectionEnd, Door, EndKind, Failed, Harbour, Link, TcpDoor, TcpHarbour, TcpLink,
};
use std::alloc::Global;
use std::io::{Read, Write};
use std::net::{Shutdown, TcpListener, TcpStream};
use std::test::Fail;
use tgap_model::{List, Memory, Text};

/// What one take from a link gives.
fn told_by_take<L: Link>(alloc: Global, link: &mut L) -> Result<Text, Memory> {
    let mut told = Text::new(alloc);
    tell_take(link, &mut told)?;
    Ok(told)
}

/// What one read from a stream gives.
fn told_by_read<S: Read>(alloc: Global, stream: &mut S) -> Result<Text, Fail> {
    let mut buf = [0u8; 8];
    let count = stream.read(&mut buf)?;
    Ok(Text::from_slice(alloc, &buf[..count])?)
}

/// A link and its peer.
fn linked(rt: &HostRuntime) -> Result<(TcpLink, TcpStream), Fail> {
    let listener = TcpListener::bind(rt, "127.0.0.1:0")?;
    let peer = TcpStream::connect(rt, listener.local_addr()?)?;
    let (stream, _) = listener.accept()?;
    Ok((TcpLink::new(stream)?, peer))
}

/// What a link takes after its peer has written.
fn told_by_link(rt: &HostRuntime) -> Result<Text, Fail> {
    let (mut link, mut peer) = linked(rt)?;
    peer.write(b"ab")?;
    Ok(told_by_take(rt.alloc(), &mut link)?)
}

/// What a peer reads after a put to its link.
fn told_by_peer(rt: &HostRuntime) -> Result<Text, Fail> {
    let (mut link, mut peer) = linked(rt)?;
    link.put(b"cde")?;
    told_by_read(rt.alloc(), &mut peer)
}

#[test]
fn a_link_over_the_network(rt: HostRuntime) -> Result<(), Fail> {
    assert_eq!(rt; told_by_link(&rt)?.as_slice(), b"ab|".as_slice());
    assert_eq!(rt; told_by_peer(&rt)?.as_slice(), b"cde".as_slice());
    Ok(())
}

/// Whether one of a thousand puts fails.
fn fails_in_the_end<L: Link>(link: &mut L) -> bool {
    for _ in 0..1000u64 {
        if link.put(b"f") == Err(Failed) {
            return true;
        }
    }
    false
}

/// Whether a link whose peer is gone gives nothing, and refuses what is put in the end: the peer answers the first of the
/// puts with a reset.
fn has_ended<L: Link>(link: &mut L) -> bool {
    link.take(&mut [0u8; 8]) == Ok(0) && fails_in_the_end(link)
}

/// The program goes on where a peer is gone.
#[test]
fn a_link_whose_peer_is_gone(rt: HostRuntime) -> Result<(), Fail> {
    let (mut link, peer) = linked(&rt)?;
    drop(peer);
    assert!(rt; has_ended(&mut link));
    Ok(())
}

/// The link that comes through a door.
fn coming<D: Door>(door: &mut D) -> Result<D::Line, Fail> {
    match door.next() {
        Arrival::Came(link) => Ok(link),
        _ => Err(Fail::from("no link came")),
    }
}

/// What the link that comes through a door gives first.
fn told_by_door<D: Door>(alloc: Global, door: &mut D) -> Result<Text, Fail> {
    let mut link = coming(door)?;
    Ok(told_by_take(alloc, &mut link)?)
}

/// The same, where a peer writes two bytes, and how many calls of the door failed.
fn told_by_network_door(rt: &HostRuntime) -> Result<(Text, u64), Fail> {
    let mut door = TcpDoor::new(TcpListener::bind(rt, "127.0.0.1:0")?, rt);
    let mut peer = TcpStream::connect(rt, ("127.0.0.1", door.port()?))?;
    peer.write(b"ab")?;
    let told = told_by_door(rt.alloc(), &mut door)?;
    Ok((told, door.faults()))
}

#[test]
fn a_door_over_the_network(rt: HostRuntime) -> Result<(), Fail> {
    let (told, faults) = told_by_network_door(&rt)?;
    assert_eq!(rt; (told.as_slice(), faults), (b"ab|".as_slice(), 0));
    Ok(())
}

/// Puts a last reply to the link that comes through a door, and hands it back.
fn refuse(alloc: Global, door: &mut TcpDoor<'_, HostRuntime>) -> Result<(), Fail> {
    let Arrival::Came(mut link) = door.next() else {
        return Err(Fail::from("no link came"));
    };
    link.put(b"no")?;
    door.done(
        link,
        ConnectionEnd {
            how: EndKind::BadHead,
            first: 0,
            last: 0,
            numbers: List::new(alloc),
            rows: List::new(alloc),
        },
    );
    Ok(())
}

/// What two reads from a stream give.
fn told_by_reads<S: Read>(alloc: Global, stream: &mut S) -> Result<Text, Fail> {
    let mut told = told_by_read(alloc, stream)?;
    told.push_slice(b"|")?;
    told.push_slice(told_by_read(alloc, stream)?.as_slice())?;
    Ok(told)
}

/// What a peer reads that is refused though it wrote three bytes.
fn told_to_refused(rt: &HostRuntime) -> Result<Text, Fail> {
    let mut door = TcpDoor::new(TcpListener::bind(rt, "127.0.0.1:0")?, rt);
    let mut peer = TcpStream::connect(rt, ("127.0.0.1", door.port()?))?;
    peer.write(b"abc")?;
    peer.shutdown(Shutdown::Write)?;
    refuse(rt.alloc(), &mut door)?;
    told_by_reads(rt.alloc(), &mut peer)
}

/// The reply comes, and then the end and no reset.
#[test]
fn the_last_reply_comes_though_bytes_are_unread(rt: HostRuntime) -> Result<(), Fail> {
    assert_eq!(rt; told_to_refused(&rt)?.as_slice(), b"no|".as_slice());
    Ok(())
}

/// Whether a client at this port comes through a door, and what is put to it is sent.
fn is_open<D: Door>(rt: &HostRuntime, door: &mut D, port: u16) -> Result<bool, Fail> {
    let _peer = TcpStream::connect(rt, ("127.0.0.1", port))?;
    let mut link = coming(door)?;
    link.put(b"ab")?;
    Ok(door.faults() == 0)
}

/// Whether each of two doors of a harbour, which are given back then, is reached at the same port.
fn has_two_doors(
    rt: &HostRuntime,
    harbour: &mut TcpHarbour<'_, HostRuntime>,
) -> Result<bool, Fail> {
    let mut doors = harbour.doors(rt.alloc(), 0, 2)?;
    let mut is_right = doors.len() == 2;
    let port = doors[0].port()?;
    for _ in 0..2u64 {
        if let Some(mut door) = doors.pop() {
            is_right = is_open(rt, &mut door, port)? && is_right;
            harbour.back(door);
        }
    }
    Ok(is_right)
}

#[test]
fn a_harbour_of_the_network(rt: HostRuntime) -> Result<(), Fail> {
    let mut harbour = TcpHarbour::new(&rt);
    assert!(rt; has_two_doors(&rt, &mut harbour)?);
    Ok(())
}
