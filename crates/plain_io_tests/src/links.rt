//! Links in memory: input step by step, pieces that wait for another link, calls that fail.

use crate::doors::numbers;
use plain_io::{FailingCalls, Flag, HeldLink, Link, MemoryLink};
use std::alloc::Global;
use std::test::Fail;
use tgap_model::{Memory, Text};

/// Takes from a link, and tells the bytes that came, or that the take failed.
pub fn tell_take<L: Link>(link: &mut L, told: &mut Text) -> Result<(), Memory> {
    let mut buf = [0u8; 8];
    match link.take(&mut buf) {
        Ok(count) => told.push_slice(&buf[..count])?,
        Err(_) => told.push_slice(b"no take")?,
    }
    told.push_slice(b"|")
}

/// Puts to a link, and tells where the put failed.
fn tell_put<L: Link>(link: &mut L, bytes: &[u8], told: &mut Text) -> Result<(), Memory> {
    match link.put(bytes) {
        Ok(()) => told.push_slice(b"put|"),
        Err(_) => told.push_slice(b"no put|"),
    }
}

/// A link that gives three bytes at once and has room for four. Its second take and its second put fail.
fn memory_link(alloc: Global) -> Result<MemoryLink, Memory> {
    let failing = FailingCalls {
        takes: numbers(alloc, &[1])?,
        puts: numbers(alloc, &[1])?,
    };
    MemoryLink::new(alloc, Text::from_slice(alloc, b"abcde")?, 3, 4, failing)
}

/// What four takes from a link and four puts to it give, and what it keeps.
fn told_by_link(alloc: Global, link: &mut MemoryLink) -> Result<Text, Memory> {
    let mut told = Text::new(alloc);
    for _ in 0..4u64 {
        tell_take(link, &mut told)?;
    }
    for bytes in [b"xyz".as_slice(), b"u", b"uv", b"w"] {
        tell_put(link, bytes, &mut told)?;
    }
    told.push_slice(link.bytes())?;
    Ok(told)
}

/// The second put is listed, and for the third one there is no room.
#[test]
fn a_link_gives_its_input_step_by_step_and_keeps_what_is_put(rt: HostRuntime) -> Result<(), Fail> {
    let mut link = memory_link(rt.alloc())?;
    let told = told_by_link(rt.alloc(), &mut link)?;
    assert_eq!(rt;
        told.as_slice(),
        b"abc|no take|de||put|no put|no put|put|xyzw".as_slice()
    );
    Ok(())
}

/// A link with room for eight bytes whose next put raises this flag.
fn raising_link(alloc: Global, flag: Flag) -> Result<HeldLink, Memory> {
    let mut link = HeldLink::new(alloc, 8)?;
    link.add_flag(flag)?;
    Ok(link)
}

/// A link whose last piece waits for this flag.
fn waiting_link(alloc: Global, flag: Flag) -> Result<HeldLink, Memory> {
    let mut link = HeldLink::new(alloc, 8)?;
    link.add_piece(b"ab", None)?;
    link.add_piece(b"", None)?;
    link.add_piece(b"cde", Some(flag))?;
    Ok(link)
}

/// What a take from the second link, a put to the first one and two more takes give; and what comes of a put for which the
/// first one has no room, and what it keeps.
fn told_by_two(alloc: Global, first: &mut HeldLink, second: &mut HeldLink) -> Result<Text, Memory> {
    let mut told = Text::new(alloc);
    tell_take(second, &mut told)?;
    tell_put(first, b"x", &mut told)?;
    tell_take(second, &mut told)?;
    tell_take(second, &mut told)?;
    tell_put(first, b"12345678", &mut told)?;
    told.push_slice(first.bytes())?;
    Ok(told)
}

/// The same, where the last piece of the second link waits for a put to the first one.
fn told_by_held_links(alloc: Global) -> Result<Text, Memory> {
    let flag = Flag::new(alloc)?;
    let mut first = raising_link(alloc, flag.share()?)?;
    let mut second = waiting_link(alloc, flag)?;
    told_by_two(alloc, &mut first, &mut second)
}

#[test]
fn a_piece_waits_for_the_put_of_another_link(rt: HostRuntime) -> Result<(), Fail> {
    let told = told_by_held_links(rt.alloc())?;
    assert_eq!(rt; told.as_slice(), b"ab|put|cde||no put|x".as_slice());
    Ok(())
}

/// What two takes give, of which the second waits for a flag that nobody raises.
fn told_by_waiting_link(alloc: Global) -> Result<Text, Memory> {
    let mut link = waiting_link(alloc, Flag::new(alloc)?)?;
    let mut told = Text::new(alloc);
    tell_take(&mut link, &mut told)?;
    tell_take(&mut link, &mut told)?;
    Ok(told)
}

#[test]
fn a_piece_whose_flag_nobody_raises_fails(rt: HostRuntime) -> Result<(), Fail> {
    let told = told_by_waiting_link(rt.alloc())?;
    assert_eq!(rt; told.as_slice(), b"ab|no take|".as_slice());
    Ok(())
}
