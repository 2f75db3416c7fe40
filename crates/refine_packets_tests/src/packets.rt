//! A packet of three steps beside its numbers.

use crate::maps::{FOUR_SQUARES, built_map};
use crate::numbers::numbers_of;
use refine_packets::{PacketFail, packet};
use std::alloc::{AllocError, Global};
use std::process::Abort;
use std::test::Fail;
use std::thread::Threads;
use tgap_model::Packet;

/// The packet of the four squares from one step to another.
fn packet_of<R: Threads + Sync>(
    rt: &R,
    alloc: Global,
    from: u32,
    to: u32,
) -> Result<Packet, PacketFail> {
    match built_map(rt, alloc, 0, &[0, 0, 0, 0], &FOUR_SQUARES) {
        Ok(Some(built)) => packet(alloc, &built, from, to),
        _ => Err(PacketFail::Memory),
    }
}

/// Compares the numbers of the packet from step 3 to step 0.
fn assert_three_steps(rt: &impl Abort, alloc: Global, packet: &Packet) -> Result<(), AllocError> {
    let numbers = numbers_of(alloc, packet)?;
    let expected = [
        3, 0, // from, to
        3, 5, 0, 6, 0, 7, 1, 1, // step 3
        0, 0, 2, 2, 4, 6, 0, 0, 8, 5, 0, // a mend
        5, 5, 6, 3, 20, 10, 10, 10, 0, 10, // the edge that ended
        2, 3, 0, 4, 0, 6, 2, 1, // step 2
        2, 0, 2, 2, 2, 4, 0, 3, 4, 3, 0, // two mends
        5, 0, 2, 5, 1, 4, 0, 7, 2, 3, 1, //
        6, 4, 3, 2, 10, 20, 10, 10, // the edge that ended
        1, 1, 0, 2, 0, 5, 2, 1, // step 1
        0, 0, 2, 0, 2, 1, 0, 1, 4, 2, 0, // two mends
        7, 0, 1, 7, 1, 1, 0, //
        4, 1, 2, 2, 10, 0, 10, 10, // the edge that ended
    ];
    assert_eq!(rt; numbers.as_slice(), expected.as_slice());
    Ok(())
}

#[test]
fn three_steps(rt: HostRuntime) -> Result<(), Fail> {
    match packet_of(&rt, rt.alloc(), 3, 0) {
        Ok(packet) => Ok(assert_three_steps(&rt, rt.alloc(), &packet)?),
        Err(_) => Err(Fail::new("no packet")),
    }
}
