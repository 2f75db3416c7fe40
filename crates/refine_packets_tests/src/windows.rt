//! Packets of a window of one step beside their numbers.

use crate::maps::{Row, TWO_SQUARES, TWO_TRIANGLES, built_map};
use crate::numbers::window_numbers_of;
use refine_packets::{PacketFail, window_packet};
use std::alloc::{AllocError, Global};
use std::process::Abort;
use std::test::Fail;
use std::thread::Threads;
use tgap_model::{Window, WindowPacket};

/// The packet of a window from step 1 to step 0 of a map of two faces.
fn packet_in<R: Threads + Sync>(
    rt: &R,
    alloc: Global,
    ratio: u32,
    rows: &[Row],
    area: Window,
) -> Result<WindowPacket, PacketFail> {
    match built_map(rt, alloc, ratio, &[0, 0], rows) {
        Ok(Some(built)) => window_packet(alloc, &built, 1, 0, area),
        _ => Err(PacketFail::Memory),
    }
}

/// Compares the numbers of a packet.
fn assert_numbers(
    rt: &impl Abort,
    alloc: Global,
    packet: &WindowPacket,
    expected: &[i128],
) -> Result<(), AllocError> {
    let numbers = window_numbers_of(alloc, packet)?;
    assert_eq!(rt; numbers.as_slice(), expected);
    Ok(())
}

/// One of the two pieces of the edge is in the window, so the winner alone has a row.
#[test]
fn a_piece_beside_the_window(rt: HostRuntime) -> Result<(), Fail> {
    let area = Window {
        x0: 12,
        y0: 2,
        x1: 30,
        y1: 4,
    };
    let expected = [
        1, 0, 12, 2, 30, 4, // from, to, and the window
        1, 1, 2, 3, 1, 1, 0, // step 1
        2, 0, // a face
        0, 1, 2, 3, 10, 0, 0, 3, 1, 0, 1, 6, 2, 0, // a mend
    ];
    match packet_in(&rt, rt.alloc(), 16, &TWO_SQUARES, area) {
        Ok(packet) => Ok(assert_numbers(&rt, rt.alloc(), &packet, &expected)?),
        Err(_) => Err(Fail::new("no packet")),
    }
}

/// Nothing is in the window until a vertex comes back, and with it an edge.
#[test]
fn a_vertex_that_comes_back(rt: HostRuntime) -> Result<(), Fail> {
    let area = Window {
        x0: 0,
        y0: 8,
        x1: 2,
        y1: 12,
    };
    let expected = [
        1, 0, 0, 8, 2, 12, // from, to, and the window
        1, 1, 2, 3, 1, 0, 1, // step 1
        2, 0, // a face
        1, 2, 0, 3, 6, 6, 0, 12, 0, 0, // the edge that comes
    ];
    match packet_in(&rt, rt.alloc(), 1, &TWO_TRIANGLES, area) {
        Ok(packet) => Ok(assert_numbers(&rt, rt.alloc(), &packet, &expected)?),
        Err(_) => Err(Fail::new("no packet")),
    }
}
