//! Texts of packets.

use crate::maps::{FOUR_SQUARES, built_map};
use built_text::packet_text_at;
use refine_packets::PacketFail;
use std::alloc::Global;
use std::test::Fail;
use std::thread::Threads;
use tgap_model::Text;

/// The text of a packet of four squares.
fn text_of<R: Threads + Sync>(
    rt: &R,
    alloc: Global,
    from: u32,
    to: u32,
) -> Result<Text, PacketFail> {
    match built_map(rt, alloc, 0, &[0, 0, 0, 0], &FOUR_SQUARES) {
        Ok(Some(built)) => packet_text_at(alloc, &built, from, to),
        _ => Err(PacketFail::Memory),
    }
}

#[test]
fn the_first_step(rt: HostRuntime) -> Result<(), Fail> {
    let packet = text_of(&rt, rt.alloc(), 1, 0).ok().ok_or("no text")?;
    let rows = "packet 1 0\nstep 1 1 0 2 0 5 2 1\nmend 0 0 2\npiece 0 2 1 0\npiece 1 4 2 0\n\
                mend 7 0 1\npiece 7 1 1 0\nedge 4 1 2 2 10 0 10 10\nend\n";
    assert_eq!(rt; packet.as_slice(), rows.as_bytes());
    Ok(())
}
