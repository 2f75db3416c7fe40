//! Texts that are read, and written again.

use crate::maps::{empty, two_squares};
use std::alloc::Global;
use std::test::Fail;
use tgap_model::{Packet, Slice, Text};
use wire_text::{packet_text, read_packet, read_slice, slice_text};

/// The text of the slice that a text is read as.
fn rewritten_slice(alloc: Global, text: &[u8]) -> Result<Text, Fail> {
    let slice = read_slice(alloc, text)?;
    Ok(slice_text(alloc, &slice)?)
}

/// Whether the text of a slice is read as a slice of the same text.
fn is_read_again(alloc: Global, slice: &Slice) -> Result<bool, Fail> {
    let text = slice_text(alloc, slice)?;
    let again = rewritten_slice(alloc, text.as_slice())?;
    Ok(again.as_slice() == text.as_slice())
}

#[test]
fn an_empty_slice_is_read(rt: HostRuntime) -> Result<(), Fail> {
    let slice = empty(rt.alloc(), 4_294_967_295);
    assert!(rt; is_read_again(rt.alloc(), &slice)?);
    Ok(())
}

#[test]
fn a_slice_is_read(rt: HostRuntime) -> Result<(), Fail> {
    let slice = two_squares(rt.alloc())?;
    assert!(rt; is_read_again(rt.alloc(), &slice)?);
    Ok(())
}

/// The text of the packet that a text is read as.
fn rewritten_packet(alloc: Global, text: &[u8]) -> Result<Text, Fail> {
    let packet: Packet = read_packet(alloc, text)?;
    Ok(packet_text(alloc, &packet)?)
}

#[test]
fn packets_are_read(rt: HostRuntime) -> Result<(), Fail> {
    for text in [
        "packet 7 7\nend\n",
        "packet 1 0\nstep 1 1 4 2 5 3 1 1\nmend 0 1 2\nput 1 0 10\npiece 0 2 6 0\npiece 1 4 7 1\n\
         edge 2 1 2 2 10 0 10 10\nend\n",
        "packet 3 1\nstep 3 1 4 2 5 3 0 0\nstep 2 1 4 2 5 3 0 0\nend\n",
    ] {
        let again = rewritten_packet(rt.alloc(), text.as_bytes())?;
        assert_eq!(rt; again.as_slice(), text.as_bytes());
    }
    Ok(())
}
