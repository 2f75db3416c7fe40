//! Each text that is put out beside its bytes.

use crate::maps::{border_rows, empty, triangle, two_squares, two_squares_parted};
use std::alloc::Global;
use std::test::Fail;
use tgap_model::{Base, List, Memory, Packet, Slice, Window};
use wire_text::{borders_text, ok_text, packet_text, slice_text, step_too_high_text, window_text};

#[test]
fn borders(rt: HostRuntime) -> Result<(), Fail> {
    let rows = border_rows(rt.alloc())?;
    assert_eq!(rt;
        borders_text(rt.alloc(), 7, &rows)?.as_slice(),
        b"borders 7\nborder 0 3 0\nborder 4 1 5\nend\n".as_slice()
    );
    Ok(())
}

/// Whether this is what is told of a base map that is sound.
fn is_ok_text(alloc: Global, base: &Base, text: &[u8]) -> Result<bool, Memory> {
    Ok(ok_text(alloc, base)?.as_slice() == text)
}

#[test]
fn a_sound_map(rt: HostRuntime) -> Result<(), Fail> {
    let base = triangle(rt.alloc())?;
    assert!(rt; is_ok_text(rt.alloc(), &base, b"ok faces 1 arcs 1 points 4\n")?);
    Ok(())
}

#[test]
fn a_step_that_is_too_high(rt: HostRuntime) -> Result<(), Fail> {
    assert_eq!(rt;
        step_too_high_text(rt.alloc(), 12)?.as_slice(),
        b"step too high 12\n".as_slice()
    );
    Ok(())
}

fn is_slice_text(alloc: Global, slice: &Slice, text: &str) -> Result<bool, Memory> {
    Ok(slice_text(alloc, slice)?.as_slice() == text.as_bytes())
}

#[test]
fn an_empty_slice(rt: HostRuntime) -> Result<(), Fail> {
    let slice = empty(rt.alloc(), 0);
    let text = "slice 0\nfaces 0\nedges 0\nend\n";
    assert!(rt; is_slice_text(rt.alloc(), &slice, text)?);
    Ok(())
}

#[test]
fn a_slice(rt: HostRuntime) -> Result<(), Fail> {
    let slice = two_squares(rt.alloc())?;
    let text = "slice 0\n\
         faces 2\n\
         face 1 0\n\
         face 2 0\n\
         edges 3\n\
         edge 0 1 0 4 10 10 0 10 0 0 10 0\n\
         edge 1 2 0 4 10 0 20 0 20 10 10 10\n\
         edge 2 1 2 2 10 0 10 10\n\
         end\n";
    assert!(rt; is_slice_text(rt.alloc(), &slice, text)?);
    Ok(())
}

fn is_window_text(alloc: Global, slice: &Slice, area: Window, text: &str) -> Result<bool, Memory> {
    Ok(window_text(alloc, slice, area)?.as_slice() == text.as_bytes())
}

#[test]
fn a_window(rt: HostRuntime) -> Result<(), Fail> {
    let slice = empty(rt.alloc(), 3);
    let area = Window {
        x0: -5,
        y0: 0,
        x1: 8,
        y1: 25,
    };
    let text = "window 3 -5 0 8 25\nfaces 0\nedges 0\nend\n";
    assert!(rt; is_window_text(rt.alloc(), &slice, area, text)?);
    Ok(())
}

/// The packet of the step that parts the two squares.
fn packet_of_two_squares(alloc: Global) -> Result<Packet, Memory> {
    let mut steps = List::new(alloc);
    steps.push(two_squares_parted(alloc)?)?;
    Ok(Packet {
        from: 1,
        to: 0,
        steps,
    })
}

fn is_packet_text(alloc: Global, packet: &Packet, text: &str) -> Result<bool, Memory> {
    Ok(packet_text(alloc, packet)?.as_slice() == text.as_bytes())
}

#[test]
fn a_packet(rt: HostRuntime) -> Result<(), Fail> {
    let packet = packet_of_two_squares(rt.alloc())?;
    let text = "packet 1 0\n\
         step 1 1 4 2 5 3 1 1\n\
         mend 0 1 2\n\
         put 1 0 10\n\
         piece 0 2 6 0\n\
         piece 1 4 7 1\n\
         edge 2 1 2 2 10 0 10 10\n\
         end\n";
    assert!(rt; is_packet_text(rt.alloc(), &packet, text)?);
    Ok(())
}
