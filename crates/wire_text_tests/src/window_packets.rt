//! Packets of windows beside their bytes: of two squares and of two triangles that become one face, and packets with little in
//! them.

use crate::maps::{edge, points};
use std::alloc::Global;
use std::test::Fail;
use tgap_model::{Edge, FaceRow, List, Memory, Mend, Piece, Put, Window, WindowPacket, WindowStep};
use wire_text::window_packet_text;

/// Whether this is the text of a packet of these records, from this step down to 0.
fn is_text_of(
    alloc: Global,
    from: u32,
    steps: List<WindowStep>,
    area: Window,
    text: &str,
) -> Result<bool, Memory> {
    let packet = WindowPacket {
        from,
        to: 0,
        area,
        steps,
    };
    Ok(window_packet_text(alloc, &packet)?.as_slice() == text.as_bytes())
}

/// A list of the face 2 alone.
fn face_two(alloc: Global) -> Result<List<FaceRow>, Memory> {
    let mut faces = List::new(alloc);
    faces.push(FaceRow { face: 2, class: 0 })?;
    Ok(faces)
}

/// A list of one vertex, for the place 3.
fn one_put(alloc: Global) -> Result<List<Put>, Memory> {
    let mut puts = List::new(alloc);
    for point in points(alloc, &[(10, 0)])?.as_slice() {
        puts.push(Put {
            at: 3,
            point: *point,
        })?;
    }
    Ok(puts)
}

/// The pieces with these keys, last places and sides.
fn pieces(alloc: Global, table: &[(u32, u32, u32)]) -> Result<List<Piece>, Memory> {
    let mut pieces = List::new(alloc);
    for (key, last, side) in table {
        pieces.push(Piece {
            key: *key,
            last: *last,
            side: *side,
            turned: false,
        })?;
    }
    Ok(pieces)
}

/// The mend of the ring round the two squares, alone.
fn ring_mended(alloc: Global) -> Result<List<Mend>, Memory> {
    let puts = one_put(alloc)?;
    let pieces = pieces(alloc, &[(0, 3, 1), (1, 6, 2)])?;
    let mut mends = List::new(alloc);
    mends.push(Mend {
        key: 0,
        puts,
        pieces,
    })?;
    Ok(mends)
}

/// The record of a step by which the face 3 becomes 1 and 2.
fn step_of(faces: List<FaceRow>, mends: List<Mend>, comes: List<Edge>) -> WindowStep {
    WindowStep {
        step: 1,
        loser: 1,
        winner: 2,
        made: 3,
        faces,
        mends,
        comes,
    }
}

fn only(alloc: Global, step: WindowStep) -> Result<List<WindowStep>, Memory> {
    let mut steps = List::new(alloc);
    steps.push(step)?;
    Ok(steps)
}

/// The two squares, seen in the right one.
fn of_two_squares(alloc: Global) -> Result<List<WindowStep>, Memory> {
    let faces = face_two(alloc)?;
    let mends = ring_mended(alloc)?;
    only(alloc, step_of(faces, mends, List::new(alloc)))
}

#[test]
fn a_mended_edge(rt: HostRuntime) -> Result<(), Fail> {
    let steps = of_two_squares(rt.alloc())?;
    let area = Window {
        x0: 12,
        y0: 2,
        x1: 30,
        y1: 4,
    };
    let text = "window-packet 1 0 12 2 30 4\n\
         step 1 1 2 3 1 1 0\n\
         face 2 0\n\
         mend 0 1 2\n\
         put 3 10 0\n\
         piece 0 3 1 0\n\
         piece 1 6 2 0\n\
         end\n";
    assert!(rt; is_text_of(rt.alloc(), 1, steps, area, text)?);
    Ok(())
}

/// The edge of the upper triangle.
fn upper_edge(alloc: Global) -> Result<List<Edge>, Memory> {
    let mut edges = List::new(alloc);
    edges.push(edge(alloc, (1, 2, 0), &[(6, 6), (0, 12), (0, 0)])?)?;
    Ok(edges)
}

/// The two triangles, seen at the vertex that comes back.
fn of_two_triangles(alloc: Global) -> Result<List<WindowStep>, Memory> {
    let faces = face_two(alloc)?;
    let comes = upper_edge(alloc)?;
    only(alloc, step_of(faces, List::new(alloc), comes))
}

#[test]
fn an_edge_that_comes(rt: HostRuntime) -> Result<(), Fail> {
    let steps = of_two_triangles(rt.alloc())?;
    let area = Window {
        x0: 0,
        y0: 8,
        x1: 2,
        y1: 12,
    };
    let text = "window-packet 1 0 0 8 2 12\n\
         step 1 1 2 3 1 0 1\n\
         face 2 0\n\
         edge 1 2 0 3 6 6 0 12 0 0\n\
         end\n";
    assert!(rt; is_text_of(rt.alloc(), 1, steps, area, text)?);
    Ok(())
}

/// A step of which nothing is seen.
fn of_nothing(alloc: Global) -> Result<List<WindowStep>, Memory> {
    only(
        alloc,
        step_of(List::new(alloc), List::new(alloc), List::new(alloc)),
    )
}

const BELOW_ZERO: Window = Window {
    x0: -8,
    y0: -5,
    x1: -8,
    y1: -1,
};

#[test]
fn an_empty_window(rt: HostRuntime) -> Result<(), Fail> {
    let steps = of_nothing(rt.alloc())?;
    let text = "window-packet 1 0 -8 -5 -8 -1\nstep 1 1 2 3 0 0 0\nend\n";
    assert!(rt; is_text_of(rt.alloc(), 1, steps, BELOW_ZERO, text)?);
    Ok(())
}

#[test]
fn no_step(rt: HostRuntime) -> Result<(), Fail> {
    let steps = List::new(rt.alloc());
    let text = "window-packet 0 0 -8 -5 -8 -1\nend\n";
    assert!(rt; is_text_of(rt.alloc(), 0, steps, BELOW_ZERO, text)?);
    Ok(())
}
