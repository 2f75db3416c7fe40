//! Slices as topologies: rows that are worked by hand, parts and holes in all places, and faces that are no polygons.

use crate::made::{Line, told};
use std::alloc::Global;
use std::test::Fail;
use tgap_model::{Or, Text};
use topo_write::FlatRing;

const SMALL: [(u8, u8); 5] = [(10, 10), (20, 10), (20, 20), (10, 20), (10, 10)];

const WIDE: [(u8, u8); 5] = [(0, 0), (50, 0), (50, 50), (0, 50), (0, 0)];

/// The same from another corner on.
const WIDE_AGAIN: [(u8, u8); 5] = [(50, 50), (0, 50), (0, 0), (50, 0), (50, 50)];

const MIDDLE: [(u8, u8); 5] = [(10, 10), (40, 10), (40, 40), (10, 40), (10, 10)];

const INNER: [(u8, u8); 5] = [(20, 20), (30, 20), (30, 30), (20, 30), (20, 20)];

const INMOST: [(u8, u8); 5] = [(22, 22), (24, 22), (24, 24), (22, 24), (22, 22)];

const BESIDE: [(u8, u8); 5] = [(60, 60), (70, 60), (70, 70), (60, 70), (60, 60)];

const FAR: [(u8, u8); 5] = [(80, 80), (90, 80), (90, 90), (80, 90), (80, 80)];

/// A ring, which leaves its node along its own first segment and comes back along its last one.
fn ring(key: u32, left: u32, right: u32, points: &[(u8, u8); 5]) -> Line {
    Line {
        key,
        left,
        right,
        points,
        toward: [points[1], points[3]],
    }
}

/// Whether this part is in the text.
fn holds(text: &[u8], part: &[u8]) -> bool {
    for start in 0..text.len() {
        if text[start..].starts_with(part) {
            return true;
        }
    }
    false
}

/// The text of a slice, all of whose faces are polygons.
fn text_of(alloc: Global, lines: &[Line], faces: &[u32]) -> Result<Text, Fail> {
    match told(alloc, lines, faces) {
        Ok(text) => Ok(text),
        Err(Or::Fault(_)) => Err(Fail::from("a face is no polygon")),
        Err(Or::Memory) => Err(Fail::from("no memory")),
    }
}

#[test]
fn two_squares(rt: HostRuntime) -> Result<(), Fail> {
    let lines = [
        Line {
            key: 0,
            left: 1,
            right: 0,
            points: &[(10, 10), (0, 10), (0, 0), (10, 0)],
            toward: [(0, 10), (0, 0)],
        },
        Line {
            key: 1,
            left: 2,
            right: 0,
            points: &[(10, 0), (20, 0), (20, 10), (10, 10)],
            toward: [(20, 0), (20, 10)],
        },
        Line {
            key: 2,
            left: 1,
            right: 2,
            points: &[(10, 0), (10, 10)],
            toward: [(10, 10), (10, 0)],
        },
    ];
    let text = text_of(rt.alloc(), &lines, &[1, 2])?;
    let expected =
        "{\"arcs\":[[[10,10],[-10,0],[0,-10],[10,0]],[[10,0],[10,0],[0,10],[-10,0]],[[10,0],[0,10]]],\"objects\":{\"map\":{\"geometries\":[{\"arcs\":[[0,2]],\"properties\":{\"class\":0,\"face\":1},\"type\":\"Polygon\"},{\"arcs\":[[1,-3]],\"properties\":{\"class\":0,\"face\":2},\"type\":\"Polygon\"}],\"type\":\"GeometryCollection\"}},\"transform\":{\"scale\":[1,1],\"translate\":[0,0]},\"type\":\"Topology\"}";
    assert_eq!(rt; text.as_slice(), expected.as_bytes());
    Ok(())
}

#[test]
fn a_hole_with_a_face(rt: HostRuntime) -> Result<(), Fail> {
    let lines = [ring(0, 1, 0, &WIDE), ring(1, 2, 1, &SMALL)];
    let text = text_of(rt.alloc(), &lines, &[1, 2])?;
    let expected =
        "\"geometries\":[{\"arcs\":[[0],[-2]],\"properties\":{\"class\":0,\"face\":1},\"type\":\"Polygon\"},{\"arcs\":[[1]],\"properties\":{\"class\":0,\"face\":2},\"type\":\"Polygon\"}]";
    assert!(rt; holds(text.as_slice(), expected.as_bytes()));
    Ok(())
}

// Face 1 lies in the hole of face 2, which lies in the hole of face 1; in it lies face 3. The rings of the holes begin with a
// vertical segment.
#[test]
fn islands_in_islands(rt: HostRuntime) -> Result<(), Fail> {
    let lines = [
        ring(0, 1, 0, &WIDE),
        ring(1, 2, 1, &MIDDLE),
        ring(4, 1, 2, &INNER),
        ring(6, 3, 1, &INMOST),
    ];
    let text = text_of(rt.alloc(), &lines, &[1, 2, 3])?;
    let expected =
        "\"geometries\":[{\"arcs\":[[0],[-2]],\"properties\":{\"class\":0,\"face\":1},\"type\":\"Polygon\"},{\"arcs\":[[2],[-4]],\"properties\":{\"class\":0,\"face\":1},\"type\":\"Polygon\"},{\"arcs\":[[1],[-3]],\"properties\":{\"class\":0,\"face\":2},\"type\":\"Polygon\"},{\"arcs\":[[3]],\"properties\":{\"class\":0,\"face\":3},\"type\":\"Polygon\"}]";
    assert!(rt; holds(text.as_slice(), expected.as_bytes()));
    Ok(())
}

// The same with the keys in another order: the parts of face 1 stand in that order, and each hole goes with its own.
#[test]
fn the_inner_part_first(rt: HostRuntime) -> Result<(), Fail> {
    let lines = [
        ring(0, 1, 2, &INNER),
        ring(2, 1, 0, &WIDE),
        ring(3, 3, 1, &INMOST),
        ring(5, 2, 1, &MIDDLE),
    ];
    let text = text_of(rt.alloc(), &lines, &[1])?;
    let expected =
        "\"geometries\":[{\"arcs\":[[0],[-3]],\"properties\":{\"class\":0,\"face\":1},\"type\":\"Polygon\"},{\"arcs\":[[1],[-4]],\"properties\":{\"class\":0,\"face\":1},\"type\":\"Polygon\"}]";
    assert!(rt; holds(text.as_slice(), expected.as_bytes()));
    Ok(())
}

// Of two rings of one area round a hole it goes with the first, and a hole that lies in none with the first of all.
#[test]
fn holes_without_one_part(rt: HostRuntime) -> Result<(), Fail> {
    let lines = [
        ring(0, 1, 0, &BESIDE),
        ring(1, 1, 0, &WIDE),
        ring(2, 1, 0, &WIDE_AGAIN),
        ring(3, 2, 1, &SMALL),
        ring(4, 2, 1, &FAR),
    ];
    let text = text_of(rt.alloc(), &lines, &[1])?;
    let expected =
        "\"geometries\":[{\"arcs\":[[0],[-5]],\"properties\":{\"class\":0,\"face\":1},\"type\":\"Polygon\"},{\"arcs\":[[1],[-4]],\"properties\":{\"class\":0,\"face\":1},\"type\":\"Polygon\"},{\"arcs\":[[2]],\"properties\":{\"class\":0,\"face\":1},\"type\":\"Polygon\"}]";
    assert!(rt; holds(text.as_slice(), expected.as_bytes()));
    Ok(())
}

// At its node the outer ring of face 1 goes round face 2 as well.
#[test]
fn a_ring_that_touches_itself(rt: HostRuntime) -> Result<(), Fail> {
    let lines = [
        ring(0, 1, 0, &WIDE),
        Line {
            key: 1,
            left: 2,
            right: 1,
            points: &[(0, 0), (10, 5), (5, 10), (0, 0)],
            toward: [(10, 5), (5, 10)],
        },
    ];
    let text = text_of(rt.alloc(), &lines, &[1, 2])?;
    let expected =
        "\"geometries\":[{\"arcs\":[[0,-2]],\"properties\":{\"class\":0,\"face\":1},\"type\":\"Polygon\"},{\"arcs\":[[1]],\"properties\":{\"class\":0,\"face\":2},\"type\":\"Polygon\"}]";
    assert!(rt; holds(text.as_slice(), expected.as_bytes()));
    Ok(())
}

// Two faces that touch at a node lie in one hole.
#[test]
fn holes_that_touch(rt: HostRuntime) -> Result<(), Fail> {
    let lines = [
        ring(0, 1, 0, &WIDE),
        Line {
            key: 1,
            left: 2,
            right: 1,
            points: &[(20, 20), (30, 15), (30, 25), (20, 20)],
            toward: [(30, 15), (30, 25)],
        },
        Line {
            key: 2,
            left: 3,
            right: 1,
            points: &[(20, 20), (10, 25), (10, 15), (20, 20)],
            toward: [(10, 25), (10, 15)],
        },
    ];
    let text = text_of(rt.alloc(), &lines, &[1, 2, 3])?;
    let expected =
        "\"geometries\":[{\"arcs\":[[0],[-2,-3]],\"properties\":{\"class\":0,\"face\":1},\"type\":\"Polygon\"},{\"arcs\":[[1]],\"properties\":{\"class\":0,\"face\":2},\"type\":\"Polygon\"},{\"arcs\":[[2]],\"properties\":{\"class\":0,\"face\":3},\"type\":\"Polygon\"}]";
    assert!(rt; holds(text.as_slice(), expected.as_bytes()));
    Ok(())
}

// Two squares of one face that touch at a corner are two polygons.
#[test]
fn parts_that_touch(rt: HostRuntime) -> Result<(), Fail> {
    let lines = [
        Line {
            key: 0,
            left: 1,
            right: 0,
            points: &[(10, 10), (0, 10), (0, 0), (10, 0), (10, 10)],
            toward: [(0, 10), (10, 0)],
        },
        ring(1, 1, 0, &SMALL),
    ];
    let text = text_of(rt.alloc(), &lines, &[1])?;
    let expected =
        "\"geometries\":[{\"arcs\":[[0]],\"properties\":{\"class\":0,\"face\":1},\"type\":\"Polygon\"},{\"arcs\":[[1]],\"properties\":{\"class\":0,\"face\":1},\"type\":\"Polygon\"}]";
    assert!(rt; holds(text.as_slice(), expected.as_bytes()));
    Ok(())
}

/// The face that is told as flat, and the key; or 0 and 0 where there is none.
fn flat_of(alloc: Global, lines: &[Line], faces: &[u32]) -> (u32, u32) {
    match told(alloc, lines, faces) {
        Err(Or::Fault(FlatRing { face, key })) => (face, key),
        _ => (0, 0),
    }
}

#[test]
fn faces_that_are_no_polygons(rt: HostRuntime) -> Result<(), Fail> {
    // The edges of face 2 lie on one another, and face 3, after it, has two rings, one of area 0.
    let lines = [
        ring(0, 3, 0, &WIDE),
        Line {
            key: 5,
            left: 2,
            right: 0,
            points: &[(0, 10), (20, 10)],
            toward: [(5, 5), (15, 5)],
        },
        Line {
            key: 7,
            left: 2,
            right: 1,
            points: &[(20, 10), (0, 10)],
            toward: [(15, 15), (5, 15)],
        },
        Line {
            key: 8,
            left: 3,
            right: 0,
            points: &[(90, 0), (99, 0), (90, 0)],
            toward: [(99, 0), (99, 1)],
        },
    ];
    assert_eq!(rt; flat_of(rt.alloc(), &lines, &[2, 3]), (2, 5));
    assert_eq!(rt; flat_of(rt.alloc(), &lines, &[3]), (3, 8));
    Ok(())
}

// The only rings of face 1 go round it clockwise.
#[test]
fn a_face_whose_rings_are_all_clockwise(rt: HostRuntime) -> Result<(), Fail> {
    let lines = [ring(2, 0, 1, &WIDE), ring(4, 0, 1, &BESIDE)];
    assert_eq!(rt; flat_of(rt.alloc(), &lines, &[1]), (1, 2));
    Ok(())
}

#[test]
fn a_ring_of_area_0_is_told_before_one_that_comes_first(rt: HostRuntime) -> Result<(), Fail> {
    let lines = [
        ring(2, 0, 1, &WIDE),
        Line {
            key: 4,
            left: 1,
            right: 0,
            points: &[(60, 0), (70, 0), (60, 0)],
            toward: [(70, 0), (70, 1)],
        },
    ];
    assert_eq!(rt; flat_of(rt.alloc(), &lines, &[1]), (1, 4));
    Ok(())
}
