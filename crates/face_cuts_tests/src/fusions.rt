//! Vertices that become nodes, and faces that become one.

use crate::maps::{Edit, Outcome, Rows, gives};
use std::test::Fail;

/// Three squares in a row.
const THREE: Rows<'static> = Rows {
    classes: &[0, 1, 2],
    arcs: &[
        &[1, 0, 10, 10, 0, 10, 0, 0, 10, 0],
        &[2, 0, 10, 0, 20, 0],
        &[1, 2, 10, 0, 10, 10],
        &[0, 2, 10, 10, 20, 10],
        &[3, 0, 20, 0, 30, 0, 30, 10, 20, 10],
        &[2, 3, 20, 0, 20, 10],
    ],
};

#[test]
fn a_vertex_that_becomes_a_node(rt: HostRuntime) -> Result<(), Fail> {
    let wanted = Rows {
        classes: &[0, 1, 2],
        arcs: &[
            &[1, 0, 10, 10, 0, 10],
            &[2, 0, 10, 0, 20, 0],
            &[1, 2, 10, 0, 10, 10],
            &[0, 2, 10, 10, 20, 10],
            &[3, 0, 20, 0, 30, 0, 30, 10, 20, 10],
            &[2, 3, 20, 0, 20, 10],
            &[1, 0, 0, 10, 0, 0, 10, 0],
        ],
    };
    let edits = [Edit::Node(0, 10)];
    assert!(rt; gives(rt.alloc(), THREE, &edits, Outcome::Gives(wanted))?);
    Ok(())
}

// The last face gets the number that is free, with its class.
#[test]
fn a_face_that_takes_a_number(rt: HostRuntime) -> Result<(), Fail> {
    let wanted = Rows {
        classes: &[2, 1],
        arcs: &[
            &[2, 0, 10, 10, 0, 10, 0, 0, 10, 0],
            &[2, 0, 10, 0, 20, 0],
            &[0, 2, 10, 10, 20, 10],
            &[1, 0, 20, 0, 30, 0, 30, 10, 20, 10],
            &[2, 1, 20, 0, 20, 10],
        ],
    };
    let edits = [Edit::Fuse(2, 1)];
    assert!(rt; gives(rt.alloc(), THREE, &edits, Outcome::Gives(wanted))?);
    Ok(())
}

// It does so too where it is the one that is left.
#[test]
fn a_last_face_that_is_left(rt: HostRuntime) -> Result<(), Fail> {
    let wanted = Rows {
        classes: &[0, 2],
        arcs: &[
            &[1, 0, 10, 10, 0, 10, 0, 0, 10, 0],
            &[2, 0, 10, 0, 20, 0],
            &[1, 2, 10, 0, 10, 10],
            &[0, 2, 10, 10, 20, 10],
            &[2, 0, 20, 0, 30, 0, 30, 10, 20, 10],
        ],
    };
    let edits = [Edit::Fuse(3, 2)];
    assert!(rt; gives(rt.alloc(), THREE, &edits, Outcome::Gives(wanted))?);
    Ok(())
}

#[test]
fn a_last_face_that_is_gone(rt: HostRuntime) -> Result<(), Fail> {
    let wanted = Rows {
        classes: &[0, 1],
        arcs: &[
            &[1, 0, 10, 10, 0, 10, 0, 0, 10, 0],
            &[2, 0, 10, 0, 20, 0],
            &[1, 2, 10, 0, 10, 10],
            &[0, 2, 10, 10, 20, 10],
            &[2, 0, 20, 0, 30, 0, 30, 10, 20, 10],
        ],
    };
    let edits = [Edit::Fuse(2, 3)];
    assert!(rt; gives(rt.alloc(), THREE, &edits, Outcome::Gives(wanted))?);
    Ok(())
}
