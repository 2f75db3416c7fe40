//! Faces that are cut.

use crate::maps::{Edit, Outcome, Rows, gives};
use std::test::Fail;

/// Two squares side by side.
const TWO: Rows<'static> = Rows {
    classes: &[1, 2],
    arcs: &[
        &[1, 0, 10, 10, 0, 10, 0, 0, 10, 0],
        &[2, 0, 10, 0, 20, 0, 20, 10, 10, 10],
        &[1, 2, 10, 0, 10, 10],
    ],
};

/// They, with a node at a corner.
const TWO_WITH_NODE: Rows<'static> = Rows {
    classes: &[1, 2],
    arcs: &[
        &[1, 0, 10, 10, 0, 10, 0, 0],
        &[2, 0, 10, 0, 20, 0, 20, 10, 10, 10],
        &[1, 2, 10, 0, 10, 10],
        &[1, 0, 0, 0, 10, 0],
    ],
};

/// A square.
const ONE: Rows<'static> = Rows {
    classes: &[1],
    arcs: &[&[1, 0, 0, 0, 10, 0, 10, 10, 0, 10, 0, 0]],
};

/// A square of two arcs, in which two smaller squares lie.
const ISLANDS: Rows<'static> = Rows {
    classes: &[0, 1, 2],
    arcs: &[
        &[1, 0, 20, 0, 40, 0, 40, 20, 20, 20],
        &[1, 0, 20, 20, 0, 20, 0, 0, 20, 0],
        &[2, 1, 5, 5, 10, 5, 10, 10, 5, 10, 5, 5],
        &[3, 1, 25, 5, 30, 5, 30, 10, 25, 10, 25, 5],
    ],
};

/// A square in which a smaller one lies, of two arcs.
const BAY: Rows<'static> = Rows {
    classes: &[0, 1],
    arcs: &[
        &[1, 0, 0, 0, 40, 0, 40, 40, 0, 40, 0, 0],
        &[2, 1, 10, 10, 20, 10],
        &[2, 1, 20, 10, 20, 20, 10, 20, 10, 10],
    ],
};

#[test]
fn a_corner_cut_off(rt: HostRuntime) -> Result<(), Fail> {
    let edits = [Edit::Node(0, 0), Edit::Cut(1, 0, &[0, 0, 10, 10])];
    let wanted = Rows {
        classes: &[1, 2, 0],
        arcs: &[
            &[3, 0, 10, 10, 0, 10, 0, 0],
            &[2, 0, 10, 0, 20, 0, 20, 10, 10, 10],
            &[1, 2, 10, 0, 10, 10],
            &[1, 0, 0, 0, 10, 0],
            &[3, 1, 0, 0, 10, 10],
        ],
    };
    assert!(rt; gives(rt.alloc(), TWO, &edits, Outcome::Gives(wanted))?);
    Ok(())
}

#[test]
fn a_cut_that_is_taken_back(rt: HostRuntime) -> Result<(), Fail> {
    let edits = [
        Edit::Node(0, 0),
        Edit::Cut(1, 0, &[0, 0, 10, 10]),
        Edit::Fuse(1, 3),
    ];
    assert!(rt; gives(rt.alloc(), TWO, &edits, Outcome::Gives(TWO_WITH_NODE))?);
    Ok(())
}

#[test]
fn a_walk_along_the_first_arc(rt: HostRuntime) -> Result<(), Fail> {
    let edits = [Edit::Node(10, 10), Edit::Cut(1, 2, &[10, 10, 0, 0])];
    let wanted = Rows {
        classes: &[1, 2],
        arcs: &[
            &[2, 0, 0, 0, 10, 0, 10, 10],
            &[1, 0, 10, 10, 0, 10, 0, 0],
            &[2, 1, 10, 10, 0, 0],
        ],
    };
    assert!(rt; gives(rt.alloc(), ONE, &edits, Outcome::Gives(wanted))?);
    Ok(())
}

#[test]
fn an_island_at_the_left(rt: HostRuntime) -> Result<(), Fail> {
    let edits = [Edit::Cut(1, 1, &[20, 0, 20, 20])];
    let wanted = Rows {
        classes: &[0, 1, 2, 1],
        arcs: &[
            &[1, 0, 20, 0, 40, 0, 40, 20, 20, 20],
            &[4, 0, 20, 20, 0, 20, 0, 0, 20, 0],
            &[2, 4, 5, 5, 10, 5, 10, 10, 5, 10, 5, 5],
            &[3, 1, 25, 5, 30, 5, 30, 10, 25, 10, 25, 5],
            &[4, 1, 20, 0, 20, 20],
        ],
    };
    assert!(rt; gives(rt.alloc(), ISLANDS, &edits, Outcome::Gives(wanted))?);
    Ok(())
}

#[test]
fn the_other_island_at_the_left(rt: HostRuntime) -> Result<(), Fail> {
    let edits = [Edit::Cut(1, 1, &[20, 20, 15, 12, 20, 0])];
    let wanted = Rows {
        classes: &[0, 1, 2, 1],
        arcs: &[
            &[4, 0, 20, 0, 40, 0, 40, 20, 20, 20],
            &[1, 0, 20, 20, 0, 20, 0, 0, 20, 0],
            &[2, 1, 5, 5, 10, 5, 10, 10, 5, 10, 5, 5],
            &[3, 4, 25, 5, 30, 5, 30, 10, 25, 10, 25, 5],
            &[4, 1, 20, 20, 15, 12, 20, 0],
        ],
    };
    assert!(rt; gives(rt.alloc(), ISLANDS, &edits, Outcome::Gives(wanted))?);
    Ok(())
}

// The new ring goes round clockwise: the border of the large square lies at its left, where no segment of it is above.
#[test]
fn the_outside_at_the_left(rt: HostRuntime) -> Result<(), Fail> {
    let edits = [Edit::Cut(1, 2, &[20, 10, 15, 5, 10, 10])];
    let wanted = Rows {
        classes: &[0, 1, 2],
        arcs: &[
            &[3, 0, 0, 0, 40, 0, 40, 40, 0, 40, 0, 0],
            &[2, 1, 10, 10, 20, 10],
            &[2, 3, 20, 10, 20, 20, 10, 20, 10, 10],
            &[3, 1, 20, 10, 15, 5, 10, 10],
        ],
    };
    assert!(rt; gives(rt.alloc(), BAY, &edits, Outcome::Gives(wanted))?);
    Ok(())
}

#[test]
fn the_outside_at_the_right(rt: HostRuntime) -> Result<(), Fail> {
    let edits = [Edit::Cut(1, 2, &[10, 10, 15, 5, 20, 10])];
    let wanted = Rows {
        classes: &[0, 1, 2],
        arcs: &[
            &[1, 0, 0, 0, 40, 0, 40, 40, 0, 40, 0, 0],
            &[2, 3, 10, 10, 20, 10],
            &[2, 1, 20, 10, 20, 20, 10, 20, 10, 10],
            &[3, 1, 10, 10, 15, 5, 20, 10],
        ],
    };
    assert!(rt; gives(rt.alloc(), BAY, &edits, Outcome::Gives(wanted))?);
    Ok(())
}

// One island touches the border in the middle of the walk, which goes round it. The other touches it at the end of the
// arc, at the right of the walk and on its ring.
#[test]
fn islands_that_touch_the_border(rt: HostRuntime) -> Result<(), Fail> {
    let map = Rows {
        classes: &[0, 1, 2],
        arcs: &[
            &[1, 0, 20, 0, 40, 0, 40, 20, 20, 20],
            &[1, 0, 20, 20, 0, 20, 0, 10],
            &[1, 0, 0, 10, 0, 0, 20, 0],
            &[2, 1, 0, 10, 5, 8, 5, 12, 0, 10],
            &[3, 1, 20, 20, 25, 10, 30, 15, 20, 20],
        ],
    };
    let wanted = Rows {
        classes: &[0, 1, 2, 0],
        arcs: &[
            &[1, 0, 20, 0, 40, 0, 40, 20, 20, 20],
            &[4, 0, 20, 20, 0, 20, 0, 10],
            &[4, 0, 0, 10, 0, 0, 20, 0],
            &[2, 4, 0, 10, 5, 8, 5, 12, 0, 10],
            &[3, 1, 20, 20, 25, 10, 30, 15, 20, 20],
            &[4, 1, 20, 0, 20, 20],
        ],
    };
    let edits = [Edit::Cut(1, 0, &[20, 0, 20, 20])];
    assert!(rt; gives(rt.alloc(), map, &edits, Outcome::Gives(wanted))?);
    Ok(())
}

// The face has two parts; the one that is not cut lies at the right.
#[test]
fn a_face_of_two_parts(rt: HostRuntime) -> Result<(), Fail> {
    let map = Rows {
        classes: &[1],
        arcs: &[
            &[1, 0, 0, 0, 10, 0, 10, 10],
            &[1, 0, 10, 10, 0, 10, 0, 0],
            &[1, 0, 20, 0, 30, 0, 30, 10, 20, 10, 20, 0],
        ],
    };
    let wanted = Rows {
        classes: &[1, 0],
        arcs: &[
            &[2, 0, 0, 0, 10, 0, 10, 10],
            &[1, 0, 10, 10, 0, 10, 0, 0],
            &[1, 0, 20, 0, 30, 0, 30, 10, 20, 10, 20, 0],
            &[2, 1, 10, 10, 0, 0],
        ],
    };
    let edits = [Edit::Cut(1, 0, &[10, 10, 0, 0])];
    assert!(rt; gives(rt.alloc(), map, &edits, Outcome::Gives(wanted))?);
    Ok(())
}

// The island has face 1 round one half of it and face 3 round the other, which no map without a fault has: the side with
// face 1 goes over.
#[test]
fn a_ring_of_two_faces(rt: HostRuntime) -> Result<(), Fail> {
    let map = Rows {
        classes: &[0, 1, 2],
        arcs: &[
            &[1, 0, 20, 0, 40, 0, 40, 20, 20, 20],
            &[1, 0, 20, 20, 0, 20, 0, 0, 20, 0],
            &[2, 1, 5, 5, 10, 5, 10, 10],
            &[2, 3, 10, 10, 5, 10, 5, 5],
        ],
    };
    let wanted = Rows {
        classes: &[0, 1, 2, 2],
        arcs: &[
            &[1, 0, 20, 0, 40, 0, 40, 20, 20, 20],
            &[4, 0, 20, 20, 0, 20, 0, 0, 20, 0],
            &[2, 4, 5, 5, 10, 5, 10, 10],
            &[2, 3, 10, 10, 5, 10, 5, 5],
            &[4, 1, 20, 0, 20, 20],
        ],
    };
    let edits = [Edit::Cut(1, 2, &[20, 0, 20, 20])];
    assert!(rt; gives(rt.alloc(), map, &edits, Outcome::Gives(wanted))?);
    Ok(())
}

#[test]
fn the_greatest_coordinates(rt: HostRuntime) -> Result<(), Fail> {
    const LOW: i64 = -2_147_483_648;
    const HIGH: i64 = 2_147_483_648;
    let map = Rows {
        classes: &[0],
        arcs: &[
            &[1, 0, LOW, LOW, HIGH, LOW, HIGH, HIGH],
            &[1, 0, HIGH, HIGH, LOW, HIGH, LOW, LOW],
            &[0, 1, 0, 1, 1, 2, 0, 2, 0, 1],
        ],
    };
    let wanted = Rows {
        classes: &[0, 0],
        arcs: &[
            &[1, 0, LOW, LOW, HIGH, LOW, HIGH, HIGH],
            &[2, 0, HIGH, HIGH, LOW, HIGH, LOW, LOW],
            &[0, 2, 0, 1, 1, 2, 0, 2, 0, 1],
            &[2, 1, LOW, LOW, HIGH, HIGH],
        ],
    };
    let edits = [Edit::Cut(1, 0, &[LOW, LOW, HIGH, HIGH])];
    assert!(rt; gives(rt.alloc(), map, &edits, Outcome::Gives(wanted))?);
    Ok(())
}
