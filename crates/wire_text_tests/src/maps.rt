//! What texts are made of.

use std::alloc::Global;
use std::test::Fail;
use tgap_model::{
    Base, BaseArc, BorderRow, Edge, FaceRow, List, Memory, Mend, Piece, Point, Put, Rules, Slice,
    StepRecord, Transform,
};

/// The points with these coordinates.
pub fn points(alloc: Global, places: &[(i64, i64)]) -> Result<List<Point>, Memory> {
    let mut points = List::new(alloc);
    for (x, y) in places {
        points.push(Point { x: *x, y: *y })?;
    }
    Ok(points)
}

/// A slice with nothing in it.
pub fn empty(alloc: Global, step: u32) -> Slice {
    Slice {
        step,
        faces: List::new(alloc),
        edges: List::new(alloc),
    }
}

/// Two squares side by side.
pub fn two_squares(alloc: Global) -> Result<Slice, Memory> {
    let faces = two_faces(alloc)?;
    let edges = three_edges(alloc)?;
    Ok(Slice {
        step: 0,
        faces,
        edges,
    })
}

/// The faces of the two squares.
fn two_faces(alloc: Global) -> Result<List<FaceRow>, Memory> {
    let mut faces = List::new(alloc);
    faces.push(FaceRow { face: 1, class: 0 })?;
    faces.push(FaceRow { face: 2, class: 0 })?;
    Ok(faces)
}

/// The edges of the two squares.
fn three_edges(alloc: Global) -> Result<List<Edge>, Memory> {
    let mut edges = List::new(alloc);
    edges.push(edge(alloc, (0, 1, 0), &[(10, 10), (0, 10), (0, 0), (10, 0)])?)?;
    edges.push(edge(alloc, (1, 2, 0), &[(10, 0), (20, 0), (20, 10), (10, 10)])?)?;
    edges.push(between(alloc)?)?;
    Ok(edges)
}

/// The edge between the two squares.
fn between(alloc: Global) -> Result<Edge, Memory> {
    edge(alloc, (2, 1, 2), &[(10, 0), (10, 10)])
}

/// The edge of this key, between these faces, with these points.
pub fn edge(
    alloc: Global,
    (key, left, right): (u32, u32, u32),
    places: &[(i64, i64)],
) -> Result<Edge, Memory> {
    let points = points(alloc, places)?;
    Ok(Edge {
        key,
        left,
        right,
        points,
    })
}

/// A record of the two squares, with numbers that tell its fields apart.
pub fn two_squares_parted(alloc: Global) -> Result<StepRecord, Memory> {
    let mends = one_mend(alloc)?;
    let ended = one_edge(alloc)?;
    Ok(StepRecord {
        step: 1,
        loser: 1,
        loser_class: 4,
        winner: 2,
        winner_class: 5,
        made: 3,
        mends,
        ended,
    })
}

/// The edge between the two squares, alone.
fn one_edge(alloc: Global) -> Result<List<Edge>, Memory> {
    let mut edges = List::new(alloc);
    edges.push(between(alloc)?)?;
    Ok(edges)
}

/// A list of one mend, with a vertex and two pieces.
fn one_mend(alloc: Global) -> Result<List<Mend>, Memory> {
    let puts = one_vertex(alloc)?;
    let pieces = two_pieces(alloc)?;
    let mut mends = List::new(alloc);
    mends.push(Mend {
        key: 0,
        puts,
        pieces,
    })?;
    Ok(mends)
}

fn one_vertex(alloc: Global) -> Result<List<Put>, Memory> {
    let mut puts = List::new(alloc);
    puts.push(Put {
        at: 1,
        point: Point { x: 0, y: 10 },
    })?;
    Ok(puts)
}

fn two_pieces(alloc: Global) -> Result<List<Piece>, Memory> {
    let mut pieces = List::new(alloc);
    pieces.push(Piece {
        key: 0,
        last: 2,
        side: 6,
        turned: false,
    })?;
    pieces.push(Piece {
        key: 1,
        last: 4,
        side: 7,
        turned: true,
    })?;
    Ok(pieces)
}

/// Two rows of a borders text.
pub fn border_rows(alloc: Global) -> Result<List<BorderRow>, Memory> {
    let mut rows = List::new(alloc);
    for (arc, left, right) in [(0, 3, 0), (4, 1, 5)] {
        rows.push(BorderRow { arc, left, right })?;
    }
    Ok(rows)
}

/// A map of one triangle.
pub fn triangle(alloc: Global) -> Result<Base, Fail> {
    let transform = Transform {
        sx: 1,
        sy: 1,
        tx: 0,
        ty: 0,
    };
    let rules = rules_of_one_class(alloc)?;
    let classes = one_number(alloc, 0)?;
    let arcs = arc_of_triangle(alloc)?;
    Ok(Base::new(transform, rules, classes, arcs).ok_or("no base map")?)
}

fn arc_of_triangle(alloc: Global) -> Result<List<BaseArc>, Memory> {
    let points = points(alloc, &[(0, 0), (5, 0), (0, 5), (0, 0)])?;
    let mut arcs = List::new(alloc);
    arcs.push(BaseArc {
        left: 1,
        right: 0,
        points,
    })?;
    Ok(arcs)
}

fn rules_of_one_class(alloc: Global) -> Result<Rules, Memory> {
    let weights = one_number(alloc, 7)?;
    let compat = one_number(alloc, 0)?;
    Ok(Rules {
        ratio: 2,
        weights,
        compat,
    })
}

/// A list of this number alone.
fn one_number(alloc: Global, number: u32) -> Result<List<u32>, Memory> {
    let mut numbers = List::new(alloc);
    numbers.push(number)?;
    Ok(numbers)
}
