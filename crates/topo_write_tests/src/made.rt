//! Slices that are made by hand.

ghost use Rattle.std.specs.Prelude.{◌≡◌, ◌≢◌, ◌≤◌, ◌-◌, IsTrue, IfOk, All, get_or, length};
ghost use Rattle.tgap_model.specs.declared.geometry.Point.{Point as Place};
ghost use Rattle.tgap_model.specs.Base.{in_limits};
ghost use Rattle.tgap_model.specs.Bounds.{IsNear};
ghost use Rattle.ring_walk.specs.Spans.{IsSpan};
ghost use Rattle.topo_write.specs.Building.{HaveEnds, IsLine};
ghost use Rattle.topo_write.specs.Polygons.{span_of};

use ring_walk::EdgeEnds;
use std::alloc::Global;
use tgap_model::{Edge, FaceRow, List, Memory, Or, Point, Slice, Text, Transform};
use topo_write::{FlatRing, topo_of};

/// An edge of a slice, with the points toward which it leaves its first and its last point in the base map.
#[derive(Clone, Copy)]
pub struct Line<'a> {
    pub key: u32,
    pub left: u32,
    pub right: u32,
    pub points: &'a [(u8, u8)],
    pub toward: [(u8, u8); 2],
}

/// The edges of a slice and the directions of their ends.
#[derive(Drop)]
struct Edges {
    edges: List<Edge>,
    ends: List<EdgeEnds>,
}

/// The point with these coordinates.
fn point_of(x: u8, y: u8) -> Point
    ensures near { IsNear result }
    ensures limits { IsTrue (in_limits result) }
{
    Point {
        x: i64::from(x),
        y: i64::from(y),
    }
}

/// The points with these coordinates.
fn points_of(alloc: Global, coordinates: &[(u8, u8)]) -> Result<List<Point>, Memory>
    ensures { IfOk result (All IsNear) }
{
    let mut points = List::new(alloc);
    for (x, y) in coordinates {
        points.push(point_of(*x, *y))?;
    }
    Ok(points)
}

/// An edge of one point at least, and of a hundred at most.
fn edge_of(alloc: Global, line: &Line) -> Result<Edge, Memory>
    ensures { IfOk result (λ edge. IsLine edge.points) }
{
    let points = points_of(alloc, line.points)?;
    if points.is_empty() || 100 < points.len() {
        return Err(Memory);
    }
    Ok(Edge {
        key: line.key,
        left: line.left,
        right: line.right,
        points,
    })
}

/// Whether a row of points leaves its first point and its last in directions.
fn leave(points: &[Point], ends: EdgeEnds) -> bool
    requires { 1 ≤ length points.now }
    ensures first { (d : Place) → IsTrue result → get_or points.now 0 d ≢ ends.after_first }
    ensures last { (d : Place) → IsTrue result → get_or points.now (length points.now - 1) d ≢ ends.before_last }
{
    points[0] != ends.after_first && points[points.len() - 1] != ends.before_last
}

/// The directions in which an edge leaves its first point and its last. There are none where one of them is no direction.
fn ends_of(edge: &Edge, first: (u8, u8), last: (u8, u8)) -> Result<EdgeEnds, Memory>
    requires { IsLine edge.now.points }
    ensures { IfOk result (λ ends. IsSpan (span_of (edge.now, ends))) }
{
    let after_first = point_of(first.0, first.1);
    let before_last = point_of(last.0, last.1);
    let ends = EdgeEnds {
        after_first,
        before_last,
    };
    if leave(edge.points.as_slice(), ends) {
        Ok(ends)
    } else {
        Err(Memory)
    }
}

/// A hundred edges at most, and the directions of their ends.
fn edges_of(alloc: Global, lines: &[Line]) -> Result<Edges, Memory>
    ensures { IfOk result (λ all. HaveEnds all.edges all.ends) }
{
    if 100 < lines.len() {
        return Err(Memory);
    }
    let mut edges = List::new(alloc);
    let mut ends = List::new(alloc);
    for line in lines {
        let edge = edge_of(alloc, line)?;
        ends.push(ends_of(&edge, line.toward[0], line.toward[1])?)?;
        edges.push(edge)?;
    }
    Ok(Edges { edges, ends })
}

/// Faces of class 0.
fn rows_of(alloc: Global, faces: &[u32]) -> Result<List<FaceRow>, Memory> {
    let mut rows = List::new(alloc);
    for face in faces {
        rows.push(FaceRow {
            face: *face,
            class: 0,
        })?;
    }
    Ok(rows)
}

/// What is told of the slice with these edges and faces.
pub fn told(alloc: Global, lines: &[Line], faces: &[u32]) -> Result<Text, Or<FlatRing>> {
    let faces = rows_of(alloc, faces)?;
    let Edges { edges, ends } = edges_of(alloc, lines)?;
    let slice = Slice {
        step: 0,
        faces,
        edges,
    };
    let transform = Transform {
        sx: 1,
        sy: 1,
        tx: 0,
        ty: 0,
    };
    topo_of(alloc, &slice, &ends, transform)
}
