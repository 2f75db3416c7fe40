//! The text of a topology, written as it stands in its JSON value, which is never made.

ghost use Rattle.std.specs.Prelude.{◌≡◌, ◌<◌, ◌≤◌, ◌++◌, ◌-ℤ◌, nat_lt, decimal, map, length, unsigned_abs, All, IfOk, OnOk};
ghost use Rattle.serde_json.specs.Written.{comma_if, compact_text};
ghost use Rattle.tgap_model.specs.Bounds.{IsNear, max_coordinate};
ghost use Rattle.ring_walk.specs.Sides.{origin};
ghost use Rattle.ring_walk.specs.declared.side.Side.{Side as OneSide};
ghost use Rattle.topo_write.specs.Building.{IsLine, ring_at, told};
ghost use Rattle.topo_write.specs.Topology.{arc_data, index_data, list, pair, polygon_data, ring_data, topology_text, transform_data, whole};
ghost use Rattle.topo_write.specs.Polygons.{lines_of};

use crate::part::Part;
use plain_io::put_number;
use ring_walk::{Side, Way};
use std::alloc::Global;
use tgap_model::{Edge, List, Memory, Point, Text, Transform};

/// Appends a comma in front of the member of a list at this place, but not in front of the first.
fn put_comma(out: &mut Text, place: usize) -> Result<(), Memory>
    ensures { OnOk result (out.new ≡ out.old ++ comma_if (nat_lt 0 place)) }
{
    if place > 0 {
        out.push_slice(b",")?;
    }
    Ok(())
}

/// Appends a whole number.
fn put_whole(alloc: Global, out: &mut Text, number: i64) -> Result<(), Memory>
    ensures { OnOk result (out.new ≡ out.old ++ compact_text (whole number)) }
{
    put_number(alloc, out, i128::from(number))
}

/// Appends the number of a class or of a face.
fn put_count(alloc: Global, out: &mut Text, count: u32) -> Result<(), Memory>
    ensures { OnOk result (out.new ≡ out.old ++ decimal count) }
{
    put_number(alloc, out, i128::from(count))
}

/// Appends a list of two whole numbers.
fn put_pair(alloc: Global, out: &mut Text, x: i64, y: i64) -> Result<(), Memory>
    ensures { OnOk result (out.new ≡ out.old ++ compact_text (pair x y)) }
{
    out.push_slice(b"[")?;
    put_whole(alloc, out, x)?;
    out.push_slice(b",")?;
    put_whole(alloc, out, y)?;
    out.push_slice(b"]")
}

/// The difference of two coordinates.
fn difference(a: i64, b: i64) -> i64
    requires a { unsigned_abs a ≤ max_coordinate }
    requires b { unsigned_abs b ≤ max_coordinate }
    ensures { result ≡ a -ℤ b }
{
    a - b
}

/// Appends how far a point is from the one before it.
fn put_delta(alloc: Global, out: &mut Text, from: Point, to: Point) -> Result<(), Memory>
    requires from { IsNear from }
    requires to { IsNear to }
    ensures { OnOk result (out.new ≡ out.old ++ compact_text (pair (to.x -ℤ from.x) (to.y -ℤ from.y))) }
{
    put_pair(
        alloc,
        out,
        difference(to.x, from.x),
        difference(to.y, from.y),
    )
}

/// Appends the points of an arc, the first as it is and each other one as its difference from the one before it.
fn put_arc(alloc: Global, out: &mut Text, points: &[Point]) -> Result<(), Memory>
    requires { All IsNear points.now }
    ensures { OnOk result (out.new ≡ out.old ++ compact_text (arc_data points.now)) }
{
    out.push_slice(b"[")?;
    let mut at = Point { x: 0, y: 0 };
    for place in 0..points.len() {
        put_comma(out, place)?;
        put_delta(alloc, out, at, points[place])?;
        at = points[place];
    }
    out.push_slice(b"]")?;
    Ok(())
}

/// Appends how a ring names an arc.
fn put_index(alloc: Global, out: &mut Text, side: Side) -> Result<(), Memory>
    ensures { OnOk result (out.new ≡ out.old ++ compact_text (index_data side)) }
{
    let number = i64::from(side.span);
    let index = match side.way {
        Way::Along => number,
        Way::Against => -number - 1,
    };
    put_whole(alloc, out, index)
}

/// Appends the indexes of a ring.
fn put_ring(alloc: Global, out: &mut Text, ring: &[Side]) -> Result<(), Memory>
    ensures { OnOk result (out.new ≡ out.old ++ compact_text (ring_data ring.now)) }
{
    out.push_slice(b"[")?;
    for place in 0..ring.len() {
        put_comma(out, place)?;
        put_index(alloc, out, ring[place])?;
    }
    out.push_slice(b"]")?;
    Ok(())
}

/// Appends the rings of a polygon, which are told by their places.
fn put_rings(
    alloc: Global,
    out: &mut Text,
    rings: &[List<Side>],
    places: &[u32],
) -> Result<(), Memory>
    requires { All (λ p. p < length rings.now) places.now }
    ensures { OnOk result (out.new ≡ out.old ++ compact_text (list (map (λ p. ring_data (ring_at rings.now p)) places.now))) }
{
    out.push_slice(b"[")?;
    for place in 0..places.len() {
        put_comma(out, place)?;
        put_ring(alloc, out, rings[places[place] as usize].as_slice())?;
    }
    out.push_slice(b"]")?;
    Ok(())
}

/// Appends a polygon.
fn put_polygon(
    alloc: Global,
    out: &mut Text,
    rings: &[List<Side>],
    part: &Part,
) -> Result<(), Memory>
    requires { All (λ p. p < length rings.now) part.now.rings }
    ensures { OnOk result (out.new ≡ out.old ++ compact_text (polygon_data (told rings.now part.now))) }
{
    out.push_slice(b"{\"arcs\":")?;
    put_rings(alloc, out, rings, part.rings.as_slice())?;
    out.push_slice(b",\"properties\":{\"class\":")?;
    put_count(alloc, out, part.row.class)?;
    out.push_slice(b",\"face\":")?;
    put_count(alloc, out, part.row.face)?;
    out.push_slice(b"},\"type\":\"Polygon\"}")?;
    Ok(())
}

/// Appends a list of polygons.
fn put_polygons(
    alloc: Global,
    out: &mut Text,
    rings: &[List<Side>],
    parts: &[Part],
) -> Result<(), Memory>
    requires { All (λ part. All (λ p. p < length rings.now) part.rings) parts.now }
    ensures { OnOk result (out.new ≡ out.old ++ compact_text (list (map polygon_data (map (told rings.now) parts.now)))) }
{
    out.push_slice(b"[")?;
    for place in 0..parts.len() {
        put_comma(out, place)?;
        put_polygon(alloc, out, rings, &parts[place])?;
    }
    out.push_slice(b"]")?;
    Ok(())
}

/// Appends the arcs of all edges.
fn put_arcs(alloc: Global, out: &mut Text, edges: &[Edge]) -> Result<(), Memory>
    requires { All (λ e. IsLine e.points) edges.now }
    ensures { OnOk result (out.new ≡ out.old ++ compact_text (list (map arc_data (lines_of edges.now)))) }
{
    out.push_slice(b"[")?;
    for place in 0..edges.len() {
        put_comma(out, place)?;
        put_arc(alloc, out, edges[place].points.as_slice())?;
    }
    out.push_slice(b"]")?;
    Ok(())
}

/// Appends a list of two words of a transform.
fn put_words(alloc: Global, out: &mut Text, x: i32, y: i32) -> Result<(), Memory>
    ensures { OnOk result (out.new ≡ out.old ++ compact_text (pair x y)) }
{
    put_pair(alloc, out, i64::from(x), i64::from(y))
}

/// Appends a transform.
fn put_transform(alloc: Global, out: &mut Text, transform: Transform) -> Result<(), Memory>
    ensures { OnOk result (out.new ≡ out.old ++ compact_text (transform_data transform)) }
{
    let Transform { sx, sy, tx, ty } = transform;
    out.push_slice(b"{\"scale\":")?;
    put_words(alloc, out, sx, sy)?;
    out.push_slice(b",\"translate\":")?;
    put_words(alloc, out, tx, ty)?;
    out.push_slice(b"}")?;
    Ok(())
}

/// Appends a topology of these edges and polygons.
fn put_topology(
    alloc: Global,
    out: &mut Text,
    edges: &[Edge],
    rings: &[List<Side>],
    parts: &[Part],
    transform: Transform,
) -> Result<(), Memory>
    requires lines { All (λ e. IsLine e.points) edges.now }
    requires parts { All (λ part. All (λ p. p < length rings.now) part.rings) parts.now }
    ensures { OnOk result (out.new ≡ out.old ++ topology_text transform (lines_of edges.now) (map (told rings.now) parts.now)) }
{
    out.push_slice(b"{\"arcs\":")?;
    put_arcs(alloc, out, edges)?;
    out.push_slice(b",\"objects\":{\"map\":{\"geometries\":")?;
    put_polygons(alloc, out, rings, parts)?;
    out.push_slice(b",\"type\":\"GeometryCollection\"}},\"transform\":")?;
    put_transform(alloc, out, transform)?;
    out.push_slice(b",\"type\":\"Topology\"}")?;
    Ok(())
}

/// The text of a topology of these edges and polygons.
pub fn topology_text(
    alloc: Global,
    edges: &[Edge],
    rings: &[List<Side>],
    parts: &[Part],
    transform: Transform,
) -> Result<Text, Memory>
    requires lines { All (λ e. IsLine e.points) edges.now }
    requires parts { All (λ part. All (λ p. p < length rings.now) part.rings) parts.now }
    ensures { IfOk result (λ text. text ≡ topology_text transform (lines_of edges.now) (map (told rings.now) parts.now)) }
{
    let mut out = Text::new(alloc);
    put_topology(alloc, &mut out, edges, rings, parts, transform)?;
    Ok(out)
}
