//! The nodes of a map: equal points have one number.

ghost use Rattle.std.specs.Prelude.{◌≡◌, ◌<◌, ◌^◌, [], length, replicate, IfOk};
ghost use Rattle.std.specs.List.{All};
ghost use Rattle.edge_forest.specs.Nodes.{AreNodes, node_at};
ghost use Rattle.edge_forest.specs.Places.{AreInOrder, AreApart, AscendByPoint, begins_node, AreNumbered, AreListed};

use std::alloc::Global;
use tgap_model::{List, Memory, Point};

/// A point with its place in a list of points.
#[derive(Clone, Copy)]
struct PlacedPoint {
    point: Point,
    place: u32,
}

/// The points with their places, in the order of points.
fn in_order(alloc: Global, points: &[Point]) -> Result<Vec<PlacedPoint>, Memory>
    requires small { length points.now < 2 ^ 32 }
    ensures { IfOk result (λ rows. AreInOrder points.now rows.items) }
{
    let mut rows = Vec::with_capacity(alloc, points.len())?;
    for place in 0..points.len() {
        rows.push(PlacedPoint {
            point: points[place],
            place: place as u32,
        })?;
    }
    rows.sort_unstable_by_key(|row| row.point);
    Ok(rows)
}

/// Whether a node begins at row number i: its point differs from the one before.
fn begins_node(rows: &[PlacedPoint], i: usize) -> bool
    requires { i < length rows.now }
    ensures { result ≡ begins_node rows.now i }
{
    i == 0 || rows[i - 1].point != rows[i].point
}

/// The node of each place, and how many nodes there are. Equal points stand next to one another in these rows.
fn numbered(alloc: Global, rows: &[PlacedPoint]) -> Result<(Vec<u32>, u32), Memory>
    requires small { length rows.now < 2 ^ 32 }
    requires places { All (λ row. row.place < length rows.now) rows.now }
    requires apart { AreApart rows.now }
    requires ascend { AscendByPoint rows.now }
    ensures { IfOk result (λ found. AreNumbered rows.now (length rows.now) found.0.items found.1) }
{
    let mut node_of = vec![in alloc; 0u32; rows.len()]?;
    let mut count = 0u32;
    for i in 0..rows.len() {
        if begins_node(rows, i) {
            count += 1;
        }
        node_of[rows[i].place as usize] = count - 1;
    }
    Ok((node_of, count))
}

/// So many empty lists.
pub fn empty_lists(alloc: Global, count: usize) -> Result<Vec<List<u32>>, Memory>
    ensures { IfOk result (λ lists. lists.items ≡ replicate count []) }
{
    let mut lists = Vec::with_capacity(alloc, count)?;
    for _ in 0..count {
        lists.push(List::new(alloc))?;
    }
    Ok(lists)
}

/// The places of each node, in ascending order.
fn places_by_node(alloc: Global, node_of: &[u32], count: u32) -> Result<Vec<List<u32>>, Memory>
    requires small { length node_of.now < 2 ^ 32 }
    requires below { All (λ node. node < count) node_of.now }
    ensures count { IfOk result (λ places. length places.items ≡ count) }
    ensures places { IfOk result (λ places. AreListed node_of.now (length node_of.now) places.items) }
{
    let mut places = empty_lists(alloc, count as usize)?;
    for place in 0..node_of.len() {
        places[node_of[place] as usize].push(place as u32)?;
    }
    Ok(places)
}

/// The node at each of some points, by place, and the places of the points at each node. Node 0 is the least point, and
/// the others follow in the order of points.
#[derive(Drop)]
pub struct Nodes {
    pub node_of: Vec<u32>,
    pub places: Vec<List<u32>>,
}

impl Nodes {
    /// The nodes of these points.
    pub fn of(alloc: Global, points: &[Point]) -> Result<Nodes, Memory>
        requires small { length points.now < 2 ^ 32 }
        ensures { IfOk result (λ nodes. AreNodes points.now nodes) }
    {
        let rows = in_order(alloc, points)?;
        let (node_of, count) = numbered(alloc, &rows)?;
        let places = places_by_node(alloc, &node_of, count)?;
        Ok(Nodes { node_of, places })
    }

    /// The node at a place.
    pub fn at(&self, place: u32) -> u32
        requires { place < length self.now.node_of.items }
        ensures { result ≡ node_at self.now place }
    {
        self.node_of[place as usize]
    }
}
