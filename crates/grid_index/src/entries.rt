//! The boxes of edges, in their order or in one in which near ones stand beside one another.

ghost use Rattle.std.specs.Prelude.{◌≡◌, ◌<◌, length, map, All, AllPairs, IfOk, IsPermutation};
ghost use Rattle.grid_index.specs.Live.{AreLive, IsLiveEdge};
ghost use Rattle.grid_index.specs.Slots.{held, entry_of, edge_at, AreNear};

use crate::changes::place_of;
use crate::keys::KeyBox;
use crate::order::order_of;
use crate::segments::{Entry, NOWHERE};
use crate::window::segment_box;
use std::alloc::Global;
use tgap_model::{Edge, List, Memory, Point, Window};

/// The bounding box of some points. Only the order of edges, and so time, depends on it.
fn outline(points: &[Point]) -> Window {
    let mut all = NOWHERE;
    for point in points {
        all = Window {
            x0: all.x0.min(point.x),
            y0: all.y0.min(point.y),
            x1: all.x1.max(point.x),
            y1: all.y1.max(point.y),
        };
    }
    all
}

/// The bounding boxes of edges.
fn outlines(alloc: Global, edges: &[Edge]) -> Result<List<Window>, Memory>
    ensures { IfOk result (λ boxes. length boxes ≡ length edges.now) }
{
    let mut boxes = List::with_capacity(alloc, edges.len())?;
    for edge in edges {
        boxes.push(outline(edge.points.as_slice()))?;
    }
    Ok(boxes)
}

/// The boxes of edges.
pub fn entries_of(alloc: Global, edges: &[Edge]) -> Result<Vec<Option<Entry>>, Memory>
    requires { All IsLiveEdge edges.now }
    ensures held { IfOk result (λ entries. held entries.items ≡ map entry_of edges.now) }
    ensures len { IfOk result (λ entries. length entries.items ≡ length edges.now) }
{
    let mut entries = Vec::with_capacity(alloc, edges.len())?;
    for edge in edges {
        entries.push(Some(Entry::of(alloc, edge)?))?;
    }
    Ok(entries)
}

/// The boxes of the edges at these places.
fn entries_at(alloc: Global, edges: &[Edge], places: &[usize]) -> Result<Vec<Option<Entry>>, Memory>
    requires places { All (λ i. i < length edges.now) places.now }
    requires live { All IsLiveEdge edges.now }
    ensures { IfOk result (λ entries. held entries.items ≡ map (λ i. entry_of (edge_at edges.now i)) places.now) }
{
    let mut entries = Vec::with_capacity(alloc, places.len())?;
    for place in places {
        entries.push(Some(Entry::of(alloc, &edges[*place])?))?;
    }
    Ok(entries)
}

/// A box that meets that of a segment of the edge with this key, among edges whose keys ascend.
fn box_of_key(edges: &[Edge], key: u32) -> Window
    requires ascending { AllPairs (λ e f. e.key < f.key) edges.now }
    requires live { All IsLiveEdge edges.now }
    ensures { AreNear result key (map entry_of edges.now) }
{
    match place_of(edges, key) {
        Some(place) => {
            let points = edges[place].points.as_slice();
            segment_box(&points[0], &points[1])
        }
        None => NOWHERE,
    }
}

/// Each of these keys with such a box.
pub fn boxes_of_keys(alloc: Global, edges: &[Edge], keys: &[u32]) -> Result<Vec<KeyBox>, Memory>
    requires { AreLive edges.now }
    ensures keys { IfOk result (λ sought. map (λ s. s.key) sought.items ≡ keys.now) }
    ensures near { IfOk result (λ sought. All (λ s. AreNear s.area s.key (map entry_of edges.now)) sought.items) }
{
    let mut sought = Vec::with_capacity(alloc, keys.len())?;
    for key in keys {
        sought.push(KeyBox {
            key: *key,
            area: box_of_key(edges, *key),
        })?;
    }
    Ok(sought)
}

/// The boxes of edges, near ones beside one another.
pub fn entries_laid(alloc: Global, edges: &[Edge]) -> Result<Vec<Option<Entry>>, Memory>
    requires { All IsLiveEdge edges.now }
    ensures { IfOk result (λ entries. IsPermutation (map entry_of edges.now) (held entries.items)) }
{
    let boxes = outlines(alloc, edges)?;
    let order = order_of(alloc, boxes.as_slice())?;
    entries_at(alloc, edges, &order)
}
