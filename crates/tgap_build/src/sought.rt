//! The look-up of the edges by boxes, which a sweep asks. It is made when a step may remove a vertex for the first time.
//! The edges themselves stand in the table alone.

ghost use Rattle.std.specs.Prelude.{◌≡◌, ◌<◌, ◌-◌, ◌^◌, ℕ, Some, true, List as Sequence, Option as Maybe, map, length, All, AllPairs, Contains, IfOk, OnOk};
ghost use Rattle.tgap_model.specs.declared.slice.Edge.{Edge as Line};
ghost use Rattle.tgap_model.specs.Removals.{has_side, sweep};
ghost use Rattle.grid_index.specs.Keyed.{AreAtKeys};
ghost use Rattle.grid_index.specs.Live.{AreLive};
ghost use Rattle.point_rope.specs.Held.{IsHeld};
ghost use Rattle.vertex_drop.specs.Corners.{has_small_corner};
ghost use Rattle.tgap_build.specs.Queues.{IsBeside};
ghost use Rattle.tgap_build.specs.Sought.{IsBoxedAt, AreBoxed, IsSought, HasRoom, AreSameBut};
ghost use Rattle.tgap_build.specs.Table.{labelled_edges};

use crate::edge_table::EdgeTable;
use crate::live_ropes::LiveRopes;
use grid_index::EdgeBoxes;
use point_rope::{RopeEdge, no_bounds};
use std::alloc::Global;
use tgap_model::{Edge, List, Memory, Removal, Window};
use vertex_drop::sweep_some;

/// A box that holds the points of the edge at a place, where there is one. Else it meets nothing.
fn box_of(place: &Option<RopeEdge>) -> Window
    ensures { (e : Line) → place.now ≡ Some e → All (IsHeld result) e.points }
{
    match place {
        Some(edge) => edge.row().bounds(),
        None => no_bounds(),
    }
}

/// Such a box for each place.
fn boxes_of(alloc: Global, places: &[Option<RopeEdge>]) -> Result<List<Window>, Memory>
    ensures { IfOk result (AreBoxed places.now) }
{
    let mut boxes = List::with_capacity(alloc, places.len())?;
    for place in places {
        boxes.push(box_of(place))?;
    }
    Ok(boxes)
}

/// Takes the box of a key out of the look-up, where no edge has the key.
fn forget(alloc: Global, boxes: &mut EdgeBoxes, edges: &EdgeTable, key: u32)
    requires { length boxes.old ≡ length edges.now.places.items }
    ensures kept { (k : ℕ) → IsBoxedAt edges.now.places.items boxes.old k → IsBoxedAt edges.now.places.items boxes.new k }
    ensures room { length boxes.new ≡ length boxes.old }
{
    if let Some(None) = edges.places().get(key as usize) {
        boxes.set(alloc, key, no_bounds());
    }
}

/// Takes the boxes of those of these keys out that no edge has.
fn forget_keys(alloc: Global, boxes: &mut EdgeBoxes, edges: &EdgeTable, keys: &[u32])
    requires { length boxes.old ≡ length edges.now.places.items }
    ensures kept { (k : ℕ) → IsBoxedAt edges.now.places.items boxes.old k → IsBoxedAt edges.now.places.items boxes.new k }
    ensures room { length boxes.new ≡ length boxes.old }
{
    for key in keys {
        forget(alloc, boxes, edges, *key);
    }
}

/// Takes the boxes of edges out that ended.
fn forget_ended(alloc: Global, boxes: &mut EdgeBoxes, edges: &EdgeTable, ended: &[Edge])
    requires { length boxes.old ≡ length edges.now.places.items }
    ensures kept { (k : ℕ) → IsBoxedAt edges.now.places.items boxes.old k → IsBoxedAt edges.now.places.items boxes.new k }
    ensures room { length boxes.new ≡ length boxes.old }
{
    for edge in ended {
        forget(alloc, boxes, edges, edge.key);
    }
}

/// Makes the box of the edge with a key anew, if there is one.
fn renew(alloc: Global, boxes: &mut EdgeBoxes, edges: &EdgeTable, key: u32)
    requires { length boxes.old ≡ length edges.now.places.items }
    ensures here { IsBoxedAt edges.now.places.items boxes.new key }
    ensures kept { (k : ℕ) → IsBoxedAt edges.now.places.items boxes.old k → IsBoxedAt edges.now.places.items boxes.new k }
    ensures room { length boxes.new ≡ length boxes.old }
{
    if let Some(place) = edges.places().get(key as usize) {
        boxes.set(alloc, key, box_of(place));
    }
}

/// Makes the boxes of the edges with these keys anew.
fn renew_keys(alloc: Global, boxes: &mut EdgeBoxes, edges: &EdgeTable, keys: &[u32])
    requires { length boxes.old ≡ length edges.now.places.items }
    ensures here { All (IsBoxedAt edges.now.places.items boxes.new) keys.now }
    ensures kept { (k : ℕ) → IsBoxedAt edges.now.places.items boxes.old k → IsBoxedAt edges.now.places.items boxes.new k }
    ensures room { length boxes.new ≡ length boxes.old }
{
    for key in keys {
        renew(alloc, boxes, edges, *key);
    }
}

/// Brings the look-up, where there is one, up to a table in which edges with the keys of `come` are new or have other
/// points, and those with the keys of `joined` and those of `ended` may be gone. It takes no memory, and the time of a box
/// for each of them, and of the runs of those that came.
pub fn sought_after(
    alloc: Global,
    sought: &mut Option<EdgeBoxes>,
    edges: &EdgeTable,
    joined: &[u32],
    ended: &[Edge],
    come: &[u32],
)
    requires { HasRoom (length edges.now.places.items) sought.old }
    ensures { (before : Sequence (Maybe Line)) → IsSought before sought.old → AreSameBut come.now before edges.now.places.items
        → IsSought edges.now.places.items sought.new }
{
    let Some(mut boxes) = sought.take() else {
        return;
    };
    forget_keys(alloc, &mut boxes, edges, joined);
    forget_ended(alloc, &mut boxes, edges, ended);
    renew_keys(alloc, &mut boxes, edges, come);
    *sought = Some(boxes);
}

/// The look-up of the edges, which is made where there is none.
fn look_up(alloc: Global, sought: Option<EdgeBoxes>, edges: &EdgeTable) -> Result<EdgeBoxes, Memory>
    requires sought { IsSought edges.now.places.items sought }
    requires few { length edges.now.places.items < 2 ^ 32 - 1 }
    ensures { IfOk result (AreBoxed edges.now.places.items) }
{
    match sought {
        Some(boxes) => Ok(boxes),
        None => EdgeBoxes::of(alloc, &boxes_of(alloc, edges.places())?),
    }
}

/// What a step removes of the edges, which have labels: `made` is that of the new face, `keys` are those of edges
/// that have it, all that have a corner which is small enough among them, and `loser_area` is twice the area of the
/// loser. It is what `sweep` tells of all edges. Where there is no key, nothing is looked up.
pub fn swept(
    alloc: Global,
    edges: &EdgeTable,
    sought: &mut Option<EdgeBoxes>,
    keys: &[u32],
    made: u32,
    loser_area: i128,
    ratio: u32,
    step: u32,
) -> Result<List<Removal>, Memory>
    requires keyed { AreAtKeys edges.now.places.items }
    requires sought { IsSought edges.now.places.items sought.old }
    requires few { length edges.now.places.items < 2 ^ 32 - 1 }
    requires live { AreLive (labelled_edges edges.now) }
    requires ascending { AllPairs (λ j k. j < k) keys.now }
    requires there { All (IsBeside (labelled_edges edges.now) made) keys.now }
    requires small { (e : Line) → Contains (labelled_edges edges.now) e → has_side made e ≡ true
        → has_small_corner ratio loser_area e.points ≡ true → Contains keys.now e.key }
    ensures removals { IfOk result (λ removals. removals ≡ map (λ p. record { point = p; step = step }) (sweep ratio loser_area made (labelled_edges edges.now))) }
    ensures sought { OnOk result (IsSought edges.now.places.items sought.new) }
{
    if keys.is_empty() {
        return Ok(List::new(alloc));
    }
    let boxes = look_up(alloc, sought.take(), edges)?;
    let live = LiveRopes::of(edges.places(), &boxes);
    let removals = sweep_some(alloc, &live, keys, made, loser_area, ratio, step)?;
    *sought = Some(boxes);
    Ok(removals)
}
