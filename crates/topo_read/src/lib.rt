//! A topology as it is read: TopoJSON 1.0 with whole positions. It stands on `topology_forms`, whose `Topology` says what the
//! bytes of a file tell and what their first fault is, and on `plain_io`, which reads a JSON value and looks into it.
#![tactic(auto)]

ghost use Rattle.std.specs.Prelude.{◌≡◌, ◌≤◌, ◌<◌, ◌^◌, IfOk, IsTrue};
ghost use Rattle.serde_json.specs.View.{view};
ghost use Rattle.topology_forms.specs.Topology.{topology, topology_of};
ghost use Rattle.topology_forms.specs.Rings.{is_raw_map};
ghost use Rattle.plain_io.specs.Taking.{GivesWhole};
ghost use Rattle.topo_read.specs.Parts.{map_of, parts_of, parts_seen};
ghost use Rattle.topo_read.specs.Seen.{GivesSeen};
ghost use Rattle.topo_read.specs.Sizes.{size, count_positions};

mod arc;
mod fault;
mod geometry;
mod limit;
mod object;
mod transform;

use arc::read_arcs;
use fault::shape;
use geometry::read_geometry;
use limit::{count_faces, count_points, within_limit};
use object::{check_format, chosen, object_at};
use plain_io::json::{items_at, read_tree};
use serde_json::Value;
use std::alloc::Global;
use tgap_model::{LimitKind, MapFault, Or};
pub use tgap_model::{RawMap, RawPolygon};
use transform::{Positions, quantized};

/// The arcs and polygons of a topology (TopoJSON 1.0), by 'The order of faults of a topology' of docs/formats.md.
///
/// `object` is the name of the object that is read, or `-` for the only one; `property` is what names the classes of its
/// geometries. It is kept: the transform, where it is four whole numbers of 32 bits; each arc with absolute positions,
/// a position that repeats the one before it left out; and each polygon with its class name and its rings. Bounding
/// boxes, identifiers, other properties and geometries of other types are nothing to the map.
///
/// The faults, of which the first is told: `NotJson` where the bytes are no JSON; `Shape` where a part has not the shape
/// of one of a topology; `NoObject` where there is no object of that name; `ManyObjects` where the only object is asked
/// for and there are several; `Limit` for more arcs, points or faces than a map may have; `NotWhole` for a position whose
/// numbers are not whole; `OutOfRange` for one outside the limits; `ArcShort` for an arc of fewer than two positions; and
/// `ArcIndex` for an index of a ring that names no arc. It is one pass over the JSON value, in memory of a small multiple
/// of that value.
pub fn read_topology(
    alloc: Global,
    bytes: &[u8],
    object: &str,
    property: &str,
) -> Result<RawMap, Or<MapFault>>
    // The topology, or the first fault, by the function that computes on small files.
    ensures exact { GivesWhole result (topology bytes.now object.now property.now) }
    // What is read keeps to the limits, and each index of a ring names an arc.
    ensures form { IfOk result (λ raw. IsTrue (is_raw_map raw)) }
{
    match read_tree(alloc, bytes)? {
        Some(tree) => read_map(alloc, &tree, object, property),
        None => Err(Or::Fault(MapFault::NotJson)),
    }
}

/// The topology that a JSON value tells, or its first fault.
fn read_map(
    alloc: Global,
    tree: &Value,
    object: &str,
    property: &str,
) -> Result<RawMap, Or<MapFault>>
    requires { size (view tree.now) ≤ 2 ^ 64 }
    ensures exact { GivesWhole result (topology_of (view tree.now) object.now property.now) }
    ensures form { IfOk result (λ raw. IsTrue (is_raw_map raw)) }
{
    let parts = parts_of(tree, object)?;
    read_parts(alloc, &parts, property)
}

/// What of a topology its map is read from.
#[derive(Drop)]
struct Parts<'v> {
    positions: Positions,
    arcs: &'v [Value],
    geometry: &'v Value,
}

/// The parts of a topology, with the object of this name chosen.
#[tactic(auto, unfolding(crate::specs::Parts::parts_of))]
fn parts_of<'v>(tree: &'v Value, object: &str) -> Result<Parts<'v>, Or<MapFault>>
    ensures { GivesSeen parts_seen result (parts_of (view tree.now) object.now) }
{
    check_format(tree)?;
    let objects = object_at(tree, "objects").ok_or(shape(3, 0))?;
    let arcs = items_at(tree, "arcs").ok_or(shape(4, 0))?;
    let positions = quantized(tree).ok_or(shape(5, 0))?;
    let geometry = chosen(objects, object)?;
    Ok(Parts {
        positions,
        arcs,
        geometry,
    })
}

/// The map of these parts.
#[tactic(auto, unfolding(crate::specs::Parts::map_of))]
fn read_parts(alloc: Global, parts: &Parts<'_>, property: &str) -> Result<RawMap, Or<MapFault>>
    requires { count_positions (parts_seen parts.now).arcs < 2 ^ 64 }
    ensures exact { GivesWhole result (map_of (parts_seen parts.now) property.now) }
    ensures form { IfOk result (λ raw. IsTrue (is_raw_map raw)) }
{
    within_limit(LimitKind::Arcs, parts.arcs.len() as u64)?;
    let arcs = read_arcs(alloc, parts.positions.deltas, parts.arcs)?;
    within_limit(LimitKind::Points, count_points(arcs.as_slice()))?;
    let polygons = read_geometry(alloc, parts.geometry, arcs.len(), property)?;
    within_limit(LimitKind::Faces, count_faces(polygons.as_slice()))?;
    Ok(RawMap {
        transform: parts.positions.transform,
        arcs,
        polygons,
    })
}
