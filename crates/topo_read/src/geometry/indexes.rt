//! The indexes of rings: how they are read, and whether they name arcs.

ghost use Rattle.std.specs.Prelude.{◌≡◌, ◌≤◌, IfOk, IsTrue};
ghost use Rattle.std.specs.List.{list_all};
ghost use Rattle.std.specs.Option.{ok_or};
ghost use Rattle.serde_json.specs.View.{view};
ghost use Rattle.tgap_model.specs.declared.fault.MapFault.TheVariants as fault;
ghost use Rattle.tgap_model.specs.declared.failure.Or.TheVariants as or;
ghost use Rattle.line_forms.specs.Json.{try_fold};
ghost use Rattle.topology_forms.specs.Topology.{ring_of, rings_of, polygons_of, names_arc, index_read, ring_read};
ghost use Rattle.topology_forms.specs.Rings.{is_raw_ring};
ghost use Rattle.plain_io.specs.Taking.{GivesWhole};

use plain_io::json::{items_of, whole_of};
use serde_json::Value;
use std::alloc::Global;
use tgap_model::{List, MAX_ARCS, MapFault, Or};

/// What was found in the indexes of the geometry with this number, or the fault that they are not of their form.
pub fn found_in<T>(geometry: u32, found: Option<T>) -> Result<T, Or<MapFault>>
    ensures { result ≡ ok_or found (or.Fault (fault.Shape 9 geometry)) }
{
    match found {
        Some(value) => Ok(value),
        None => Err(Or::Fault(MapFault::Shape {
            place: 9,
            at: geometry,
        })),
    }
}

/// The indexes of a ring of the geometry with this number.
fn read_ring(alloc: Global, ring: &Value, geometry: u32) -> Result<List<i64>, Or<MapFault>>
    ensures { GivesWhole result (ok_or (ring_of (view ring.now)) (fault.Shape 9 geometry)) }
{
    let items = found_in(geometry, items_of(ring))?;
    let mut indexes = List::with_capacity(alloc, items.len())?;
    for item in items {
        let index = found_in(geometry, whole_of(item))?;
        indexes.push(index)?;
    }
    Ok(indexes)
}

/// The rings of a polygon of the geometry with this number.
pub fn read_rings(
    alloc: Global,
    polygon: &Value,
    geometry: u32,
) -> Result<List<List<i64>>, Or<MapFault>>
    ensures { GivesWhole result (ok_or (rings_of (view polygon.now)) (fault.Shape 9 geometry)) }
{
    let items = found_in(geometry, items_of(polygon))?;
    let mut rings = List::with_capacity(alloc, items.len())?;
    for item in items {
        let ring = read_ring(alloc, item, geometry)?;
        rings.push(ring)?;
    }
    Ok(rings)
}

/// The rings of several polygons of the geometry with this number.
pub fn read_polygons(
    alloc: Global,
    value: &Value,
    geometry: u32,
) -> Result<List<List<List<i64>>>, Or<MapFault>>
    ensures { GivesWhole result (ok_or (polygons_of (view value.now)) (fault.Shape 9 geometry)) }
{
    let items = found_in(geometry, items_of(value))?;
    let mut polygons = List::with_capacity(alloc, items.len())?;
    for item in items {
        let rings = read_rings(alloc, item, geometry)?;
        polygons.push(rings)?;
    }
    Ok(polygons)
}

/// The number of the ring after these rings, of which the first has number `first`, where each of their indexes names
/// one of so many arcs.
pub fn check_rings(arcs: usize, first: u32, rings: &[List<i64>]) -> Result<u32, Or<MapFault>>
    requires few { arcs ≤ MAX_ARCS }
    ensures checked { GivesWhole result (try_fold (ring_read arcs) first rings.now) }
    ensures raw { IfOk result (λ _. IsTrue (list_all (is_raw_ring arcs) rings.now)) }
{
    let mut number = first;
    for ring in rings {
        number = check_ring(arcs, number, ring.as_slice())?;
    }
    Ok(number)
}

/// The number after that of this ring, where each of its indexes names one of so many arcs.
fn check_ring(arcs: usize, ring: u32, indexes: &[i64]) -> Result<u32, Or<MapFault>>
    requires few { arcs ≤ MAX_ARCS }
    ensures checked { GivesWhole result (ring_read arcs ring indexes.now) }
    ensures raw { IfOk result (λ _. IsTrue (is_raw_ring arcs indexes.now)) }
{
    // Places are told in 32 bits. No file within its limit has a ring of so many, but nothing says so of a JSON value
    // alone: such a ring is taken for one that memory does not hold.
    if indexes.len() >= u32::MAX as usize {
        return Err(Or::Memory);
    }
    for (place, index) in indexes.iter().enumerate() {
        if !names_arc(arcs, *index) {
            return Err(Or::Fault(MapFault::ArcIndex {
                ring,
                place: place as u32,
                index: *index,
            }));
        }
    }
    Ok(ring.saturating_add(1))
}

/// Whether an index names one of so many arcs: `i` names arc `i`, and a negative `i` arc `-i - 1`.
fn names_arc(arcs: usize, index: i64) -> bool
    requires { arcs ≤ MAX_ARCS }
    ensures { result ≡ names_arc arcs index }
{
    let arcs = arcs as i64;
    -arcs <= index && index < arcs
}
