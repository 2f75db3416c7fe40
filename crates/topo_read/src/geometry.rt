//! The polygons of a topology: a walk over its geometries, by TopoJSON 1.0, section 2.2.

ghost use Rattle.std.specs.Prelude.{◌≡◌, ◌≤◌, IfOk, IsTrue, Ok};
ghost use Rattle.std.specs.List.{list_all};
ghost use Rattle.serde_json.specs.View.{view};
ghost use Rattle.line_forms.specs.Lines.{◌>>=◌ as ◌or>>=◌};
ghost use Rattle.topology_forms.specs.Topology.{no_geometries, geometry_read};
ghost use Rattle.topology_forms.specs.Rings.{is_raw_ring};
ghost use Rattle.plain_io.specs.Taking.{Gives, GivesWhole, LeavesWhole};
ghost use Rattle.topo_read.specs.Walk.{walk_of, are_raw, viewed, own_read};

mod indexes;
mod kind;
mod shapes;
mod walk;

use serde_json::Value;
use shapes::{members_of, read_shapes, type_of};
use std::alloc::Global;
use tgap_model::{List, MAX_ARCS, MapFault, Or, RawPolygon};
use walk::{Walk, push_polygons};

/// How deep geometries are followed. The values of a JSON text that was read nest less deep.
const MAX_DEPTH: u32 = 128;

/// The polygons of a geometry, and of those in it, in the order in which they are met. The topology has `arcs` arcs, and
/// `property` is what names the classes of its geometries. It is one pass over the geometries and their indexes.
///
/// The faults come in the order of the walk, geometries and rings being numbered from 0 on as they are met:
/// - `Shape` 8, where a geometry is something other than an object, or a collection has no array of geometries;
/// - `Shape` 9, where the indexes of a geometry are no arrays of whole numbers, nested as its type asks;
/// - `ArcIndex`, at the first index of its rings that names no arc.
pub(crate) fn read_geometry(
    alloc: Global,
    geometry: &Value,
    arcs: usize,
    property: &str,
) -> Result<List<RawPolygon>, Or<MapFault>>
    requires few { arcs ≤ MAX_ARCS }
    ensures walked { GivesWhole result
        (geometry_read 128 arcs property.now no_geometries (view geometry.now) or>>= λ walk. Ok walk.polygons) }
    ensures rings { IfOk result
        (λ polygons. IsTrue (list_all (λ p. list_all (is_raw_ring arcs) p.rings) polygons)) }
{
    let mut walk = Walk::new(alloc);
    walk_geometry(alloc, geometry, MAX_DEPTH, arcs, property, &mut walk)?;
    Ok(walk.polygons)
}

/// Walks over a geometry and those in it, at most so deep.
fn walk_geometry(
    alloc: Global,
    geometry: &Value,
    depth: u32,
    arcs: usize,
    property: &str,
    walk: &mut Walk,
) -> Result<(), Or<MapFault>>
    requires few { arcs ≤ MAX_ARCS }
    requires raw { IsTrue (are_raw arcs walk.old.polygons) }
    ensures walked { LeavesWhole result (walk_of walk.new)
        (geometry_read depth arcs property.now (walk_of walk.old) (view geometry.now)) }
    ensures raw { IsTrue (are_raw arcs walk.new.polygons) }
{
    if depth == 0 {
        return Ok(());
    }
    let members = meet(alloc, geometry, arcs, property, walk)?;
    for member in members {
        walk_geometry(alloc, member, depth - 1, arcs, property, walk)?;
    }
    Ok(())
}

/// Meets a geometry: its own polygons are put after those before, and the geometries in it are given.
#[tactic(auto, unfolding(crate::specs::Walk::own_read))]
fn meet<'v>(
    alloc: Global,
    geometry: &'v Value,
    arcs: usize,
    property: &str,
    walk: &mut Walk,
) -> Result<&'v [Value], Or<MapFault>>
    requires few { arcs ≤ MAX_ARCS }
    requires raw { IsTrue (are_raw arcs walk.old.polygons) }
    ensures met { Gives (viewed result) (walk_of walk.new)
        (own_read arcs property.now (walk_of walk.old) (view geometry.now)) }
    ensures raw { IsTrue (are_raw arcs walk.new.polygons) }
{
    let geometry_type = type_of(geometry);
    let members = members_of(geometry_type, geometry, walk.geometries)?;
    let shapes = read_shapes(alloc, geometry_type, geometry, walk.geometries)?;
    walk.geometries = walk.geometries.saturating_add(1);
    push_polygons(alloc, geometry, arcs, property, shapes, walk)?;
    Ok(members)
}
