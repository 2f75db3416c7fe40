//! The walk over the geometries of a topology: how far it is, and the polygons that were met.

ghost use Rattle.std.specs.Prelude.{◌≡◌, ◌≤◌, IsTrue};
ghost use Rattle.std.specs.List.{list_all};
ghost use Rattle.serde_json.specs.View.{view};
ghost use Rattle.line_forms.specs.Json.{try_fold};
ghost use Rattle.topology_forms.specs.Topology.{no_geometries, kind_of, polygon_read};
ghost use Rattle.plain_io.specs.Taking.{LeavesWhole};
ghost use Rattle.topo_read.specs.Walk.{walk_of, are_raw};

use crate::geometry::indexes::check_rings;
use crate::geometry::kind::{kind_of, property_of};
use serde_json::Value;
use std::alloc::Global;
use tgap_model::{List, MAX_ARCS, MapFault, Or, RawPolygon, Text};

/// A walk over geometries. Its numbers stay where 32 bits end.
#[derive(Drop)]
pub struct Walk {
    /// How many geometries were met.
    pub geometries: u32,
    /// How many rings the polygons have.
    pub rings: u32,
    /// The polygons that were met.
    pub polygons: List<RawPolygon>,
}

impl Walk {
    /// The walk that has met none.
    pub fn new(alloc: Global) -> Walk
        ensures { walk_of result ≡ no_geometries }
    {
        Walk {
            geometries: 0,
            rings: 0,
            polygons: List::new(alloc),
        }
    }
}

/// Puts the polygons of a geometry after those before. Each has a copy of what the geometry has for the property.
pub fn push_polygons(
    alloc: Global,
    geometry: &Value,
    arcs: usize,
    property: &str,
    shapes: List<List<List<i64>>>,
    walk: &mut Walk,
) -> Result<(), Or<MapFault>>
    requires few { arcs ≤ MAX_ARCS }
    requires raw { IsTrue (are_raw arcs walk.old.polygons) }
    ensures pushed { LeavesWhole result (walk_of walk.new)
        (try_fold (polygon_read arcs (kind_of property.now (view geometry.now))) (walk_of walk.old) shapes) }
    ensures raw { IsTrue (are_raw arcs walk.new.polygons) }
{
    let value = property_of(geometry, property);
    for rings in shapes.into_vec() {
        let kind = kind_of(alloc, value)?;
        push_polygon(arcs, kind, rings, walk)?;
    }
    Ok(())
}

/// Puts a polygon after those before, where each index of its rings names an arc.
#[tactic(auto, unfolding(topology_forms::specs::Topology::polygon_read))]
fn push_polygon(
    arcs: usize,
    kind: Option<Text>,
    rings: List<List<i64>>,
    walk: &mut Walk,
) -> Result<(), Or<MapFault>>
    requires few { arcs ≤ MAX_ARCS }
    requires raw { IsTrue (are_raw arcs walk.old.polygons) }
    ensures pushed { LeavesWhole result (walk_of walk.new) (polygon_read arcs kind (walk_of walk.old) rings) }
    ensures raw { IsTrue (are_raw arcs walk.new.polygons) }
{
    let first_ring = walk.rings;
    let rings_after = check_rings(arcs, first_ring, rings.as_slice())?;
    walk.polygons.push(RawPolygon {
        kind,
        first_ring,
        rings,
    })?;
    walk.rings = rings_after;
    Ok(())
}
