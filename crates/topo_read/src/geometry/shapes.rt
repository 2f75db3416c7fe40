//! What a geometry has by its type: polygons, or other geometries.

ghost use Rattle.std.specs.Prelude.{◌≡◌, ◌∷◌, [], codes, is_some, Ok};
ghost use Rattle.std.specs.Option.{ok_or};
ghost use Rattle.serde_json.specs.View.{view};
ghost use Rattle.serde_json.specs.Find.{as_object};
ghost use Rattle.tgap_model.specs.declared.fault.MapFault.TheVariants as fault;
ghost use Rattle.line_forms.specs.Json.{ensured};
ghost use Rattle.topology_forms.specs.Topology.{geometry_of, shapes_of};
ghost use Rattle.plain_io.specs.Taking.{GivesWhole};
ghost use Rattle.topo_read.specs.Walk.{viewed, named_type, members_read};

use crate::geometry::indexes::{found_in, read_polygons, read_rings};
use plain_io::json::{items_at, text_at};
use serde_json::Value;
use std::alloc::Global;
use tgap_model::{List, MapFault, Or};

/// What the type of a geometry is to the walk.
#[derive(Clone, Copy)]
pub enum GeometryType {
    Collection,
    Polygon,
    MultiPolygon,
    /// Points, lines, types that are not known, and none.
    Other,
}

/// The type of a geometry.
pub fn type_of(geometry: &Value) -> GeometryType
    ensures { named_type result ≡ geometry_of (view geometry.now) }
{
    match text_at(geometry, "type") {
        Some("GeometryCollection") => GeometryType::Collection,
        Some("Polygon") => GeometryType::Polygon,
        Some("MultiPolygon") => GeometryType::MultiPolygon,
        _ => GeometryType::Other,
    }
}

/// The geometries in a geometry of this type, which has this number.
pub fn members_of<'v>(
    geometry_type: GeometryType,
    geometry: &'v Value,
    number: u32,
) -> Result<&'v [Value], Or<MapFault>>
    ensures { GivesWhole (viewed result) (members_read (named_type geometry_type) number (view geometry.now)) }
{
    let none: &[Value] = &[];
    let members = match geometry_type {
        GeometryType::Collection => items_at(geometry, "geometries"),
        _ => Some(none),
    };
    match members {
        Some(members) if geometry.is_object() => Ok(members),
        _ => Err(Or::Fault(MapFault::Shape {
            place: 8,
            at: number,
        })),
    }
}

/// The rings of each polygon of a geometry of this type, which has this number.
pub fn read_shapes(
    alloc: Global,
    geometry_type: GeometryType,
    geometry: &Value,
    number: u32,
) -> Result<List<List<List<i64>>>, Or<MapFault>>
    ensures { GivesWhole result
        (ok_or (shapes_of (named_type geometry_type) (view geometry.now)) (fault.Shape 9 number)) }
{
    match geometry_type {
        GeometryType::Polygon => {
            let rings = found_in(number, geometry.get("arcs"))?;
            one_polygon(alloc, read_rings(alloc, rings, number)?)
        }
        GeometryType::MultiPolygon => {
            let polygons = found_in(number, geometry.get("arcs"))?;
            read_polygons(alloc, polygons, number)
        }
        GeometryType::Collection | GeometryType::Other => Ok(List::new(alloc)),
    }
}

/// A list of one polygon.
fn one_polygon(alloc: Global, rings: List<List<i64>>) -> Result<List<List<List<i64>>>, Or<MapFault>>
    ensures { GivesWhole result (Ok (rings ∷ [])) }
{
    let mut polygons = List::new(alloc);
    polygons.push(rings)?;
    Ok(polygons)
}
