//! A slice as a TopoJSON text, which the program reads again. It stands on `ring_walk`, whose rings are the polygons.
#![tactic(auto)]

ghost use Rattle.plain_io.specs.Taking.{GivesWhole};
ghost use Rattle.topo_write.specs.Building.{HaveEnds};
ghost use Rattle.topo_write.specs.Flats.{ShowsFlat};
ghost use Rattle.topo_write.specs.Topology.{export};

mod areas;
mod columns;
mod flat;
mod groups;
mod home;
mod homes;
mod measured;
mod part;
mod parts;
mod probe;
mod segments;
mod spans;
mod text;

use crate::measured::measure;
use crate::parts::parts_of;
use crate::text::topology_text;
pub use flat::FlatRing;
use ring_walk::EdgeEnds;
use std::alloc::Global;
use tgap_model::{List, Or, Slice, Text, Transform};

/// The text of a slice as a topology (TopoJSON 1.0): compact JSON with the edges as arcs, in grid units, and a polygon for each
/// part of each face, which has its holes. `ends` are the directions in which its edges leave their nodes in the base map. A
/// face with a ring of area 0, or with no ring of positive area, is no polygon: the first such one is the fault.
///
/// It takes a sort of the sides round their nodes, and otherwise a walk over the points, but for faces of several parts: there
/// each hole is tried with those outer rings that have the abscissa of its first segment that is not vertical.
pub fn topo_of(
    alloc: Global,
    slice: &Slice,
    ends: &List<EdgeEnds>,
    transform: Transform,
) -> Result<Text, Or<FlatRing>>
    requires { HaveEnds slice.now.edges ends.now }
    // It is the text by the definition; or the first face that is no polygon.
    ensures exact { GivesWhole result (export slice.now ends.now transform) }
    // That is one with a ring of area 0, or with none of positive area. It comes exactly where there is such a face, with the
    // key of its first ring of area 0, or else of its first ring.
    ensures flat { ShowsFlat slice.now ends.now result }
{
    let edges = slice.edges.as_slice();
    let rows = slice.faces.as_slice();
    let rings = measure(alloc, edges, ends.as_slice())?;
    if let Some(flat) = flat::flat_of(edges, &rings, rows) {
        return Err(Or::Fault(flat));
    }
    let parts = parts_of(alloc, edges, &rings, rows)?;
    Ok(topology_text(alloc, edges, rings.rings.as_slice(), &parts, transform)?)
}
