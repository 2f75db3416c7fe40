//! What is counted, and its limits.

ghost use Rattle.std.specs.Prelude.{◌≡◌, ◌≤◌, ◌<◌, ◌^◌, length, sum_by, count_by, IfOk};
ghost use Rattle.tgap_model.specs.Limits.{limit_of};
ghost use Rattle.map_forms.specs.Listing.{within_limit};
ghost use Rattle.topology_forms.specs.Topology.{has_ring};
ghost use Rattle.plain_io.specs.Taking.{GivesWhole};

use tgap_model::{LimitKind, List, MapFault, Or, Point, RawPolygon};

/// The fault of a limit, where there are more than it allows.
pub fn within_limit(which: LimitKind, count: u64) -> Result<(), Or<MapFault>>
    ensures exact { GivesWhole result (within_limit which count) }
    ensures few { IfOk result (λ _. count ≤ limit_of which) }
{
    if count <= which.limit() as u64 {
        Ok(())
    } else {
        Err(Or::Fault(MapFault::Limit { which, count }))
    }
}

/// How many points these arcs have.
pub fn count_points(arcs: &[List<Point>]) -> u64
    requires { sum_by length arcs.now < 2 ^ 64 }
    ensures { result ≡ sum_by length arcs.now }
{
    arcs.iter().map(|points| points.len() as u64).sum()
}

/// How many of these polygons are faces: those with a ring.
pub fn count_faces(polygons: &[RawPolygon]) -> u64
    ensures { result ≡ count_by has_ring polygons.now }
{
    polygons
        .iter()
        .filter(|polygon| !polygon.rings.is_empty())
        .count() as u64
}
