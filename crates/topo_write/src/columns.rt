//! Between which abscissas rings lie.

ghost use Rattle.std.specs.Prelude.{◌≡◌, ◌<◌, length, All, IfOk};
ghost use Rattle.tgap_model.specs.Bounds.{HasNearEnds};
ghost use Rattle.ring_walk.specs.Spans.{IsRing};
ghost use Rattle.topo_write.specs.Building.{AreColumns, HoldsPoint, HoldsRing, IsLine, IsWider, column_of};
ghost use Rattle.topo_write.specs.Polygons.{lines_of};

use crate::probe::points_at;
use ring_walk::Side;
use std::alloc::Global;
use tgap_model::{Edge, List, Memory, Point, Seg, Window};

/// The box of the line of a probe. Of a box only the abscissas count here, and each has the ordinate 0.
pub fn column_of(probe: Seg) -> Window
    requires { HasNearEnds probe }
    ensures { result ≡ column_of probe }
{
    Window {
        x0: probe.a.x.min(probe.b.x),
        y0: 0,
        x1: probe.a.x.min(probe.b.x),
        y1: 0,
    }
}

/// The box, with the abscissa of a point.
fn with_point(columns: Window, point: Point) -> Window
    ensures wider { IsWider result columns }
    ensures point { HoldsPoint result point }
{
    Window {
        x0: columns.x0.min(point.x),
        y0: columns.y0,
        x1: columns.x1.max(point.x),
        y1: columns.y1,
    }
}

/// The box, with the abscissas of some points.
fn with_points(columns: Window, points: &[Point]) -> Window
    ensures wider { IsWider result columns }
    ensures points { All (HoldsPoint result) points.now }
{
    let mut wider = columns;
    for point in points {
        wider = with_point(wider, *point);
    }
    wider
}

/// The box of the abscissas of a ring.
fn columns_of(edges: &[Edge], ring: &[Side]) -> Window
    requires lines { All (λ e. IsLine e.points) edges.now }
    requires ring { IsRing (length edges.now) ring.now }
    ensures { HoldsRing (lines_of edges.now) ring.now result }
{
    let mut columns = Window {
        x0: i64::MAX,
        y0: 0,
        x1: i64::MIN,
        y1: 0,
    };
    for side in ring {
        columns = with_points(columns, points_at(edges, *side));
    }
    columns
}

/// The boxes of the abscissas of the rings at these places.
pub fn all_columns(
    alloc: Global,
    edges: &[Edge],
    rings: &[List<Side>],
    places: &[u32],
) -> Result<List<Window>, Memory>
    requires lines { All (λ e. IsLine e.points) edges.now }
    requires rings { All (IsRing (length edges.now)) rings.now }
    requires places { All (λ p. p < length rings.now) places.now }
    ensures { IfOk result (AreColumns (lines_of edges.now) rings.now places.now) }
{
    let mut boxes = List::with_capacity(alloc, places.len())?;
    for place in places {
        boxes.push(columns_of(edges, rings[*place as usize].as_slice()))?;
    }
    Ok(boxes)
}
