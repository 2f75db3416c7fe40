//! Laws of the face at a point.

ghost use Rattle.picture_laws.specs.PlaceLaws.{LowestEdgeTellsFace, LowestEdgeTellsFaceBeside, WindowHasEdgesWithin, WindowHasLowestEdge, WindowTellsFace};

/// A point between whole abscissas, off all edges, is inside the face below the lowest segment over it, and inside no other.
pub fn lowest_edge_tells_face()
    ensures { LowestEdgeTellsFace }
{}

/// So are the points just right of any point that is off all edges, whatever its abscissa: where vertices have it, a segment counts
/// from its left end on.
pub fn lowest_edge_tells_face_beside()
    ensures { LowestEdgeTellsFaceBeside }
{}

/// A window has every edge of the slice that has a point in its area.
pub fn window_has_edges_within()
    ensures { WindowHasEdgesWithin }
{}

/// A window that goes from a point up over the whole map, of width 0 too, has the lowest segment over the point that the slice has.
pub fn window_has_lowest_edge()
    ensures { WindowHasLowestEdge }
{}

/// So where no edge in it goes through the point, it tells the face at the points just right of the point.
pub fn window_tells_face()
    ensures { WindowTellsFace }
{}
