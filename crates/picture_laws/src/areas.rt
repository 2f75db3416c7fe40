//! Laws of areas: what the vertex removal moves from one face to another.

ghost use Rattle.picture_laws.specs.Areas.{RemovalMovesTriangle, SweepMovesTriangles, BaseAreasAdd, AreasLessTriangles, FacesStayNear};

/// Where a vertex is taken out of an edge, its triangle goes from the face at one side of the edge to the face at the other.
pub fn removal_moves_triangle()
    ensures { RemovalMovesTriangle }
{}

/// The sweep of a step moves the triangles of all vertices that it takes out.
pub fn sweep_moves_triangles()
    ensures { SweepMovesTriangles }
{}

/// Twice the area of a face after some steps, from the labels of all arcs, is that of its base faces together.
pub fn base_areas_add()
    ensures { BaseAreasAdd }
{}

/// A face of a slice has the area of its base faces, less the triangles that it lost, those that it got being negative.
pub fn areas_less_triangles()
    ensures { AreasLessTriangles }
{}

/// So it differs from that area by no more than the areas of the triangles of the vertices that were removed along it.
pub fn faces_stay_near()
    ensures { FacesStayNear }
{}
