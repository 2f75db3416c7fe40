//! Laws of the polygons of a face.

ghost use Rattle.picture_laws.specs.FacePolygons.{PolygonsCoverFaces, PolygonsWindOnce, OnePolygonIsItsFace};

/// A point is inside a face of a slice exactly where it is in an odd number of the polygons that the face is exported as.
pub fn polygons_cover_faces()
    ensures { PolygonsCoverFaces }
{}

/// Between whole abscissas these polygons together go round each point inside the face once, counter-clockwise, and round no other.
pub fn polygons_wind_once()
    ensures { PolygonsWindOnce }
{}

/// So a face that is one polygon is what this polygon encloses.
pub fn one_polygon_is_its_face()
    ensures { OnePolygonIsItsFace }
{}
