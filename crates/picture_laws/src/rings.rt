//! Laws of the rings of a face.

ghost use Rattle.picture_laws.specs.FaceRings.{RingsCoverFaces, RingsWindOnce, RingAreasAdd, RingAreasFollowWinding, RingAreasGrow, RingsAreClosed, RingsWindAlike, RingsPassEdges, RingsOfFacePass, RingsApartPass};

/// A point is inside a face of a slice exactly where the ray up from it crosses an odd number of the segments of the face's rings.
pub fn rings_cover_faces()
    ensures { RingsCoverFaces }
{}

/// Between whole abscissas the rings of a face together go round each point inside it once, counter-clockwise, and round no other.
pub fn rings_wind_once()
    ensures { RingsWindOnce }
{}

/// The areas of the rings of a face together, of which those round holes are negative, are the area of the face.
pub fn ring_areas_add()
    ensures { RingAreasAdd }
{}

/// Rings that go round no point more often than others have no greater area together: so one that goes round none clockwise has no
/// negative area.
pub fn ring_areas_follow_winding()
    ensures { RingAreasFollowWinding }
{}

/// And where these go round some point midway between two whole abscissas less often, they have less area together.
pub fn ring_areas_grow()
    ensures { RingAreasGrow }
{}

/// A ring of a slice is closed: at each point as many of its segments begin as end.
pub fn rings_are_closed()
    ensures { RingsAreClosed }
{}

/// A ring of a slice goes equally often round two points where no segment of it meets the straight way between them.
pub fn rings_wind_alike()
    ensures { RingsWindAlike }
{}

/// Along an edge of a slice a ring that has none of its sides goes round each point equally often.
pub fn rings_pass_edges()
    ensures { RingsPassEdges }
{}

/// So of two rings of one face the one goes equally often round all points of an edge of the other.
pub fn rings_of_face_pass()
    ensures { RingsOfFacePass }
{}

/// And of two rings without a common node the one goes equally often round all points of the other.
pub fn rings_apart_pass()
    ensures { RingsApartPass }
{}
