//! Laws of the slices of a planar partition, whatever its ratio.

ghost use Rattle.step_laws.specs.StepLaws.{SlicesStayPlanar, SlicesStayPartitions, FacesStayUnions};

/// At every step the segments have no point in common but permitted ones, the two faces of an edge differ, and the faces agree
/// down each line.
pub fn slices_stay_planar()
    ensures { SlicesStayPlanar }
{}

/// Every slice of a planar partition is a planar partition, whatever vertices were removed: round each node the faces agree as well.
pub fn slices_stay_partitions()
    ensures { SlicesStayPartitions }
{}

/// Outside the triangles of the removed vertices, the faces are the unions of the base faces that they were made of.
pub fn faces_stay_unions()
    ensures { FacesStayUnions }
{}
