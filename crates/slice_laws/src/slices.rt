//! Laws of the faces beside the edges of a slice, of the points inside its faces, and of the partition that it is.

ghost use Rattle.slice_laws.specs.SliceLaws.{ChainsKeepFaces, SlicesAreSlices, FacesAreAdjacent, FacesAreUnions, SlicesArePartitions};

/// Along a chain the faces at the left and at the right stay the same, and they are those of its edge.
pub fn chains_keep_faces()
    ensures { ChainsKeepFaces }
{}

/// The slice of a planar partition after some steps of its history has the faces and the edges that a slice has to
/// have.
pub fn slices_are_slices()
    ensures { SlicesAreSlices }
{}

/// Two faces are adjacent in a slice exactly where an arc of the base map has them at its sides, each as the ancestor of
/// its base face.
pub fn faces_are_adjacent()
    ensures { FacesAreAdjacent }
{}

/// Where no vertex is removed, each face of a slice is the union of the base faces that it was made of: a point between
/// whole abscissas is inside it exactly where it is inside one of them.
pub fn faces_are_unions()
    ensures { FacesAreUnions }
{}

/// Where no vertex is removed, the slice of a planar partition is a planar partition.
pub fn slices_are_partitions()
    ensures { SlicesArePartitions }
{}
