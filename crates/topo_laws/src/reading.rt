//! Laws of the text of a slice, and of the base map that is read of it.

ghost use Rattle.topo_laws.specs.Told.{TextsAreRead, TreesAreRead};
ghost use Rattle.topo_laws.specs.ReadBack.{ExportsAreReadBack};

/// The JSON value of arcs and polygons within the limits of a map is read as these arcs, and as rings that name their sides.
pub fn trees_are_read()
    ensures { TreesAreRead }
{}

/// So is its text.
pub fn texts_are_read()
    ensures { TextsAreRead }
{}

/// The text of a slice is read as a base map whose arcs are the edges of the slice, in order and with their points, and whose
/// faces are the parts of its faces. Where each face has one part, that base map is a planar partition.
pub fn exports_are_read_back()
    ensures { ExportsAreReadBack }
{}
