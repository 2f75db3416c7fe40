//! Laws of the rings of a slice.

ghost use Rattle.topo_laws.specs.RingFaces.{NextHasTheFace, RingsHaveOneFace};

/// In every slice of a planar partition a side and its next one have the same face at their left.
pub fn next_has_the_face()
    ensures { NextHasTheFace }
{}

/// So each ring of such a slice goes round one face.
pub fn rings_have_one_face()
    ensures { RingsHaveOneFace }
{}
