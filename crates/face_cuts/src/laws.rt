//! Laws of nodes, cuts and fusions. The functions do nothing: the contract of each is a law.

ghost use Rattle.face_cuts.specs.EditLaws.{CutsFuseAgain, CutsKeepInside, CutsKeepMaps, CutsMoveSides, FusionsKeepInside, FusionsKeepMaps, NodesKeepMaps};

/// A base map with a node where it had an inner vertex is a base map.
pub fn nodes_keep_maps()
    ensures { NodesKeepMaps }
{}

/// A base map of which a face was cut in two is a base map.
pub fn cuts_keep_maps()
    ensures { CutsKeepMaps }
{}

/// A base map in which two faces became one is a base map.
pub fn fusions_keep_maps()
    ensures { FusionsKeepMaps }
{}

/// After a cut a point was inside the face exactly where it is inside one of the two parts alone, and every other face has
/// it inside where it had it. It says nothing of the way that the cut takes.
pub fn cuts_keep_inside()
    ensures { CutsKeepInside }
{}

/// After a fusion a point is inside the fused face exactly where it was inside one of the two alone, and every other face
/// has it inside where it had it.
pub fn fusions_keep_inside()
    ensures { FusionsKeepInside }
{}

/// The fusion of a face that was cut with its new part gives the base map as it was.
pub fn cuts_fuse_again()
    ensures { CutsFuseAgain }
{}

/// A cut that is not refused for its numbers, for want of room or for its points takes over the sides that `cut_along` gives,
/// or is refused where that is.
pub fn cuts_move_sides()
    ensures { CutsMoveSides }
{}
