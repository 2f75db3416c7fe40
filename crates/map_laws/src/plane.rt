//! Laws of the planar partition.

ghost use Rattle.map_laws.specs.PlaneLaws.{LabelsChange, NeighboursCancel, InnerVerticesStandOnce, InsideOneFace, InsideBelowNearest, ClearIsSymmetric};

/// Labels down a vertical line that agree still agree where they are changed to others, 0 staying 0, and borders between
/// faces that have become one are left out; and what is reached is the other label of what was reached.
pub fn labels_change()
    ensures { LabelsChange }
{}

/// Down a vertical line, two neighbouring borders of which the second leads back may be left out.
pub fn neighbours_cancel()
    ensures { NeighboursCancel }
{}

/// Where segments have no point in common but permitted ones, an inner vertex stands once.
pub fn inner_vertices_stand_once()
    ensures { InnerVerticesStandOnce }
{}

/// Where the faces agree down each vertical line, no point is inside two faces, the outside left aside.
pub fn inside_one_face()
    ensures { InsideOneFace }
{}

/// Where the faces agree down each vertical line, the nearest segment above a point tells where the point is: inside the face at
/// the lower side of that segment, unless the face is the outside.
pub fn inside_below_nearest()
    ensures { InsideBelowNearest }
{}

/// Whether a triangle is clear of a segment does not depend on the direction of the segment.
pub fn clear_is_symmetric()
    ensures { ClearIsSymmetric }
{}
