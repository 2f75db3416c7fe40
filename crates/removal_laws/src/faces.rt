//! Laws of faces where vertices are taken out: down each line, and inside.

ghost use Rattle.removal_laws.specs.StackLaws.{ReplacedAgrees, SweepKeepsFaces};
ghost use Rattle.removal_laws.specs.InsideLaws.{ReplacedInside, SweepKeepsInside, StepKeepsInside};

/// Down a line between whole abscissas the faces still agree where a vertex is taken out of an edge.
pub fn replaced_agrees()
    ensures { ReplacedAgrees }
{}

/// Down a line between whole abscissas the faces still agree after a sweep.
pub fn sweep_keeps_faces()
    ensures { SweepKeepsFaces }
{}

/// Outside the triangle of a vertex that is taken out, a point is inside a face exactly where it was.
pub fn replaced_inside()
    ensures { ReplacedInside }
{}

/// Outside the triangles of all vertices that a sweep takes out, a point is inside a face exactly where it was.
pub fn sweep_keeps_inside()
    ensures { SweepKeepsInside }
{}

/// Outside the triangles of all vertices that the sweep of a step takes out, a point is inside a face after it exactly where
/// it was before.
pub fn step_keeps_inside()
    ensures { StepKeepsInside }
{}
