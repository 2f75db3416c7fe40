//! A map with other parts, and how many parts more it may have.

ghost use Rattle.std.specs.Prelude.{◌≡◌, ◌≤◌, ◌+◌, IfOk, length, nat_le};
ghost use Rattle.tgap_model.specs.Base.{count_points};
ghost use Rattle.face_cuts.specs.Outcomes.{has_room};
ghost use Rattle.face_cuts.specs.Nodes.{with_points};

use std::alloc::Global;
use tgap_model::{Base, BaseArc, MAX_ARCS, MAX_FACES, MAX_POINTS, Memory, Point, copied_points};

/// How many points these arcs have.
fn count_points_of(arcs: &[BaseArc]) -> usize
    requires { count_points arcs.now ≤ MAX_POINTS }
    ensures { result ≡ count_points arcs.now }
{
    arcs.iter().map(|arc| arc.points.len()).sum()
}

/// How many points all arcs of a map have.
fn count_points(base: &Base) -> usize
    ensures { result ≡ count_points base.now.arcs }
{
    count_points_of(base.arcs().as_slice())
}

/// Whether there may be so many more, where there are so many and there may be no more than the limit.
fn is_room(count: usize, more: usize, limit: usize) -> bool
    ensures { result ≡ nat_le (count + more) limit }
{
    count <= limit && more <= limit - count
}

/// Whether a map with so many more faces, arcs and points keeps to the limits.
pub fn has_room(base: &Base, faces: usize, arcs: usize, points: usize) -> bool
    ensures { result ≡ has_room base.now faces arcs points }
{
    is_room(base.classes().len(), faces, MAX_FACES)
        && is_room(base.arcs().len(), arcs, MAX_ARCS)
        && is_room(count_points(base), points, MAX_POINTS)
}

/// The arc with a copy of these points in place of its own.
pub fn with_points(alloc: Global, arc: &BaseArc, points: &[Point]) -> Result<BaseArc, Memory>
    ensures { IfOk result (λ made. made ≡ with_points arc.now points.now) }
{
    Ok(BaseArc {
        left: arc.left,
        right: arc.right,
        points: copied_points(alloc, points)?,
    })
}
