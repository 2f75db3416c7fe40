//! A face that is cut in two.

ghost use Rattle.std.specs.Prelude.{◌≡◌, ◌≤◌, ◌++◌, ◌∷◌, [], IsTrue, IfOk, length, nat_lt};
ghost use Rattle.std.specs.List.{list_all};
ghost use Rattle.tgap_model.specs.Base.{in_limits};
ghost use Rattle.ring_walk.specs.Spans.{AreSpans};
ghost use Rattle.face_cuts.specs.Outcomes.{GivesCut};
ghost use Rattle.face_cuts.specs.Sectors.{spans_of};
ghost use Rattle.face_cuts.specs.Cuts.{cut_face};
ghost use Rattle.face_cuts.specs.Moves.{cut_off_sides};
ghost use Rattle.face_cuts.specs.NewRings.{AreLines, IsNewLine, arcs_after};

use crate::along::cut_along;
use crate::cause::{Cause, NO_ROOM, NO_SUCH_NUMBER, POINT_TAKEN, refused};
use crate::free::are_free;
use crate::fusion::{count_faces, is_face};
use crate::node_table::NodeTable;
use crate::parting::{NewArc, arcs_with};
use crate::parts::has_room;
use ring_walk::Side;
use std::alloc::Global;
use tgap_model::{Base, BaseArc, List, Memory, Or, Point, copied_numbers};

/// Whether there is a class of that number.
fn is_class(base: &Base, class: u32) -> bool
    ensures { result ≡ nat_lt class (length base.now.rules.weights) }
{
    (class as usize) < base.rules().weights.len()
}

/// The sides of arcs that a cut of the face by an arc with these points takes over.
fn cut_off_sides(
    alloc: Global,
    arcs: &[BaseArc],
    face: u32,
    points: &[Point],
) -> Result<List<Side>, Or<Cause>>
    requires lines { AreLines arcs.now }
    requires line { IsNewLine points.now }
    requires spans { AreSpans (spans_of arcs.now) }
    ensures exact { GivesCut result (cut_off_sides arcs.now face points.now) }
{
    let table = NodeTable::of(alloc, arcs)?;
    cut_along(alloc, &table, face, points)
}

/// The arcs of a map after a cut by the new arc.
fn arcs_after(alloc: Global, arcs: &[BaseArc], arc: NewArc<'_>) -> Result<List<BaseArc>, Or<Cause>>
    requires lines { AreLines arcs.now }
    requires line { IsNewLine arc.points.now }
    requires spans { AreSpans (spans_of arcs.now) }
    ensures exact { GivesCut result (arcs_after arcs.now arc.entry.face arc.entry.new arc.entry.points.now) }
{
    let moved = cut_off_sides(alloc, arcs, arc.face, arc.points)?;
    Ok(arcs_with(alloc, arcs, arc, moved.as_slice())?)
}

/// The classes of a map with a new last face of this class.
fn classes_with(alloc: Global, class: u32, classes: &[u32]) -> Result<List<u32>, Memory>
    ensures { IfOk result (λ made. made ≡ classes.now ++ class ∷ []) }
{
    let mut made = copied_numbers(alloc, classes)?;
    made.push(class)?;
    Ok(made)
}

/// The map in which a new last arc with these points cuts a face: at its left there is a new last face of the class, at its
/// right the face. The walk from the end of the arc to its start, along the face, goes over to the new face, and so do the
/// other rings of the face that lie at the left of the arc and the walk.
///
/// The causes, the first that holds: 2, there is no face from 1 on or no class of that number; 11, the map has as many faces,
/// arcs or points as it may have; 10, the points are not all different, or one between the first and the last is a point of the
/// map; 9, an end is no node, or the arc leaves it along another one or not within the face; 12, no walk along the face comes
/// from the end to the start. It takes a sort of the sides of all arcs, and of the segments of the new ring where the face has
/// several other rings: for each of these the segments are looked up that pass over a point of it or below.
#[tactic(auto, unfolding(crate::specs::Cuts::cut_face))]
pub fn cut_face(
    alloc: Global,
    base: &Base,
    face: u32,
    class: u32,
    points: &List<Point>,
) -> Result<Base, Or<Cause>>
    requires long { 2 ≤ length points.now }
    requires limits { IsTrue (list_all in_limits points.now) }
    ensures exact { GivesCut result (cut_face base.now face class points.now) }
{
    if !is_face(base, face) || !is_class(base, class) {
        return Err(refused(NO_SUCH_NUMBER));
    }
    if !has_room(base, 1, 1, points.len()) {
        return Err(refused(NO_ROOM));
    }
    let arcs = base.arcs().as_slice();
    let points = points.as_slice();
    if !are_free(alloc, arcs, points)? {
        return Err(refused(POINT_TAKEN));
    }
    let arc = NewArc {
        face,
        new: count_faces(base) + 1,
        points,
    };
    let arcs = arcs_after(alloc, arcs, arc)?;
    let classes = classes_with(alloc, class, base.classes().as_slice())?;
    Ok(base.with_parts(alloc, classes, arcs)?)
}
