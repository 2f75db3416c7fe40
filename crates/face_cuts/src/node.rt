//! An inner vertex that becomes a node.

ghost use Rattle.std.specs.Prelude.{◌≡◌, ◌<◌, IfOk, length};
ghost use Rattle.tgap_model.specs.Chains.{arc_number};
ghost use Rattle.face_cuts.specs.Outcomes.{GivesCut};
ghost use Rattle.face_cuts.specs.Nodes.{add_node, split_at};

use crate::cause::{Cause, IS_NODE, NO_ROOM, NO_SUCH_POINT, refused};
use crate::parts::{has_room, with_points};
use crate::points::{Place, is_node, place_of};
use std::alloc::Global;
use tgap_model::{Base, BaseArc, List, Memory, Or, Point, copied_arcs, copied_numbers};

/// Copies of the arcs, of which one is split at this place: it keeps its points up to there, and a new last arc has the others.
fn split_at(alloc: Global, arcs: &[BaseArc], place: Place) -> Result<List<BaseArc>, Memory>
    requires arc { place.arc < length arcs.now }
    requires at { place.at < length (arc_number arcs.now place.arc).points }
    ensures { IfOk result (λ split. split ≡ split_at arcs.now (place.arc, place.at)) }
{
    let mut split = copied_arcs(alloc, arcs)?.into_vec();
    let arc = &arcs[place.arc];
    let points = arc.points.as_slice();
    split[place.arc] = with_points(alloc, arc, &points[..place.at + 1])?;
    split.push(with_points(alloc, arc, &points[place.at..])?)?;
    Ok(List::from(split))
}

/// The map with a node at the inner vertex `at`. Its arc, where several have it the first one, keeps its points up to there; a new
/// last arc with the same sides has the points from there on.
///
/// The causes, the first that holds: 3, no arc has the point; 6, it is a node already; 11, the map has as many arcs or points as it
/// may have. It takes one pass over the map, whose arcs are copied.
#[tactic(auto, unfolding(crate::specs::Nodes::add_node))]
pub fn add_node(alloc: Global, base: &Base, at: Point) -> Result<Base, Or<Cause>>
    ensures exact { GivesCut result (add_node base.now at) }
{
    let arcs = base.arcs().as_slice();
    let Some(place) = place_of(arcs, &at) else {
        return Err(refused(NO_SUCH_POINT));
    };
    if is_node(arcs, &at) {
        return Err(refused(IS_NODE));
    }
    if !has_room(base, 0, 1, 1) {
        return Err(refused(NO_ROOM));
    }
    let classes = copied_numbers(alloc, base.classes().as_slice())?;
    let arcs = split_at(alloc, arcs, place)?;
    Ok(base.with_parts(alloc, classes, arcs)?)
}
