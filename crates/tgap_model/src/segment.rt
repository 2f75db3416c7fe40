//! The segments of a base map, with what stands at their sides.

ghost use Rattle.std.specs.Prelude.{◌≡◌, ◌<◌, ◌≤◌, IsTrue, ◌++◌, ◌^◌, length, IfOk, if◌then◌else◌, is_ok};
ghost use Rattle.std.specs.List.{list_all};
ghost use Rattle.tgap_model.specs.Partition.{is_proper, path_segments, arc_segments, base_segments};

use crate::base::{Base, BaseArc};
use crate::failure::Memory;
use crate::geometry::{Point, Seg};
use crate::limits::MAX_POINTS;
use crate::list::List;
use std::alloc::Global;

/// A segment with the faces at its left and right.
#[derive(Clone, Copy, PartialEq, Eq)]
pub struct LabelledSegment {
    pub segment: Seg,
    pub left: u32,
    pub right: u32,
    /// The number of the arc that it is of; of a slice, the key of the edge.
    pub arc: u32,
    /// Its place in the arc, from 0.
    pub place: u32,
    /// Whether its first point is an end of the arc.
    pub starts: bool,
    /// Whether its last point is an end of the arc.
    pub ends: bool,
}

/// Puts the segments of an arc after those of `segments`.
fn push_path(segments: &mut Vec<LabelledSegment>, number: u32, arc: &BaseArc) -> Result<(), Memory>
    requires few { length arc.now.points < 2 ^ 32 }
    ensures { IfOk result (λ _. segments.new.items ≡ segments.old.items ++ path_segments number arc.now.left arc.now.right 0 arc.now.points) }
{
    let points = arc.points.as_slice();
    for i in 1..points.len() {
        segments.push(LabelledSegment {
            segment: Seg {
                a: points[i - 1],
                b: points[i],
            },
            left: arc.left,
            right: arc.right,
            arc: number,
            place: (i - 1) as u32,
            starts: i == 1,
            ends: i + 1 == points.len(),
        })?;
    }
    Ok(())
}

/// The segments of a base map, in the order of their numbers.
pub fn base_segments(alloc: Global, base: &Base) -> Result<List<LabelledSegment>, Memory>
    ensures listed { IfOk result (λ segments. segments ≡ base_segments base.now) }
    ensures proper { IfOk result (λ segments. IsTrue (list_all is_proper segments)) }
    ensures few { IfOk result (λ segments. length segments ≤ MAX_POINTS) }
{
    let arcs = base.arcs().as_slice();
    let mut segments = Vec::new(alloc);
    for i in 0..arcs.len() {
        push_path(&mut segments, i as u32, &arcs[i])?;
    }
    Ok(List::from(segments))
}
