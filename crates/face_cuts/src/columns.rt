//! Segments that are looked up by their abscissas.

ghost use Rattle.std.specs.Prelude.{◌≡◌, ◌≤◌, ◌<◌, ◌-◌, ◌^◌, ◌++◌, All, IfOk, OnOk, get_or, length, map, count_by};
ghost use Rattle.lemmas.specs.Parity.{is_odd};
ghost use Rattle.tgap_model.specs.declared.geometry.Seg.{Seg as Segment};
ghost use Rattle.tgap_model.specs.Bounds.{HasNearEnds};
ghost use Rattle.ring_walk.specs.Areas.{are_round, is_over, points_by, segments_of};
ghost use Rattle.ring_probe.specs.Rows.{IsLeaning};
ghost use Rattle.face_cuts.specs.Columns.{AreColumns, line_box, span_box};

use grid_index::EdgeBoxes;
use ring_probe::{either_alone, is_over, segment_at};
use ring_walk::Way;
use std::alloc::Global;
use tgap_model::{List, Memory, Point, Seg, Window};

/// Segments, and a box of the abscissas of each, by which those that cross a line are found.
#[derive(Drop)]
pub struct Columns {
    segments: List<Seg>,
    boxes: EdgeBoxes,
}

/// The abscissas of a segment as a box: each ordinate is 0.
fn span_box(segment: &Seg) -> Window
    requires { HasNearEnds segment.now }
    ensures { result ≡ span_box segment.now }
{
    Window {
        x0: segment.a.x.min(segment.b.x),
        y0: 0,
        x1: segment.a.x.max(segment.b.x),
        y1: 0,
    }
}

/// The least abscissa of a segment, in the same way.
fn line_box(probe: Seg) -> Window
    requires { HasNearEnds probe }
    ensures { result ≡ line_box probe }
{
    let line = probe.a.x.min(probe.b.x);
    Window {
        x0: line,
        y0: 0,
        x1: line,
        y1: 0,
    }
}

/// The boxes of segments.
fn boxes_of(alloc: Global, segments: &[Seg]) -> Result<List<Window>, Memory>
    requires { All HasNearEnds segments.now }
    ensures { IfOk result (λ boxes. boxes ≡ map span_box segments.now) }
{
    let mut boxes = List::with_capacity(alloc, segments.len())?;
    for segment in segments {
        boxes.push(span_box(segment))?;
    }
    Ok(boxes)
}

/// Whether an odd number of the segments at these places cross the line of the probe above it.
fn are_over_odd(probe: Seg, segments: &[Seg], places: &[u32]) -> bool
    requires probe { IsLeaning probe }
    requires near { All HasNearEnds segments.now }
    requires places { All (λ place. place < length segments.now) places.now }
    ensures { (d : Segment) → result ≡ is_odd (count_by (λ place. is_over probe (get_or segments.now place d)) places.now) }
{
    let mut odd = false;
    for place in places {
        let over = is_over(probe, segments[*place as usize]);
        odd = either_alone(odd, over);
    }
    odd
}

impl Columns {
    /// The look-up of these segments. It takes memory of a small multiple of them, and the time of a sort.
    pub fn of(alloc: Global, segments: List<Seg>) -> Result<Columns, Memory>
        requires few { length segments < 2 ^ 32 - 1 }
        requires near { All HasNearEnds segments }
        ensures { IfOk result (AreColumns segments) }
    {
        let boxes = boxes_of(alloc, segments.as_slice())?;
        let boxes = EdgeBoxes::of(alloc, &boxes)?;
        Ok(Columns { segments, boxes })
    }

    /// Whether an odd number of the segments cross the line of the probe above it. It takes the time of a look for those whose
    /// abscissas the line passes, and of these.
    pub fn is_round(&self, alloc: Global, probe: Seg) -> Result<bool, Memory>
        requires probe { IsLeaning probe }
        requires columns { AreColumns self.now.segments self.now }
        ensures { IfOk result (λ round. round ≡ are_round probe self.now.segments) }
    {
        let places = self.boxes.near(alloc, line_box(probe))?;
        Ok(are_over_odd(probe, self.segments.as_slice(), places.as_slice()))
    }
}

/// Puts the segments of a row of points, on that way, behind other segments.
pub fn push_segments(segments: &mut List<Seg>, points: &[Point], way: Way) -> Result<(), Memory>
    requires { 1 ≤ length points.now }
    ensures { OnOk result (segments.new ≡ segments.old ++ segments_of (points_by way points.now)) }
{
    for place in 0..points.len() - 1 {
        segments.push(segment_at(points, way, place))?;
    }
    Ok(())
}
