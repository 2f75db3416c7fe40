//! The bounding boxes of segments, and an order of the segments by them.

ghost use Rattle.std.specs.Prelude.{◌≡◌, IfOk, IsPermutation, length, map};
ghost use Rattle.std.specs.List.{range_with_len};
ghost use Rattle.planar_apart.specs.Meetings.{box_of};

use grid_index::{order_of, segment_box};
use std::alloc::Global;
use tgap_model::{LabelledSegment, List, Memory, Window};

/// The bounding box of a segment.
pub fn box_of(s: &LabelledSegment) -> Window
    ensures { result ≡ box_of s.now }
{
    segment_box(&s.segment.a, &s.segment.b)
}

/// The bounding boxes of segments, in their order.
pub fn boxes_of(alloc: Global, segments: &[LabelledSegment]) -> Result<List<Window>, Memory>
    ensures { IfOk result (λ boxes. boxes ≡ map box_of segments.now) }
{
    let mut boxes = List::with_capacity(alloc, segments.len())?;
    for s in segments {
        boxes.push(box_of(s))?;
    }
    Ok(boxes)
}

/// The numbers of the segments, each once, in an order in which segments that are near one another in the plane mostly
/// stand near one another. It takes the time of a sort.
pub fn near_order(alloc: Global, segments: &[LabelledSegment]) -> Result<Vec<usize>, Memory>
    ensures { IfOk result (λ order. IsPermutation (range_with_len 0 (length segments.now)) order.items) }
{
    let boxes = boxes_of(alloc, segments)?;
    order_of(alloc, boxes.as_slice())
}
