//! Segments in a row, each with its number.

ghost use Rattle.std.specs.Prelude.{◌≡◌, ◌<◌, ◌^◌, length, map, All, IfOk};
ghost use Rattle.planar_apart.specs.Rows.{row_box, numbered};

use crate::boxes::box_of;
use std::alloc::Global;
use tgap_model::{LabelledSegment, List, Memory, Window};

/// A segment with its number.
#[derive(Clone, Copy)]
pub struct NumberedSegment {
    pub number: u32,
    pub segment: LabelledSegment,
}

/// The segments that have these numbers, in the order of the numbers.
pub fn row_of(
    alloc: Global,
    segments: &[LabelledSegment],
    numbers: &[usize],
) -> Result<List<NumberedSegment>, Memory>
    requires inside { All (λ i. i < length segments.now) numbers.now }
    requires few { length segments.now < 2 ^ 32 }
    ensures { IfOk result (λ row. row ≡ map (numbered segments.now) numbers.now) }
{
    let mut row = List::with_capacity(alloc, numbers.len())?;
    for number in numbers {
        row.push(NumberedSegment {
            number: *number as u32,
            segment: segments[*number],
        })?;
    }
    Ok(row)
}

/// The bounding boxes of the segments of a row, in its order.
pub fn row_boxes(alloc: Global, row: &[NumberedSegment]) -> Result<List<Window>, Memory>
    ensures { IfOk result (λ boxes. boxes ≡ map row_box row.now) }
{
    let mut boxes = List::with_capacity(alloc, row.len())?;
    for s in row {
        boxes.push(box_of(&s.segment))?;
    }
    Ok(boxes)
}
