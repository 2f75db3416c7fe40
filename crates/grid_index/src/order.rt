//! An order of boxes in which those that are near one another in the plane stand near one another.

ghost use Rattle.std.specs.Prelude.{pos, negsuc, ◌≤ℤ◌, length, map, IfOk, IsPermutation};
ghost use Rattle.std.specs.List.{range_with_len};

use std::alloc::Global;
use tgap_model::{Memory, Window};

/// A box by its place, with the place of its middle on a curve that fills the plane.
#[derive(Clone, Copy)]
struct CurvePlace {
    rank: u64,
    place: usize,
}

/// The coordinate, or the end of the range of 32 bits beyond which it lies. Of the coordinates of a map the greatest alone
/// is beyond it, by one unit; only time depends on it.
fn bounded(coordinate: i64) -> i64
    ensures low { negsuc 2147483647 ≤ℤ result }
    ensures high { result ≤ℤ pos 2147483647 }
{
    coordinate.clamp(-0x8000_0000, 0x7FFF_FFFF)
}

/// The middle of two coordinates, in units, counted from the least coordinate on: 32 bits.
fn middle(low: i64, high: i64) -> u64 {
    (bounded(low) + bounded(high) + 0x1_0000_0000) as u64 >> 1
}

/// The lower 32 bits, each with a 0 in front.
fn spread(bits: u64) -> u64 {
    let bits = bits & 0xFFFF_FFFF;
    let bits = (bits | bits << 16) & 0x0000_FFFF_0000_FFFF;
    let bits = (bits | bits << 8) & 0x00FF_00FF_00FF_00FF;
    let bits = (bits | bits << 4) & 0x0F0F_0F0F_0F0F_0F0F;
    let bits = (bits | bits << 2) & 0x3333_3333_3333_3333;
    (bits | bits << 1) & 0x5555_5555_5555_5555
}

/// The place of the middle of a box on the curve of Morton, whose places are the bits of both coordinates in turn.
fn rank(area: &Window) -> u64 {
    spread(middle(area.x0, area.x1)) | spread(middle(area.y0, area.y1)) << 1
}

/// The boxes by their places along the curve.
fn ranked(alloc: Global, boxes: &[Window]) -> Result<Vec<CurvePlace>, Memory>
    ensures { IfOk result (λ rows. IsPermutation (range_with_len 0 (length boxes.now)) (map (λ r. r.place) rows.items)) }
{
    let mut rows = Vec::with_capacity(alloc, boxes.len())?;
    for (place, area) in boxes.iter().enumerate() {
        rows.push(CurvePlace {
            rank: rank(area),
            place,
        })?;
    }
    rows.sort_unstable_by_key(|row| row.rank);
    Ok(rows)
}

/// The places of these boxes, each once, in an order in which boxes that are near one another in the plane mostly stand
/// near one another: that of their middles on a curve. It takes the time of a sort.
pub fn order_of(alloc: Global, boxes: &[Window]) -> Result<Vec<usize>, Memory>
    ensures { IfOk result (λ order. IsPermutation (range_with_len 0 (length boxes.now)) order.items) }
{
    let rows = ranked(alloc, boxes)?;
    let mut order = Vec::with_capacity(alloc, rows.len())?;
    for row in &rows {
        order.push(row.place)?;
    }
    Ok(order)
}
