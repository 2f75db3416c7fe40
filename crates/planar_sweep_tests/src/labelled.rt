//! The segments of arcs, and whether they may be asked about.

ghost use Rattle.std.specs.Prelude.{◌≡◌, neg_ℤ, true, IsTrue};
ghost use Rattle.std.specs.List.{list_all};
ghost use Rattle.tgap_model.specs.Base.{within, in_limits};
ghost use Rattle.tgap_model.specs.Partition.{is_proper};
ghost use Rattle.tgap_model.specs.declared.limits.TheConstants.{MAX_COORDINATE};

use planar_sweep::{Shown, all_apart, set_aside, swept};
use std::alloc::Global;
use tgap_model::{LabelledSegment, MAX_COORDINATE, Memory, Point, Seg};

/// Whether a coordinate is within the limits.
fn is_coordinate(z: i64) -> bool
    ensures { result ≡ within (neg_ℤ MAX_COORDINATE) MAX_COORDINATE z }
{
    -MAX_COORDINATE <= z && z <= MAX_COORDINATE
}

/// Whether both coordinates of a point are.
fn is_in_limits(p: Point) -> bool
    ensures { result ≡ in_limits p }
{
    is_coordinate(p.x) && is_coordinate(p.y)
}

/// Whether a segment lies between two different points within the limits.
fn is_proper(s: &LabelledSegment) -> bool
    ensures { result ≡ is_proper s.now }
{
    is_in_limits(s.segment.a) && is_in_limits(s.segment.b) && s.segment.a != s.segment.b
}

/// Whether each segment does.
fn are_proper(segments: &[LabelledSegment]) -> bool
    ensures { result ≡ list_all is_proper segments.now }
{
    segments.iter().all(|s| is_proper(s))
}

/// The point of a row: behind the number of its arc stand its coordinates.
fn point(row: (u32, i64, i64)) -> Point {
    Point { x: row.1, y: row.2 }
}

/// Whether there is a row of this arc at a place.
fn is_of(rows: &[(u32, i64, i64)], place: usize, arc: u32) -> bool {
    match rows.get(place) {
        Some(row) => row.0 == arc,
        None => false,
    }
}

/// The segments of arcs. The rows are their points: the number of the arc and the coordinates.
pub fn segments_of(
    alloc: Global,
    rows: &[(u32, i64, i64)],
) -> Result<Vec<LabelledSegment>, Memory> {
    let mut segments = Vec::new(alloc);
    let mut place = 0u32;
    for i in 1..rows.len() {
        let (first, last) = (rows[i - 1], rows[i]);
        if first.0 != last.0 {
            place = 0;
            continue;
        }
        segments.push(LabelledSegment {
            segment: Seg {
                a: point(first),
                b: point(last),
            },
            left: 1,
            right: 2,
            arc: last.0,
            place,
            starts: place == 0,
            ends: !is_of(rows, i.saturating_add(1), last.0),
        })?;
        place = place.saturating_add(1);
    }
    Ok(segments)
}

/// Whether a sweep shows that these segments are apart, where it may be asked.
pub fn are_apart(alloc: Global, segments: &[LabelledSegment]) -> Result<Option<bool>, Memory> {
    if 1_000_000 < segments.len() || !are_proper(segments) {
        return Ok(None);
    }
    let apart = all_apart(alloc, segments)?;
    Ok(Some(apart))
}

/// Those of the segments that a sweep does not set aside, where it may be asked.
pub fn left_by_sweep(
    alloc: Global,
    segments: &[LabelledSegment],
) -> Result<Vec<LabelledSegment>, Memory> {
    let mut left = Vec::new(alloc);
    if 1_000_000 < segments.len() || !are_proper(segments) {
        return Ok(left);
    }
    let aside = set_aside(alloc, segments)?;
    for (segment, is_aside) in segments.iter().zip(aside.iter()) {
        if !*is_aside {
            left.push(*segment)?;
        }
    }
    Ok(left)
}

/// What a sweep shows of these segments, where it may be asked.
pub fn shown(alloc: Global, segments: &[LabelledSegment]) -> Result<Option<Shown>, Memory> {
    if 1_000_000 < segments.len() || !are_proper(segments) {
        return Ok(None);
    }
    let shown = swept(alloc, segments)?;
    Ok(Some(shown))
}
