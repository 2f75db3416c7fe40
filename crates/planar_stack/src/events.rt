//! The abscissas at which the sweep stops, and the segments in the order in which they begin, and in that in which they
//! end.

ghost use Rattle.std.specs.Prelude.{◌≡◌, ◌<◌, ◌^◌, length, IfOk};
ghost use Rattle.tgap_model.specs.Partition.{abscissas};
ghost use Rattle.planar_stack.specs.Sweep.{left_end as left_of, right_end as right_of, AreStarts, AreEnds};

use std::alloc::Global;
use tgap_model::{LabelledSegment, Memory};

/// The end of a segment that has a number.
#[derive(Clone, Copy)]
pub struct End {
    pub abscissa: i64,
    pub number: u32,
}

/// The abscissa at which a segment begins, from left to right.
pub fn left_end(s: &LabelledSegment) -> i64
    ensures { result ≡ left_of s.now }
{
    s.segment.a.x.min(s.segment.b.x)
}

/// The abscissa at which a segment ends.
pub fn right_end(s: &LabelledSegment) -> i64
    ensures { result ≡ right_of s.now }
{
    s.segment.a.x.max(s.segment.b.x)
}

/// The abscissas of all ends, in order, each once.
pub fn abscissas_of(alloc: Global, segments: &[LabelledSegment]) -> Result<Vec<i64>, Memory>
    ensures { IfOk result (λ found. found.items ≡ abscissas segments.now) }
{
    let mut found = Vec::with_capacity(alloc, 2 * segments.len())?;
    for s in segments {
        found.push(s.segment.a.x)?;
        found.push(s.segment.b.x)?;
    }
    found.sort_unstable();
    found.dedup();
    Ok(found)
}

/// The segments that are not vertical, in the order in which they begin.
pub fn starts_of(segments: Vec<LabelledSegment>) -> Vec<LabelledSegment>
    ensures { AreStarts segments.items result.items }
{
    let mut starts = segments;
    starts.retain(|s| s.segment.a.x != s.segment.b.x);
    starts.sort_unstable_by_key(|s| left_end(s));
    starts
}

/// The ends of the starts, in their order.
pub fn ends_of(alloc: Global, starts: &[LabelledSegment]) -> Result<Vec<End>, Memory>
    requires few { length starts.now < 2 ^ 32 }
    ensures { IfOk result (λ ends. AreEnds starts.now ends.items) }
{
    let mut ends = Vec::with_capacity(alloc, starts.len())?;
    for number in 0..starts.len() {
        ends.push(End {
            abscissa: right_end(&starts[number]),
            number: number as u32,
        })?;
    }
    ends.sort_unstable_by_key(|e| e.abscissa);
    Ok(ends)
}
