//! Which of two segments is higher on a line that crosses both.

ghost use Rattle.std.specs.Prelude.{◌≡◌, ◌<◌, length, IsTrue};
ghost use Rattle.std.specs.List.{All};
ghost use Rattle.tgap_model.specs.Bounds.{HasNearEnds};
ghost use Rattle.planar_stack.specs.Sweep.{lowest, highest, crossed_at, higher_at};

use grid_geo::cmp_on_line;
use std::cmp::Ordering;
use tgap_model::{LabelledSegment, Seg};

/// The least ordinate of a segment.
fn lowest(s: Seg) -> i64
    ensures { result ≡ lowest s }
{
    s.a.y.min(s.b.y)
}

/// The greatest ordinate of a segment.
fn highest(s: Seg) -> i64
    ensures { result ≡ highest s }
{
    s.a.y.max(s.b.y)
}

/// Whether a segment is higher than another one. Mostly the ordinates of the ends tell, and the heights on the line,
/// which are products of three differences, are compared where they do not.
pub fn is_higher(starts: &[LabelledSegment], number: u32, other: u32, line: i64) -> bool
    requires near { All (λ s. HasNearEnds s.segment) starts.now }
    requires known { number < length starts.now }
    requires crossed { IsTrue (crossed_at line starts.now number) }
    requires other_known { other < length starts.now }
    requires other_crossed { IsTrue (crossed_at line starts.now other) }
    ensures { result ≡ higher_at line starts.now number other }
{
    let s = starts[number as usize].segment;
    let t = starts[other as usize].segment;
    if highest(t) < lowest(s) {
        return true;
    }
    if highest(s) < lowest(t) {
        return false;
    }
    cmp_on_line(s, t, line) == Ordering::Greater
}
