//! The segments of rows of points, and which of them pass above another one.

ghost use Rattle.std.specs.Prelude.{◌≡◌, ◌≢◌, ◌<◌, ◌≤◌, ◌+◌, ◌&&◌, int_le, int_lt, length, get_or};
ghost use Rattle.tgap_model.specs.declared.geometry.Seg.{Seg as Segment};
ghost use Rattle.tgap_model.specs.Bounds.{HasNearEnds};
ghost use Rattle.tgap_model.specs.Segment.{crosses, line_after};
ghost use Rattle.ring_walk.specs.Areas.{is_over, points_by, segments_of};

use grid_geo::cmp_on_line;
use ring_walk::Way;
use std::cmp::Ordering;
use tgap_model::{Point, Seg};

/// A segment of a row of points, by its place on that way.
pub fn segment_at(points: &[Point], way: Way, place: usize) -> Seg
    requires { place + 1 < length points.now }
    ensures { (d : Segment) → result ≡ get_or (segments_of (points_by way points.now)) place d }
{
    match way {
        Way::Along => Seg {
            a: points[place],
            b: points[place + 1],
        },
        Way::Against => {
            let last = points.len() - 1 - place;
            Seg {
                a: points[last],
                b: points[last - 1],
            }
        }
    }
}

/// Whether the line one half beyond an abscissa passes between two others, the first at its left.
fn passes(line: i64, left: i64, right: i64) -> bool
    ensures { result ≡ (int_le left line && int_lt line right) }
{
    left <= line && line < right
}

/// Whether the segment crosses the line one half beyond an abscissa.
fn crosses(s: Seg, line: i64) -> bool
    ensures { result ≡ crosses (line_after line) s }
{
    let forth = passes(line, s.a.x, s.b.x);
    let back = passes(line, s.b.x, s.a.x);
    forth || back
}

/// Whether a segment crosses the line one half beyond the least abscissa of the probe, above the probe.
pub fn is_over(probe: Seg, s: Seg) -> bool
    requires probe { HasNearEnds probe }
    requires near { HasNearEnds s }
    requires leaning { probe.a.x ≢ probe.b.x }
    ensures { result ≡ is_over probe s }
{
    let line = probe.a.x.min(probe.b.x);
    crosses(s, line) && cmp_on_line(s, probe, line) == Ordering::Greater
}
