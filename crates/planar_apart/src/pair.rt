//! Whether two segments meet where they may not.

ghost use Rattle.std.specs.Prelude.{◌≡◌, IsTrue};
ghost use Rattle.tgap_model.specs.Base.{in_limits};
ghost use Rattle.tgap_model.specs.Partition.{is_proper, follows, shared_ends, meeting_point};
ghost use Rattle.planar_apart.specs.Ends.{leaves_line, parts_at_end};

use grid_geo::{Shared, common_point, side};
use tgap_model::{Fraction, LabelledSegment, Point, Seg};

/// Whether `t` is the next segment of the same arc.
fn follows(s: &LabelledSegment, t: &LabelledSegment) -> bool
    ensures { result ≡ follows s.now t.now }
{
    s.arc == t.arc && u64::from(s.place) + 1 == u64::from(t.place)
}

/// The ends that two segments may share: ends of arcs, and the vertex between two successive segments of an arc.
fn shared_ends(s: &LabelledSegment, t: &LabelledSegment) -> Shared
    ensures { result ≡ shared_ends s.now t.now }
{
    Shared {
        aa: s.segment.a == t.segment.a && s.starts && t.starts,
        ab: s.segment.a == t.segment.b && (s.starts && t.ends || follows(t, s)),
        ba: s.segment.b == t.segment.a && (s.ends && t.starts || follows(s, t)),
        bb: s.segment.b == t.segment.b && s.ends && t.ends,
    }
}

/// Whether a point is not on the line of a segment.
fn leaves_line(s: Seg, w: Point) -> bool
    requires s { IsTrue (in_limits s.a) × IsTrue (in_limits s.b) }
    requires w { IsTrue (in_limits w) }
    ensures { result ≡ leaves_line s w }
{
    side(s.a, s.b, w) != 0
}

/// Whether two segments share an end, and the other end of the second is not on the line of the first. Then they have no
/// other point in common, and no fraction is needed to tell.
fn parts_at_end(s: Seg, t: Seg, shared: Shared) -> bool
    requires s { IsTrue (in_limits s.a) × IsTrue (in_limits s.b) }
    requires t { IsTrue (in_limits t.a) × IsTrue (in_limits t.b) }
    ensures { result ≡ parts_at_end s t shared }
{
    (shared.aa || shared.ba) && leaves_line(s, t.b)
        || (shared.ab || shared.bb) && leaves_line(s, t.a)
}

/// Whether two segments share an end at which they may meet and go apart from there, so that they meet nowhere else.
pub fn part_at_end(s: &LabelledSegment, t: &LabelledSegment) -> bool
    requires first { IsTrue (is_proper s.now) }
    requires second { IsTrue (is_proper t.now) }
    ensures { IsTrue result → meeting_point s.now t.now ≡ None }
{
    parts_at_end(s.segment, t.segment, shared_ends(s, t))
}

/// A point that two segments have in common though they may not, where there is one.
pub fn meeting_point(s: &LabelledSegment, t: &LabelledSegment) -> Option<Fraction>
    requires first { IsTrue (is_proper s.now) }
    requires second { IsTrue (is_proper t.now) }
    ensures { result ≡ meeting_point s.now t.now }
{
    common_point(s.segment, t.segment, shared_ends(s, t))
}
