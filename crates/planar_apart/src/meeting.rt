//! The meeting of two segments, and which of two meetings has the lesser pair.

ghost use Rattle.std.specs.Prelude.{◌≡◌, ◌<◌, ◌≤◌, IsTrue, None, false};
ghost use Rattle.tgap_model.specs.Partition.{is_proper};
ghost use Rattle.planar_apart.specs.Meetings.{is_before, IsEarlier};
ghost use Rattle.planar_apart.specs.Rows.{ordered_meeting, meeting_of};

use crate::pair::{meeting_point, part_at_end};
use crate::row::NumberedSegment;
use tgap_model::Fraction;

/// Two segments that meet where they may not, by number, the lesser first, and a point that both hold.
#[derive(Clone, Copy, PartialEq, Eq)]
pub struct Meeting {
    pub i: u32,
    pub j: u32,
    pub at: Fraction,
}

/// Whether the pair of the first meeting is less than that of the second.
fn is_before(a: &Meeting, b: &Meeting) -> bool
    ensures { result ≡ is_before a.now b.now }
{
    a.i < b.i || a.i == b.i && a.j < b.j
}

/// The one of two meetings that has the lesser pair.
fn earlier(a: Option<Meeting>, b: Option<Meeting>) -> Option<Meeting>
    ensures { IsEarlier a b result }
{
    match (a, b) {
        (Some(m), Some(n)) => Some(if is_before(&n, &m) { n } else { m }),
        (Some(m), None) => Some(m),
        (None, n) => n,
    }
}

/// The meeting of two segments, of which the first has the lesser number, where they meet.
fn ordered_meeting(a: &NumberedSegment, b: &NumberedSegment) -> Option<Meeting>
    requires first { IsTrue (is_proper a.now.segment) }
    requires second { IsTrue (is_proper b.now.segment) }
    ensures { result ≡ ordered_meeting a.now b.now }
{
    let at = meeting_point(&a.segment, &b.segment)?;
    Some(Meeting {
        i: a.number,
        j: b.number,
        at,
    })
}

/// The meeting of two segments, where they meet.
fn meeting_of(a: &NumberedSegment, b: &NumberedSegment) -> Option<Meeting>
    requires first { IsTrue (is_proper a.now.segment) }
    requires second { IsTrue (is_proper b.now.segment) }
    ensures { result ≡ meeting_of a.now b.now }
{
    if a.number < b.number {
        ordered_meeting(a, b)
    } else {
        ordered_meeting(b, a)
    }
}

/// Whether two segments may meet: whether they do not just part at an end, which is soon told. Round a node with many
/// arcs that is so of nearly all pairs whose boxes meet.
fn may_meet(a: &NumberedSegment, b: &NumberedSegment) -> bool
    requires first { IsTrue (is_proper a.now.segment) }
    requires second { IsTrue (is_proper b.now.segment) }
    ensures { result ≡ false → meeting_of a.now b.now ≡ None }
{
    if a.number < b.number {
        !part_at_end(&a.segment, &b.segment)
    } else {
        !part_at_end(&b.segment, &a.segment)
    }
}

/// The earlier one of a meeting and that of two segments, where the second of these has the greater number.
pub fn earlier_above(
    least: Option<Meeting>,
    first: &NumberedSegment,
    second: &NumberedSegment,
) -> Option<Meeting>
    requires first { IsTrue (is_proper first.now.segment) }
    requires second { IsTrue (is_proper second.now.segment) }
    ensures above { first.now.number < second.now.number → IsEarlier least (meeting_of first.now second.now) result }
    ensures below { second.now.number ≤ first.now.number → result ≡ least }
{
    if second.number <= first.number || !may_meet(first, second) {
        return least;
    }
    earlier(least, meeting_of(first, second))
}
