//! The faces at a place of a stack, and whether they disagree.

ghost use Rattle.std.specs.Prelude.{◌≡◌, ◌<◌, ◌≤◌, ◌^◌, length, map};
ghost use Rattle.std.specs.List.{All};
ghost use Rattle.std.specs.Option.{option_map};
ghost use Rattle.tgap_model.specs.Partition.{sides};
ghost use Rattle.grid_geo.specs.Evidence.{face_above, face_below};
ghost use Rattle.planar_stack.specs.Sweep.{disagrees, sides_at, fault_at};

use chunked_row::Row;
use tgap_model::{LabelledSegment, MapFault};

/// Where the faces down a stack disagree: on the line one half beyond the abscissa `line`, below `place` segments, the
/// face `upper` that is reached from above meets the face `lower` that stands there. Either is 0 for the outside.
#[derive(Clone, Copy, PartialEq, Eq)]
pub struct StackGap {
    pub line: i64,
    pub place: u32,
    pub upper: u32,
    pub lower: u32,
}

impl StackGap {
    /// It as a fault of a map.
    pub fn fault(self) -> MapFault
        ensures { result ≡ disagrees self }
    {
        MapFault::StackDisagrees {
            line: self.line,
            place: self.place,
            upper: self.upper,
            lower: self.lower,
        }
    }
}

/// The faces at the upper and at the lower side of a segment.
pub fn faces(s: &LabelledSegment) -> (u32, u32)
    ensures upper { result.0 ≡ (sides s.now).upper }
    ensures lower { result.1 ≡ (sides s.now).lower }
{
    if s.segment.a.x < s.segment.b.x {
        (s.left, s.right)
    } else {
        (s.right, s.left)
    }
}

/// The face that is reached from above at a place of a stack.
pub fn face_reached(starts: &[LabelledSegment], stack: &Row, place: usize) -> u32
    requires known { All (λ n. n < length starts.now) stack.now }
    requires within { place ≤ length stack.now }
    ensures { result ≡ face_above (map (sides_at starts.now) stack.now) place }
{
    if place == 0 {
        return 0;
    }
    faces(&starts[stack.at(place - 1) as usize]).1
}

/// The face that stands at a place of a stack.
fn face_standing(starts: &[LabelledSegment], stack: &Row, place: usize) -> u32
    requires known { All (λ n. n < length starts.now) stack.now }
    ensures { result ≡ face_below (map (sides_at starts.now) stack.now) place }
{
    if place >= stack.len() {
        return 0;
    }
    faces(&starts[stack.at(place) as usize]).0
}

/// The gap at a place of a stack, where the two faces differ.
pub fn gap_at(starts: &[LabelledSegment], stack: &Row, place: usize, line: i64) -> Option<StackGap>
    requires known { All (λ n. n < length starts.now) stack.now }
    requires few { length stack.now < 2 ^ 32 }
    requires within { place ≤ length stack.now }
    ensures { option_map disagrees result ≡ fault_at line (map (sides_at starts.now) stack.now) place }
{
    let upper = face_reached(starts, stack, place);
    let lower = face_standing(starts, stack, place);
    if upper == lower {
        return None;
    }
    Some(StackGap {
        line,
        place: place as u32,
        upper,
        lower,
    })
}
