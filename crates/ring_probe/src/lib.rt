//! Where a ring lies among others, over rows of points: a segment of it that is not vertical, and whether an odd number of the
//! segments of other rows pass above that. It stands on `ring_walk`, whose `Areas` says what that is, and on `grid_geo`.
#![tactic(auto)]

mod probe;
mod segments;

pub use probe::{area_of, either_alone, is_over_odd, leaning_of};
pub use segments::{is_over, segment_at};
