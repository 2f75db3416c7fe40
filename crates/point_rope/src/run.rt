//! Points of a row that lie side by side in memory.

ghost use Rattle.std.specs.Prelude.{◌≡◌, drop};
ghost use Rattle.point_rope.specs.Rows.{IsRun};

use tgap_model::{Point, Window};

/// What is known of some points: a box that holds them, and a bound that twice the area of the triangle of no three of
/// them in a row is below, in square grid units.
#[derive(Clone, Copy)]
pub struct Summary {
    pub bounds: Window,
    pub least: u128,
}

/// Some points of a row that follow one another, with a summary of them where one is known.
#[derive(Clone, Copy)]
pub struct Run<'a> {
    pub points: &'a [Point],
    pub summary: Option<Summary>,
}

/// All points from a place on, without a summary.
pub fn rest_of(points: &[Point], place: usize) -> Run<'_>
    ensures run { IsRun points.now place result }
    ensures all { result.points.now ≡ drop place points.now }
{
    let start = place.min(points.len());
    Run {
        points: &points[start..],
        summary: None,
    }
}
