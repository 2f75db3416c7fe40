//! The least corner of points that are looked at one after the other.

ghost use Rattle.std.specs.Prelude.{◌≡◌, ◌≤◌, ◌++◌, ◌∷◌, [], ℕ, Some, List as Sequence, All};
ghost use Rattle.tgap_model.specs.Bounds.{max_cross};
ghost use Rattle.tgap_model.specs.declared.geometry.Point.{Point as Place};
ghost use Rattle.tgap_model.specs.Point.{area2};
ghost use Rattle.point_rope.specs.Held.{IsNearPoint};
ghost use Rattle.point_rope.specs.Corners.{least_area, lesser};
ghost use Rattle.point_rope.specs.Ends.{AreCorners, ends_of};

use grid_geo::area2;
use tgap_model::Point;

/// The least corner of the points so far, twice its area in square grid units, and the last two points.
#[derive(Clone, Copy)]
pub struct Corners {
    least: Option<u128>,
    before: Option<Point>,
    last: Option<Point>,
}

/// Twice the area of the triangle of three points.
fn corner(a: Point, b: Point, c: Point) -> u128
    requires a { IsNearPoint a }
    requires b { IsNearPoint b }
    requires c { IsNearPoint c }
    ensures { result ≡ area2 a b c }
{
    area2(a, b, c).unsigned_abs()
}

/// The lesser of two numbers that may be missing.
fn lesser(a: Option<u128>, b: Option<u128>) -> Option<u128>
    ensures { result ≡ lesser a b }
{
    match (a, b) {
        (Some(m), Some(n)) => Some(m.min(n)),
        (Some(m), None) => Some(m),
        (None, b) => b,
    }
}

impl Corners {
    /// The corners of no point.
    pub fn new() -> Corners
        ensures corners { AreCorners [] result }
        ensures near { All IsNearPoint (ends_of result) }
    {
        Corners {
            least: None,
            before: None,
            last: None,
        }
    }

    /// The least corner.
    pub fn least(self) -> Option<u128>
        ensures exact { (points : Sequence Place) → AreCorners points self → result ≡ least_area points }
        ensures small { (points : Sequence Place) (n : ℕ) → AreCorners points self → least_area points ≡ Some n → n ≤ max_cross }
    {
        self.least
    }

    /// The corner that a point makes with the last two.
    fn next(self, p: Point) -> Option<u128>
        requires ends { All IsNearPoint (ends_of self) }
        requires point { IsNearPoint p }
        ensures { result ≡ least_area (ends_of self ++ p ∷ []) }
    {
        match (self.before, self.last) {
            (Some(a), Some(b)) => Some(corner(a, b, p)),
            _ => None,
        }
    }

    /// The corners of the points and one more.
    pub fn with(self, p: Point) -> Corners
        requires ends { All IsNearPoint (ends_of self) }
        requires point { IsNearPoint p }
        ensures corners { (points : Sequence Place) → AreCorners points self → AreCorners (points ++ p ∷ []) result }
        ensures near { All IsNearPoint (ends_of result) }
    {
        Corners {
            least: lesser(self.least, self.next(p)),
            before: self.last,
            last: Some(p),
        }
    }
}

/// The corners of these points after those of others.
pub fn with_all(corners: Corners, points: &[Point]) -> Corners
    requires ends { All IsNearPoint (ends_of corners) }
    requires points { All IsNearPoint points.now }
    ensures corners { (before : Sequence Place) → AreCorners before corners → AreCorners (before ++ points.now) result }
    ensures near { All IsNearPoint (ends_of result) }
{
    let mut all = corners;
    for point in points {
        all = all.with(*point);
    }
    all
}

/// The corners of these points, of which the least one is known, after those of others.
pub fn with_known(corners: Corners, points: &[Point], least: Option<u128>) -> Corners
    requires ends { All IsNearPoint (ends_of corners) }
    requires points { All IsNearPoint points.now }
    requires least { least ≡ least_area points.now }
    ensures corners { (before : Sequence Place) → AreCorners before corners → AreCorners (before ++ points.now) result }
    ensures near { All IsNearPoint (ends_of result) }
{
    let count = points.len();
    if count < 2 {
        return with_all(corners, points);
    }
    let begun = corners.with(points[0]).with(points[1]);
    Corners {
        least: lesser(begun.least, least),
        before: Some(points[count - 2]),
        last: Some(points[count - 1]),
    }
}

/// Twice the area of the least triangle of three points in a row of these, in square grid units: 0 where three are on
/// one line, and none where there are fewer than three points.
pub fn least_area(points: &[Point]) -> Option<u128>
    requires { All IsNearPoint points.now }
    ensures exact { result ≡ least_area points.now }
    ensures small { (n : ℕ) → least_area points.now ≡ Some n → n ≤ max_cross }
{
    with_all(Corners::new(), points).least()
}
