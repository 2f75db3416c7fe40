//! Exact predicates of plane geometry over grid points: no overflow, no floating point, no memory. It stands on
//! `tgap_model`, whose `Segment` defines each of them.
#![tactic(auto)]

ghost use Rattle.std.specs.Prelude.{◌≡◌, ◌≢◌, pos, true, IsTrue, IfSome, None};
ghost use Rattle.tgap_model.specs.Base.{in_limits};
ghost use Rattle.tgap_model.specs.Point.{side, area2};
ghost use Rattle.tgap_model.specs.Segment.{HaveInCommon, common_point, turns_before};
ghost use Rattle.grid_geo.specs.Directions.{order_round};

mod arithmetic;
mod clear;
mod common;
mod determinant;
mod direction;
mod height;

pub use clear::clear_of;
use common::{any_common, is_permitted};
use determinant::orientation;
use direction::half_turn;
pub use height::cmp_on_line;
use std::cmp::Ordering;
pub use tgap_model::Shared;
use tgap_model::{Fraction, Point, Seg};

/// The side of `c` against the line from `a` to `b`: 1 at its left, -1 at its right, 0 on it.
pub fn side(a: Point, b: Point, c: Point) -> i8
    requires a { IsTrue (in_limits a) }
    requires b { IsTrue (in_limits b) }
    requires c { IsTrue (in_limits c) }
    ensures { result ≡ side a b c }
{
    orientation(a, b, c).signum() as i8
}

/// Twice the area of the triangle of three points, in square grid units.
pub fn area2(a: Point, b: Point, c: Point) -> i128
    requires a { IsTrue (in_limits a) }
    requires b { IsTrue (in_limits b) }
    requires c { IsTrue (in_limits c) }
    ensures { result ≡ pos (area2 a b c) }
{
    orientation(a, b, c).abs()
}

/// A point that both segments hold and that is no end at which they may meet, or None exactly where there is none.
///
/// Where the segments are not parallel, it is the point at which their lines cross: a fraction, left as it comes, over the
/// size of the cross product of the two directions. On one line it is halfway along what both segments cover, over 2.
/// The first segment has two different ends; the second may be a single point. A flag of `shared` permits the end of
/// the first segment that it names.
pub fn common_point(s: Seg, t: Seg, shared: Shared) -> Option<Fraction>
    requires s { IsTrue (in_limits s.a) × IsTrue (in_limits s.b) }
    requires t { IsTrue (in_limits t.a) × IsTrue (in_limits t.b) }
    requires apart { s.a ≢ s.b }
    ensures value { result ≡ common_point s t shared }
    // It is on both segments, and no permitted end.
    ensures found { IfSome result (HaveInCommon s t shared) }
    // There is none only where every point of both is a permitted end.
    ensures none { result ≡ None → (p : Fraction) → ¬ (HaveInCommon s t shared p) }
{
    let p = any_common(s, t)?;
    if is_permitted(shared, s, t, p) {
        None
    } else {
        Some(p)
    }
}

/// The order of the directions from `o` to `p` and to `q`, counter-clockwise from the direction of positive x: Less
/// where that to `p` comes first, Equal where they are one.
pub fn cmp_round(o: Point, p: Point, q: Point) -> Ordering
    requires o { IsTrue (in_limits o) }
    requires p { IsTrue (in_limits p) × (o ≢ p) }
    requires q { IsTrue (in_limits q) × (o ≢ q) }
    ensures { result ≡ order_round o p q }
{
    match half_turn(o, p).cmp(&half_turn(o, q)) {
        Ordering::Equal => 0.cmp(&orientation(o, p, q)),
        order => order,
    }
}

/// Whether a turn about `o`, counter-clockwise from the direction of positive x, meets that of `p` before that of `q`.
pub fn turn_before(o: Point, p: Point, q: Point) -> bool
    requires o { IsTrue (in_limits o) }
    requires p { IsTrue (in_limits p) × (o ≢ p) }
    requires q { IsTrue (in_limits q) × (o ≢ q) }
    ensures { result ≡ turns_before o p q }
{
    cmp_round(o, p, q) == Ordering::Less
}
