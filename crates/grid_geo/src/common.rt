//! What two segments have in common.

ghost use Rattle.std.specs.Prelude.{◌≡◌, ◌≤◌, ◌&&◌, ◌+ℤ◌, ◌*ℤ◌, int_le, unsigned_abs, IfSome};
ghost use Rattle.std.specs.Int.{int_signum};
ghost use Rattle.std.specs.Ordering.{int_eq};
ghost use Rattle.tgap_model.specs.Segment.{is_at, lies_between, turn, crossing, earlier_end, later_end, common_first, common_last, middle, overlap, intersection, any_common, is_permitted};
ghost use Rattle.tgap_model.specs.Bounds.{IsNear, HasNearEnds, max_coordinate, max_difference, max_cross};
ghost use Rattle.grid_geo.specs.Within.{is_within};

use crate::arithmetic::product;
use crate::determinant::{Step, orientation};
use tgap_model::{Fraction, Point, Seg, Shared};

/// Whether `n / d` is this coordinate.
fn is_coordinate(v: i64, n: i128, d: i128) -> bool
    requires v { unsigned_abs v ≤ max_coordinate }
    requires d { unsigned_abs d ≤ max_cross }
    ensures { result ≡ int_eq n (d *ℤ v) }
{
    n == product(d, v)
}

/// Whether the point is at `v`.
fn is_at(p: Fraction, v: Point) -> bool
    requires denominator { unsigned_abs p.d ≤ max_cross }
    requires near { IsNear v }
    ensures { result ≡ is_at p v }
{
    is_coordinate(v.x, p.nx, p.d) && is_coordinate(v.y, p.ny, p.d)
}

/// Whether `n` is from `low` to `high`.
fn is_from_to(low: i128, n: i128, high: i128) -> bool
    ensures { result ≡ (int_le low n && int_le n high) }
{
    low <= n && n <= high
}

/// Whether `n / d` is from one of two coordinates to the other.
fn lies_between(u: i64, v: i64, n: i128, d: i128) -> bool
    requires u { unsigned_abs u ≤ max_coordinate }
    requires v { unsigned_abs v ≤ max_coordinate }
    requires d { unsigned_abs d ≤ max_cross }
    ensures { result ≡ lies_between u v n d }
{
    let start = product(d, u);
    let end = product(d, v);
    is_from_to(start, n, end) || is_from_to(end, n, start)
}

/// Whether both coordinates of a point are between those of the segment's ends.
fn is_within(p: Fraction, s: Seg) -> bool
    requires denominator { unsigned_abs p.d ≤ max_cross }
    requires near { HasNearEnds s }
    ensures { result ≡ is_within p s }
{
    lies_between(s.a.x, s.b.x, p.nx, p.d) && lies_between(s.a.y, s.b.y, p.ny, p.d)
}

/// A coordinate of the point of two lines, times the absolute value of `turn`: `start` and `extent` are of the first
/// line, `turn` is the cross product of both directions and `across` that of the second line's ends and the start.
fn coordinate(turn: i128, start: i64, across: i128, extent: i64) -> i128
    requires turn { unsigned_abs turn ≤ max_cross }
    requires start { unsigned_abs start ≤ max_coordinate }
    requires across { unsigned_abs across ≤ max_cross }
    requires extent { unsigned_abs extent ≤ max_difference }
    ensures { result ≡ int_signum turn *ℤ (turn *ℤ start +ℤ across *ℤ extent) }
{
    turn.signum() * (product(turn, start) + product(across, extent))
}

/// The point of the lines of two segments, of which the directions have this cross product.
fn crossing(s: Seg, t: Seg, cross: i128) -> Fraction
    requires s { HasNearEnds s }
    requires t { HasNearEnds t }
    requires cross { cross ≡ turn s t }
    requires size { unsigned_abs cross ≤ max_cross }
    ensures value { result ≡ crossing s t }
    ensures size { unsigned_abs result.d ≤ max_cross }
{
    let step = Step::between(s.a, s.b);
    let across = orientation(t.a, t.b, s.a);
    Fraction {
        nx: coordinate(cross, s.a.x, across, step.x),
        ny: coordinate(cross, s.a.y, across, step.y),
        d: cross.abs(),
    }
}

/// The point of two segments that are not parallel, of which the directions have this cross product.
fn intersection(s: Seg, t: Seg, cross: i128) -> Option<Fraction>
    requires s { HasNearEnds s }
    requires t { HasNearEnds t }
    requires cross { cross ≡ turn s t }
    requires size { unsigned_abs cross ≤ max_cross }
    ensures value { result ≡ intersection s t }
    ensures size { IfSome result (λ p. unsigned_abs p.d ≤ max_cross) }
{
    // The point is on both lines, so only the places of the ends are left to test.
    let p = crossing(s, t, cross);
    if is_within(p, s) && is_within(p, t) {
        Some(p)
    } else {
        None
    }
}

/// The ends of a segment, the earlier one first.
fn ends_in_order(s: Seg) -> (Point, Point)
    ensures first { result.0 ≡ earlier_end s }
    ensures last { result.1 ≡ later_end s }
{
    if s.b < s.a { (s.b, s.a) } else { (s.a, s.b) }
}

/// The middle between two points.
fn middle(a: Point, b: Point) -> Fraction
    ensures { result ≡ middle a b }
{
    Fraction {
        nx: i128::from(a.x) + i128::from(b.x),
        ny: i128::from(a.y) + i128::from(b.y),
        d: 2,
    }
}

/// The first and the last point that two segments on one line have in common, where they have one.
fn common_ends(s: Seg, t: Seg) -> (Point, Point)
    ensures first { result.0 ≡ common_first s t }
    ensures last { result.1 ≡ common_last s t }
{
    let (s_first, s_last) = ends_in_order(s);
    let (t_first, t_last) = ends_in_order(t);
    let first = if s_first < t_first { t_first } else { s_first };
    let last = if s_last < t_last { s_last } else { t_last };
    (first, last)
}

/// The middle of what two parallel segments have in common.
fn overlap(s: Seg, t: Seg) -> Option<Fraction>
    requires s { HasNearEnds s }
    requires t { HasNearEnds t }
    ensures value { result ≡ overlap s t }
    ensures size { IfSome result (λ p. unsigned_abs p.d ≤ max_cross) }
{
    let (first, last) = common_ends(s, t);
    if orientation(s.a, s.b, t.a) != 0 || last < first {
        None
    } else {
        Some(middle(first, last))
    }
}

/// A point that both segments hold.
pub fn any_common(s: Seg, t: Seg) -> Option<Fraction>
    requires s { HasNearEnds s }
    requires t { HasNearEnds t }
    ensures value { result ≡ any_common s t }
    ensures size { IfSome result (λ p. unsigned_abs p.d ≤ max_cross) }
{
    let cross = Step::between(s.a, s.b).cross(Step::between(t.a, t.b));
    if cross == 0 {
        overlap(s, t)
    } else {
        intersection(s, t, cross)
    }
}

/// Whether the point is an end at which the segments may meet.
pub fn is_permitted(shared: Shared, s: Seg, t: Seg, p: Fraction) -> bool
    requires denominator { unsigned_abs p.d ≤ max_cross }
    requires near { HasNearEnds s }
    ensures { result ≡ is_permitted shared s t p }
{
    (shared.aa || shared.ab) && is_at(p, s.a) || (shared.ba || shared.bb) && is_at(p, s.b)
}
