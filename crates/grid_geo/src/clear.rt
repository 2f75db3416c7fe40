//! When a triangle is clear of a segment.

ghost use Rattle.std.specs.Prelude.{◌≡◌, ◌≤◌, ◌&&◌, ◌||◌, not, pos, neg_ℤ, unsigned_abs, IsTrue};
ghost use Rattle.std.specs.Ordering.{int_eq};
ghost use Rattle.tgap_model.specs.Base.{in_limits, same_point};
ghost use Rattle.tgap_model.specs.Point.{side};
ghost use Rattle.tgap_model.specs.Clear.{is_base_corner, lies_away, is_beyond, is_at_side, is_beside, is_clear};

use crate::side;
use tgap_model::{Point, Seg};

/// Whether two points are one.
fn is_same(p: Point, q: Point) -> bool
    ensures { result ≡ same_point p q }
{
    p.x == q.x && p.y == q.y
}

/// Whether the point is the first or the last corner of the triangle.
fn is_base_corner(a: Point, c: Point, p: Point) -> bool
    ensures { result ≡ is_base_corner a c p }
{
    is_same(p, a) || is_same(p, c)
}

/// Whether one side is the other.
fn is_side(at: i8, z: i8) -> bool
    ensures { result ≡ int_eq at z }
{
    at == z
}

/// Whether a point that is on side `at` of a line is strictly on the side other than `inner`.
fn is_opposite(at: i8, inner: i8) -> bool
    requires { unsigned_abs inner ≤ 1 }
    ensures { result ≡ (not (int_eq at (pos 0)) && int_eq at (neg_ℤ inner)) }
{
    !is_side(at, 0) && is_side(at, -inner)
}

/// Whether a point on side `at` is the first or the last corner, and on the line.
fn is_corner_on_line(a: Point, c: Point, p: Point, at: i8) -> bool
    ensures { result ≡ (is_base_corner a c p && int_eq at (pos 0)) }
{
    is_base_corner(a, c, p) && is_side(at, 0)
}

/// Whether the point lies away from the triangle, which is on side `inner` of the line from `u` to `v`.
fn lies_away(a: Point, c: Point, u: Point, v: Point, inner: i8, p: Point) -> bool
    requires u { IsTrue (in_limits u) }
    requires v { IsTrue (in_limits v) }
    requires p { IsTrue (in_limits p) }
    requires inner { unsigned_abs inner ≤ 1 }
    ensures { (w : Point) → inner ≡ side u v w → result ≡ lies_away a c u v w p }
{
    let at = side(u, v, p);
    is_opposite(at, inner) || is_corner_on_line(a, c, p, at)
}

/// Whether both ends of the segment lie away from the triangle, which is on side `inner` of the line from `u` to `v`.
fn is_beyond(a: Point, c: Point, u: Point, v: Point, inner: i8, s: Seg) -> bool
    requires u { IsTrue (in_limits u) }
    requires v { IsTrue (in_limits v) }
    requires s { IsTrue (in_limits s.a) × IsTrue (in_limits s.b) }
    requires inner { unsigned_abs inner ≤ 1 }
    ensures { (w : Point) → inner ≡ side u v w → result ≡ is_beyond a c u v w s }
{
    lies_away(a, c, u, v, inner, s.a) && lies_away(a, c, u, v, inner, s.b)
}

/// Whether the line of some side of the triangle has the segment on the other side.
fn is_beyond_a_side(a: Point, b: Point, c: Point, s: Seg) -> bool
    requires a { IsTrue (in_limits a) }
    requires b { IsTrue (in_limits b) }
    requires c { IsTrue (in_limits c) }
    requires s { IsTrue (in_limits s.a) × IsTrue (in_limits s.b) }
    ensures { result ≡ (is_beyond a c a b c s || is_beyond a c b c a s || is_beyond a c c a b s) }
{
    let inner = side(a, b, c);
    is_beyond(a, c, a, b, inner, s)
        || (is_beyond(a, c, b, c, inner, s) || is_beyond(a, c, c, a, inner, s))
}

/// Whether the point is an end of the segment.
fn is_end(s: Seg, v: Point) -> bool
    ensures { result ≡ (same_point v s.a || same_point v s.b) }
{
    is_same(v, s.a) || is_same(v, s.b)
}

/// Whether the corner is the first or the last one, and an end of the segment.
fn touches(a: Point, c: Point, s: Seg, v: Point) -> bool
    ensures { result ≡ (is_base_corner a c v && (same_point v s.a || same_point v s.b)) }
{
    is_base_corner(a, c, v) && is_end(s, v)
}

/// Whether the corner `v`, which is on side `at` of the segment's line, is on side `z`, or touches the segment.
fn is_at_side(a: Point, c: Point, s: Seg, z: i8, v: Point, at: i8) -> bool
    requires { at ≡ side s.a s.b v }
    ensures { result ≡ is_at_side a c s z v }
{
    is_side(at, z) || touches(a, c, s, v)
}

/// On which sides of a segment's line the corners of a triangle are.
#[derive(Clone, Copy)]
struct Sides {
    a: i8,
    b: i8,
    c: i8,
}

/// Whether a triangle of which the corners are on these sides of the segment's line is wholly on side `z`.
fn is_on_one_side(a: Point, b: Point, c: Point, s: Seg, z: i8, at: Sides) -> bool
    requires a { at.a ≡ side s.a s.b a }
    requires b { at.b ≡ side s.a s.b b }
    requires c { at.c ≡ side s.a s.b c }
    ensures { result ≡ is_beside a b c s z }
{
    is_at_side(a, c, s, z, a, at.a)
        && (is_at_side(a, c, s, z, b, at.b) && is_at_side(a, c, s, z, c, at.c))
}

/// Whether the line of the segment has the triangle on one side.
fn is_beside(a: Point, b: Point, c: Point, s: Seg) -> bool
    requires a { IsTrue (in_limits a) }
    requires b { IsTrue (in_limits b) }
    requires c { IsTrue (in_limits c) }
    requires s { IsTrue (in_limits s.a) × IsTrue (in_limits s.b) }
    ensures { result ≡ (is_beside a b c s (pos 1) || is_beside a b c s (neg_ℤ (pos 1))) }
{
    let at = Sides {
        a: side(s.a, s.b, a),
        b: side(s.a, s.b, b),
        c: side(s.a, s.b, c),
    };
    is_on_one_side(a, b, c, s, 1, at) || is_on_one_side(a, b, c, s, -1, at)
}

/// Whether a line separates the triangle from the segment: that of a side of the triangle, or that of the segment.
fn is_apart(a: Point, b: Point, c: Point, s: Seg) -> bool
    requires a { IsTrue (in_limits a) }
    requires b { IsTrue (in_limits b) }
    requires c { IsTrue (in_limits c) }
    requires s { IsTrue (in_limits s.a) × IsTrue (in_limits s.b) }
    ensures { result ≡ ((is_beyond a c a b c s || is_beyond a c b c a s || is_beyond a c c a b s)
        || (is_beside a b c s (pos 1) || is_beside a b c s (neg_ℤ (pos 1)))) }
{
    is_beyond_a_side(a, b, c, s) || is_beside(a, b, c, s)
}

/// Whether both ends of the segment are the first or the last corner of the triangle.
fn is_base(a: Point, c: Point, s: Seg) -> bool
    ensures { result ≡ (is_base_corner a c s.a && is_base_corner a c s.b) }
{
    is_base_corner(a, c, s.a) && is_base_corner(a, c, s.b)
}

/// Whether a triangle with area is clear of a segment: at most one end of the segment is `a` or `c`, and the line of a
/// side of the triangle has the segment on the other side, or the line of the segment has the triangle on one side. Such
/// an end may lie on these lines.
pub fn clear_of(a: Point, b: Point, c: Point, s: Seg) -> bool
    requires a { IsTrue (in_limits a) }
    requires b { IsTrue (in_limits b) }
    requires c { IsTrue (in_limits c) }
    requires s { IsTrue (in_limits s.a) × IsTrue (in_limits s.b) }
    ensures { result ≡ is_clear a b c s }
{
    !is_base(a, c, s) && is_apart(a, b, c, s)
}
