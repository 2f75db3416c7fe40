//! Whether one segment may stand next above another in the row.

ghost use Rattle.std.specs.Prelude.{◌≡◌, ◌<ℤ◌, ◌||◌, pos, int_le, true, IsTrue};
ghost use Rattle.tgap_model.specs.Base.{in_limits, same_point};
ghost use Rattle.tgap_model.specs.Point.{side};
ghost use Rattle.planar_sweep.specs.Over.{is_slanted, starts_over, ends_over, is_over, starts_apart, ends_apart, is_end_or_left, is_end_or_right, shares_line, StandsOver};
ghost use Rattle.planar_sweep.specs.Ends.{IsReady};

use grid_geo::side;
use tgap_model::{Point, Seg};

/// Whether a forward segment goes to the right.
fn is_slanted(s: Seg) -> bool
    ensures { result ≡ is_slanted s }
{
    s.a.x < s.b.x
}

/// Whether `c` is at the left of one who goes from `a` to `b`, or on the line.
fn is_left_or_on(a: Point, b: Point, c: Point) -> bool
    requires a { IsTrue (in_limits a) }
    requires b { IsTrue (in_limits b) }
    requires c { IsTrue (in_limits c) }
    ensures { result ≡ int_le (pos 0) (side a b c) }
{
    0 <= side(a, b, c)
}

/// Whether `c` is at the right of one who goes from `a` to `b`, or on the line.
fn is_right_or_on(a: Point, b: Point, c: Point) -> bool
    requires a { IsTrue (in_limits a) }
    requires b { IsTrue (in_limits b) }
    requires c { IsTrue (in_limits c) }
    ensures { result ≡ int_le (side a b c) (pos 0) }
{
    side(a, b, c) <= 0
}

/// Whether one of the starts shows the first segment over the second.
fn starts_over(s: Seg, t: Seg) -> bool
    requires s { IsReady s }
    requires t { IsReady t }
    ensures { result ≡ starts_over s t }
{
    is_left_or_on(t.a, t.b, s.a) || is_right_or_on(s.a, s.b, t.a)
}

/// Whether one of the ends shows the first segment over the second.
fn ends_over(s: Seg, t: Seg) -> bool
    requires s { IsReady s }
    requires t { IsReady t }
    ensures { result ≡ ends_over s t }
{
    is_left_or_on(t.a, t.b, s.b) || is_right_or_on(s.a, s.b, t.b)
}

/// Whether a slanted segment is over another one.
fn slanted_over(s: Seg, t: Seg) -> bool
    requires s { IsReady s }
    requires t { IsReady t }
    requires slanted { IsTrue (is_slanted s) }
    ensures { result ≡ is_over s t }
{
    if is_slanted(t) {
        starts_over(s, t) && ends_over(s, t)
    } else {
        is_right_or_on(s.a, s.b, t.b)
    }
}

/// Whether no point of the first segment is lower than a point of the second on a vertical line that meets both.
pub fn is_over(s: Seg, t: Seg) -> bool
    requires s { IsReady s }
    requires t { IsReady t }
    ensures { result ≡ is_over s t }
{
    if is_slanted(s) {
        return slanted_over(s, t);
    }
    if is_slanted(t) {
        is_left_or_on(t.a, t.b, s.a)
    } else {
        t.b.y <= s.a.y
    }
}

/// Whether the first segment is over the second, where they are at one abscissa: what has no point below the highest one
/// of the other is over it, and what has all points below the lowest one is not. So `is_over` tells there too, by side
/// tests, which are asked where the ordinates do not tell.
pub fn is_over_at_line(s: Seg, t: Seg) -> bool
    requires s { IsReady s }
    requires t { IsReady t }
{
    if t.a.y.max(t.b.y) <= s.a.y.min(s.b.y) {
        return true;
    }
    if s.a.y.max(s.b.y) < t.a.y.min(t.b.y) {
        return false;
    }
    is_over(s, t)
}

/// Whether a vertical line meets both segments.
fn shares_line(s: Seg, t: Seg) -> bool
    ensures { result ≡ shares_line s t }
{
    t.a.x <= s.b.x && s.a.x <= t.b.x
}

/// Whether both ends of the first segment are higher than both of the second.
fn is_higher(s: Seg, t: Seg) -> bool
    ensures { result ≡ true → (t.a.y <ℤ s.a.y) × (t.a.y <ℤ s.b.y) × (t.b.y <ℤ s.a.y) × (t.b.y <ℤ s.b.y) }
{
    t.a.y.max(t.b.y) < s.a.y.min(s.b.y)
}

/// Whether a point is an end of a segment, or at its left.
fn is_end_or_left(s: Seg, v: Point) -> bool
    requires s { IsReady s }
    requires v { IsTrue (in_limits v) }
    ensures { result ≡ is_end_or_left s v }
{
    v == s.a || v == s.b || 0 < side(s.a, s.b, v)
}

/// Whether a point is an end of a segment, or at its right.
fn is_end_or_right(s: Seg, v: Point) -> bool
    requires s { IsReady s }
    requires v { IsTrue (in_limits v) }
    ensures { result ≡ is_end_or_right s v }
{
    v == s.a || v == s.b || side(s.a, s.b, v) < 0
}

/// Whether the later start of two slanted segments shows the first one strictly over the second.
fn starts_apart(s: Seg, t: Seg) -> bool
    requires s { IsReady s }
    requires t { IsReady t }
    ensures { result ≡ true → starts_apart s t ≡ true }
{
    if t.a.x <= s.a.x {
        0 < side(t.a, t.b, s.a)
    } else {
        side(s.a, s.b, t.a) < 0
    }
}

/// Whether the earlier end of two slanted segments shows the first one strictly over the second.
fn ends_apart(s: Seg, t: Seg) -> bool
    requires s { IsReady s }
    requires t { IsReady t }
    ensures { result ≡ true → ends_apart s t ≡ true }
{
    if s.b.x <= t.b.x {
        0 < side(t.a, t.b, s.b)
    } else {
        side(s.a, s.b, t.b) < 0
    }
}

/// Whether one of two segments ends where the other begins.
fn are_end_to_start(s: Seg, t: Seg) -> bool
    ensures { result ≡ (same_point s.b t.a || same_point t.b s.a) }
{
    s.b == t.a || t.b == s.a
}

/// Whether a slanted segment may stand next above another one, where a vertical line meets both: they have no more in
/// common than the end of one that is the start of the other, or the first is strictly over the second from the later
/// start to the earlier end, but for a common start or a common end.
fn slanted_stands_over(s: Seg, t: Seg) -> bool
    requires s { IsReady s }
    requires t { IsReady t }
    requires slanted_s { IsTrue (is_slanted s) }
    requires slanted_t { IsTrue (is_slanted t) }
    ensures { result ≡ true → StandsOver s t }
{
    if are_end_to_start(s, t) {
        return true;
    }
    if s.a == t.a {
        ends_apart(s, t)
    } else if s.b == t.b {
        starts_apart(s, t)
    } else {
        starts_apart(s, t) && ends_apart(s, t)
    }
}

/// Whether the first segment may stand next above the second, where a vertical line meets both.
fn stands_over_at_line(s: Seg, t: Seg) -> bool
    requires s { IsReady s }
    requires t { IsReady t }
    ensures { result ≡ true → StandsOver s t }
{
    match (is_slanted(s), is_slanted(t)) {
        (true, true) => slanted_stands_over(s, t),
        (true, false) => is_end_or_right(s, t.b),
        (false, true) => is_end_or_left(t, s.a),
        (false, false) => t.b.y <= s.a.y,
    }
}

/// Whether the first segment may stand next above the second.
pub fn stands_over(s: Seg, t: Seg) -> bool
    requires s { IsReady s }
    requires t { IsReady t }
    ensures { result ≡ true → StandsOver s t }
{
    if !shares_line(s, t) {
        return is_over(s, t);
    }
    is_higher(s, t) || stands_over_at_line(s, t)
}
