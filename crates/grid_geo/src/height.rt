//! The order of two segments on a vertical line, by exact integers.

ghost use Rattle.std.specs.Prelude.{◌≡◌, ◌≤◌, ◌*◌, ◌+◌, pos, ◌+ℤ◌, ◌*ℤ◌, unsigned_abs, IsTrue};
ghost use Rattle.tgap_model.specs.Bounds.{IsNear, HasNearEnds, max_coordinate, max_difference, max_shoelace};
ghost use Rattle.tgap_model.specs.Point.{shoelace_term};
ghost use Rattle.tgap_model.specs.Segment.{line_after, crosses, rightward, run, height};
ghost use Rattle.grid_geo.specs.Sizes.{max_height};
ghost use Rattle.grid_geo.specs.Heights.{order_on_line};

use crate::arithmetic::{difference, product};
use crate::determinant::Step;
use std::cmp::Ordering;
use tgap_model::{Point, Seg, shoelace_term};

/// Twice the abscissa of the line one half beyond `line`.
fn twice_abscissa(line: i64) -> i128
    requires { unsigned_abs line ≤ max_coordinate }
    ensures value { result ≡ pos 2 *ℤ line +ℤ pos 1 }
    ensures size { unsigned_abs result ≤ max_difference + 1 }
{
    i128::from(line) * 2 + 1
}

/// The segment from left to right.
fn rightward(s: Seg) -> Seg
    requires { HasNearEnds s }
    ensures value { result ≡ rightward s }
    ensures near { HasNearEnds result }
{
    if s.a.x < s.b.x {
        s
    } else {
        Seg { a: s.b, b: s.a }
    }
}

/// The height of a segment, times twice its run, on the line one half beyond an abscissa.
fn height(s: Seg, line: i64) -> i128
    requires near { HasNearEnds s }
    requires line { unsigned_abs line ≤ max_coordinate }
    ensures value { result ≡ height (line_after line) s }
    ensures size { unsigned_abs result ≤ max_height }
{
    let way = product(twice_abscissa(line), Step::between(s.a, s.b).y);
    difference(way, 2 * shoelace_term(s.a, s.b))
}

/// Which of two segments is higher on the line one half beyond an abscissa: Greater for the first, Less for the second,
/// Equal where they are at one height there.
pub fn cmp_on_line(s: Seg, t: Seg, line: i64) -> Ordering
    requires near_s { HasNearEnds s }
    requires near_t { HasNearEnds t }
    requires crosses_s { IsTrue (crosses (line_after line) s) }
    requires crosses_t { IsTrue (crosses (line_after line) t) }
    ensures { result ≡ order_on_line (line_after line) s t }
{
    let first = rightward(s);
    let second = rightward(t);
    let above = product(height(first, line), Step::between(second.a, second.b).x);
    let below = product(height(second, line), Step::between(first.a, first.b).x);
    above.cmp(&below)
}
