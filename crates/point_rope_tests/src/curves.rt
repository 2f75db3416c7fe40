//! Points on a curve: the number is the abscissa, and its square the ordinate. Twice the area of the triangle of the numbers
//! `a`, `b` and `c` is `(b - a) * (c - b) * (c - a)`.

ghost use Rattle.std.specs.Prelude.{All, IfOk};
ghost use Rattle.point_rope.specs.Held.{IsNearPoint};

use point_rope::Rope;
use std::alloc::Global;
use tgap_model::{List, Memory, Point};

/// The points of the numbers from one on below another, none above 1000.
pub fn points_of(alloc: Global, from: u16, end: u16) -> Result<List<Point>, Memory>
    ensures { IfOk result (λ points. All IsNearPoint points) }
{
    let mut points = List::new(alloc);
    for number in from..end {
        let wide = u32::from(number);
        points.push(Point {
            x: i64::from(number),
            y: i64::from(wide.wrapping_mul(wide).min(1_000_000)),
        })?;
    }
    Ok(points)
}

/// The points from 199 to 247 on a curve that is straight from 198 to 200, and whose corners have an area of 2 then: the
/// ordinate of 199 is its square, and that of `199 + j` is greater by `397 * j + j * (j - 1)`.
pub fn bent_points(alloc: Global) -> Result<List<Point>, Memory>
    ensures { IfOk result (λ points. All IsNearPoint points) }
{
    let mut points = List::new(alloc);
    for j in 0..49u16 {
        let rise = j.wrapping_mul(j.wrapping_add(396));
        points.push(Point {
            x: i64::from(j.wrapping_add(199)),
            y: i64::from(rise.wrapping_add(39601)),
        })?;
    }
    Ok(points)
}

/// The row of these points, or the same turned round.
pub fn row_of(alloc: Global, from: u16, end: u16, turned: bool) -> Result<Rope, Memory> {
    let row = Rope::of(alloc, points_of(alloc, from, end)?)?;
    if !turned {
        return Ok(row);
    }
    let mut back = Rope::new(alloc);
    back.append(alloc, row, true)?;
    Ok(back)
}

/// A row of parts, each of which begins with the number with which the one before it ends. Where they are turned, each of
/// them is turned round, and turned back where it comes.
pub fn joined(alloc: Global, cuts: &[u16], turned: bool) -> Result<Rope, Memory> {
    let mut row = Rope::new(alloc);
    for i in 1..cuts.len() {
        let part = row_of(alloc, cuts[i - 1], cuts[i].saturating_add(1), turned)?;
        row.append(alloc, part, turned)?;
    }
    Ok(row)
}

/// The numbers of the points of a row, which is read point by point.
pub fn numbers_of(alloc: Global, row: &Rope) -> Result<Vec<i64>, Memory> {
    let mut numbers = Vec::new(alloc);
    for place in 0..row.len() {
        numbers.push(row.at(place).x)?;
    }
    Ok(numbers)
}

/// The numbers of the points of a list.
pub fn listed_numbers(alloc: Global, points: &[Point]) -> Result<Vec<i64>, Memory> {
    let mut numbers = Vec::new(alloc);
    for point in points {
        numbers.push(point.x)?;
    }
    Ok(numbers)
}

/// The numbers from one on below another, and from a third below a fourth.
pub fn numbers(alloc: Global, parts: [(i64, i64); 2]) -> Result<Vec<i64>, Memory> {
    let mut numbers = Vec::new(alloc);
    for number in parts[0].0..parts[0].1 {
        numbers.push(number)?;
    }
    for number in parts[1].0..parts[1].1 {
        numbers.push(number)?;
    }
    Ok(numbers)
}
