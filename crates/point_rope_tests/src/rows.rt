//! Rows of a thousand points that are put together, lose points, and are looked through. A row stands in a box, so that who holds
//! it holds one part: the proof of its moves is short then.

ghost use Rattle.std.specs.Prelude.{All, IfOk};
ghost use Rattle.point_rope.specs.Held.{IsNearPoint};

use crate::between::Between;
use crate::curves::{bent_points, joined, listed_numbers, numbers, numbers_of, points_of, row_of};
use point_rope::{EdgeRow, Rope, RopeEdge};
use std::alloc::Global;
use std::process::Abort;
use std::test::Fail;
use tgap_model::{Edge, List, Memory, Point, Window};

/// Parts of a row: of few points and of many, in every order of the two.
const CUTS: [&[u16]; 6] = [
    &[0, 1000],
    &[3, 5, 1000],
    &[0, 799, 801, 1000],
    &[10, 160, 240, 241, 280, 800],
    &[0, 400, 800, 840],
    &[0, 1, 521, 522, 523],
];

/// The points from 199 to 247 on a curve that goes straight on from 198 to 200 and then bends like the other one; or the
/// same turned round.
fn bent_part(alloc: Global, turned: bool) -> Result<Rope, Memory> {
    let row = Rope::of(alloc, bent_points(alloc)?)?;
    if !turned {
        return Ok(row);
    }
    let mut back = Rope::new(alloc);
    back.append(alloc, row, true)?;
    Ok(back)
}

/// The places of the segments that meet the box of the points of a number and the next one.
fn places_near(alloc: Global, row: &EdgeRow<'_>, number: u32) -> Result<Vec<u32>, Memory> {
    let mut places = Vec::new(alloc);
    if 2000 < row.len() {
        return Ok(places);
    }
    let low = i64::from(number);
    let high = i64::from(number.wrapping_add(1));
    let area = Window {
        x0: low,
        y0: low.wrapping_mul(low),
        x1: high,
        y1: high.wrapping_mul(high),
    };
    let mut found = List::new(alloc);
    row.push_near(&area, &mut found)?;
    for segment in found.as_slice() {
        places.push(segment.place)?;
    }
    Ok(places)
}

/// The numbers from the first cut to the last one.
fn numbers_within(alloc: Global, cuts: &[u16]) -> Result<Vec<i64>, Memory> {
    let (Some(first), Some(last)) = (cuts.first(), cuts.last()) else {
        return Ok(Vec::new(alloc));
    };
    numbers(alloc, [(i64::from(*first), i64::from(*last) + 1), (0, 0)])
}

/// Compares the numbers of the points of a row, which is read point by point.
fn assert_numbers(
    rt: &impl Abort,
    alloc: Global,
    row: &Rope,
    expected: &[i64],
) -> Result<(), Memory> {
    let found = numbers_of(alloc, row)?;
    assert_eq!(rt; found.as_slice(), expected);
    Ok(())
}

/// Compares the numbers of the points of a row, which is made a list.
fn assert_listed(
    rt: &impl Abort,
    alloc: Global,
    row: Rope,
    expected: &[i64],
) -> Result<(), Memory> {
    let list = row.into_list(alloc)?;
    let listed = listed_numbers(alloc, list.as_slice())?;
    assert_eq!(rt; listed.as_slice(), expected);
    Ok(())
}

/// Puts a row together of these parts, and compares its numbers and the area of its least corner.
fn assert_joined(rt: &impl Abort, alloc: Global, cuts: &[u16], turned: bool) -> Result<(), Memory> {
    let expected = numbers_within(alloc, cuts)?;
    let row = Box::new(alloc, joined(alloc, cuts, turned)?)?;
    assert_numbers(rt, alloc, &row, &expected)?;
    assert_eq!(rt; row.least_area(), Some(2));
    assert_listed(rt, alloc, Box::into_inner(row), &expected)
}

#[test]
fn rows_are_put_together(rt: HostRuntime) -> Result<(), Fail> {
    for cuts in CUTS {
        assert_joined(&rt, rt.alloc(), cuts, false)?;
        assert_joined(&rt, rt.alloc(), cuts, true)?;
    }
    Ok(())
}

/// A row with a flat corner where its two parts meet.
fn flat_row(alloc: Global, turned: bool) -> Result<Box<Rope>, Memory> {
    let bent = bent_part(alloc, turned)?;
    let mut row = Box::new(alloc, row_of(alloc, 0, 200, false)?)?;
    row.append(alloc, bent, turned)?;
    Ok(row)
}

/// Takes points out of a row with a flat corner, and looks at the area of its least one.
fn assert_flat_corner(rt: &impl Abort, alloc: Global, row: &mut Rope) -> Result<(), Memory> {
    assert_eq!(rt; row.len(), 248);
    assert_eq!(rt; row.least_area(), Some(0));
    // the corner of 198, 200 and 201, and those beside it
    row.remove(&Between {
        low: 199,
        high: 199,
    });
    assert_eq!(rt; row.least_area(), Some(2));
    row.remove(&Between { low: 0, high: 196 });
    row.remove(&Between {
        low: 202,
        high: 250,
    });
    assert_numbers(rt, alloc, row, &[197, 198, 200, 201])?;
    assert_eq!(rt; row.least_area(), Some(4));
    Ok(())
}

#[test]
fn a_flat_corner_between_two_parts_is_seen(rt: HostRuntime) -> Result<(), Fail> {
    for turned in [false, true] {
        let mut row = flat_row(rt.alloc(), turned)?;
        assert_flat_corner(&rt, rt.alloc(), &mut row)?;
    }
    Ok(())
}

/// Takes the points from 400 to 599 out of a row of those up to 1000.
fn assert_middle_out(rt: &impl Abort, alloc: Global, row: &mut Rope) -> Result<(), Memory> {
    let middle = Between {
        low: 400,
        high: 599,
    };
    assert!(rt; row.has_any(&middle));
    row.remove(&middle);
    assert!(rt; !row.has_any(&middle));
    let expected = numbers(alloc, [(0, 400), (600, 1001)])?;
    assert_numbers(rt, alloc, row, &expected)?;
    assert_eq!(rt; row.least_area(), Some(2));
    Ok(())
}

/// Takes all points but 399, 600 and 601 out of what is left.
fn assert_ends_out(rt: &impl Abort, row: &mut Rope) {
    row.remove(&Between { low: 0, high: 398 });
    row.remove(&Between {
        low: 602,
        high: 1000,
    });
    // (600 - 399) * (601 - 600) * (601 - 399)
    assert_eq!(rt; row.least_area(), Some(40602));
    let bounds = row.bounds();
    assert!(rt; bounds.x0 <= 399 && 601 <= bounds.x1 && bounds.y0 <= 159201 && 361201 <= bounds.y1);
}

/// Takes out two of three points, and then the last one, which is 601.
fn assert_all_out(rt: &impl Abort, alloc: Global, row: &mut Rope) -> Result<(), Memory> {
    row.remove(&Between { low: 0, high: 600 });
    assert_numbers(rt, alloc, row, &[601])?;
    assert_eq!(rt; row.least_area(), None);
    row.remove(&Between { low: 0, high: 1000 });
    assert_eq!(rt; row.len(), 0);
    Ok(())
}

#[test]
fn points_go_out_of_the_middle(rt: HostRuntime) -> Result<(), Fail> {
    for cuts in [[0, 320, 1000], [0, 520, 1000]] {
        let mut row = Box::new(rt.alloc(), joined(rt.alloc(), &cuts, false)?)?;
        assert_middle_out(&rt, rt.alloc(), &mut row)?;
        assert_ends_out(&rt, &mut row);
        assert_all_out(&rt, rt.alloc(), &mut row)?;
    }
    Ok(())
}

/// An edge whose points are those from 0 to 1000.
fn curve(alloc: Global) -> Result<Edge, Memory>
    ensures { IfOk result (λ edge. All IsNearPoint edge.points) }
{
    Ok(Edge {
        key: 7,
        left: 1,
        right: 2,
        points: points_of(alloc, 0, 1001)?,
    })
}

/// Looks for the segments near each of some numbers: at the ends, in the middle, and where runs meet.
fn assert_near(rt: &impl Abort, alloc: Global, row: &EdgeRow<'_>) -> Result<(), Memory> {
    for number in [1, 254, 255, 256, 400, 510, 511, 512, 767, 768, 998] {
        let found = places_near(alloc, row, number)?;
        let expected = [number - 1, number, number + 1];
        assert_eq!(rt; found.as_slice(), expected.as_slice());
    }
    Ok(())
}

#[test]
fn segments_near_an_area_are_found_in_a_rope(rt: HostRuntime) -> Result<(), Fail> {
    let edge = Box::new(rt.alloc(), RopeEdge::of(rt.alloc(), curve(rt.alloc())?)?)?;
    Ok(assert_near(&rt, rt.alloc(), &EdgeRow::of_rope(&edge))?)
}

#[test]
fn segments_near_an_area_are_found_in_a_list(rt: HostRuntime) -> Result<(), Fail> {
    let edge = curve(rt.alloc())?;
    Ok(assert_near(&rt, rt.alloc(), &EdgeRow::of_edge(&edge))?)
}
