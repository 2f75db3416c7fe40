//! Cuts over slots, beside those over the arcs alone.

ghost use Rattle.std.specs.Prelude.{◌≡◌, ℕ, true, IfOk, neg_ℤ};
ghost use Rattle.std.specs.List.{list_all};
ghost use Rattle.tgap_model.specs.declared.limits.TheConstants.{MAX_COORDINATE};
ghost use Rattle.tgap_model.specs.Base.{in_limits, within};
ghost use Rattle.face_cuts.specs.NewRings.{IsNewLine};
ghost use Rattle.arc_places.specs.Borders.{HaveFaces};
ghost use Rattle.arc_places.specs.Slots.{arcs_in};

use crate::maps::{Rows, base_of, points_of};
use arc_places::{Borders, Places, SlotTable};
use face_cuts::{Cause, NodeTable, are_different, cut_along};
use ring_walk::Side;
use std::alloc::Global;
use std::test::Fail;
use tgap_model::{Base, BaseArc, List, MAX_COORDINATE, Memory, Or, Point, copied_arcs};

/// Whether the coordinate is within the limits of a map.
fn is_within(coordinate: i64) -> bool
    ensures { result ≡ within (neg_ℤ MAX_COORDINATE) MAX_COORDINATE coordinate }
{
    -MAX_COORDINATE <= coordinate && coordinate <= MAX_COORDINATE
}

/// Whether the point is.
fn is_near(point: &Point) -> bool
    ensures { result ≡ in_limits point.now }
{
    is_within(point.x) && is_within(point.y)
}

/// Whether all points are.
fn are_near(points: &[Point]) -> bool
    ensures { result ≡ list_all in_limits points.now }
{
    points.iter().all(|point| is_near(point))
}

/// Whether the points are those of a new arc: two to ten, within the limits, and all different.
fn is_new_line(alloc: Global, points: &[Point]) -> Result<bool, Memory>
    ensures { IfOk result (λ is. is ≡ true → IsNewLine points.now) }
{
    Ok(2 <= points.len() && points.len() <= 10 && are_near(points) && are_different(alloc, points)?)
}

/// The slots with one more at this place, whose arc is gone.
fn with_gap(alloc: Global, mut slots: Vec<BaseArc>, at: usize) -> Result<Vec<BaseArc>, Memory>
    ensures arcs { IfOk result (λ made. arcs_in made.items ≡ arcs_in slots.items) }
    ensures faces { IfOk result (λ made. (n : ℕ) → HaveFaces n slots.items → HaveFaces n made.items) }
{
    let gone = BaseArc {
        left: 0,
        right: 0,
        points: List::new(alloc),
    };
    let place = at.min(slots.len());
    slots.insert(place, gone)?;
    Ok(slots)
}

/// Slots of these arcs, of which the first and the third are gone.
fn slots_of(alloc: Global, arcs: &[BaseArc]) -> Result<Vec<BaseArc>, Memory>
    ensures arcs { IfOk result (λ made. arcs_in made.items ≡ arcs_in arcs.now) }
    ensures faces { IfOk result (λ made. (n : ℕ) → HaveFaces n arcs.now → HaveFaces n made.items) }
{
    let all = copied_arcs(alloc, arcs)?.into_vec();
    let later = with_gap(alloc, all, 1)?;
    let made = with_gap(alloc, later, 0)?;
    Ok(made)
}

/// The sides that a cut of the face takes over, by a table of the arcs.
fn over_arcs(
    alloc: Global,
    base: &Base,
    face: u32,
    points: &[Point],
) -> Result<List<Side>, Or<Cause>>
    requires { IsNewLine points.now }
{
    let table = NodeTable::of(alloc, base.arcs().as_slice())?;
    cut_along(alloc, &table, face, points)
}

/// The sides that a cut of the face takes over, by a table of slots.
fn over_slots(
    alloc: Global,
    base: &Base,
    face: u32,
    points: &[Point],
) -> Result<List<Side>, Or<Cause>>
    requires { IsNewLine points.now }
{
    let slots = slots_of(alloc, base.arcs().as_slice())?;
    let places = Places::of(alloc, &slots)?;
    let borders = Borders::of(alloc, &slots, base.classes().len())?;
    let table = SlotTable::of(alloc, &slots, &places, &borders)?;
    cut_along(alloc, &table, face, points)
}

/// What a cut gives: the numbers of the sides that it takes over, or the number of the cause.
type Wanted<'a> = Result<&'a [usize], u8>;

/// Whether the sides have these numbers, in order.
fn are_sides(sides: &[Side], numbers: &[usize]) -> bool {
    if sides.len() != numbers.len() {
        return false;
    }
    for at in 0..sides.len() {
        if sides[at].number() != numbers[at] {
            return false;
        }
    }
    true
}

/// Whether a cut gave that.
fn is_wanted(given: Result<List<Side>, Or<Cause>>, wanted: Wanted<'_>) -> Result<bool, Memory> {
    match (given, wanted) {
        (Ok(sides), Ok(numbers)) => Ok(are_sides(sides.as_slice(), numbers)),
        (Err(Or::Fault(cause)), Err(number)) => Ok(cause.number == number),
        (Err(Or::Memory), _) => Err(Memory),
        _ => Ok(false),
    }
}

/// Whether a cut of the map's face 1 gives that over the arcs and over slots.
fn gives(
    alloc: Global,
    faces: usize,
    rows: Rows<'_>,
    coordinates: &[(i64, i64)],
    wanted: Wanted<'_>,
) -> Result<bool, Memory> {
    let base = base_of(alloc, faces, rows)?;
    let points = points_of(alloc, coordinates)?;
    if !is_new_line(alloc, &points)? {
        return Ok(false);
    }
    Ok(
        is_wanted(over_arcs(alloc, &base, 1, &points), wanted)?
            && is_wanted(over_slots(alloc, &base, 1, &points), wanted)?,
    )
}

/// A square of two arcs, in which two smaller squares lie.
const ISLANDS: Rows<'static> = &[
    (1, 0, &[(20, 0), (40, 0), (40, 20), (20, 20)]),
    (1, 0, &[(20, 20), (0, 20), (0, 0), (20, 0)]),
    (2, 1, &[(5, 5), (10, 5), (10, 10), (5, 10), (5, 5)]),
    (3, 1, &[(25, 5), (30, 5), (30, 10), (25, 10), (25, 5)]),
];

// The new arc goes up. At its left are the square's left half, along its arc, and the island there, against its arc.
#[test]
fn an_island_at_the_left(rt: HostRuntime) -> Result<(), Fail> {
    assert!(rt; gives(rt.alloc(), 3, ISLANDS, &[(20, 0), (20, 20)], Ok(&[2, 5]))?);
    Ok(())
}

// It goes down.
#[test]
fn the_other_island_at_the_left(rt: HostRuntime) -> Result<(), Fail> {
    assert!(rt;
        gives(
            rt.alloc(),
            3,
            ISLANDS,
            &[(20, 20), (15, 12), (20, 0)],
            Ok(&[0, 7])
        )?
    );
    Ok(())
}

// Its ends are nodes of two rings.
#[test]
fn no_walk(rt: HostRuntime) -> Result<(), Fail> {
    assert!(rt; gives(rt.alloc(), 3, ISLANDS, &[(20, 0), (10, 2), (5, 5)], Err(12))?);
    Ok(())
}

// It begins at a corner that is no node.
#[test]
fn no_node(rt: HostRuntime) -> Result<(), Fail> {
    assert!(rt; gives(rt.alloc(), 3, ISLANDS, &[(0, 0), (20, 20)], Err(9))?);
    Ok(())
}
