//! What is listed where arcs are split.

use arc_places::Places;
use std::alloc::Global;
use std::test::Fail;
use tgap_model::{Memory, Point};

/// How many points the arc has that is split.
const COUNT: usize = 1025;

/// Points in a row.
fn row(alloc: Global) -> Result<Vec<Point>, Memory> {
    let mut points = Vec::new(alloc);
    for x in 0..COUNT as i64 {
        points.push(Point { x, y: 0 })?;
    }
    Ok(points)
}

/// Whether the slot is listed for the point.
fn is_listed(places: &Places, point: &Point, slot: usize) -> bool {
    let listed = places.of_point(point);
    for at in 0..listed.count() {
        if listed.slot(at) == slot {
            return true;
        }
    }
    false
}

/// How many slots are listed for all points together.
fn count_all(places: &Places, points: &[Point]) -> usize {
    let mut all: usize = 0;
    for point in points {
        all = all.saturating_add(places.of_point(point).count());
    }
    all
}

/// The places of the points of one arc, in slot 0.
fn one_arc(alloc: Global, points: &[Point]) -> Result<Places, Memory> {
    let mut places = Places::of(alloc, &[])?;
    places.list_points(alloc, 0, points)?;
    Ok(places)
}

/// An arc in a slot, with the points from the first place to the last, which gives those from one place on to a new slot.
#[derive(Clone, Copy)]
struct Split {
    slot: usize,
    new: usize,
    first: usize,
    at: usize,
    last: usize,
}

/// Splits an arc.
fn make_split(
    alloc: Global,
    places: &mut Places,
    points: &[Point],
    split: Split,
) -> Result<(), Memory> {
    let Split {
        slot,
        new,
        first,
        at,
        last,
    } = split;
    if first <= at && at <= last && last < points.len() {
        places.split(alloc, slot, new, &points[first..=at], &points[at..=last])
    } else {
        Err(Memory)
    }
}

/// Whether each segment has a slot of its own that is listed for its two points: it is the one of this number.
fn are_apart(places: &Places, points: &[Point], slots: &[usize]) -> bool {
    if points.len() != COUNT || slots.len() + 1 != COUNT {
        return false;
    }
    for at in 0..COUNT - 1 {
        if !is_listed(places, &points[at], slots[at])
            || !is_listed(places, &points[at + 1], slots[at])
        {
            return false;
        }
    }
    true
}

/// How many slots are listed after splits from the first point on, if each segment is listed then.
fn from_the_start(alloc: Global) -> Result<Option<usize>, Memory> {
    let points = row(alloc)?;
    let mut places = one_arc(alloc, &points)?;
    let mut slots = Vec::new(alloc);
    slots.push(0)?;
    for at in 1..COUNT - 1 {
        let one = Split {
            slot: at - 1,
            new: at,
            first: at - 1,
            at,
            last: COUNT - 1,
        };
        make_split(alloc, &mut places, &points, one)?;
        slots.push(at)?;
    }
    Ok(are_apart(&places, &points, &slots).then(|| count_all(&places, &points)))
}

/// How many slots are listed after splits from the last point on, if each segment is listed then.
fn from_the_end(alloc: Global) -> Result<Option<usize>, Memory> {
    let points = row(alloc)?;
    let mut places = one_arc(alloc, &points)?;
    let mut slots = Vec::new(alloc);
    slots.push(0)?;
    for new in 1..COUNT - 1 {
        let one = Split {
            slot: 0,
            new,
            first: 0,
            at: COUNT - 1 - new,
            last: COUNT - new,
        };
        make_split(alloc, &mut places, &points, one)?;
        slots.push(COUNT - 1 - new)?;
    }
    Ok(are_apart(&places, &points, &slots).then(|| count_all(&places, &points)))
}

/// Halves all arcs, of which the slots are in order of their points.
fn halved(
    alloc: Global,
    places: &mut Places,
    points: &[Point],
    slots: &[usize],
) -> Result<Vec<usize>, Memory> {
    let mut halves = Vec::new(alloc);
    let length = (COUNT - 1) / slots.len().max(1);
    for number in 0..slots.len() {
        let one = Split {
            slot: slots[number],
            new: slots.len() + number,
            first: number * length,
            at: number * length + length / 2,
            last: number * length + length,
        };
        make_split(alloc, places, points, one)?;
        halves.push(one.slot)?;
        halves.push(one.new)?;
    }
    Ok(halves)
}

/// How many slots are listed after all arcs were halved ten times, if each segment is listed then.
fn by_halves(alloc: Global) -> Result<Option<usize>, Memory> {
    let points = row(alloc)?;
    let mut places = one_arc(alloc, &points)?;
    let mut slots = Vec::new(alloc);
    slots.push(0)?;
    for _ in 0..10 {
        slots = halved(alloc, &mut places, &points, &slots)?;
    }
    Ok(are_apart(&places, &points, &slots).then(|| count_all(&places, &points)))
}

// Each point is listed once at first. Each of the 1023 splits lists two points anew.
#[test]
fn splits_from_the_start(rt: HostRuntime) -> Result<(), Fail> {
    assert_eq!(rt; from_the_start(rt.alloc())?, Some(1025 + 2 * 1023));
    Ok(())
}

#[test]
fn splits_from_the_end(rt: HostRuntime) -> Result<(), Fail> {
    assert_eq!(rt; from_the_end(rt.alloc())?, Some(1025 + 2 * 1023));
    Ok(())
}

// Each of the ten rounds lists the second half of each arc, with its first point: 512 points and one more for each arc.
#[test]
fn splits_in_the_middle(rt: HostRuntime) -> Result<(), Fail> {
    assert_eq!(rt; by_halves(rt.alloc())?, Some(1025 + 10 * 512 + 1023));
    Ok(())
}
