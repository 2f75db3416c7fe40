//! The arcs of a topology, as rings name them.

ghost use Rattle.std.specs.Prelude.{◌≡◌, ◌≤◌, ◌<◌, unsigned_abs, length, IfOk, IsTrue};
ghost use Rattle.std.specs.List.{list_all};
ghost use Rattle.tgap_model.specs.Base.{same_point};
ghost use Rattle.tgap_model.specs.Bounds.{max_arc_area};
ghost use Rattle.tgap_model.specs.Point.{shoelace};
ghost use Rattle.topology_forms.specs.Topology.{names_arc};
ghost use Rattle.topology_forms.specs.Rings.{arc_named, is_reversed, points_named, start_named, end_named, shoelace_named, is_raw_arc, is_raw_ring, open_place, is_collapsed, ring_area};
ghost use Rattle.ring_sides.specs.Arcs.{AreRawArcs, are_at, index_after};

use crate::measure::shoelace_sums;
use std::alloc::Global;
use std::marker::Model;
use tgap_model::{List, Memory, Point};

/// The number of the arc that an index names: of `i` it is `i`, and of a negative `i` it is `-i - 1`.
pub fn arc_named(index: i64) -> usize
    ensures { result ≡ arc_named index }
{
    if is_reversed(index) {
        index.unsigned_abs() as usize - 1
    } else {
        index as usize
    }
}

/// Whether an index names an arc from its last point to its first.
pub fn is_reversed(index: i64) -> bool
    ensures { result ≡ is_reversed index }
{
    index < 0
}

/// The index after a place of a ring. After the last one comes the first.
fn index_after(ring: &[i64], place: usize) -> i64
    requires { place < length ring.now }
    ensures { result ≡ index_after ring.now place }
{
    if place + 1 < ring.len() {
        ring[place + 1]
    } else {
        ring[0]
    }
}

/// The arcs of a topology that was read. The shoelace sum of each is at hand, so that a ring that names a long arc many
/// times does not sum over its points each time. Contracts see the points of each arc.
#[derive(Drop)]
pub struct Arcs<'a> {
    arcs: &'a [List<Point>],
    sums: Vec<i128>,
}

impl<'a> Model for Arcs<'a> {
    ghost use Rattle.std.specs.Prelude.{List as Sequence};
    ghost use Rattle.tgap_model.specs.declared.geometry.Point.{Point};
    ghost use Rattle.ring_sides.specs.Arcs.{AreMeasured};

    ghost Value = { Sequence (Sequence Point) };

    ghost view = { λ a. a.arcs.now };

    ghost invariant = { λ a. AreMeasured a.arcs.now a.sums.items };
}

impl<'a> Arcs<'a> {
    /// The arcs, with their shoelace sums.
    pub fn of(alloc: Global, arcs: &'a [List<Point>]) -> Result<Arcs<'a>, Memory>
        requires { AreRawArcs arcs.now }
        ensures { IfOk result (λ found. found ≡ arcs.entry.now) }
    {
        let sums = shoelace_sums(alloc, arcs)?;
        Ok(Arcs { arcs, sums })
    }

    /// How many arcs there are.
    pub fn len(&self) -> usize
        ensures { result ≡ length self.now }
    {
        self.arcs.len()
    }

    /// The points of the arc that an index names.
    pub fn points(&self, index: i64) -> &[Point]
        requires { IsTrue (names_arc (length self.now) index) }
        ensures value { result.now ≡ points_named self.now index }
        ensures formed { IsTrue (is_raw_arc result.now) }
    {
        let arcs = self.arcs;
        arcs[arc_named(index)].as_slice()
    }

    /// Where a ring enters the arc.
    fn start(&self, index: i64) -> Point
        requires { IsTrue (names_arc (length self.now) index) }
        ensures { result ≡ start_named self.now index }
    {
        let points = self.points(index);
        if is_reversed(index) {
            points[points.len() - 1]
        } else {
            points[0]
        }
    }

    /// Where a ring leaves the arc.
    fn end(&self, index: i64) -> Point
        requires { IsTrue (names_arc (length self.now) index) }
        ensures { result ≡ end_named self.now index }
    {
        let points = self.points(index);
        if is_reversed(index) {
            points[0]
        } else {
            points[points.len() - 1]
        }
    }

    /// The shoelace sum of the arc, from its first point to its last.
    fn sum(&self, index: i64) -> i128
        requires { IsTrue (names_arc (length self.now) index) }
        ensures value { result ≡ shoelace (points_named self.now index) }
        ensures size { unsigned_abs result ≤ max_arc_area }
    {
        self.sums[arc_named(index)]
    }

    /// What the arc adds to the shoelace sum of a ring.
    fn area(&self, index: i64) -> i128
        requires { IsTrue (names_arc (length self.now) index) }
        ensures value { result ≡ shoelace_named self.now index }
        ensures size { unsigned_abs result ≤ max_arc_area }
    {
        let sum = self.sum(index);
        if is_reversed(index) { -sum } else { sum }
    }

    /// Whether all points of the arc are this one. No point of an arc is repeated, so there is then one.
    fn is_at(&self, index: i64, place: Point) -> bool
        requires { IsTrue (names_arc (length self.now) index) }
        ensures { result ≡ list_all (same_point place) (points_named self.now index) }
    {
        let points = self.points(index);
        points.len() == 1 && points[0] == place
    }

    /// The first place of a ring with a gap between the end of its arc and the start of the next. After the last arc comes
    /// the first.
    pub fn open_place(&self, ring: &[i64]) -> Option<u32>
        requires { IsTrue (is_raw_ring (length self.now) ring.now) }
        ensures { result ≡ open_place self.now ring.now }
    {
        for (place, index) in ring.iter().enumerate() {
            if self.end(*index) != self.start(index_after(ring, place)) {
                return Some(place as u32);
            }
        }
        None
    }

    /// Whether all points of the arcs of a ring are this one.
    fn are_at(&self, ring: &[i64], place: Point) -> bool
        requires { IsTrue (is_raw_ring (length self.now) ring.now) }
        ensures { result ≡ are_at self.now ring.now place }
    {
        for index in ring {
            if !self.is_at(*index, place) {
                return false;
            }
        }
        true
    }

    /// Whether all points of a ring are one, or it has none.
    pub fn is_collapsed(&self, ring: &[i64]) -> bool
        requires { IsTrue (is_raw_ring (length self.now) ring.now) }
        ensures { result ≡ is_collapsed self.now ring.now }
    {
        match ring.first() {
            Some(first) => self.are_at(ring, self.start(*first)),
            None => true,
        }
    }

    /// Twice the area of a ring, positive where it is counter-clockwise.
    pub fn ring_area(&self, ring: &[i64]) -> i128
        requires { IsTrue (is_raw_ring (length self.now) ring.now) }
        ensures { result ≡ ring_area self.now ring.now }
    {
        let mut area = 0;
        for index in ring {
            area += self.area(*index);
        }
        area
    }
}
