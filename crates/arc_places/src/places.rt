//! The places of points: which arcs may have a point.

ghost use Rattle.std.specs.Prelude.{◌≡◌, ◌≢◌, ℕ, ◌==◌, ◌&&◌, ◌||◌, ◌++◌, ◌∷◌, [], true, false, IfOk, OnOk, if◌then◌else◌};
ghost use Rattle.std.specs.List.{list_any};
ghost use Rattle.tgap_model.specs.declared.geometry.Point.{Point as Position};
ghost use Rattle.tgap_model.specs.Base.{same_point};
ghost use Rattle.arc_places.specs.Bodies.{exchanged};
ghost use Rattle.arc_places.specs.Places.{bodies_at, listed, is_among, Covers};

use crate::bodies::{Bodies, ListedSlots};
use std::alloc::Global;
use std::collections::BTreeMap;
use tgap_model::{BaseArc, Memory, Point};

/// For each point the slots of arcs, among them each arc that has the point.
#[derive(Drop)]
pub struct Places {
    lists: BTreeMap<Point, Vec<usize>>,
    bodies: Bodies,
}

impl Places {
    /// The places of all points of these arcs. It takes the time of a sort of the points.
    pub fn of(alloc: Global, arcs: &[BaseArc]) -> Result<Places, Memory>
        ensures { IfOk result (λ places. Covers (listed places) arcs.now) }
    {
        let mut places = Places {
            lists: BTreeMap::new(alloc),
            bodies: Bodies::new(alloc),
        };
        for number in 0..arcs.len() {
            places.list_points(alloc, number, arcs[number].points.as_slice())?;
        }
        Ok(places)
    }

    /// Lists an arc for each of its points, and nothing else.
    pub fn list_points(&mut self, alloc: Global, arc: usize, points: &[Point]) -> Result<(), Memory>
        ensures { OnOk result ((p : Position) (i : ℕ) →
            is_among i (listed self.new p) ≡ (is_among i (listed self.old p) || ((arc == i) && list_any (same_point p) points.now))) }
    {
        for point in points {
            self.list(alloc, arc, *point)?;
        }
        Ok(())
    }

    /// Takes away what is listed for a point.
    fn take(&mut self, alloc: Global, point: &Point) -> Vec<usize>
        ensures taken { result.items ≡ bodies_at self.old point.now }
        ensures left { (p : Position) →
            bodies_at self.new p ≡ (if same_point p point.now then [] else bodies_at self.old p) }
        ensures bodies { self.new.bodies ≡ self.old.bodies }
    {
        match self.lists.remove(point) {
            Some(bodies) => bodies,
            None => Vec::new(alloc),
        }
    }

    /// Lists a body for a point behind those that are listed there.
    fn push(&mut self, alloc: Global, body: usize, point: Point) -> Result<(), Memory>
        ensures lists { OnOk result ((p : Position) →
            bodies_at self.new p ≡ (if same_point p point then bodies_at self.old point ++ body ∷ [] else bodies_at self.old p)) }
        ensures bodies { self.new.bodies ≡ self.old.bodies }
    {
        let mut bodies = self.take(alloc, &point);
        bodies.push(body)?;
        self.lists.insert(point, bodies)?;
        Ok(())
    }

    /// Lists an arc for a point beside those that are listed there, and nothing else.
    pub fn list(&mut self, alloc: Global, arc: usize, point: Point) -> Result<(), Memory>
        ensures { OnOk result ((p : Position) →
            listed self.new p ≡ (if same_point p point then listed self.old point ++ arc ∷ [] else listed self.old p)) }
    {
        let body = self.bodies.body(arc);
        self.push(alloc, body, point)?;
        Ok(())
    }

    /// The slots of the arcs that are listed for a point.
    pub fn of_point(&self, point: &Point) -> ListedSlots<'_>
        ensures { result ≡ listed self.now point.now }
    {
        match self.lists.get(point) {
            Some(bodies) => self.bodies.slots_of(bodies.as_slice()),
            None => ListedSlots::plain(&[]),
        }
    }

    /// Lists for the new point what is listed for the old one, and nothing else.
    pub fn pass(&mut self, alloc: Global, old: &Point, new: Point) -> Result<(), Memory>
        ensures { OnOk result ((p : Position) → same_point p old.now ≡ false →
            listed self.new p ≡ (if same_point p new then listed self.old old.now else listed self.old p)) }
    {
        let bodies = self.take(alloc, old);
        self.lists.insert(new, bodies)?;
        Ok(())
    }

    /// Lists this arc for a point, and nothing else.
    pub fn set(&mut self, alloc: Global, point: Point, arc: usize) -> Result<(), Memory>
        ensures { OnOk result ((p : Position) →
            listed self.new p ≡ (if same_point p point then arc ∷ [] else listed self.old p)) }
    {
        let body = self.bodies.body(arc);
        self.lists.insert(point, vec![in alloc; body]?)?;
        Ok(())
    }

    /// Lists the one arc wherever the other one is listed, and the other one where the one is.
    fn exchange(&mut self, first: usize, second: usize) -> Result<(), Memory>
        ensures { OnOk result ((p : Position) (i : ℕ) →
            is_among (exchanged first second i) (listed self.new p) ≡ is_among i (listed self.old p)) }
    {
        self.bodies.exchange(first, second)?;
        Ok(())
    }

    /// Lists the parts of an arc that is split: it keeps the points of the front, and an arc in a new slot has those of the rest.
    /// Only the shorter part is listed anew, and the other one has what was listed for both. So a point is listed anew only
    /// where its arc has at most half as many segments afterwards. The other part stays listed for all points of the arc.
    pub fn split(
        &mut self,
        alloc: Global,
        arc: usize,
        new: usize,
        front: &[Point],
        rest: &[Point],
    ) -> Result<(), Memory>
        ensures front { OnOk result ((p : Position) → is_among arc (listed self.old p) ≡ true → list_any (same_point p) front.now ≡ true
            → is_among arc (listed self.new p) ≡ true) }
        ensures rest { OnOk result ((p : Position) → is_among arc (listed self.old p) ≡ true → list_any (same_point p) rest.now ≡ true
            → is_among new (listed self.new p) ≡ true) }
        ensures others { OnOk result ((p : Position) (i : ℕ) → i ≢ arc → i ≢ new →
            is_among i (listed self.new p) ≡ is_among i (listed self.old p)) }
    {
        if rest.len() <= front.len() {
            self.list_points(alloc, new, rest)?;
        } else {
            self.exchange(arc, new)?;
            self.list_points(alloc, arc, front)?;
        }
        Ok(())
    }
}
