//! Points to be found among others.

ghost use Rattle.std.specs.Prelude.{◌≡◌, ◌<◌, ◌<ℤ◌, ℕ, false, map, get_or, length, All, Contains, IfOk, IsTrue, MatchOption};
ghost use Rattle.std.specs.declared.cmp.Ordering.TheVariants.{Less};
ghost use Rattle.std.specs.List.Sorted.{IsStrictlySortedBy};
ghost use Rattle.tgap_model.specs.declared.geometry.Point.{Point as Place};
ghost use Rattle.tgap_model.specs.Removals.{is_removed};
ghost use Rattle.edge_forest.specs.Removed.{point_cmp};
ghost use Rattle.point_rope.specs.Held.{IsHeld};
ghost use Rattle.tgap_build.specs.Running.{has_point};

use point_rope::PointTest;
use std::alloc::Global;
use std::marker::Model;
use tgap_model::{Memory, Point, Removal, Window};

/// Up to so many points are looked at one after the other, which is quicker than a search.
const FEW: usize = 8;

/// Points in ascending order, each once.
#[derive(Drop)]
pub struct PointSet {
    points: Vec<Point>,
}

impl Model for PointSet {
    ghost use Rattle.std.specs.Prelude.{List as Sequence};
    ghost use Rattle.std.specs.List.Sorted.{IsStrictlySortedBy};
    ghost use Rattle.tgap_model.specs.declared.geometry.Point.{Point as Place};
    ghost use Rattle.edge_forest.specs.Removed.{point_cmp};

    ghost Value = { Sequence Place };

    ghost view = { λ s. s.points.items };

    ghost invariant = { λ s. IsStrictlySortedBy point_cmp s.points.items };
}

/// The points of these removals.
fn points_of(alloc: Global, removals: &[Removal]) -> Result<Vec<Point>, Memory>
    ensures { IfOk result (λ points. points.items ≡ map (λ r. r.point) removals.now) }
{
    let mut points = Vec::with_capacity(alloc, removals.len())?;
    for removal in removals {
        points.push(removal.point)?;
    }
    Ok(points)
}

/// Whether a point is one of these, by looking at one after the other.
fn is_among(points: &[Point], point: &Point) -> bool
    ensures { result ≡ has_point points.now point.now }
{
    for other in points {
        if other == point {
            return true;
        }
    }
    false
}

/// The lower left corner of a box.
fn corner_of(bounds: &Window) -> Point
    ensures left { result.x ≡ bounds.now.x0 }
    ensures low { result.y ≡ bounds.now.y0 }
{
    Point {
        x: bounds.x0,
        y: bounds.y0,
    }
}

/// Whether a point is right of a box.
fn is_right_of(point: &Point, bounds: &Window) -> bool
    ensures { IsTrue result → bounds.now.x1 <ℤ point.now.x }
{
    bounds.x1 < point.x
}

/// Whether a point is as high as some point of a box.
fn is_level_with(point: &Point, bounds: &Window) -> bool
    ensures { IsHeld bounds.now point.now → IsTrue result }
{
    bounds.y0 <= point.y && point.y <= bounds.y1
}

/// Whether one of these points, which ascend, may lie in a box. None before place `first` does, and of those from there on a
/// few are looked at: where these do not tell, one may.
fn may_lie_in(points: &[Point], first: usize, bounds: &Window) -> bool
    requires ascending { IsStrictlySortedBy point_cmp points.now }
    requires before { (k : ℕ) (d : Place) → k < first → k < length points.now → ¬ (IsHeld bounds.now (get_or points.now k d)) }
    ensures { result ≡ false → All (λ p. ¬ (IsHeld bounds.now p)) points.now }
{
    for i in first..points.len() {
        let point = points[i];
        if is_right_of(&point, bounds) {
            return false;
        }
        if i - first >= FEW || is_level_with(&point, bounds) {
            return true;
        }
    }
    false
}

impl PointSet {
    /// The set of the points of these removals.
    pub fn of(alloc: Global, removals: &[Removal]) -> Result<PointSet, Memory>
        ensures { IfOk result (λ set. (p : Place) → has_point set p ≡ is_removed removals.now p) }
    {
        let mut points = points_of(alloc, removals)?;
        points.sort_unstable();
        points.dedup();
        Ok(PointSet { points })
    }

    /// The place of a point among those of the set.
    fn place_of(&self, point: &Point) -> Option<usize>
        ensures { MatchOption result (Contains self.now point.now → ⊥)
            (λ place. (place < length self.now) × (get_or self.now place point.now ≡ point.now)) }
    {
        self.points.binary_search(point).ok()
    }

    /// Whether a point is one of the set.
    pub fn holds(&self, point: &Point) -> bool
        ensures { result ≡ has_point self.now point.now }
    {
        if self.points.len() <= FEW {
            return is_among(&self.points, point);
        }
        self.place_of(point).is_some()
    }

    /// A place before which the points of the set come before a point, by a search for that one.
    fn place_behind(&self, point: &Point) -> usize
        ensures { (k : ℕ) (d : Place) → k < result → k < length self.now → point_cmp (get_or self.now k d) point.now ≡ Less }
    {
        match self.points.binary_search(point) {
            Ok(place) => place,
            Err(place) => place,
        }
    }

    /// A place before which no point of the set lies in a box.
    fn first_at(&self, bounds: &Window) -> usize
        ensures { (k : ℕ) (d : Place) → k < result → k < length self.now → ¬ (IsHeld bounds.now (get_or self.now k d)) }
    {
        self.place_behind(&corner_of(bounds))
    }
}

impl PointTest for PointSet {
    ghost passes = { has_point };

    fn passes(&self, point: &Point) -> bool {
        self.holds(point)
    }

    fn may_pass(&self, bounds: &Window) -> bool {
        let first = self.first_at(bounds);
        may_lie_in(&self.points, first, bounds)
    }
}
