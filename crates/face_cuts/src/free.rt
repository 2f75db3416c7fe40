//! Whether the points of a new arc are free.

ghost use Rattle.std.specs.Prelude.{◌≡◌, ◌≤◌, ◌||◌, false, IfOk, OnOk, length};
ghost use Rattle.std.specs.List.{list_any};
ghost use Rattle.tgap_model.specs.declared.geometry.Point.{Point as Position};
ghost use Rattle.tgap_model.specs.Base.{same_point};
ghost use Rattle.face_cuts.specs.Cuts.{all_different, are_free, inner_points};
ghost use Rattle.face_cuts.specs.PointSets.{has};

use std::alloc::Global;
use std::collections::BTreeSet;
use tgap_model::{BaseArc, Memory, Point};

/// Points, each once.
#[derive(Drop)]
struct PointSet {
    points: BTreeSet<Point>,
}

impl PointSet {
    /// No points.
    fn new(alloc: Global) -> PointSet
        ensures { (p : Position) → has result p ≡ false }
    {
        PointSet {
            points: BTreeSet::new(alloc),
        }
    }

    /// Whether the point is in it.
    fn has(&self, point: &Point) -> bool
        ensures { result ≡ has self.now point.now }
    {
        self.points.contains(point)
    }

    /// Puts a point into it.
    fn put(&mut self, point: Point) -> Result<(), Memory>
        ensures { OnOk result ((p : Position) → has self.new p ≡ (same_point p point || has self.old p)) }
    {
        self.points.insert(point)?;
        Ok(())
    }

    /// The points of a row.
    fn of(alloc: Global, points: &[Point]) -> Result<PointSet, Memory>
        ensures { IfOk result (λ set. (p : Position) → has set p ≡ list_any (same_point p) points.now) }
    {
        let mut set = PointSet::new(alloc);
        for point in points {
            set.put(*point)?;
        }
        Ok(set)
    }

    /// Whether one of the points is in it.
    fn has_any(&self, points: &[Point]) -> bool
        ensures { result ≡ list_any (has self.now) points.now }
    {
        points.iter().any(|point| self.has(point))
    }

    /// Whether an arc has one of its points.
    fn is_passed(&self, arcs: &[BaseArc]) -> bool
        ensures { result ≡ list_any (λ a. list_any (has self.now) a.points) arcs.now }
    {
        arcs.iter().any(|arc| self.has_any(arc.points.as_slice()))
    }
}

/// Whether no two of the points are one. Each is looked for among those after it, in a set of these.
pub fn are_different(alloc: Global, points: &[Point]) -> Result<bool, Memory>
    ensures { IfOk result (λ different. different ≡ all_different points.now) }
{
    let mut later = PointSet::new(alloc);
    for step in 0..points.len() {
        let point = points[points.len() - 1 - step];
        if later.has(&point) {
            return Ok(false);
        }
        later.put(point)?;
    }
    Ok(true)
}

/// The points between the first and the last: all but these two. There are two at least.
pub fn inner_points(points: &[Point]) -> &[Point]
    requires { 2 ≤ length points.now }
    ensures { result.now ≡ inner_points points.now }
{
    &points[1..points.len() - 1]
}

/// Whether the points are all different, and those between the first and the last are no points of the arcs. It takes the
/// time of a look for each point of the arcs among those of the row.
pub fn are_free(alloc: Global, arcs: &[BaseArc], points: &[Point]) -> Result<bool, Memory>
    requires { 2 ≤ length points.now }
    ensures { IfOk result (λ free. free ≡ are_free arcs.now points.now) }
{
    if !are_different(alloc, points)? {
        return Ok(false);
    }
    let inner = PointSet::of(alloc, inner_points(points))?;
    Ok(!inner.is_passed(arcs))
}
