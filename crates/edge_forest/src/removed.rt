//! The points of a map, and the steps at which they were removed.

ghost use Rattle.std.specs.Prelude.{◌≡◌, ◌<◌, ◌&&◌, nat_le, ℕ, IfOk, MatchOption, Contains, not, filter, get_or, length, if◌then◌else◌};
ghost use Rattle.std.specs.List.{All, list_any};
ghost use Rattle.std.specs.List.Sorted.{IsStrictlySortedBy};
ghost use Rattle.tgap_model.specs.Base.{same_point};
ghost use Rattle.edge_forest.specs.Removed.{point_cmp, arc_points, step_of, is_gone_by};
ghost use Rattle.edge_forest.specs.Spent.{gone_step};

use crate::growth::NEVER;
use std::alloc::Global;
use std::marker::Model;
use tgap_model::{BaseArc, List, Memory, Point, Removal};

/// The points of the arcs of a map in ascending order, each once, and beside each the step at which it was removed, or 0
/// where it was not.
#[derive(Drop)]
pub struct Removed {
    points: Vec<Point>,
    steps: Vec<u32>,
}

impl Model for Removed {
    ghost use Rattle.edge_forest.specs.Removed.{PointSteps, IsTable};

    ghost Value = { PointSteps };

    ghost view = { λ r. record { points = r.points.items; steps = r.steps.items } };

    ghost invariant = { λ r. IsTable r.points.items r.steps.items };
}

/// The points of these arcs in ascending order, each once.
fn points_in_order(alloc: Global, arcs: &[BaseArc]) -> Result<Vec<Point>, Memory>
    ensures ascend { IfOk result (λ points. IsStrictlySortedBy point_cmp points.items) }
    ensures all { IfOk result (λ points. (p : Point) → Contains (arc_points arcs.now) p → Contains points.items p) }
{
    let mut points = Vec::new(alloc);
    for arc in arcs {
        points.extend_from_slice(arc.points.as_slice())?;
    }
    points.sort_unstable();
    points.dedup();
    points.shrink_to_fit();
    Ok(points)
}

/// Whether a step at which a point was removed, or 0 where it was not, is step k or before.
pub fn is_by(step: u32, k: u32) -> bool
    ensures { result ≡ (nat_le 1 step && nat_le step k) }
{
    1 <= step && step <= k
}

impl Removed {
    /// The table of the points of these arcs, of which none is removed.
    pub fn of(alloc: Global, arcs: &[BaseArc]) -> Result<Removed, Memory>
        ensures all { IfOk result (λ removed. (p : Point) → Contains (arc_points arcs.now) p → Contains removed.points p) }
        ensures none { IfOk result (λ removed. (p : Point) → step_of removed p ≡ 0) }
    {
        let points = points_in_order(alloc, arcs)?;
        let steps = vec![in alloc; 0u32; points.len()]?;
        Ok(Removed { points, steps })
    }

    /// The row of a point, where it has one.
    fn row_of(&self, point: &Point) -> Option<usize>
        ensures { MatchOption result (Contains self.now.points point.now → ⊥)
            (λ row. (row < length self.now.points) × (get_or self.now.points row point.now ≡ point.now)) }
    {
        self.points.binary_search(point).ok()
    }

    /// The step at which a point was removed, or 0 where it was not.
    pub fn step_of(&self, point: &Point) -> u32
        ensures { result ≡ step_of self.now point.now }
    {
        match self.row_of(point) {
            Some(row) => self.steps[row],
            None => 0,
        }
    }

    /// Whether a point was removed at step k or before.
    pub fn is_gone(&self, point: &Point, k: u32) -> bool
        ensures { result ≡ is_gone_by self.now k point.now }
    {
        is_by(self.step_of(point), k)
    }

    /// The step at which a point was removed, or `NEVER` where it was not.
    pub fn gone_step(&self, point: &Point) -> u32
        ensures { result ≡ gone_step self.now point.now }
    {
        let step = self.step_of(point);
        if step == 0 { NEVER } else { step }
    }

    /// Those of the points that were not removed at step k or before, in their order.
    pub fn left_of(&self, points: List<Point>, k: u32) -> List<Point>
        ensures { result ≡ filter (λ p. not (is_gone_by self.now k p)) points }
    {
        let mut left = points.into_vec();
        left.retain(|point| !self.is_gone(point, k));
        List::from(left)
    }

    /// Notes the step at which a point was removed.
    fn note(&mut self, removal: &Removal)
        requires { Contains self.old.points removal.now.point }
        ensures points { self.new.points ≡ self.old.points }
        ensures steps { (p : Point) → step_of self.new p ≡ (if same_point removal.now.point p then removal.now.step else step_of self.old p) }
    {
        if let Some(row) = self.row_of(&removal.point) {
            self.steps[row] = removal.step;
        }
    }

    /// Notes the step at which these points were removed.
    pub fn note_all(&mut self, removals: &[Removal])
        requires { All (λ r. Contains self.old.points r.point) removals.now }
        ensures points { self.new.points ≡ self.old.points }
        ensures steps { (k : ℕ) → All (λ r. r.step ≡ k) removals.now → (p : Point)
            → step_of self.new p ≡ (if list_any (λ r. same_point r.point p) removals.now then k else step_of self.old p) }
    {
        for removal in removals {
            self.note(removal);
        }
    }
}
