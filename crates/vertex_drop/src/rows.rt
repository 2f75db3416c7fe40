//! The sweep of a row of points, run by run.

ghost use Rattle.std.specs.Prelude.{◌≡◌, ◌<◌, ◌≤◌, ◌+◌, ◌-◌, ◌^◌, ◌++◌, ◌∷◌, ℕ, false, List as Sequence, length, get_or, drop, All, AllPairs, IfSome, IfOk};
ghost use Rattle.tgap_model.specs.declared.geometry.Point.{Point as Place};
ghost use Rattle.tgap_model.specs.declared.slice.Edge.{Edge as Line};
ghost use Rattle.grid_index.specs.Live.{AreLive, IsLiveEdge};
ghost use Rattle.point_rope.specs.Held.{IsHeld, IsNearPoint};
ghost use Rattle.point_rope.specs.Rows.{IsSummary};
ghost use Rattle.vertex_drop.specs.Corners.{any_small_corner};
ghost use Rattle.vertex_drop.specs.Sweep.{GoesOnAt};

use crate::corners::is_same;
use crate::kept::Kept;
use crate::near::Stand;
use crate::removable::{Corner, Rule, is_removable, may_go};
use crate::table::LiveTable;
use point_rope::{EdgeRow, Run};
use std::alloc::Global;
use tgap_model::{Memory, Point, Seg, Window};

/// Keeps or removes the vertex of a corner, at which the sweep stands. It gives the last point that is kept then.
fn sweep_vertex<L: LiveTable>(
    alloc: Global,
    rule: Rule,
    at: Stand<'_>,
    live: &L,
    corner: Corner,
    kept: &mut Kept<'_>,
    gone: &mut Vec<Point>,
) -> Result<Point, Memory>
    requires a { IsNearPoint corner.a }
    requires b { IsNearPoint corner.b }
    requires c { IsNearPoint corner.c }
    requires keys { AllPairs (λ j k. j < k) at.keys.now }
    requires at { at.place + 1 < 2 ^ 32 }
    requires live { AreLive (L.edges live.now) }
    ensures near { IfOk result IsNearPoint }
    ensures on { (i : ℕ) (d : Line) (more : Sequence Place) → i < length (L.edges live.now) → (get_or (L.edges live.now) i d).key ≡ at.entry.key
        → drop at.entry.place (get_or (L.edges live.now) i d).points ≡ corner.b ∷ corner.c ∷ more
        → IfOk result (λ last. GoesOnAt rule at.entry (L.edges live.now) i d kept.old gone.old.items corner.a kept.new gone.new.items last (at.entry.place + 1)) }
{
    let Corner { a, b, c: _ } = corner;
    if is_removable(alloc, rule, corner, at, live, kept)? {
        gone.push(b)?;
        Ok(a)
    } else {
        kept.push(alloc, Seg { a, b })?;
        Ok(b)
    }
}

/// Sweeps the vertices between the first of these points and the last one, where `a` is the last point that was kept
/// before, and the sweep stands at the second of them. It gives the last point that is kept then.
fn sweep_points<L: LiveTable>(
    alloc: Global,
    rule: Rule,
    at: Stand<'_>,
    live: &L,
    points: &[Point],
    a: Point,
    kept: &mut Kept<'_>,
    gone: &mut Vec<Point>,
) -> Result<Point, Memory>
    requires a { IsNearPoint a }
    requires points { All IsNearPoint points.now }
    requires some { 3 ≤ length points.now }
    requires keys { AllPairs (λ j k. j < k) at.keys.now }
    requires from { 1 ≤ at.place }
    requires at { at.place + length points.now < 2 ^ 32 }
    requires live { AreLive (L.edges live.now) }
    ensures near { IfOk result IsNearPoint }
    ensures on { (i : ℕ) (d : Line) (more : Sequence Place) → i < length (L.edges live.now) → (get_or (L.edges live.now) i d).key ≡ at.entry.key
        → drop (at.entry.place - 1) (get_or (L.edges live.now) i d).points ≡ points.now ++ more
        → IfOk result (λ last. GoesOnAt rule at.entry (L.edges live.now) i d kept.old gone.old.items a kept.new gone.new.items last (at.entry.place + length points.now - 2)) }
{
    let mut a = a;
    for i in 1..points.len() - 1 {
        let corner = Corner {
            a,
            b: points[i],
            c: points[i + 1],
        };
        let here = Stand {
            made: at.made,
            keys: at.keys,
            key: at.key,
            place: at.place + i - 1,
        };
        a = sweep_vertex(alloc, rule, here, live, corner, kept, gone)?;
    }
    Ok(a)
}

/// A box that holds the points of a run, where it begins with the point `a` and no corner of it may go by its area.
fn passed_box(rule: Rule, run: Run<'_>, a: Point) -> Option<Window>
    requires some { 0 < length run.points.now }
    requires known { IfSome run.summary (IsSummary run.points.now) }
    ensures first { IfSome result (λ _. (d : Place) → a ≡ get_or run.entry.points.now 0 d) }
    ensures large { IfSome result (λ _. any_small_corner rule.ratio rule.area run.entry.points.now ≡ false) }
    ensures held { IfSome result (λ bounds. All (IsHeld bounds) run.entry.points.now) }
{
    let summary = run.summary?;
    if is_same(a, run.points[0]) && !may_go(rule, summary.least as i128) {
        Some(summary.bounds)
    } else {
        None
    }
}

/// Sweeps the vertices between the first point of a run and the last one, as `sweep_points` does. Where none of them can
/// go, no vertex is looked at, and the run is kept as it lies.
fn sweep_run<'a, L: LiveTable>(
    alloc: Global,
    rule: Rule,
    at: Stand<'_>,
    live: &L,
    run: Run<'a>,
    a: Point,
    kept: &mut Kept<'a>,
    gone: &mut Vec<Point>,
) -> Result<Point, Memory>
    requires a { IsNearPoint a }
    requires points { All IsNearPoint run.points.now }
    requires some { 3 ≤ length run.points.now }
    requires known { IfSome run.summary (IsSummary run.points.now) }
    requires keys { AllPairs (λ j k. j < k) at.keys.now }
    requires from { 1 ≤ at.place }
    requires at { at.place + length run.points.now < 2 ^ 32 }
    requires live { AreLive (L.edges live.now) }
    ensures near { IfOk result IsNearPoint }
    ensures on { (i : ℕ) (d : Line) (more : Sequence Place) → i < length (L.edges live.now) → (get_or (L.edges live.now) i d).key ≡ at.entry.key
        → drop (at.entry.place - 1) (get_or (L.edges live.now) i d).points ≡ run.entry.points.now ++ more
        → IfOk result (λ last. GoesOnAt rule at.entry (L.edges live.now) i d kept.old gone.old.items a kept.new gone.new.items last (at.entry.place + length run.entry.points.now - 2)) }
{
    match passed_box(rule, run, a) {
        Some(bounds) => {
            let end = run.points.len() - 1;
            kept.lend(alloc, &run.points[..end], bounds)?;
            Ok(run.points[end - 1])
        }
        None => sweep_points(alloc, rule, at, live, run.points, a, kept, gone),
    }
}

/// Sweeps the vertices of an edge that lie in the run of the point before the place at which the sweep stands, or where
/// there is none between two points of this run the next vertex alone. `a` is the last point that was kept before. It
/// gives the last point that is kept then, and the place of the next vertex.
pub fn sweep_next<'a, L: LiveTable>(
    alloc: Global,
    rule: Rule,
    at: Stand<'_>,
    live: &L,
    edge: &EdgeRow<'a>,
    a: Point,
    kept: &mut Kept<'a>,
    gone: &mut Vec<Point>,
) -> Result<(Point, usize), Memory>
    requires a { IsNearPoint a }
    requires edge { IsLiveEdge edge.now }
    requires key { edge.now.key ≡ at.key }
    requires keys { AllPairs (λ j k. j < k) at.keys.now }
    requires from { 1 ≤ at.place }
    requires to { at.place + 1 < length edge.now.points }
    requires live { AreLive (L.edges live.now) }
    ensures near { IfOk result (λ next. IsNearPoint next.0) }
    ensures next { IfOk result (λ next. (at.entry.place < next.1) × (next.1 < length edge.now.points)) }
    ensures on { (i : ℕ) (d : Line) → i < length (L.edges live.now) → edge.now ≡ get_or (L.edges live.now) i d
        → IfOk result (λ next. GoesOnAt rule at.entry (L.edges live.now) i d kept.old gone.old.items a kept.new gone.new.items next.0 next.1) }
{
    let run = edge.run_from(at.place - 1);
    let count = run.points.len();
    if count < 3 {
        let corner = Corner {
            a,
            b: edge.at(at.place),
            c: edge.at(at.place + 1),
        };
        let last = sweep_vertex(alloc, rule, at, live, corner, kept, gone)?;
        return Ok((last, at.place + 1));
    }
    let last = sweep_run(alloc, rule, at, live, run, a, kept, gone)?;
    Ok((last, at.place + count - 2))
}
