//! The points of an edge that are left after a step, without those parts that have none.

ghost use Rattle.std.specs.Prelude.{◌≡◌, ◌<◌, ◌≤◌, ◌++◌, ◌||◌, ℕ, true, false, [], ◌∷◌, length, map, filter, reverse, drop, IfOk, OnOk, if◌then◌else◌};
ghost use Rattle.std.specs.List.{All};
ghost use Rattle.tgap_model.specs.Chains.{link_points, link_start, link_end};
ghost use Rattle.edge_forest.specs.Edges.{IsPart, edge_at, chain_of};
ghost use Rattle.edge_forest.specs.Removed.{PointSteps, step_of};
ghost use Rattle.edge_forest.specs.Spent.{is_left, is_past, left_points, AreGoneSteps, AreSpent};
ghost use Rattle.edge_forest.specs.Walks.{chain_link};

use crate::edge::{ForestEdge, Part};
use crate::gone_steps::GoneSteps;
use crate::removed::is_by;
use crate::span::{Span, end_of, start_of};
use crate::spent::Spent;
use crate::walk::push_parts_of;
use tgap_model::{BaseArc, Memory, Point};

/// Puts a point, with the step at which it was removed or 0, at the end where it is left after k steps, and tells whether it is.
fn push_left(points: &mut Vec<Point>, point: &Point, step: u32, k: u32) -> Result<bool, Memory>
    ensures points { (t : PointSteps) → step ≡ step_of t point.now
        → IfOk result (λ _. points.new.items ≡ points.old.items ++ filter (is_left t k) (point.now ∷ [])) }
    ensures left { (t : PointSteps) → step ≡ step_of t point.now → IfOk result (λ left. left ≡ is_left t k point.now) }
{
    let left = !is_by(step, k);
    if left {
        points.push(*point)?;
    }
    Ok(left)
}

/// Puts those of the points, with their steps, at the end that are left after k steps.
fn push_left_along(
    points: &mut Vec<Point>,
    along: &[Point],
    steps: &[u32],
    k: u32,
) -> Result<(), Memory>
    requires { length steps.now ≡ length along.now }
    ensures { (t : PointSteps) → steps.now ≡ map (step_of t) along.now
        → IfOk result (λ _. points.new.items ≡ points.old.items ++ filter (is_left t k) along.now) }
{
    for i in 0..along.len() {
        push_left(points, &along[i], steps[i], k)?;
    }
    Ok(())
}

/// Puts those of the points, with their steps, at the end that are left after k steps, from the last one to the first.
fn push_left_back(
    points: &mut Vec<Point>,
    along: &[Point],
    steps: &[u32],
    k: u32,
) -> Result<(), Memory>
    requires { length steps.now ≡ length along.now }
    ensures { (t : PointSteps) → steps.now ≡ map (step_of t) along.now
        → IfOk result (λ _. points.new.items ≡ points.old.items ++ filter (is_left t k) (reverse along.now)) }
{
    for done in 0..along.len() {
        let i = along.len() - 1 - done;
        push_left(points, &along[i], steps[i], k)?;
    }
    Ok(())
}

/// Puts the points of a part at the end that are left after k steps, from the last one to the first, and tells whether the
/// first one is. The part is an arc, or none of its points is left but the ends.
fn push_part(
    points: &mut Vec<Point>,
    arcs: &[BaseArc],
    gone: &GoneSteps,
    span: &Span,
    k: u32,
) -> Result<bool, Memory>
    requires first { span.now.first.arc < length arcs.now }
    requires last { span.now.last.arc < length arcs.now }
    requires long { All (λ a. 2 ≤ length a.points) arcs.now }
    requires gone { (t : PointSteps) × AreGoneSteps arcs.now t gone.now }
    ensures start { (t : PointSteps) → AreGoneSteps arcs.now t gone.now
        → IfOk result (λ start. start ≡ is_left t k (link_start arcs.now (chain_link span.now.first))) }
    ensures points { (t : PointSteps) → AreGoneSteps arcs.now t gone.now
        → IfOk result (λ _. points.new.items ≡ points.old.items ++ filter (is_left t k)
        (if is_past span.now.step k
        then link_end arcs.now (chain_link span.now.last) ∷ link_start arcs.now (chain_link span.now.first) ∷ []
        else reverse (link_points arcs.now (chain_link span.now.first)))) }
{
    let start = start_of(arcs, span.first);
    let start_step = gone.at_start(arcs, span.first);
    if span.is_past(k) {
        let end = end_of(arcs, span.last);
        push_left(points, &end, gone.at_end(arcs, span.last), k)?;
        return push_left(points, &start, start_step, k);
    }
    let along = arcs[span.first.arc as usize].points.as_slice();
    let steps = gone.along(arcs, span.first.arc);
    if span.first.turned {
        push_left_along(points, along, steps, k)?;
    } else {
        push_left_back(points, along, steps, k)?;
    }
    Ok(!is_by(start_step, k))
}

/// Takes the start of the part behind out, where it is left: it is the last point that was written.
fn take_out_start(points: &mut Vec<Point>, start_left: bool)
    ensures { reverse points.new.items ≡ (if start_left then drop 1 (reverse points.old.items) else reverse points.old.items) }
{
    if start_left {
        points.pop();
    }
}

/// Whether a part is written at once: it is an arc, or none of its points is left but the ends.
fn is_whole(part: Part, span: &Span, k: u32) -> bool
    ensures { result ≡ (part.leaf || is_past span.now.step k) }
{
    part.leaf || span.is_past(k)
}

/// Reads the points of an edge that are left after k steps, each junction once, from the last one to the first. What the
/// vectors held is taken out: the points are written to the first, and the parts that are still to come stand in the
/// second. Before a part is written, the point at which the one behind it starts is taken out, where it was left. A part of
/// which only the ends are left is passed over whole.
fn read_back_to_front(
    points: &mut Vec<Point>,
    stack: &mut Vec<Part>,
    arcs: &[BaseArc],
    edges: &[ForestEdge],
    spent: &Spent,
    id: u32,
    k: u32,
) -> Result<(), Memory>
    requires id { id < length edges.now }
    requires long { All (λ a. 2 ≤ length a.points) arcs.now }
    requires parts { (i : ℕ) → i < length edges.now → All (IsPart (length arcs.now) i) (edge_at edges.now i).parts }
    requires spent { (t : PointSteps) × AreSpent arcs.now t edges.now spent.now }
    ensures { (t : PointSteps) → AreSpent arcs.now t edges.now spent.now
        → OnOk result (reverse points.new.items ≡ left_points arcs.now t k (chain_of edges.now id)) }
{
    points.clear();
    stack.clear();
    let mut start_left = false;
    stack.push(Part {
        leaf: false,
        id,
        turned: false,
    })?;
    while let Some(part) = stack.pop() {
        let span = spent.span_of(part);
        if is_whole(part, &span, k) {
            take_out_start(points, start_left);
            start_left = push_part(points, arcs, &spent.gone, &span, k)?;
        } else {
            push_parts_of(stack, edges, part)?;
        }
    }
    Ok(())
}

/// Reads the points of an edge that are left after k steps, each junction once. What the vectors held is taken out: the
/// points are written to the first, and the second is room for the way to them. The time is that of the points that are
/// left and of the parts on the way to them.
pub fn read_left(
    points: &mut Vec<Point>,
    stack: &mut Vec<Part>,
    arcs: &[BaseArc],
    edges: &[ForestEdge],
    spent: &Spent,
    id: u32,
    k: u32,
) -> Result<(), Memory>
    requires id { id < length edges.now }
    requires long { All (λ a. 2 ≤ length a.points) arcs.now }
    requires parts { (i : ℕ) → i < length edges.now → All (IsPart (length arcs.now) i) (edge_at edges.now i).parts }
    requires spent { (t : PointSteps) × AreSpent arcs.now t edges.now spent.now }
    ensures { (t : PointSteps) → AreSpent arcs.now t edges.now spent.now
        → OnOk result (points.new.items ≡ left_points arcs.now t k (chain_of edges.now id)) }
{
    read_back_to_front(points, stack, arcs, edges, spent, id, k)?;
    points.reverse();
    Ok(())
}
