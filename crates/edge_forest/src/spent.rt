//! From which step on the arcs of a map, and the edges of its forest, have no point left but their ends.

ghost use Rattle.std.specs.Prelude.{◌≡◌, ◌<◌, ◌≤◌, ◌+◌, ℕ, true, false, length, slice_index_or, get_or, IfOk};
ghost use Rattle.std.specs.List.{All};
ghost use Rattle.tgap_model.specs.declared.geometry.Point.{Point};
ghost use Rattle.edge_forest.specs.Edges.{IsPart, edge_at, chain_of, chains_of};
ghost use Rattle.edge_forest.specs.Spent.{is_left, is_past, part_span, AreArcSteps, AreSpans, AreSpent, IsSpan};

use crate::edge::{ForestEdge, Part};
use crate::gone_steps::GoneSteps;
use crate::removed::Removed;
use crate::span::Span;
use crate::walk::Link;
use std::alloc::Global;
use tgap_model::{BaseArc, Memory, Point};

/// For each arc the step after which none of its points is left but the ends, for each edge its span, and the step of each point of an arc.
#[derive(Drop)]
pub struct Spent {
    pub arcs: Vec<u32>,
    pub edges: Vec<Span>,
    pub gone: GoneSteps,
}

/// The step after which none of these points is left but the first and the last.
fn step_between_ends(removed: &Removed, points: &[Point]) -> u32
    requires { 2 ≤ length points.now }
    ensures { (k : ℕ) → is_past result k ≡ true → (i : ℕ) (d : Point) → 0 < i → i + 1 < length points.now → is_left removed.now k (get_or points.now i d) ≡ false }
{
    let mut step = 0;
    for i in 1..points.len() - 1 {
        step = step.max(removed.gone_step(&points[i]));
    }
    step
}

/// The step of each arc.
fn arc_steps(alloc: Global, arcs: &[BaseArc], removed: &Removed) -> Result<Vec<u32>, Memory>
    requires { All (λ a. 2 ≤ length a.points) arcs.now }
    ensures count { IfOk result (λ steps. length steps.items ≡ length arcs.now) }
    ensures steps { IfOk result (λ steps. AreArcSteps arcs.now removed.now steps.items) }
{
    let mut steps = Vec::with_capacity(alloc, arcs.len())?;
    for arc in arcs {
        steps.push(step_between_ends(removed, arc.points.as_slice()))?;
    }
    Ok(steps)
}

/// The span of a part.
fn span_of(steps: &[u32], spans: &[Span], part: Part) -> Span
    requires arc { part.leaf ≡ true → part.id < length steps.now }
    requires edge { part.leaf ≡ false → part.id < length spans.now }
    ensures { result ≡ part_span steps.now spans.now part }
{
    let whole = if part.leaf {
        let link = Link {
            arc: part.id,
            turned: false,
        };
        Span {
            step: steps[part.id as usize],
            first: link,
            last: link,
        }
    } else {
        spans[part.id as usize]
    };
    if part.turned { whole.turned() } else { whole }
}

/// The span of an edge, by those of the edges before it.
fn edge_span(
    arcs: &[BaseArc],
    removed: &Removed,
    edges: &[ForestEdge],
    steps: &[u32],
    spans: &[Span],
    id: usize,
) -> Span
    requires id { id < length edges.now }
    requires long { All (λ a. 2 ≤ length a.points) arcs.now }
    requires parts { (i : ℕ) → i < length edges.now → All (IsPart (length arcs.now) i) (edge_at edges.now i).parts }
    requires some { 0 < length (edge_at edges.now id).parts }
    requires arcs { length steps.now ≡ length arcs.now }
    requires before { length spans.now ≡ id }
    requires steps { AreArcSteps arcs.now removed.now steps.now }
    requires spans { AreSpans arcs.now removed.now (chains_of edges.now) spans.now }
    ensures { IsSpan arcs.now removed.now (chain_of edges.now id) result }
{
    let parts = edges[id].parts.as_slice();
    let mut span = span_of(steps, spans, parts[0]);
    for i in 1..parts.len() {
        span = span.joined(&span_of(steps, spans, parts[i]), arcs, removed);
    }
    span
}

impl Spent {
    /// Nothing. It takes no memory.
    pub fn none(alloc: Global) -> Spent {
        Spent {
            arcs: Vec::new(alloc),
            edges: Vec::new(alloc),
            gone: GoneSteps::none(alloc),
        }
    }

    /// The steps and spans of these arcs and edges. It takes a search among the points of the map for each point of an
    /// arc, and two for each part of an edge.
    pub fn of(
        alloc: Global,
        arcs: &[BaseArc],
        edges: &[ForestEdge],
        removed: &Removed,
    ) -> Result<Spent, Memory>
        requires long { All (λ a. 2 ≤ length a.points) arcs.now }
        requires parts { (i : ℕ) → i < length edges.now → All (IsPart (length arcs.now) i) (edge_at edges.now i).parts }
        requires some { (i : ℕ) → i < length edges.now → 0 < length (edge_at edges.now i).parts }
        ensures { IfOk result (AreSpent arcs.now removed.now edges.now) }
    {
        let steps = arc_steps(alloc, arcs, removed)?;
        let mut spans = Vec::with_capacity(alloc, edges.len())?;
        for id in 0..edges.len() {
            spans.push(edge_span(arcs, removed, edges, &steps, &spans, id))?;
        }
        Ok(Spent {
            arcs: steps,
            edges: spans,
            gone: GoneSteps::of(alloc, arcs, removed)?,
        })
    }

    /// The span of a part.
    pub fn span_of(&self, part: Part) -> Span
        requires arc { part.leaf ≡ true → part.id < length self.now.arcs.items }
        requires edge { part.leaf ≡ false → part.id < length self.now.edges.items }
        ensures { result ≡ part_span self.now.arcs.items self.now.edges.items part }
    {
        span_of(&self.arcs, &self.edges, part)
    }
}
