//! Spans: where a row of arcs starts and ends, and the step from which on no point between its ends is left.

ghost use Rattle.std.specs.Prelude.{◌≡◌, ◌<◌, ◌≤◌, length};
ghost use Rattle.std.specs.List.{All};
ghost use Rattle.tgap_model.specs.Chains.{link_start, link_end};
ghost use Rattle.edge_forest.specs.Spent.{is_past, turned_link, turned_span, joined_span};
ghost use Rattle.edge_forest.specs.Walks.{chain_link};

use crate::growth::NEVER;
use crate::removed::Removed;
use crate::walk::Link;
use tgap_model::{BaseArc, Point};

/// The first and the last arc of a row of arcs, in its direction, and the first step after which no point of the row is
/// left but its two ends, or `NEVER`.
#[derive(Clone, Copy)]
pub struct Span {
    pub step: u32,
    pub first: Link,
    pub last: Link,
}

/// The arc in the other direction.
pub fn turned_link(link: Link) -> Link
    ensures { result ≡ turned_link link }
{
    Link {
        arc: link.arc,
        turned: !link.turned,
    }
}

/// The point at which an arc starts.
pub fn start_of(arcs: &[BaseArc], link: Link) -> Point
    requires arc { link.arc < length arcs.now }
    requires long { All (λ a. 2 ≤ length a.points) arcs.now }
    ensures { result ≡ link_start arcs.now (chain_link link) }
{
    let points = arcs[link.arc as usize].points.as_slice();
    if link.turned {
        points[points.len() - 1]
    } else {
        points[0]
    }
}

/// The point at which an arc ends.
pub fn end_of(arcs: &[BaseArc], link: Link) -> Point
    requires arc { link.arc < length arcs.now }
    requires long { All (λ a. 2 ≤ length a.points) arcs.now }
    ensures { result ≡ link_end arcs.now (chain_link link) }
{
    start_of(arcs, turned_link(link))
}

impl Span {
    /// Whether no point but the ends is left after k steps.
    pub fn is_past(&self, k: u32) -> bool
        ensures { result ≡ is_past self.now.step k }
    {
        self.step <= k && self.step < NEVER
    }

    /// The span of the row that is turned round.
    pub fn turned(&self) -> Span
        ensures { result ≡ turned_span self.now }
    {
        Span {
            step: self.step,
            first: turned_link(self.last),
            last: turned_link(self.first),
        }
    }

    /// The span of this row and another one behind it. The points at which they meet have to go too.
    pub fn joined(&self, next: &Span, arcs: &[BaseArc], removed: &Removed) -> Span
        requires last { self.now.last.arc < length arcs.now }
        requires first { next.now.first.arc < length arcs.now }
        requires long { All (λ a. 2 ≤ length a.points) arcs.now }
        ensures { result ≡ joined_span arcs.now removed.now self.now next.now }
    {
        let end = removed.gone_step(&end_of(arcs, self.last));
        let start = removed.gone_step(&start_of(arcs, next.first));
        Span {
            step: self.step.max(next.step).max(end.max(start)),
            first: self.first,
            last: next.last,
        }
    }
}
