//! The sides of all spans by the nodes that they leave.

ghost use Rattle.std.specs.Prelude.{◌≡◌, ◌*◌, IfOk, length, All};
ghost use Rattle.std.specs.List.Sorted.{IsPermutation};
ghost use Rattle.std.specs.Ordering.{is_lt};
ghost use Rattle.ring_walk.specs.Sides.{sides};
ghost use Rattle.ring_walk.specs.Spans.{AreOrdered, AreSpans, IsSide, IsSpokeOf, before, sides_in};

use crate::side::Side;
use crate::span::Span;
use crate::spoke::Spoke;
use grid_geo::cmp_round;
use std::alloc::Global;
use std::cmp::Ordering;
use tgap_model::Memory;

/// The spoke by which a side leaves its node.
fn spoke_of(spans: &[Span], side: Side) -> Spoke
    requires spans { AreSpans spans.now }
    requires side { IsSide (length spans.now) side }
    ensures side { result.side ≡ side }
    ensures spoke { IsSpokeOf spans.now result }
{
    let span = &spans[side.span as usize];
    Spoke {
        node: span.start(side.way),
        toward: span.toward(side.way),
        side,
    }
}

/// The order of two spokes: by node, round a node counter-clockwise from the direction of positive x, and in one direction
/// by the number of the side.
fn compare(p: &Spoke, q: &Spoke) -> Ordering
    ensures { is_lt result ≡ before p.now q.now }
{
    match p.node.cmp(&q.node) {
        Ordering::Equal => compare_at_node(p, q),
        order => order,
    }
}

/// The order of two spokes round the node of the first.
fn compare_at_node(p: &Spoke, q: &Spoke) -> Ordering
    requires { p.now.node ≡ q.now.node }
    ensures { is_lt result ≡ before p.now q.now }
{
    match cmp_round(p.node, p.toward, q.toward) {
        Ordering::Equal => p.side.number().cmp(&q.side.number()),
        order => order,
    }
}

/// The spokes of all sides, in order.
pub fn sorted_spokes(alloc: Global, spans: &[Span]) -> Result<Vec<Spoke>, Memory>
    requires { AreSpans spans.now }
    // They are those of the sides.
    ensures each { IfOk result (λ spokes. All (IsSpokeOf spans.now) spokes.items) }
    ensures same { IfOk result (λ spokes. IsPermutation (sides (length spans.now)) (sides_in spokes.items)) }
    // None stands before the one in front of it, and each is of another side.
    ensures ordered { IfOk result (λ spokes. AreOrdered spokes.items) }
{
    let count = 2 * spans.len();
    let mut spokes = Vec::with_capacity(alloc, count)?;
    for number in 0..count {
        spokes.push(spoke_of(spans, Side::numbered(number)))?;
    }
    spokes.sort_unstable_by(|p, q| compare(p, q));
    Ok(spokes)
}
