//! The spokes of all nodes, in order.

ghost use Rattle.std.specs.Prelude.{◌≡◌, ◌≢◌, ◌≤◌, ◌+◌, ◌*◌, IsTrue, IfOk, length};
ghost use Rattle.std.specs.List.{list_all};
ghost use Rattle.std.specs.List.Sorted.{IsSortedBy};
ghost use Rattle.std.specs.Ordering.{is_lt};
ghost use Rattle.tgap_model.specs.Base.{in_limits};
ghost use Rattle.tgap_model.specs.Partition.{is_proper};
ghost use Rattle.base_check.specs.Spokes.{spoke, before, AreSpokesOf, AddsSpokesOf};

use crate::spoke::NodeSpoke;
use grid_geo::cmp_round;
use std::alloc::Global;
use std::cmp::Ordering;
use tgap_model::{LabelledSegment, Memory, Point};

/// The spoke from a node to a point.
fn spoke_between(node: Point, toward: Point, left: u32, right: u32) -> NodeSpoke
    requires node { IsTrue (in_limits node) }
    requires toward { IsTrue (in_limits toward) }
    requires apart { node ≢ toward }
    ensures node { result.node ≡ node }
    ensures spoke { spoke result ≡ record { toward = toward; left = left; right = right } }
{
    NodeSpoke {
        node,
        toward,
        left,
        right,
    }
}

/// Puts the spokes of a segment after those of `spokes`.
fn push_spokes(spokes: &mut Vec<NodeSpoke>, s: &LabelledSegment) -> Result<(), Memory>
    requires { IsTrue (is_proper s.now) }
    ensures added { IfOk result (λ _. AddsSpokesOf s.now spokes.old.items spokes.new.items) }
    ensures few { IfOk result (λ _. length spokes.new.items ≤ length spokes.old.items + 2) }
{
    let (a, b) = (s.segment.a, s.segment.b);
    if s.starts {
        spokes.push(spoke_between(a, b, s.left, s.right))?;
    }
    if s.ends {
        spokes.push(spoke_between(b, a, s.right, s.left))?;
    }
    Ok(())
}

/// The order of two spokes: by node, and then counter-clockwise from the direction of positive x.
fn compare(p: &NodeSpoke, q: &NodeSpoke) -> Ordering
    ensures { is_lt result ≡ before p.now q.now }
{
    match p.node.cmp(&q.node) {
        Ordering::Equal => cmp_round(p.node, p.toward, q.toward),
        order => order,
    }
}

/// The spokes of all segments, by node, and round each node counter-clockwise from the direction of positive x.
pub fn sorted_spokes(alloc: Global, segments: &[LabelledSegment]) -> Result<Vec<NodeSpoke>, Memory>
    requires { IsTrue (list_all is_proper segments.now) }
    // At each point they are those of the definition.
    ensures same { IfOk result (λ spokes. AreSpokesOf segments.now spokes.items) }
    // None stands before the one in front of it.
    ensures sorted { IfOk result (λ spokes. IsSortedBy before spokes.items) }
    ensures few { IfOk result (λ spokes. length spokes.items ≤ 2 * length segments.now) }
{
    let mut spokes = Vec::with_capacity(alloc, 2 * segments.len())?;
    for s in segments {
        push_spokes(&mut spokes, s)?;
    }
    spokes.sort_unstable_by(|p, q| compare(p, q));
    Ok(spokes)
}
