//! Whether the faces agree round each node.

ghost use Rattle.std.specs.Prelude.{◌≡◌, ◌<◌, ◌^◌, length};
ghost use Rattle.base_check.specs.Spokes.{disagrees, ring_ends, gap_between, gap_of};

use crate::spoke::NodeSpoke;
use tgap_model::{MapFault, Point};

/// Two spokes of a node, the second next to the first counter-clockwise, of which the first one's left face is not the
/// second one's right face. The spokes are numbered counter-clockwise from 0, the first the one least turned from the
/// direction of positive x.
#[derive(Clone, Copy, PartialEq, Eq)]
pub struct NodeGap {
    pub node: Point,
    pub spoke: u32,
    pub next: u32,
    pub left: u32,
    pub right: u32,
}

impl NodeGap {
    /// It as a fault of a map.
    pub fn fault(self) -> MapFault
        ensures { result ≡ disagrees self }
    {
        MapFault::NodeDisagrees {
            node: self.node,
            spoke: self.spoke,
            next: self.next,
            left: self.left,
            right: self.right,
        }
    }
}

/// What is between spoke number `i` of a node and the next one, number `j`: a gap where the faces disagree.
fn gap_between(p: &NodeSpoke, i: usize, q: &NodeSpoke, j: usize) -> Option<NodeGap>
    requires i { i < 2 ^ 32 }
    requires j { j < 2 ^ 32 }
    ensures { result ≡ gap_between p.now i q.now j }
{
    if p.left == q.right {
        return None;
    }
    Some(NodeGap {
        node: p.node,
        spoke: i as u32,
        next: j as u32,
        left: p.left,
        right: q.right,
    })
}

/// Whether the ring of spoke `i` ends with it.
fn is_last(spokes: &[NodeSpoke], i: usize) -> bool
    requires inside { i < length spokes.now }
    ensures { (d : NodeSpoke) → result ≡ ring_ends spokes.now i d }
{
    i + 1 == spokes.len() || spokes[i].node != spokes[i + 1].node
}

/// The first gap of all rings, in order. A ring is a run of spokes of one node; its first one comes next to its last one.
pub fn first_gap(spokes: &[NodeSpoke]) -> Option<NodeGap>
    requires few { length spokes.now < 2 ^ 32 }
    ensures { result ≡ gap_of spokes.now }
{
    let mut first = 0;
    for i in 0..spokes.len() {
        let last = is_last(spokes, i);
        let next = if last { first } else { i + 1 };
        let found = gap_between(&spokes[i], i - first, &spokes[next], next - first);
        if found.is_some() {
            return found;
        }
        if last {
            first = i + 1;
        }
    }
    None
}
