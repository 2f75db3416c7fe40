//! A forest while the history goes on.

ghost use Rattle.std.specs.Prelude.{◌≡◌, ◌==◌, if◌then◌else◌};
ghost use Rattle.edge_forest.specs.Forest.{never};

use crate::edge::ForestEdge;
use crate::face_labels::FaceLabels;
use crate::net::Net;
use crate::nodes::Nodes;
use tgap_model::{BaseArc, Checked, List};

/// What stands for the high step of an edge that goes on.
pub const NEVER: u32 = u32::MAX;

/// The high step of an edge when the history is at its end.
pub fn closed_high(high: u32, last: u32) -> u32
    ensures { result ≡ (if high == never then last else high) }
{
    if high == NEVER { last } else { high }
}

/// A forest while the history goes on: its base map, all its edges, the nodes at the arc ends, the edges that have not
/// ended, which hold labels of faces, the labels, and for each label the keys of those that have it at a side. (A key stays
/// listed when its edge has ended.)
#[derive(Drop)]
pub struct Growth {
    pub base: Checked,
    pub edges: Vec<ForestEdge>,
    pub nodes: Nodes,
    pub net: Net,
    pub labels: FaceLabels,
    pub keys: Vec<List<u32>>,
}

/// The arcs of a base map.
pub fn arcs_of(base: &Checked) -> &[BaseArc]
    ensures { result.now ≡ base.now.arcs }
{
    base.base().arcs().as_slice()
}
