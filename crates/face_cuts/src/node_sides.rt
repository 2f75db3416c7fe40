//! All sides by the nodes that they leave.

ghost use Rattle.std.specs.Prelude.{◌≡◌, ◌≤◌, ◌^◌, IfOk, length, map, filter};
ghost use Rattle.std.specs.List.Sorted.{IsSortedBy};
ghost use Rattle.tgap_model.specs.Base.{same_point};
ghost use Rattle.ring_walk.specs.Spans.{IsSide};
ghost use Rattle.face_cuts.specs.NodeTables.{AreByNode, node_before, node_side};

use ring_walk::{Side, Span};
use std::alloc::Global;
use tgap_model::{Memory, Point};

/// A side with the node that it leaves.
#[derive(Clone, Copy)]
pub struct NodeSide {
    pub node: Point,
    pub side: Side,
}

/// A side with the node that it leaves.
fn node_side(spans: &[Span], side: Side) -> NodeSide
    requires { IsSide (length spans.now) side }
    ensures { result ≡ node_side spans.now side }
{
    NodeSide {
        node: spans[side.span as usize].start(side.way),
        side,
    }
}

/// All sides by their nodes, in the order of points, and those of one node in the order of their numbers.
pub fn sides_by_node(alloc: Global, spans: &[Span]) -> Result<Vec<NodeSide>, Memory>
    requires { length spans.now ≤ 2 ^ 32 }
    ensures { IfOk result (λ rows. AreByNode spans.now rows.items) }
{
    let count = 2 * spans.len();
    let mut rows = Vec::with_capacity(alloc, count)?;
    for number in 0..count {
        rows.push(node_side(spans, Side::numbered(number)))?;
    }
    rows.sort_by_key(|row| row.node)?;
    Ok(rows)
}

/// The sides of a node. It takes a search by halves, and one look at each of them.
pub fn sides_of_node(alloc: Global, rows: &[NodeSide], node: Point) -> Result<Vec<Side>, Memory>
    requires { IsSortedBy node_before rows.now }
    ensures { IfOk result (λ found. found.items ≡ map (λ row. row.side) (filter (λ row. same_point row.node node) rows.now)) }
{
    let mut found = Vec::new(alloc);
    let first = rows.partition_point(|row| row.node.cmp(&node).is_lt());
    for place in first..rows.len() {
        if rows[place].node != node {
            return Ok(found);
        }
        found.push(rows[place].side)?;
    }
    Ok(found)
}
