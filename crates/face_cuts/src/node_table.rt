//! A table of the arcs of a map, made by one sort of their sides by node and one by face.

ghost use Rattle.std.specs.Prelude.{◌≡◌, IfOk};
ghost use Rattle.ring_walk.specs.Spans.{AreSpans};
ghost use Rattle.face_cuts.specs.Sectors.{spans_of};

use crate::face_sides::{FaceSide, sides_by_face, sides_of_face};
use crate::next::next_sides;
use crate::node_sides::{NodeSide, sides_by_node, sides_of_node};
use crate::spans::spans_of;
use crate::table::ArcTable;
use ring_walk::{Side, Span};
use std::alloc::Global;
use std::marker::Model;
use tgap_model::{BaseArc, Memory, Point};

/// A table of arcs: their spans, the next side of each side, and the sides sorted by node and by face. Contracts see the
/// arcs.
#[derive(Drop)]
pub struct NodeTable<'a> {
    arcs: &'a [BaseArc],
    spans: Vec<Span>,
    next: Vec<Side>,
    nodes: Vec<NodeSide>,
    faces: Vec<FaceSide>,
}

impl<'a> Model for NodeTable<'a> {
    ghost use Rattle.std.specs.Prelude.{List as Sequence};
    ghost use Rattle.tgap_model.specs.declared.base.BaseArc.{BaseArc as Arc};
    ghost use Rattle.face_cuts.specs.NodeTables.{IsNodeTable};

    ghost Value = { Sequence Arc };

    ghost view = { λ t. t.arcs.now };

    ghost invariant = { λ t. IsNodeTable t.arcs.now t.spans.items t.next.items t.nodes.items t.faces.items };
}

impl<'a> NodeTable<'a> {
    /// The table of these arcs. It takes the time of a sort of their sides.
    pub fn of(alloc: Global, arcs: &'a [BaseArc]) -> Result<NodeTable<'a>, Memory>
        requires { AreSpans (spans_of arcs.now) }
        ensures { IfOk result (λ table. table ≡ arcs.entry.now) }
    {
        let spans = spans_of(alloc, arcs)?;
        let next = next_sides(alloc, &spans)?;
        let nodes = sides_by_node(alloc, &spans)?;
        let faces = sides_by_face(alloc, &spans)?;
        Ok(NodeTable {
            arcs,
            spans,
            next,
            nodes,
            faces,
        })
    }
}

impl<'a> ArcTable for NodeTable<'a> {
    ghost arcs = { λ arcs. arcs };

    fn count(&self) -> usize {
        self.arcs.len()
    }

    fn span(&self, arc: u32) -> Span {
        self.spans[arc as usize]
    }

    fn points(&self, arc: u32) -> &[Point] {
        self.arcs[arc as usize].points.as_slice()
    }

    fn next(&self, side: Side) -> Side {
        self.next[side.number()]
    }

    fn leaving(&self, alloc: Global, node: Point) -> Result<Vec<Side>, Memory> {
        sides_of_node(alloc, &self.nodes, node)
    }

    fn beside(&self, alloc: Global, face: u32) -> Result<Vec<Side>, Memory> {
        sides_of_face(alloc, &self.faces, face)
    }
}
