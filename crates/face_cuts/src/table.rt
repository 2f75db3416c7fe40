//! What a cut looks up of the arcs of a map.

ghost use Rattle.std.specs.Prelude.{◌≡◌, ◌<◌, List as Sequence, [], IfOk, length, slice_index_or};
ghost use Rattle.tgap_model.specs.declared.base.BaseArc.{BaseArc as Arc};
ghost use Rattle.ring_walk.specs.Rings.{next_side};
ghost use Rattle.ring_walk.specs.Sides.{span_number};
ghost use Rattle.ring_walk.specs.Spans.{IsSide};
ghost use Rattle.face_cuts.specs.Cuts.{lines_of};
ghost use Rattle.face_cuts.specs.Sectors.{spans_of};
ghost use Rattle.face_cuts.specs.Tables.{sides_beside, sides_leaving};

use ring_walk::{Side, Span};
use std::alloc::Global;
use tgap_model::{Memory, Point};

/// A table of the arcs of a map: what a cut looks up of them. An arc is named by its number, from 0 on, and a side by its arc
/// and a way along it. Memory may be wanting only where a row of sides is made.
pub trait ArcTable {
    /// The arcs whose table it is, in the order of their numbers.
    ghost arcs: { Self → Sequence Arc };

    /// How many arcs there are.
    fn count(&self) -> usize
        ensures { result ≡ length (arcs self.now) };

    /// What a walk has to know of an arc.
    fn span(&self, arc: u32) -> Span
        requires { arc < length (arcs self.now) }
        ensures { result ≡ span_number (spans_of (arcs self.now)) arc };

    /// The points of an arc.
    fn points(&self, arc: u32) -> &[Point]
        requires { arc < length (arcs self.now) }
        ensures { result.now ≡ slice_index_or (lines_of (arcs self.now)) arc [] };

    /// The next side of a side: where the side arrives at a node, it is turned, and the next one stands in front of that round
    /// the node.
    fn next(&self, side: Side) -> Side
        requires { IsSide (length (arcs self.now)) side }
        ensures { result ≡ next_side (spans_of (arcs self.now)) side };

    /// The sides that leave a node, in the order of their numbers. There is none where the point is no node.
    fn leaving(&self, alloc: Global, node: Point) -> Result<Vec<Side>, Memory>
        ensures { IfOk result (λ found. found.items ≡ sides_leaving (spans_of (arcs self.now)) node) };

    /// The sides that have a face, in the order of their numbers.
    fn beside(&self, alloc: Global, face: u32) -> Result<Vec<Side>, Memory>
        ensures { IfOk result (λ found. found.items ≡ sides_beside (spans_of (arcs self.now)) face) };
}
