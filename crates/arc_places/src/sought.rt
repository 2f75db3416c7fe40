//! Which sides are looked for in a table.

ghost use Rattle.std.specs.Prelude.{◌≡◌};
ghost use Rattle.arc_places.specs.SlotTables.{is_sought};

use ring_walk::{Span, Way};
use tgap_model::Point;

/// Which sides are looked for: those that leave a node, or those that have a face.
#[derive(Clone, Copy)]
pub enum Sought {
    Node(Point),
    Face(u32),
}

impl Sought {
    /// Whether the side on that way of a span is looked for.
    pub fn has(&self, span: &Span, way: Way) -> bool
        ensures { result ≡ is_sought self.now way span.now }
    {
        match self {
            Sought::Node(node) => span.start(way) == *node,
            Sought::Face(face) => span.face(way) == *face,
        }
    }
}
