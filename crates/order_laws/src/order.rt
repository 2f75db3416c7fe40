//! Laws of the order of edge ends round a node.

ghost use Rattle.order_laws.specs.NodeOrder.{EndsKeepFaces, EndsKeepOrder, ReplacedKeepsOrder, SweepKeepsOrder};

/// The edge ends at a node keep their cyclic order where a vertex is taken out of an edge.
pub fn replaced_keeps_order()
    ensures { ReplacedKeepsOrder }
{}

/// The edge ends at a node keep their cyclic order in a sweep.
pub fn sweep_keeps_order()
    ensures { SweepKeepsOrder }
{}

/// At each node of a slice the edge ends have the cyclic order that their arc ends have in the base map.
pub fn ends_keep_order()
    ensures { EndsKeepOrder }
{}

/// The spokes of a slice at a node have in their order the faces of those arc ends at their sides.
pub fn ends_keep_faces()
    ensures { EndsKeepFaces }
{}
