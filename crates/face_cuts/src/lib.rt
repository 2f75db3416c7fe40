//! Cuts and fusions of faces: an inner vertex becomes a node, a new arc cuts a face in two, and two faces become one. It
//! stands on `ring_walk`, whose rings go round faces, on `ring_probe`, which finds what of a ring passes above a segment, and
//! on `grid_index`, by which segments are looked up. The functions of `laws` do nothing: their contracts are laws of the three
//! edits.
#![tactic(auto)]

mod along;
mod cause;
mod columns;
mod cut;
mod face_sides;
mod free;
mod fusion;
mod laws;
mod new_ring;
mod next;
mod node;
mod node_sides;
mod node_table;
mod over;
mod parting;
mod parts;
mod points;
mod sector;
mod side_set;
mod spans;
mod table;
mod walk;

pub use along::cut_along;
pub use cause::Cause;
pub use cut::cut_face;
pub use free::{are_different, inner_points};
pub use fusion::fuse_faces;
pub use laws::{
    cuts_fuse_again, cuts_keep_inside, cuts_keep_maps, cuts_move_sides, fusions_keep_inside,
    fusions_keep_maps, nodes_keep_maps,
};
pub use node::add_node;
pub use node_table::NodeTable;
pub use points::{first_point, last_point};
pub use sector::{face_of, is_before, later, start_of, toward_of};
pub use spans::{point_at, span_of};
pub use table::ArcTable;
