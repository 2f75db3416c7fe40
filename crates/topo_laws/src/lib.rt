//! Laws of the topology of a slice: what is exported is read back. The functions do nothing: the contract of each is a law,
//! which is proved with the crate. It stands on `ring_walk` and `topo_write`, which make the rings and the text, on the reading
//! of `topology_forms` and `ring_sides`, and on the laws of slices.
#![tactic(auto)]

mod reading;
mod rings;

pub use reading::{exports_are_read_back, texts_are_read, trees_are_read};
pub use rings::{next_has_the_face, rings_have_one_face};
