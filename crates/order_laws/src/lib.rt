//! Laws of the order of edge ends round the nodes of a slice. The functions do nothing: the contract of each is a law, which is
//! proved with the crate. It stands on `tgap_model`, whose definitions the laws are about, and on the laws of the vertex removal
//! and of the slices at every step.
#![tactic(auto)]

mod order;

pub use order::{ends_keep_faces, ends_keep_order, replaced_keeps_order, sweep_keeps_order};
