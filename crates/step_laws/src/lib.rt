//! Laws of the edges of a slice from one step to the next. The functions do nothing: the contract of each is a law, which is
//! proved with the crate. It stands on `tgap_model`, whose definitions the laws are about, and on the laws of chains, of
//! slices and of the vertex removal.
#![tactic(auto)]

mod nodes;
mod slices;

pub use nodes::{replaced_agrees_round, sweep_keeps_nodes};
pub use slices::{faces_stay_unions, slices_stay_partitions, slices_stay_planar};
