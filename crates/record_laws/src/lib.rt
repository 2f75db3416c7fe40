//! Laws of records and packets: how a slice is led back to finer ones. The functions do nothing: the contract of each is a law,
//! which is proved with the crate. It stands on `tgap_model`, whose definitions the laws are about, and on the laws of chains,
//! slices and removals, and of the slices from one step to the next.
#![tactic(auto)]

mod packets;
mod pieces;
mod runs;
mod undo;

pub use packets::{packets_fit, packets_join, packets_lead};
pub use pieces::{pieces_are_edges, puts_come_back};
pub use runs::runs_are_chains;
pub use undo::{records_fit, undo_goes_back};
