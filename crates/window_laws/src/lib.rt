//! Laws of the refinement of a window: how the window of a slice is led back to those of finer slices. The functions do nothing:
//! the contract of each is a law, which is proved with the crate. It stands on `tgap_model`, whose definitions the laws are about,
//! and on the laws of the records of whole slices.
#![tactic(auto)]

mod packets;
mod steps;

pub use packets::{window_packets_fit, window_packets_join, window_packets_lead};
pub use steps::{
    window_comes_are, window_faces_come_with_edges, window_steps_fit, window_undo_goes_back,
};
