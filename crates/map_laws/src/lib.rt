//! Laws of the definitions, which show that the words mean what they should, and worked maps on which they are computed. The
//! functions do nothing: the contract of each is a law, which is proved with the crate. It stands on `tgap_model`, whose
//! definitions the laws are about.
#![tactic(auto)]

mod chains;
mod plane;

pub use chains::{
    chains_are_unique, chains_exist, chains_step, ended_edges_vanish, slices_are_unique,
};
pub use plane::{
    clear_is_symmetric, inner_vertices_stand_once, inside_below_nearest, inside_one_face,
    labels_change, neighbours_cancel,
};
