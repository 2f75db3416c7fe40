//! Laws of slices, which show that the definition of a slice means what it should. The functions do nothing: the contract
//! of each is a law, which is proved with the crate. It stands on `tgap_model`, whose definitions the laws are about, on the
//! laws of planar partitions and chains, and on what the check of a base map rests on.
#![tactic(auto)]

mod slices;

pub use slices::{
    chains_keep_faces, faces_are_adjacent, faces_are_unions, slices_are_partitions,
    slices_are_slices,
};
