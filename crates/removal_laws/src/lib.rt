//! Laws of the vertex removal: what the triangle of a removed vertex has in common with live segments, and what a removal keeps
//! of a planar partition. The functions do nothing: the contract of each is a law, which is proved with the crate.
#![tactic(auto)]

mod ends;
mod faces;
mod listed;
mod partition;
mod replace;
mod trace;
mod triangle;
mod wedge;

pub use ends::{ends_are_not_listed, ends_were_ends};
pub use faces::{
    replaced_agrees, replaced_inside, step_keeps_inside, sweep_keeps_faces, sweep_keeps_inside,
};
pub use listed::{
    removed_are_inner, sound_points_stand_once, sweep_is_slice, sweep_is_without,
    sweep_keeps_sound, vertices_are_listed_once,
};
pub use partition::{chains_stand_once, partition_has_removals};
pub use replace::replaced_is_apart;
pub use trace::{sweep_keeps_apart, trace_follows_rule, trace_is_removals, trace_leads};
pub use triangle::{clear_is_apart, clear_of_base, one_line_covers};
pub use wedge::neighbours_have_one_place;
