//! Texts of slices and packets of a built map, written without making them. It stands on `tgap_build`, whose tree, forest and
//! records are read where they are, and on `wire_text`, which writes their rows.
#![tactic(auto)]

mod packet;
mod slice;

pub use packet::packet_text_at;
pub use slice::slice_text_at;
