//! Generated maps: rows of cells whose corners and bends are moved by a few units, each of them a planar partition. It stands
//! on `tgap_model`, and for the proof that each map is a planar partition on the laws of the checks, which do not run here.
#![tactic(auto)]

mod grid;

pub use grid::{MAX_GRID, grid_map};
