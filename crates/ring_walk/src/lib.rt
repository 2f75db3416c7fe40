//! Walks round faces, along edges of a slice or arcs of a map. It stands on `tgap_model`, and on `grid_geo`, which compares
//! directions round a node. Two functions do nothing: their contracts are laws of the next side and of the rings.
#![tactic(auto)]

mod laws;
mod next;
mod rings;
mod side;
mod sorted;
mod span;
mod spoke;

pub use laws::{next_is_one_to_one, rings_are_orbits};
pub use rings::rings_of;
pub use side::{Side, Way};
pub use span::{EdgeEnds, Span};
