//! The commands that end by themselves: the words that ask for them, the files that they read, and the status and text that
//! come of them. They stand on the crates of the map and its texts.
#![tactic(auto)]

mod answer;
mod border_rows;
mod borders;
mod check;
mod command;
mod grid;
mod grid_size;
mod load;
mod outcome;
mod packet;
mod replay;
mod slice;

pub use answer::execute;
pub use command::{Source, source_named};
pub use load::load_map;
pub use outcome::{Outcome, SINK_FAULT};
