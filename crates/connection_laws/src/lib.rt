//! Laws of connections. The functions do nothing: the contract of each is a law, which is proved with the crate. They stand on
//! `version_store`, whose `Machine` says what comes of each event, and on `session`, whose table says which outcome an item
//! may have.
#![tactic(auto)]

mod publishers;
mod steps;

pub use publishers::each_version_has_one_publisher;
pub use steps::{conversations_are_steps, outcomes_are_steps};
