//! The workers of a map server: each serves the connections of one door by a seat of the store of versions. It stands on `workers`,
//! `session`, `version_store` and `map_version`.
#![tactic(auto)]

mod seat;

pub use seat::{Post, serve};
pub use workers::{ServeEnd, close_posts};
