//! The command that serves a map, with a journal of edits or without: its words, the store and the doors that it opens, and the status that
//! comes of it. It stands on `commands`, on `map_workers`, and on `edit_journal` and `journal_fold`.
#![tactic(auto)]

mod journal;
mod later;
mod serve;
mod serve_store;

pub use serve::{Serving, parse_serve, run_serve};
