//! The versions that the entries of a journal come to: those that a server publishes again at its start. An entry takes the place
//! of the one of its number and of all after that one, and each batch that is left makes the next version. It stands on
//! `edit_journal`, whose entries it takes, and on `map_version`, which applies a batch and builds a version.
#![tactic(auto)]

mod fail;
mod maps;
mod places;
mod versions;

pub use fail::FoldFail;
pub use versions::versions_of;
