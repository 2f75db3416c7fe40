//! Tests of `map_version` over its public calls: batches of edits on two squares side by side, and the versions that are
//! built of them.
#![tactic(auto)]

#[cfg(test)]
mod batches;
#[cfg(test)]
mod squares;
#[cfg(test)]
mod versions;
