//! Tests of `client_replay` over its public calls: records of windows that are applied or refused. Records of whole slices are
//! tried by the commands and by tests/sweep.
#![tactic(auto)]

#[cfg(test)]
mod made;
#[cfg(test)]
mod windows;
