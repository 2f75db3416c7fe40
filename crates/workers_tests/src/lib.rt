//! A test of `workers` over its public calls: a worker that waits holds up no other.
#![tactic(auto)]

#[cfg(test)]
mod waiting;
