//! Tests of `vertex_drop` over its public calls: which vertices a step removes of an edge, and which it keeps.
#![tactic(auto)]

#[cfg(test)]
mod keys;
#[cfg(test)]
mod ropes;
#[cfg(test)]
mod sweeps;
#[cfg(test)]
mod table;
