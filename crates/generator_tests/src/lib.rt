//! Tests of `generator` over its public call: the smallest map, worked out by hand, and how much a larger one has.
#![tactic(auto)]

#[cfg(test)]
mod maps;
