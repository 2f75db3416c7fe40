//! Tests of `topo_write` over its public call: slices that are made by hand, as topologies.
#![tactic(auto)]

#[cfg(test)]
mod made;
#[cfg(test)]
mod slices;
