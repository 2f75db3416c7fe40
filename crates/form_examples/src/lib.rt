//! Worked maps as texts, computed from the definitions: their borders, listings, topologies and rules files, slices and packets. The
//! maps are those of `map_laws`. There is no code, and no other crate stands on this one.
#![tactic(auto)]
