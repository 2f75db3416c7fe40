//! Tests of `face_cuts` over its public calls: maps before and after cuts and fusions, worked out by hand, the cause of each
//! refusal, and maps that are as large as they may be.
#![tactic(auto)]

#[cfg(test)]
mod cuts;
#[cfg(test)]
mod fusions;
#[cfg(test)]
mod large;
#[cfg(test)]
mod maps;
#[cfg(test)]
mod refusals;
