//! Tests of `face_merge` over its public calls: the history of a larger map is that which is made from sums taken afresh
//! at each step, and those of three squares with barriers are worked out by hand.
#![tactic(auto)]

#[cfg(test)]
mod barriers;
#[cfg(test)]
mod generated;
#[cfg(test)]
mod plain;
#[cfg(test)]
mod sums;
