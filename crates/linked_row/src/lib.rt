//! A row of different numbers below a count, in which each knows its neighbours, so that a number comes in or goes out
//! in a time that does not depend on how many there are. It stands on `tgap_model`, whose `Memory` is its one refusal.
#![tactic(auto)]

mod links;

pub use links::Links;
