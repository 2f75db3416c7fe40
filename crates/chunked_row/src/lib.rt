//! A row of numbers of 32 bits that may be many, with cheap changes in the middle: it lies in chunks, so that a change
//! moves the numbers of one chunk alone. It stands on `tgap_model`, whose `Memory` is its one refusal.
#![tactic(auto)]

mod chunk;
mod chunks;
mod edits;
mod row;
mod search;
mod spot;
mod starts;

pub use row::Row;
