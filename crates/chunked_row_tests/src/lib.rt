//! Tests of `chunked_row` over its public calls: changes in the middle of rows that span several chunks.
#![tactic(auto)]

#[cfg(test)]
mod rows;
