//! Tests of `linked_row` over its public calls: numbers that come in and go out at each place of a row.
#![tactic(auto)]

#[cfg(test)]
mod rows;
