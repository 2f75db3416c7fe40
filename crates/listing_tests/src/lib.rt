//! Tests of listings: the base maps of listings and of a topology are written, and read again.
#![tactic(auto)]

#[cfg(test)]
mod written;
