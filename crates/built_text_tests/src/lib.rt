//! Tests of `built_text` over its public calls: the texts of slices and packets of four squares round one node, beside texts that
//! are written by hand.
#![tactic(auto)]

#[cfg(test)]
mod maps;
#[cfg(test)]
mod packets;
#[cfg(test)]
mod slices;
