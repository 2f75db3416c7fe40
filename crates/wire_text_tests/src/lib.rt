//! Tests of `wire_text` over its public calls: each text beside its bytes, and the texts that are read again. Those that are
//! refused are rows of tests/cli.
#![tactic(auto)]

#[cfg(test)]
mod faults;
#[cfg(test)]
mod maps;
#[cfg(test)]
mod readings;
#[cfg(test)]
mod rows;
#[cfg(test)]
mod texts;
#[cfg(test)]
mod window_packets;
