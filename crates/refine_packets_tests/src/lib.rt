//! Tests of `refine_packets` over its public calls: a packet of four squares round one node, and packets of windows of two
//! squares and of two triangles, beside numbers that are worked out by hand. Other packets, and those that there are not, are
//! tested as texts of the command.
#![tactic(auto)]

#[cfg(test)]
mod maps;
#[cfg(test)]
mod numbers;
#[cfg(test)]
mod packets;
#[cfg(test)]
mod windows;
