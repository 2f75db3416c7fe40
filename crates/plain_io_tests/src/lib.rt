//! Tests of `plain_io` over its public calls: links, doors and harbours in memory, each used once from end to end, those of the
//! network over loopback, and files and a writer of the system.
#![tactic(auto)]

#[cfg(test)]
mod doors;
#[cfg(test)]
mod links;
#[cfg(test)]
mod network;
#[cfg(test)]
mod outside;
