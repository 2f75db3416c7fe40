//! Tests of `version_store` over its public calls: the events of two actors on a machine, one after the other and all at
//! once; a store of versions whose press and seats are used on one thread and on two; and a press whose keeper refuses at
//! first.
#![tactic(auto)]

#[cfg(test)]
mod keepers;
#[cfg(test)]
mod machine;
#[cfg(test)]
mod maps;
#[cfg(test)]
mod seats;
#[cfg(test)]
mod store;
