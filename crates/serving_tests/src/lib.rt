//! Tests of the command that serves a map, over harbours in memory: doors that are there or fail, and links of which a call
//! fails. What clients get over the network is tested in tests/http.
#![tactic(auto)]

#[cfg(test)]
mod doors;
#[cfg(test)]
mod journals;
#[cfg(test)]
mod links;
#[cfg(test)]
mod rows;
#[cfg(test)]
mod served;
