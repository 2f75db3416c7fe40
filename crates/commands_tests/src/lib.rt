//! Tests of the commands over files in memory: what each of them answers, loads and puts that fail, and files and sinks that
//! never do. Over real files and a real output they are tested in tests/cli.
#![tactic(auto)]

#[cfg(test)]
mod answers;
#[cfg(test)]
mod faults;
#[cfg(test)]
mod outcomes;
#[cfg(test)]
mod worked;
