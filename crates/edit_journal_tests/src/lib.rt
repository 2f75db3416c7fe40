//! Tests of `edit_journal` over its public calls: a crash at each moment of an append, calls that fail, and a real file.
#![tactic(auto)]

#[cfg(test)]
mod crashes;
#[cfg(test)]
mod files;
#[cfg(test)]
mod journals;
#[cfg(test)]
mod recorder;
