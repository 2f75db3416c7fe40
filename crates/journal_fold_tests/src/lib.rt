//! Tests of `journal_fold` over its public call: journals over two squares side by side, and the versions that they come to.
#![tactic(auto)]

#[cfg(test)]
mod journals;
#[cfg(test)]
mod squares;
