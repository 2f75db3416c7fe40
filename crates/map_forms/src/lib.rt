//! Definitions of the texts of a map: its listing and its rules file, how they are spelled and read, and with which first fault.
//! The code is the version of a listing, with its limits.
#![tactic(auto)]

mod version;

pub use version::{Version, versions_as_numbers};
