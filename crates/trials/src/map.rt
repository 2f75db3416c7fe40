//! Maps that are read from listings.

use crate::outcome::Outcome;
use area_listing::read_listing;
use base_check::check;
use plain_io::{Files, LoadFail, Which};
use std::alloc::Global;
use std::thread::Threads;
use tgap_build::{Built, build};
use tgap_model::{Base, Checked, MAX_MAP_BYTES, MapFault, Or};

/// The map whose listing is in the file of this name.
pub fn load_map<F: Files>(alloc: Global, name: &str, files: &mut F) -> Result<Base, Outcome> {
    match files.load(alloc, Which::Map, name, MAX_MAP_BYTES) {
        Ok(text) => Ok(read_listing(alloc, text.as_slice())?),
        Err(LoadFail::Failed) => Err(Outcome::FileFault),
        Err(LoadFail::TooLong { .. }) => Err(Outcome::Refused),
        Err(LoadFail::Memory) => Err(Outcome::Memory),
    }
}

/// What is built of that map.
pub fn load_built<R: Threads + Sync, F: Files>(
    rt: &R,
    alloc: Global,
    name: &str,
    files: &mut F,
) -> Result<Built, Outcome> {
    let base = load_map(alloc, name, files)?;
    build_base(rt, alloc, base)
}

/// What is built of a map.
fn build_base<R: Threads + Sync>(rt: &R, alloc: Global, base: Base) -> Result<Built, Outcome> {
    let checked = check(rt, alloc, base)?;
    build_checked(rt, alloc, checked)
}

/// What is built of a planar partition.
fn build_checked<R: Threads + Sync>(
    rt: &R,
    alloc: Global,
    checked: Checked,
) -> Result<Built, Outcome> {
    Ok(build(rt, alloc, checked)?)
}

impl From<Or<MapFault>> for Outcome {
    fn from(refused: Or<MapFault>) -> Outcome {
        match refused {
            Or::Fault(_) => Outcome::Refused,
            Or::Memory => Outcome::Memory,
        }
    }
}
