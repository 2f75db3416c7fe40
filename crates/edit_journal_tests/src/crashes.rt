//! A crash at each moment of an append: within each write, at each of its bytes, and between the calls.

use crate::journals::{MOVED, ONE_EDIT, entries_told, opened};
use crate::recorder::{Recorder, Written, overwritten};
use std::alloc::Global;
use std::test::Fail;
use tgap_model::Text;

/// What a crash may put in the place of bytes that were not written yet.
const FILLERS: [u8; 4] = [0, 1, 13, 255];

/// The calls of an append to an empty journal.
fn recorded(alloc: Global) -> Result<Recorder, Fail> {
    let disk = Recorder {
        alloc,
        held: Vec::from_slice(alloc, b"\0")?,
        calls: Vec::new(alloc),
    };
    let mut journal = opened(alloc, disk)?;
    journal.append(alloc, 1, MOVED)?;
    Ok(journal.into_disk())
}

/// A write of which the first bytes were stored and others stand in the place of the rest.
fn torn(alloc: Global, written: &Written, stored: usize, filler: u8) -> Result<Text, Fail> {
    let bytes = written.bytes.as_slice();
    let mut torn = Text::from_slice(alloc, &bytes[..stored.min(bytes.len())])?;
    for _ in torn.len()..bytes.len() {
        torn.push_slice(&[filler])?;
    }
    Ok(torn)
}

/// Whether a disk with these bytes has no entry, or the one that is appended.
fn has_none_or_one(alloc: Global, image: &[u8]) -> Result<bool, Fail> {
    let told = entries_told(alloc, image)?;
    Ok(told.is_empty() || told.as_slice() == b"1move 20 10 24 10\n".as_slice())
}

/// How many of the images that a crash within a write may leave have other entries.
fn bad_images(alloc: Global, held: &[u8], written: &Written) -> Result<u32, Fail> {
    let mut bad = 0u32;
    for stored in 0..written.bytes.len() {
        for filler in &FILLERS {
            let torn = torn(alloc, written, stored, *filler)?;
            let image = overwritten(alloc, held, written.at, torn.as_slice())?;
            if !has_none_or_one(alloc, image.as_slice())? {
                bad = bad.saturating_add(1);
            }
        }
    }
    Ok(bad)
}

/// How many images within all the writes have other entries, and what the disk holds at last.
fn crashed(alloc: Global, recorder: &Recorder) -> Result<(u32, Text), Fail> {
    let mut held = Vec::from_slice(alloc, b"\0")?;
    let mut bad = 0u32;
    for written in recorder.calls.as_slice() {
        bad = bad.saturating_add(bad_images(alloc, held.as_slice(), written)?);
        held = overwritten(alloc, held.as_slice(), written.at, written.bytes.as_slice())?;
    }
    Ok((bad, Text::from_slice(alloc, held.as_slice())?))
}

#[test]
fn a_crash_at_each_moment_leaves_no_entry_or_the_new_one(rt: HostRuntime) -> Result<(), Fail> {
    let alloc = rt.alloc();
    let recorder = recorded(alloc)?;
    assert_eq!(rt; recorder.calls.len(), 5);
    let (bad, held) = crashed(alloc, &recorder)?;
    assert_eq!(rt; bad, 0);
    assert_eq!(rt; held.as_slice(), ONE_EDIT.as_slice());
    Ok(())
}
