//! A journal on a real file.

use crate::journals::{MOVED, ONE_EDIT, tell_entries};
use edit_journal::{Disks, HostDisks, Journal};
use std::alloc::Global;
use std::fs;
use std::test::Fail;
use tgap_model::Text;

/// Appends a batch to the journal in a file, and tells the entries that it had.
fn appended(rt: &HostRuntime, name: &str) -> Result<Text, Fail> {
    let alloc = rt.alloc();
    let mut disks = HostDisks::new(rt);
    let disk = disks.disk(alloc, name)?;
    let mut told = Text::new(alloc);
    let Ok(mut journal) = Journal::on(alloc, disk) else {
        return Err("not opened".into());
    };
    tell_entries(journal.entries(), &mut told)?;
    journal.append(alloc, 1, MOVED)?;
    disks.back(journal.into_disk());
    Ok(told)
}

#[test]
fn a_journal_is_stored_in_a_file_and_found_again(rt: HostRuntime) -> Result<(), Fail> {
    let _ = fs::remove_file(&rt, "found_again");
    let first = appended(&rt, "found_again")?;
    let bytes = fs::read(&rt, "found_again")?;
    let second = appended(&rt, "found_again")?;
    let _ = fs::remove_file(&rt, "found_again");
    assert!(rt; first.is_empty());
    assert_eq!(rt; bytes.as_slice(), ONE_EDIT.as_slice());
    assert_eq!(rt; second.as_slice(), b"1move 20 10 24 10\n".as_slice());
    Ok(())
}

/// Whether a file with these bytes is refused as a journal, and is as before.
fn is_refused_untouched(rt: &HostRuntime, name: &str, bytes: &[u8]) -> Result<bool, Fail> {
    fs::write(rt, name, bytes)?;
    let refused = HostDisks::new(rt).disk(rt.alloc(), name).is_err();
    let after = fs::read(rt, name)?;
    let _ = fs::remove_file(rt, name);
    Ok(refused && after.as_slice() == bytes)
}

#[test]
fn a_file_that_is_no_journal_is_refused_untouched(rt: HostRuntime) -> Result<(), Fail> {
    assert!(rt; is_refused_untouched(&rt, "no_journal", b"map 1\n")?);
    Ok(())
}

/// Whether a second opening of a file that is held is refused.
fn is_held(rt: &HostRuntime, name: &str) -> Result<bool, Fail> {
    let alloc = rt.alloc();
    let mut disks = HostDisks::new(rt);
    let first = disks.disk(alloc, name)?;
    let refused = disks.disk(alloc, name).is_err();
    disks.back(first);
    let _ = fs::remove_file(rt, name);
    Ok(refused)
}

#[test]
fn a_file_that_is_held_is_refused(rt: HostRuntime) -> Result<(), Fail> {
    assert!(rt; is_held(&rt, "held_file")?);
    Ok(())
}
