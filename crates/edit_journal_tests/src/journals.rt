//! A journal on a disk in memory, of which calls fail.

ghost use Rattle.std.specs.Prelude.{◌≡◌, true, IfOk};
ghost use Rattle.edit_journal.specs.Journals.{held_by, is_sure};

use edit_journal::{
    Disk, Disks, Entry, Journal, JournalFail, Kept, MemoryDisk, MemoryDisks, SureDisk,
};
use plain_io::MemoryFile;
use std::alloc::Global;
use std::test::Fail;
use tgap_model::{Keep, List, Memory, Text};

/// A batch of 17 bytes.
pub const MOVED: &[u8] = b"move 20 10 24 10\n";

/// The bytes of a journal of that batch, as version 1.
pub const ONE_EDIT: [u8; 31] = *b"\x01\0\0\0\0\0\0\0\x01\0\0\0\x11move 20 10 24 10\n\0";

/// A list of numbers.
pub fn numbers(alloc: Global, numbers: &[u64]) -> Result<List<u64>, Memory> {
    let mut list = List::new(alloc);
    for number in numbers {
        list.push(*number)?;
    }
    Ok(list)
}

/// A disk with these bytes, of which the listed calls fail.
pub fn disk_of(alloc: Global, bytes: &[u8], failing: &[u64]) -> Result<MemoryDisk, Memory> {
    MemoryDisk::new(alloc, bytes, numbers(alloc, failing)?, 1000)
}

/// A journal on this disk.
pub fn opened<D: Disk + Drop>(alloc: Global, disk: D) -> Result<Journal<D>, JournalFail>
    ensures { IfOk result (λ journal. is_sure (held_by journal) ≡ true) }
{
    match Journal::on(alloc, disk) {
        Ok(journal) => Ok(journal),
        Err(refused) => Err(refused.cause),
    }
}

/// Tells the number and the batch of each entry.
pub fn tell_entries(entries: &List<Entry>, told: &mut Text) -> Result<(), Memory> {
    for entry in entries.as_slice() {
        told.push_slice(&[b'0' + (entry.number % 10) as u8])?;
        told.push_slice(entry.batch.as_slice())?;
    }
    Ok(())
}

/// The bytes of a disk after one append.
fn bytes_after_one_edit(alloc: Global) -> Result<Text, Fail> {
    let mut journal = opened(alloc, disk_of(alloc, b"", &[])?)?;
    journal.append(alloc, 1, MOVED)?;
    let disk = journal.into_disk();
    Ok(Text::from_slice(alloc, disk.bytes())?)
}

#[test]
fn an_edit_is_stored_in_31_bytes(rt: HostRuntime) -> Result<(), Fail> {
    let bytes = bytes_after_one_edit(rt.alloc())?;
    assert_eq!(rt; bytes.as_slice(), ONE_EDIT.as_slice());
    Ok(())
}

/// The entries of a journal with these bytes.
pub fn entries_told(alloc: Global, bytes: &[u8]) -> Result<Text, Fail> {
    let journal = opened(alloc, disk_of(alloc, bytes, &[])?)?;
    let mut told = Text::new(alloc);
    tell_entries(journal.entries(), &mut told)?;
    Ok(told)
}

#[test]
fn the_entries_of_a_journal_are_read_again(rt: HostRuntime) -> Result<(), Fail> {
    let told = entries_told(rt.alloc(), &ONE_EDIT)?;
    assert_eq!(rt; told.as_slice(), b"1move 20 10 24 10\n".as_slice());
    Ok(())
}

/// The entries after an append of which a call fails, a settling, and the same append again.
fn entries_after_a_failure(alloc: Global, failing: u64) -> Result<Text, Fail> {
    let mut told = Text::new(alloc);
    let mut journal = opened(alloc, disk_of(alloc, b"", &[failing])?)?;
    match journal.append(alloc, 1, b"a") {
        Ok(()) => told.push_slice(b"stored ")?,
        Err(_) => told.push_slice(b"failed ")?,
    }
    told.push_slice(if journal.sure() { b"sure " } else { b"open " })?;
    journal.settle(alloc)?;
    journal.append(alloc, 1, b"a")?;
    tell_entries(journal.entries(), &mut told)?;
    Ok(told)
}

/// Opening takes the first four calls: a sync, a read, and the closing byte with its sync.
#[test]
fn an_append_that_fails_is_settled_one_way_or_the_other(rt: HostRuntime) -> Result<(), Fail> {
    let alloc = rt.alloc();
    assert_eq!(rt;
        entries_after_a_failure(alloc, 4)?.as_slice(),
        b"failed open 1a".as_slice()
    );
    assert_eq!(rt;
        entries_after_a_failure(alloc, 5)?.as_slice(),
        b"failed open 1a".as_slice()
    );
    assert_eq!(rt;
        entries_after_a_failure(alloc, 6)?.as_slice(),
        b"failed open 1a".as_slice()
    );
    assert_eq!(rt;
        entries_after_a_failure(alloc, 7)?.as_slice(),
        b"failed open 1a1a".as_slice()
    );
    assert_eq!(rt;
        entries_after_a_failure(alloc, 99)?.as_slice(),
        b"stored sure 1a1a".as_slice()
    );
    Ok(())
}

/// What a keeper answers of which the last sync of the first batch fails, and the entries then.
fn kept_told(alloc: Global) -> Result<Text, Fail> {
    let mut told = Text::new(alloc);
    let mut keeper = Kept::new(opened(alloc, disk_of(alloc, b"", &[7])?)?);
    for batch in [b"a", b"a", b"b"] {
        match keeper.keep(alloc, 1, batch) {
            Ok(()) => told.push_slice(b"kept ")?,
            Err(_) => told.push_slice(b"failed ")?,
        }
    }
    tell_entries(keeper.into_journal().entries(), &mut told)?;
    Ok(told)
}

#[test]
fn a_keeper_settles_its_journal_first(rt: HostRuntime) -> Result<(), Fail> {
    let told = kept_told(rt.alloc())?;
    assert_eq!(rt; told.as_slice(), b"failed kept kept 1a1a1b".as_slice());
    Ok(())
}

/// What a disk that keeps nothing gives.
fn read_from_a_sure_disk(alloc: Global) -> Result<usize, Fail> {
    let mut journal = opened(alloc, SureDisk)?;
    journal.append(alloc, 1, MOVED)?;
    Ok(journal.entries().len())
}

#[test]
fn a_disk_that_keeps_nothing_never_fails(rt: HostRuntime) -> Result<(), Fail> {
    let count = read_from_a_sure_disk(rt.alloc())?;
    assert_eq!(rt; count, 1);
    Ok(())
}

/// The bytes of the disk of that name, and of the one that came back.
fn given_and_returned(alloc: Global, name: &str) -> Result<Text, Fail> {
    let mut files = List::new(alloc);
    files.push(MemoryFile {
        name: Text::from_slice(alloc, b"J")?,
        bytes: Text::from_slice(alloc, b"\0")?,
    })?;
    let mut disks = MemoryDisks::new(files, List::new(alloc), List::new(alloc), 100);
    let disk = disks.disk(alloc, name)?;
    let mut told = Text::from_slice(alloc, disk.bytes())?;
    let mut journal = opened(alloc, disk)?;
    journal.append(alloc, 1, b"")?;
    disks.back(journal.into_disk());
    told.push_slice(b"|")?;
    if let Some(disk) = disks.came_back() {
        told.push_slice(disk.bytes())?;
    }
    Ok(told)
}

#[test]
fn disks_are_given_by_name_and_come_back(rt: HostRuntime) -> Result<(), Fail> {
    let alloc = rt.alloc();
    let held = b"\0|\x01\0\0\0\0\0\0\0\x01\0\0\0\0\0";
    let new = b"|\x01\0\0\0\0\0\0\0\x01\0\0\0\0\0";
    assert_eq!(rt; given_and_returned(alloc, "J")?.as_slice(), held.as_slice());
    assert_eq!(rt; given_and_returned(alloc, "K")?.as_slice(), new.as_slice());
    Ok(())
}
