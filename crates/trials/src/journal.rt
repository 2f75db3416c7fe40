//! Trials of a journal of edits.

use crate::outcome::Outcome;
use edit_journal::{Disk, Disks, Entry, Journal, JournalFail, Kept, NotOpened};
use plain_io::{HarbourFail, Sink, put_size};
use std::alloc::Global;
use std::marker::Send;
use tgap_model::{Keep, KeepFail, Memory, Text};

/// Opens the journal of this name, and puts its entries, each as a line with its number and its length, and its batch.
pub fn tell<D: Disks, S: Sink>(
    alloc: Global,
    disks: &mut D,
    name: &str,
    out: &mut S,
) -> Result<(), Outcome> {
    let journal = opened(alloc, disks, name)?;
    let told = put_entries(alloc, journal.entries().as_slice(), out);
    disks.back(journal.into_disk());
    told
}

/// Opens the journal of this name, puts how many entries it has, and keeps these batches one after the other. What came of each is
/// put before the next one.
pub fn append<D: Disks, S: Sink>(
    alloc: Global,
    disks: &mut D,
    name: &str,
    batches: &[String],
    out: &mut S,
) -> Result<(), Outcome> {
    let journal = opened(alloc, disks, name)?;
    let entries = journal.entries().len();
    let mut kept = Kept::new(journal);
    let told = keep_all(alloc, &mut kept, entries, batches, out);
    disks.back(kept.into_journal().into_disk());
    told
}

/// The journal of this name. A disk of which there is none comes back.
fn opened<D: Disks>(alloc: Global, disks: &mut D, name: &str) -> Result<Journal<D::One>, Outcome> {
    let disk = match disks.disk(alloc, name) {
        Ok(disk) => disk,
        Err(HarbourFail::Memory) => return Err(Outcome::Memory),
        Err(HarbourFail::Failed) => return Err(Outcome::FileFault),
    };
    match Journal::on(alloc, disk) {
        Ok(journal) => Ok(journal),
        Err(NotOpened { disk, cause }) => {
            disks.back(disk);
            Err(outcome_of(cause))
        }
    }
}

/// How a trial ends of which no journal was made.
fn outcome_of(cause: JournalFail) -> Outcome {
    match cause {
        JournalFail::Failed => Outcome::FileFault,
        JournalFail::TooLong { .. } => Outcome::Refused,
        JournalFail::Memory => Outcome::Memory,
    }
}

/// Puts each entry.
fn put_entries<S: Sink>(alloc: Global, entries: &[Entry], out: &mut S) -> Result<(), Outcome> {
    put_line(alloc, out, b"entries", entries.len())?;
    for entry in entries {
        let mut head = Text::new(alloc);
        head.push_slice(b"entry")?;
        put_size(alloc, &mut head, entry.number as usize)?;
        put_size(alloc, &mut head, entry.batch.len())?;
        head.push_slice(b"\n")?;
        out.put(head.as_slice())?;
        out.put(entry.batch.as_slice())?;
    }
    Ok(())
}

/// Keeps batches one after the other, of which the first makes the version after so many. A batch that is not kept is left out, and its
/// number is that of the next one.
fn keep_all<K: Keep, S: Sink>(
    alloc: Global,
    keeper: &mut K,
    entries: usize,
    batches: &[String],
    out: &mut S,
) -> Result<(), Outcome> {
    put_line(alloc, out, b"entries", entries)?;
    let mut number = entries as u64;
    for batch in batches {
        match keeper.keep(alloc, number.saturating_add(1), batch.as_bytes()) {
            Ok(()) => {
                number = number.saturating_add(1);
                put_line(alloc, out, b"kept", number as usize)?;
            }
            Err(KeepFail::Failed) => out.put(b"failed\n")?,
            Err(KeepFail::Full { limit }) => put_line(alloc, out, b"full", limit as usize)?,
            Err(KeepFail::Memory) => return Err(Outcome::Memory),
        }
    }
    Ok(())
}

/// Puts a line of a word and a number.
fn put_line<S: Sink>(alloc: Global, out: &mut S, word: &[u8], n: usize) -> Result<(), Outcome> {
    let mut line = Text::from_slice(alloc, word)?;
    put_size(alloc, &mut line, n)?;
    line.push_slice(b"\n")?;
    out.put(line.as_slice())?;
    Ok(())
}
