//! A map that is served with a journal, on disks in memory.

use crate::links::{harbour_of, link_of, none};
use crate::served::kept;
use edit_journal::MemoryDisks;
use plain_io::{MemoryFile, MemoryHarbour, MemoryLink};
use std::alloc::Global;
use std::sync::Wait;
use std::test::Fail;
use std::thread::Threads;
use tgap_model::{List, Memory, Text};

const INFO: &[u8] = b"GET /info HTTP/1.1\r\nHost: t\r\n\r\n";

const EDIT: &[u8] =
    b"POST /edit HTTP/1.1\r\nHost: t\r\nContent-Length: 17\r\n\r\nmove 20 10 24 10\n";

/// A journal with that edit.
const ONE_ENTRY: &[u8] = b"\x01\0\0\0\0\0\0\0\x01\0\0\0\x11move 20 10 24 10\n\0";

/// A journal with two entries of number 1, since it was in doubt whether the first one was stored.
const TWICE: &[u8] =
    b"\x01\0\0\0\0\0\0\0\x01\0\0\0\x11move 20 10 24 10\n\x01\0\0\0\0\0\0\0\x01\0\0\0\x11move 20 10 24 10\n\0";

/// A journal whose only entry does not follow.
const BAD_ENTRY: &[u8] = b"\x01\0\0\0\0\0\0\0\x02\0\0\0\0\0";

/// What came of serving: the exit status, what was put, the replies on the only link, and the bytes of the disk that came back.
#[derive(Drop)]
struct Served {
    status: u8,
    put: Text,
    replies: Text,
    journal: Text,
}

/// Disks of which the journal has these bytes. The calls of its disk with the listed numbers fail.
fn disks_of(alloc: Global, journal: &[u8], failing: &[u64]) -> Result<MemoryDisks, Memory> {
    let mut files = List::new(alloc);
    files.push(MemoryFile {
        name: Text::from_slice(alloc, b"journal")?,
        bytes: Text::from_slice(alloc, journal)?,
    })?;
    let mut calls = List::new(alloc);
    for call in failing {
        calls.push(*call)?;
    }
    Ok(MemoryDisks::new(files, List::new(alloc), calls, 1000))
}

/// The bytes that were put to the only link of a harbour, which are none where none came back.
fn replies_at(alloc: Global, harbour: &MemoryHarbour<MemoryLink>) -> Result<Text, Memory> {
    let Some(door) = harbour.came_back().first() else {
        return Ok(Text::new(alloc));
    };
    let Some((link, _)) = door.handed_back().first() else {
        return Ok(Text::new(alloc));
    };
    Text::from_slice(alloc, link.bytes())
}

/// The bytes of the disk that came back.
fn journal_of(alloc: Global, disks: &MemoryDisks) -> Result<Text, Fail> {
    let disk = disks.came_back().ok_or("no disk came back")?;
    Ok(Text::from_slice(alloc, disk.bytes())?)
}

/// Serves the two squares with these disks to a client that sends these bytes.
fn served_with<R: Threads + Wait + Sync>(
    rt: &R,
    alloc: Global,
    versions: &str,
    disks: &mut MemoryDisks,
    input: &[u8],
) -> Result<Served, Fail> {
    let link = link_of(alloc, input, 100, none(alloc))?;
    let mut harbour = harbour_of(alloc, link, List::new(alloc))?;
    let words = format!(in alloc; "keep map journal 8080 1 {versions}")?;
    let (status, put) = kept(rt, alloc, words.as_str(), &mut harbour, disks)?;
    Ok(Served {
        status,
        put,
        replies: replies_at(alloc, &harbour)?,
        journal: journal_of(alloc, disks)?,
    })
}

/// Serves the two squares with a journal of these bytes, where the listed calls of its disk fail.
fn served_of<R: Threads + Wait + Sync>(
    rt: &R,
    alloc: Global,
    versions: &str,
    journal: &[u8],
    failing: &[u64],
    input: &[u8],
) -> Result<Served, Fail> {
    let mut disks = disks_of(alloc, journal, failing)?;
    served_with(rt, alloc, versions, &mut disks, input)
}

/// Whether the bytes end so.
fn ends_with(bytes: &Text, end: &str) -> bool {
    bytes.as_slice().ends_with(end.as_bytes())
}

#[test]
fn an_edit_is_stored_and_found_again(rt: HostRuntime) -> Result<(), Fail> {
    let alloc = rt.alloc();
    let first = served_of(&rt, alloc, "4", b"", &[], EDIT)?;
    assert_eq!(rt; first.status, 0);
    assert!(rt;
        ends_with(
            &first.replies,
            "Tgap-Version: 1\r\nContent-Length: 12\r\n\r\npublished 1\n"
        )
    );
    assert_eq!(rt; first.journal.as_slice(), ONE_ENTRY);
    let second = served_of(&rt, alloc, "4", ONE_ENTRY, &[], INFO)?;
    assert!(rt;
        ends_with(
            &second.replies,
            "version 1 steps 1 faces 2 arcs 3 points 10\n"
        )
    );
    assert_eq!(rt; second.journal.as_slice(), ONE_ENTRY);
    Ok(())
}

/// The last sync of the edit fails. The client sends the edit once more.
#[test]
fn an_edit_that_may_be_stored_is_sent_again(rt: HostRuntime) -> Result<(), Fail> {
    let alloc = rt.alloc();
    let mut twice = Text::from_slice(alloc, EDIT)?;
    twice.push_slice(EDIT)?;
    let run = served_of(&rt, alloc, "4", b"", &[7], twice.as_slice())?;
    assert!(rt;
        run.replies
            .as_slice()
            .starts_with(b"HTTP/1.1 500 Internal Server Error\r\n")
    );
    assert!(rt; ends_with(&run.replies, "\r\n\r\npublished 1\n"));
    assert_eq!(rt; run.journal.as_slice(), TWICE);
    Ok(())
}

/// Whether a journal of these bytes is refused with this text, and is as it was, but for the byte 0 behind its entries.
fn refuses<R: Threads + Wait + Sync>(
    rt: &R,
    alloc: Global,
    versions: &str,
    journal: &[u8],
    text: &str,
) -> Result<bool, Fail> {
    let run = served_of(rt, alloc, versions, journal, &[], INFO)?;
    Ok(
        run.status == 4
            && run.put.as_slice() == text.as_bytes()
            && run.journal.as_slice() == journal,
    )
}

#[test]
fn journals_that_are_refused(rt: HostRuntime) -> Result<(), Fail> {
    let alloc = rt.alloc();
    assert!(rt; refuses(&rt, alloc, "4", BAD_ENTRY, "refused 22 journal-entry 0\n")?);
    assert!(rt; refuses(&rt, alloc, "1", ONE_ENTRY, "refused 23 journal-long 1\n")?);
    assert!(rt; refuses(&rt, alloc, "1", BAD_ENTRY, "refused 22 journal-entry 0\n")?);
    let run = served_of(&rt, alloc, "4", b"", &[0], INFO)?;
    assert_eq!(rt; run.status, 3);
    assert!(rt; ends_with(&run.put, "load fault journal\n"));
    Ok(())
}
