//! Journals, and what each comes to.

ghost use Rattle.std.specs.Prelude.{◌≡◌, ◌≤◌};

use crate::squares::{corner_of, first_version};
use edit_journal::Entry;
use journal_fold::{FoldFail, versions_of};
use map_version::Version;
use std::alloc::Global;
use std::process::Abort;
use std::sync::Arc;
use std::test::Fail;
use std::thread::Threads;
use tgap_model::{List, Memory, Point, Text};

/// An entry, by its number and its batch.
type Row = (u64, &'static [u8]);

/// Batches that move the upper right corner, one after the other.
const MOVED: &[u8] = b"move 20 10 24 10\n";

const MOVED_AGAIN: &[u8] = b"move 24 10 25 11\n";

/// One that moves it to another place.
const MOVED_ELSEWHERE: &[u8] = b"move 20 10 22 12\n";

/// One with a line at fault, and one whose map is no planar partition.
const AT_FAULT: &[u8] = b"move 5 5 6 6\n";

const CROSSING: &[u8] = b"move 20 0 0 5\n";

/// The entries of these rows.
fn entries_of(alloc: Global, rows: &[Row]) -> Result<List<Entry>, Memory> {
    let mut entries = List::new(alloc);
    for (number, batch) in rows {
        entries.push(Entry {
            number: *number,
            batch: Text::from_slice(alloc, batch)?,
        })?;
    }
    Ok(entries)
}

/// The versions that the entries of these rows come to. `versions_of`, whose clauses are many, is called here alone.
fn fold<R: Threads + Sync>(
    rt: &R,
    alloc: Global,
    first: &Version,
    rows: &[Row],
    limit: u64,
) -> Result<Vec<Arc<Version>>, FoldFail>
    requires first { first.now.number ≡ 0 }
    requires limit { limit ≤ 64 }
{
    let entries = entries_of(alloc, rows)?;
    versions_of(rt, alloc, first, &entries, limit)
}

/// The same of the two squares.
fn folded<R: Threads + Sync>(
    rt: &R,
    alloc: Global,
    rows: &[Row],
    limit: u64,
) -> Result<Vec<Arc<Version>>, FoldFail>
    requires { limit ≤ 64 }
{
    let first = first_version(rt, alloc)?;
    fold(rt, alloc, &first, rows, limit)
}

/// The numbers from 1 on, and the corner of each version with its batch.
fn assert_versions(rt: &impl Abort, versions: &[Arc<Version>], expected: &[(i64, i64, &[u8])]) {
    assert_eq!(rt; versions.len(), expected.len());
    for (place, (version, (x, y, batch))) in versions.iter().zip(expected).enumerate() {
        assert_eq!(rt; version.number, place as u64 + 1);
        assert_eq!(rt; corner_of(version), Some(Point { x: *x, y: *y }));
        assert_eq!(rt; version.batch.as_slice(), *batch);
    }
}

#[test]
fn no_entries_make_no_version(rt: HostRuntime) -> Result<(), Fail> {
    assert_versions(&rt, &folded(&rt, rt.alloc(), &[], 1)?, &[]);
    Ok(())
}

#[test]
fn each_entry_makes_a_version(rt: HostRuntime) -> Result<(), Fail> {
    let versions = folded(&rt, rt.alloc(), &[(1, MOVED), (2, MOVED_AGAIN)], 3)?;
    assert_versions(&rt, &versions, &[(24, 10, MOVED), (25, 11, MOVED_AGAIN)]);
    Ok(())
}

#[test]
fn the_last_entry_of_a_number_counts(rt: HostRuntime) -> Result<(), Fail> {
    let rows = [
        (1, MOVED),
        (2, MOVED_AGAIN),
        (2, AT_FAULT),
        (1, MOVED_ELSEWHERE),
    ];
    let versions = folded(&rt, rt.alloc(), &rows, 2)?;
    assert_versions(&rt, &versions, &[(22, 12, MOVED_ELSEWHERE)]);
    Ok(())
}

/// Journals, how many versions there may be, and why each gives none.
const REFUSED: &[(&[Row], u64, FoldFail)] = &[
    (&[(2, MOVED)], 64, FoldFail::Entry { place: 0 }),
    (&[(0, MOVED)], 64, FoldFail::Entry { place: 0 }),
    (
        &[(1, MOVED), (1, MOVED), (3, MOVED_AGAIN)],
        64,
        FoldFail::Entry { place: 2 },
    ),
    (
        &[(1, MOVED), (2, AT_FAULT)],
        64,
        FoldFail::Entry { place: 1 },
    ),
    // The batch of an entry that was replaced is not tried.
    (
        &[(1, AT_FAULT), (1, MOVED), (2, MOVED)],
        64,
        FoldFail::Entry { place: 2 },
    ),
    (&[(1, CROSSING)], 64, FoldFail::Entry { place: 0 }),
    // A number that does not follow is told before a batch that makes no map.
    (
        &[(1, AT_FAULT), (3, MOVED)],
        64,
        FoldFail::Entry { place: 1 },
    ),
    (&[(1, MOVED)], 1, FoldFail::Long { batches: 1 }),
    (
        &[(1, MOVED), (2, MOVED_AGAIN)],
        2,
        FoldFail::Long { batches: 2 },
    ),
    // Both are told before too many.
    (
        &[(1, MOVED), (2, CROSSING)],
        1,
        FoldFail::Entry { place: 1 },
    ),
    (&[(1, MOVED), (0, MOVED)], 1, FoldFail::Entry { place: 1 }),
];

#[test]
fn why_a_journal_gives_no_versions(rt: HostRuntime) -> Result<(), Fail> {
    for (rows, limit, why) in REFUSED {
        assert_eq!(rt; folded(&rt, rt.alloc(), rows, *limit).err(), Some(*why));
    }
    Ok(())
}
