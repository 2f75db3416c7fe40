//! Loads and puts that fail.

use crate::worked::{ANSWERS, COARSE, all_files};
use memory_runs::{answered, first_call, put_status};
use plain_io::{MemorySink, Sink, SureSink};
use std::alloc::Global;
use std::test::Fail;
use std::thread::Threads;
use tgap_model::{List, Memory};

/// The list of one call.
fn only(alloc: Global, call: u64) -> Result<List<u64>, Memory> {
    let mut calls = List::new(alloc);
    calls.push(call)?;
    Ok(calls)
}

/// Whether a command whose load of this number fails ends with this status and text.
fn gives_where_a_load_fails<R: Threads + Sync>(
    rt: &R,
    alloc: Global,
    words: &str,
    load: u64,
    (status, text): (u8, &str),
) -> Result<bool, Memory> {
    let mut files = all_files(alloc, only(alloc, load)?)?;
    let (found, put) = answered(rt, alloc, words, &mut files)?;
    Ok(found == status && put.as_slice() == text.as_bytes())
}

#[test]
fn a_load_that_fails(rt: HostRuntime) -> Result<(), Fail> {
    let rows: &[(&str, u64, (u8, &str))] = &[
        ("check map", 0, (3, "load fault map\n")),
        ("slice map 1", 0, (3, "load fault map\n")),
        ("slice map 1", 1, (0, COARSE)),
        ("check topology land rules", 1, (3, "load fault rules\n")),
        ("packet map 1 0", 0, (3, "load fault map\n")),
        ("replay coarse packet", 0, (3, "load fault slice\n")),
        ("replay coarse packet", 1, (3, "load fault packet\n")),
    ];
    for (words, load, answer) in rows {
        assert!(rt;
            gives_where_a_load_fails(&rt, rt.alloc(), words, *load, *answer)?,
            "{words}"
        );
    }
    Ok(())
}

/// The status of a command whose text goes to this sink.
fn status_at<R: Threads + Sync, K: Sink>(
    rt: &R,
    alloc: Global,
    words: &str,
    out: &mut K,
) -> Result<u8, Memory> {
    let mut files = all_files(alloc, List::new(alloc))?;
    put_status(rt, alloc, words, &mut files, out)
}

/// Whether nothing is put where the first put fails, and all of the text where the second one would.
fn puts_nothing_or_all<R: Threads + Sync>(
    rt: &R,
    alloc: Global,
    words: &str,
    text: &str,
) -> Result<bool, Memory> {
    let mut out = MemorySink::new(alloc, 1000, first_call(alloc)?)?;
    let first = status_at(rt, alloc, words, &mut out)?;
    let nothing = out.bytes().is_empty();
    let second = status_at(rt, alloc, words, &mut out)?;
    Ok((first, second) == (6, 0) && nothing && out.bytes() == text.as_bytes())
}

#[test]
fn a_put_that_fails(rt: HostRuntime) -> Result<(), Fail> {
    for (words, text) in ANSWERS {
        assert!(rt;
            puts_nothing_or_all(&rt, rt.alloc(), words, text)?,
            "{words}"
        );
    }
    Ok(())
}

#[test]
fn a_sink_that_never_fails(rt: HostRuntime) -> Result<(), Fail> {
    assert_eq!(rt;
        status_at(&rt, rt.alloc(), "borders none 1", &mut SureSink)?,
        3
    );
    Ok(())
}
