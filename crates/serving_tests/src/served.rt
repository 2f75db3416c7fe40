//! The two squares, served.

use edit_journal::{Disks, MemoryDisks};
use memory_runs::{TWO_SQUARES, files_of, words_of};
use plain_io::{Door, Files, Harbour, MemorySink, Sink};
use serving::{parse_serve, run_serve};
use std::alloc::Global;
use std::sync::Wait;
use std::thread::Threads;
use tgap_model::{List, Memory, Text};

/// The exit status of the command of these words, which is 2 where they do not ask to serve a map.
fn status_of<R: Threads + Wait + Sync, F: Files, K: Sink, H: Harbour, D: Disks>(
    rt: &R,
    alloc: Global,
    words: &[String],
    files: &mut F,
    out: &mut K,
    harbour: &mut H,
    disks: &mut D,
) -> u8
where
    <H::Gate as Door>::Line: Send,
{
    match parse_serve(words) {
        Some(serving) => run_serve(rt, alloc, serving, files, out, harbour, disks),
        None => 2,
    }
}

/// The same with what was put.
fn answer_of<R: Threads + Wait + Sync, F: Files, H: Harbour, D: Disks>(
    rt: &R,
    alloc: Global,
    words: &[String],
    files: &mut F,
    harbour: &mut H,
    disks: &mut D,
) -> Result<(u8, Text), Memory>
where
    <H::Gate as Door>::Line: Send,
{
    let mut out = MemorySink::new(alloc, 1000, List::new(alloc))?;
    let status = status_of(rt, alloc, words, files, &mut out, harbour, disks);
    Ok((status, Text::from_slice(alloc, out.bytes())?))
}

/// Serves the two squares at the doors of a harbour, with journals on these disks, and gives the exit status and what was put.
pub fn kept<R: Threads + Wait + Sync, H: Harbour, D: Disks>(
    rt: &R,
    alloc: Global,
    words: &str,
    harbour: &mut H,
    disks: &mut D,
) -> Result<(u8, Text), Memory>
where
    <H::Gate as Door>::Line: Send,
{
    let words = words_of(alloc, words)?;
    let mut files = files_of(alloc, &[("map", TWO_SQUARES.as_bytes())], List::new(alloc))?;
    answer_of(rt, alloc, words.as_slice(), &mut files, harbour, disks)
}

/// Serves the two squares at the doors of a harbour, where there are no disks, and gives the exit status and what was put.
pub fn served<R: Threads + Wait + Sync, H: Harbour>(
    rt: &R,
    alloc: Global,
    words: &str,
    harbour: &mut H,
) -> Result<(u8, Text), Memory>
where
    <H::Gate as Door>::Line: Send,
{
    let empty = List::new(alloc);
    let mut disks = MemoryDisks::new(empty, List::new(alloc), List::new(alloc), 0);
    kept(rt, alloc, words, harbour, &mut disks)
}

/// Whether the command of these words ends with this status and text.
pub fn gives<R: Threads + Wait + Sync, H: Harbour>(
    rt: &R,
    alloc: Global,
    words: &str,
    harbour: &mut H,
    answer: (u8, &str),
) -> Result<bool, Memory>
where
    <H::Gate as Door>::Line: Send,
{
    let (status, put) = served(rt, alloc, words, harbour)?;
    Ok(status == answer.0 && put.as_slice() == answer.1.as_bytes())
}
