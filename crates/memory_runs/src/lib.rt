//! Runs of the commands over files and sinks in memory, and worked maps: what the crates of tests share. It stands on `commands`.
#![tactic(auto)]

mod maps;

use commands::execute;
pub use maps::{HOLE_WITH_FACE, TWO_SQUARES};
use plain_io::{Files, MemoryFile, MemoryFiles, MemorySink, Sink};
use std::alloc::Global;
use std::thread::Threads;
use tgap_model::{List, Memory, Text};

/// The words of a line, which stand between blanks.
pub fn words_of(alloc: Global, line: &str) -> Result<Vec<String>, Memory> {
    let mut words = Vec::new(alloc);
    for word in line.split_whitespace() {
        words.push(String::from_str(alloc, word)?)?;
    }
    Ok(words)
}

/// Files of these names and bytes. The listed loads fail.
pub fn files_of(
    alloc: Global,
    named: &[(&str, &[u8])],
    failing: List<u64>,
) -> Result<MemoryFiles, Memory> {
    let mut files = List::new(alloc);
    for (name, bytes) in named {
        files.push(MemoryFile {
            name: Text::from_slice(alloc, name.as_bytes())?,
            bytes: Text::from_slice(alloc, bytes)?,
        })?;
    }
    Ok(MemoryFiles::new(files, failing))
}

/// The list of the first call alone.
pub fn first_call(alloc: Global) -> Result<List<u64>, Memory> {
    let mut calls = List::new(alloc);
    calls.push(0)?;
    Ok(calls)
}

/// The status of the command of these words over these files, whose text goes to this sink.
pub fn put_status<R: Threads + Sync, F: Files, K: Sink>(
    rt: &R,
    alloc: Global,
    words: &str,
    files: &mut F,
    out: &mut K,
) -> Result<u8, Memory> {
    let words = words_of(alloc, words)?;
    Ok(execute(rt, alloc, words.as_slice(), files).put(alloc, out))
}

/// The status and the text of the command of these words over these files.
pub fn answered<R: Threads + Sync, F: Files>(
    rt: &R,
    alloc: Global,
    words: &str,
    files: &mut F,
) -> Result<(u8, Text), Memory> {
    let mut out = MemorySink::new(alloc, 1000, List::new(alloc))?;
    let status = put_status(rt, alloc, words, files, &mut out)?;
    Ok((status, Text::from_slice(alloc, out.bytes())?))
}
