//! What each command answers. Its other answers and its refusals are rows of tests/cli.

use crate::worked::{ANSWERS, all_files};
use memory_runs::{HOLE_WITH_FACE, answered};
use plain_io::{FileTexts, Files, SureFiles};
use std::alloc::Global;
use std::test::Fail;
use std::thread::Threads;
use tgap_model::{List, Memory, Text};

/// Whether the command of these words over these files ends with status 0 and this text.
fn gives<R: Threads + Sync, F: Files>(
    rt: &R,
    alloc: Global,
    words: &str,
    files: &mut F,
    text: &str,
) -> Result<bool, Memory> {
    let (status, put) = answered(rt, alloc, words, files)?;
    Ok(status == 0 && put.as_slice() == text.as_bytes())
}

/// The same, where all files are there.
fn gives_of_all_files<R: Threads + Sync>(
    rt: &R,
    alloc: Global,
    words: &str,
    text: &str,
) -> Result<bool, Memory> {
    let mut files = all_files(alloc, List::new(alloc))?;
    gives(rt, alloc, words, &mut files, text)
}

#[test]
fn each_command_answers(rt: HostRuntime) -> Result<(), Fail> {
    for (words, text) in ANSWERS {
        assert!(rt;
            gives_of_all_files(&rt, rt.alloc(), words, text)?,
            "{words}"
        );
    }
    Ok(())
}

/// Files that never fail, of which the map alone has a text.
fn sure_files(alloc: Global, map: &str) -> Result<SureFiles, Memory> {
    Ok(SureFiles::new(FileTexts {
        map: Text::from_slice(alloc, map.as_bytes())?,
        rules: Text::new(alloc),
        slice: Text::new(alloc),
        packet: Text::new(alloc),
    }))
}

#[test]
fn files_that_never_fail(rt: HostRuntime) -> Result<(), Fail> {
    let mut files = sure_files(rt.alloc(), HOLE_WITH_FACE)?;
    let text = "borders 0\nborder 0 1 0\nborder 1 2 1\nend\n";
    assert!(rt; gives(&rt, rt.alloc(), "borders any 0", &mut files, text)?);
    Ok(())
}
