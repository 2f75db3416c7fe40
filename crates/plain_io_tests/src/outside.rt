//! Real files and a real writer.

use plain_io::{Files, HostFiles, HostSink, LoadFail, Sink, Which};
use std::alloc::Global;
use std::fs;
use std::test::Fail;
use tgap_model::{Memory, Text};

/// What loads of a file, at most so many bytes of it, give one after the other.
fn told_by_loads<F: Files>(
    files: &mut F,
    alloc: Global,
    asked: &[(&str, u64)],
) -> Result<Text, Memory> {
    let mut told = Text::new(alloc);
    for (name, max) in asked {
        match files.load(alloc, Which::Map, name, *max) {
            Ok(text) => told.push_slice(text.as_slice())?,
            Err(LoadFail::Failed) => told.push_slice(b"no file")?,
            Err(LoadFail::TooLong { .. }) => told.push_slice(b"too long")?,
            Err(LoadFail::Memory) => return Err(Memory),
        }
        told.push_slice(b"|")?;
    }
    Ok(told)
}

/// A file is loaded where it has no more bytes than are allowed.
#[test]
fn a_file_on_a_disk(rt: HostRuntime) -> Result<(), Fail> {
    fs::write(&rt, "five.txt", "12345")?;
    let asked = [("five.txt", 5), ("five.txt", 4), ("none.txt", 5)];
    let told = told_by_loads(&mut HostFiles::new(&rt), rt.alloc(), &asked)?;
    assert_eq!(rt; told.as_slice(), b"12345|too long|no file|".as_slice());
    Ok(())
}

/// What a writer has after two texts were put to it.
#[test]
fn a_writer_gets_what_is_put(rt: HostRuntime) -> Result<(), Fail> {
    let mut written = Vec::new(rt.alloc());
    let mut sink = HostSink::new(&mut written);
    let done = sink.put(b"one ").is_ok() && sink.put(b"two").is_ok();
    drop(sink);
    assert_eq!(rt; (done, written.as_slice()), (true, b"one two".as_slice()));
    Ok(())
}
