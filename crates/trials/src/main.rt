//! A program that makes calls which no command of the map server makes, so that they can be tried and measured from outside. It is no
//! part of a release. It stands on the crates whose calls it makes.
#![tactic(auto)]

mod edits;
mod journal;
mod map;
mod outcome;
mod windows;

use edit_journal::HostDisks;
use outcome::Outcome;
use plain_io::{HostFiles, HostSink, Sink};
use std::alloc::Global;
use std::fs::File;
use std::io::ErrorKind;
use std::process::ExitCode;
use std::rt::{Env, Files as FileSystem};
use std::thread::Threads;
use std::{env, io};
use tgap_model::Memory;

const USAGE: &[u8] =
    b"usage: entries JOURNAL | append JOURNAL BATCH.. | node MAP X Y | cut MAP FACE CLASS X Y X Y.. | fuse MAP KEPT GONE | window MAP STEP X0 Y0 X1 Y1 | window-packet MAP FROM TO X0 Y0 X1 Y1\n";

fn main(rt: HostRuntime) -> ExitCode {
    let mut out = HostSink::new(io::writer(&rt));
    let outcome = match words(&rt, rt.alloc()) {
        Ok(words) => run(&rt, rt.alloc(), words.as_slice(), &mut out),
        Err(Memory) => Outcome::Memory,
    };
    ExitCode::from(outcome.status())
}

/// The words of the command line, without the name of the program; none where one of them is no text.
fn words<R: Env + AllocGlobal>(rt: &R, alloc: Global) -> Result<Vec<String>, Memory> {
    let mut words = Vec::new(alloc);
    let arguments = match env::args(rt) {
        Ok(arguments) => arguments,
        Err(error) if error.kind() == ErrorKind::OutOfMemory => return Err(Memory),
        Err(_) => return Ok(words),
    };
    for word in arguments.skip(1) {
        words.push(word)?;
    }
    Ok(words)
}

/// Makes the calls that the words ask for, and puts what came of them.
fn run<R: FileSystem<File = File> + Threads + Sync, S: Sink>(
    rt: &R,
    alloc: Global,
    words: &[String],
    out: &mut S,
) -> Outcome {
    let done = match words {
        [command, name, rest @ ..] => trial(rt, alloc, command, name, rest, out),
        _ => Err(Outcome::Usage),
    };
    match done {
        Ok(()) => Outcome::Done,
        Err(Outcome::Usage) => usage(out),
        Err(outcome) => outcome,
    }
}

/// Makes the calls of a command over the file of this name.
fn trial<R: FileSystem<File = File> + Threads + Sync, S: Sink>(
    rt: &R,
    alloc: Global,
    command: &str,
    name: &str,
    rest: &[String],
    out: &mut S,
) -> Result<(), Outcome> {
    let files = &mut HostFiles::new(rt);
    if command == "entries" && rest.is_empty() {
        journal::tell(alloc, &mut HostDisks::new(rt), name, out)
    } else if command == "append" {
        journal::append(alloc, &mut HostDisks::new(rt), name, rest, out)
    } else if command == "node" {
        edits::node(alloc, name, rest, files, out)
    } else if command == "cut" {
        edits::cut(alloc, name, rest, files, out)
    } else if command == "fuse" {
        edits::fuse(alloc, name, rest, files, out)
    } else if command == "window" {
        windows::window(rt, alloc, name, rest, files, out)
    } else if command == "window-packet" {
        windows::packet(rt, alloc, name, rest, files, out)
    } else {
        Err(Outcome::Usage)
    }
}

/// Puts what can be asked for.
fn usage<S: Sink>(out: &mut S) -> Outcome {
    match out.put(USAGE) {
        Ok(()) => Outcome::Usage,
        Err(_) => Outcome::SinkFault,
    }
}
