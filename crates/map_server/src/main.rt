//! The program: the words of a command line, the files that they name, and the text that answers them. The top call is `run`;
//! `main` hands it the real files, the standard output, the network and the disks. It stands on `commands` and `serving`.
#![tactic(auto)]

mod run;

use commands::Outcome;
use edit_journal::HostDisks;
use plain_io::{HostFiles, HostSink, TcpHarbour};
pub use run::run;
use std::alloc::Global;
use std::io::ErrorKind;
use std::process::ExitCode;
use std::rt::Env;
use std::{env, io};
use tgap_model::Memory;

fn main(rt: HostRuntime) -> ExitCode {
    let mut files = HostFiles::new(&rt);
    let mut out = HostSink::new(io::writer(&rt));
    let mut harbour = TcpHarbour::new(&rt);
    let mut disks = HostDisks::new(&rt);
    let status = match words(&rt, rt.alloc()) {
        Ok(words) => run(
            &rt,
            rt.alloc(),
            words.as_slice(),
            &mut files,
            &mut out,
            &mut harbour,
            &mut disks,
        ),
        Err(Memory) => Outcome::OutOfMemory.put(rt.alloc(), &mut out),
    };
    ExitCode::from(status)
}

/// The words of the command line, without the name of the program; none where one of them is no text.
fn words<R: Env + AllocGlobal>(rt: &R, alloc: Global) -> Result<Vec<String>, Memory> {
    let mut words = Vec::new(alloc);
    let arguments = match env::args(rt) {
        Ok(arguments) => arguments,
        Err(error) if error.kind() == ErrorKind::OutOfMemory => return Err(Memory),
        Err(_) => return Ok(words),
    };
    for word in arguments.skip(1) {
        words.push(word)?;
    }
    Ok(words)
}
