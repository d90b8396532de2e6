//! `dash`: a simulator of a directory-based shared-memory multiprocessor. The program itself: it
//! makes the host of real files and streams, and calls `dash` of crate `dash_run`.
#![tactic(auto)]

use arbiter::{Arbiter, Rotate};
use dash_run::dash;
use real_host::RealHost;
use round_run::OpenGate;
use std::alloc::{AllocError, Global};
use std::io::ErrorKind;
use std::process::ExitCode;
use std::sync::Wait;
use std::thread::Threads;
use std::{env, io};

mod real_host;

/// Exit status where there is no memory for the words, or for who chooses.
const OUT_OF_MEMORY: u8 = 6;

/// The most clusters that a machine has.
const CLUSTERS: usize = 16;

fn main(rt: HostRuntime) -> ExitCode {
    match run(&rt, &rt) {
        Ok(status) => ExitCode::from(status),
        Err(AllocError) => ExitCode::from(OUT_OF_MEMORY),
    }
}

/// Does what the words of the command line ask for, on threads of this runtime, each cluster choosing in
/// rotation. The answer is the exit status.
fn run<R: Threads + Wait + Sync>(threads: &R, rt: &HostRuntime) -> Result<u8, AllocError> {
    let alloc = rt.alloc();
    let words = words(rt, alloc)?;
    let mut arbiters: Vec<Box<dyn Arbiter + Send>> = Vec::new(alloc);
    for _cluster in 0..CLUSTERS {
        arbiters.push(Box::new(alloc, Rotate::new())?)?;
    }
    if arbiters.len() != CLUSTERS {
        return Err(AllocError);
    }
    let mut host = RealHost::new(rt);
    let ended = dash(
        threads,
        alloc,
        words.as_slice(),
        &mut host,
        &OpenGate,
        arbiters,
    );
    Ok(ended.status)
}

/// The words of the command line without the program's own name. Where one is not UTF-8, one empty
/// word, which is no command line that is served.
fn words(rt: &HostRuntime, alloc: Global) -> Result<Vec<String>, AllocError> {
    match read_words(rt, alloc) {
        Ok(words) => Ok(words),
        Err(error) if error.kind() == ErrorKind::OutOfMemory => Err(AllocError),
        Err(_) => {
            let mut words = Vec::new(alloc);
            words.push(String::new(alloc))?;
            Ok(words)
        }
    }
}

fn read_words(rt: &HostRuntime, alloc: Global) -> io::Result<Vec<String>> {
    let mut words = Vec::new(alloc);
    for word in env::args(rt)?.skip(1) {
        words.push(word)?;
    }
    Ok(words)
}
