//! Texts that are read, for tests to try. `texts log FILE` prints the text of the log whose text the file is, and
//! `texts assemble FILE` the executable file of the program whose source it is. It is no part of the simulator.
//! Its exit status is 0, or 1 where the text is refused, 2 where the words are others, 5 where the file can't be
//! read, is larger than 256 MiB, as a source is no UTF-8, or nothing can be written, and 6 where there is no
//! memory. A refusal is one line on standard error: `texts: head`, `texts: cut`, `texts: line N` of a log, and
//! `texts: line N: CAUSE` of a source.
#![tactic(auto)]

ghost use Rattle.std.specs.Prelude.{◌≤◌, length, IfOk};

use failure::Failure;
use std::alloc::Global;
use std::env;
use std::fs::File;
use std::io::{ErrorKind, Read, Write};
use std::process::ExitCode;

mod again;
mod failure;
mod image;

/// The most bytes of a file.
const LIMIT: u64 = 268_435_456;

fn main(rt: HostRuntime) -> ExitCode {
    match run(&rt) {
        Ok(()) => ExitCode::SUCCESS,
        Err(failure) => {
            let _ = failure.tell(&rt);
            ExitCode::from(failure.status())
        }
    }
}

/// Does what the words say.
fn run(rt: &HostRuntime) -> Result<(), Failure> {
    let alloc = rt.alloc();
    let words = words(rt, alloc)?;
    if words.len() != 2 {
        return Err(Failure::Usage);
    }
    match words[0].as_str() {
        "log" => {
            let bytes = read(rt, alloc, words[1].as_str())?;
            rt.stdout().write_all(&again::log(alloc, &bytes)?)?;
            Ok(())
        }
        "assemble" => {
            let bytes = read(rt, alloc, words[1].as_str())?;
            let Ok(source) = str::from_utf8(&bytes) else {
                return Err(Failure::Failed);
            };
            rt.stdout().write_all(&image::assembled(alloc, source)?)?;
            Ok(())
        }
        _ => Err(Failure::Usage),
    }
}

/// The words of the command line without the program's own name: none where one is not UTF-8.
fn words(rt: &HostRuntime, alloc: Global) -> Result<Vec<String>, Failure> {
    let mut words = Vec::new(alloc);
    match env::args(rt) {
        Ok(args) => {
            for word in args.skip(1) {
                words.push(word)?;
            }
        }
        Err(error) if error.kind() == ErrorKind::OutOfMemory => return Err(Failure::OutOfMemory),
        Err(_) => {}
    }
    Ok(words)
}

/// The bytes of a file.
fn read(rt: &HostRuntime, alloc: Global, name: &str) -> Result<Vec<u8>, Failure>
    ensures { IfOk result (λ bytes. length bytes.items ≤ 268435456) }
{
    let mut bytes = Vec::new(alloc);
    File::open(rt, name)?
        .take(LIMIT + 1)
        .read_to_end(&mut bytes)?;
    if bytes.len() as u64 > LIMIT {
        return Err(Failure::Failed);
    }
    Ok(bytes)
}
