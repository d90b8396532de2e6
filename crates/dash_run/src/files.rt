//! Loads the files that a request names.
ghost use Rattle.std.specs.Prelude.{◌≡◌, List, ◌∷◌, [], Option, IfOk, OnErr, IsTrue};
ghost use Rattle.dash_base.specs.Outside.{Call, load_of, with_calls};
ghost use Rattle.dash_run.specs.Inputs.{NamedFile, IsFileOf, IsGiven, image_file};
ghost use Rattle.dash_run.specs.Output.{request_of, IsFile, HasLoaded, HasBegun};

use crate::command_line::{Command, MachineWords};
use crate::inputs::{Inputs, Source};
use crate::lines;
use dash_base::{Host, LoadFault, OutOfMemory};
use std::alloc::Global;

/// An image file has at most so many bytes.
const IMAGE_LIMIT: u64 = 33_554_432;

/// A topology file has at most so many bytes.
const TOPOLOGY_LIMIT: u64 = 65_536;

/// What loading the files of a request came to.
#[derive(Drop)]
pub enum Loaded {
    Given { inputs: Inputs },
    /// A file was not given: the line for it.
    NotGiven { text: String },
}

/// What loading one file came to.
#[derive(Drop)]
pub enum LoadedFile {
    Bytes { bytes: Vec<u8> },
    /// It was not given: the line for it.
    NoBytes { text: String },
}

/// Loads the image and then the topology, where a file of it is named, and nothing after a file that was
/// not given.
pub fn load_inputs<H: Host>(
    alloc: Global,
    host: &mut H,
    command: &Command<'_>,
) -> Result<Loaded, OutOfMemory>
    requires { (file : NamedFile) → IsFileOf (request_of command.now) file → IsTrue (H.may_load host.old file.name) }
    ensures loaded { IfOk result (HasLoaded (H.files host.old) (H.load_faults host.old) (H.load_faults host.new) (H.calls host.old) (H.calls host.new) (request_of command.now)) }
    ensures begun { OnErr result (HasBegun (request_of command.now) (H.calls host.old) (H.calls host.new)) }
    ensures printed { H.printed host.new ≡ H.printed host.old }
    ensures print_faults { H.print_faults host.new ≡ H.print_faults host.old }
{
    match load_file(alloc, host, command.image, IMAGE_LIMIT)? {
        LoadedFile::Bytes { bytes } => load_source(alloc, host, command, bytes),
        LoadedFile::NoBytes { text } => Ok(Loaded::NotGiven { text }),
    }
}

/// Loads the topology, where a file of it is named, beside the bytes of the image.
fn load_source<H: Host>(
    alloc: Global,
    host: &mut H,
    command: &Command<'_>,
    image: Vec<u8>,
) -> Result<Loaded, OutOfMemory>
    requires names { (file : NamedFile) → IsFileOf (request_of command.now) file → IsTrue (H.may_load host.old file.name) }
    requires image { IsGiven (H.files host.old) (image_file (request_of command.now)) image.items }
    ensures loaded { (first : Option (List Call)) → H.calls host.old ≡ with_calls first (load_of command.now.image.now ∷ [])
        → IfOk result (HasLoaded (H.files host.old) (H.load_faults host.old) (H.load_faults host.new) first (H.calls host.new) (request_of command.now)) }
    ensures begun { (first : Option (List Call)) → H.calls host.old ≡ with_calls first (load_of command.now.image.now ∷ [])
        → OnErr result (HasBegun (request_of command.now) first (H.calls host.new)) }
    ensures printed { H.printed host.new ≡ H.printed host.old }
    ensures print_faults { H.print_faults host.new ≡ H.print_faults host.old }
{
    match command.machine {
        MachineWords::Sizes {
            clusters,
            harts,
            budget,
        } => {
            let source = Source::Numbers {
                clusters,
                harts,
                budget,
            };
            Ok(Loaded::Given {
                inputs: Inputs { image, source },
            })
        }
        MachineWords::File { name } => match load_file(alloc, host, name, TOPOLOGY_LIMIT)? {
            LoadedFile::Bytes { bytes } => {
                let source = Source::Text { bytes };
                Ok(Loaded::Given {
                    inputs: Inputs { image, source },
                })
            }
            LoadedFile::NoBytes { text } => Ok(Loaded::NotGiven { text }),
        },
    }
}

/// Loads a file of at most so many bytes.
fn load_file<H: Host>(
    alloc: Global,
    host: &mut H,
    name: &str,
    limit: u64,
) -> Result<LoadedFile, OutOfMemory>
    requires { IsTrue (H.may_load host.old name.now) }
    ensures file { IfOk result (IsFile (H.files host.old) (H.load_faults host.old) (H.load_faults host.new) (record { name = name.now; limit = limit })) }
    ensures files { H.files host.new ≡ H.files host.old }
    ensures may_load { H.may_load host.new ≡ H.may_load host.old }
    ensures printed { H.printed host.new ≡ H.printed host.old }
    ensures print_faults { H.print_faults host.new ≡ H.print_faults host.old }
    ensures calls { H.calls host.new ≡ with_calls (H.calls host.old) (load_of name.now ∷ []) }
{
    match host.load(alloc, name, limit) {
        Ok(bytes) => Ok(LoadedFile::Bytes { bytes }),
        Err(LoadFault::TooLarge { size }) => Ok(LoadedFile::NoBytes {
            text: lines::too_large(alloc, name, size, limit)?,
        }),
        Err(LoadFault::Failed) => Ok(LoadedFile::NoBytes {
            text: lines::failed(alloc, name)?,
        }),
        Err(LoadFault::OutOfMemory) => Err(OutOfMemory),
    }
}
