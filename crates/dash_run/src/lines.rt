//! The lines on standard error.
ghost use Rattle.std.specs.Prelude.{◌≡◌, ◌++◌, IfOk, OnOk, string_bytes};
ghost use Rattle.dash_base.specs.Names.{key_name};
ghost use Rattle.dash_run.specs.Outcome.{usage_line, failed_line, large_line, topology_line, topology_text, refusal_line, refusal_text};

use dash_base::{Key, OutOfMemory, TopoRefusal};
use elf_load::LoadRefusal;
use std::alloc::Global;
use std::fmt::Write;

/// The usage line, with its newline.
#[tactic(auto, unfolding(crate::specs::Outcome::usage_line))]
pub fn usage() -> &'static str
    ensures { result.now ≡ usage_line }
{
    "dash: usage: dash run IMAGE [TOPOLOGY [--log] | CLUSTERS HARTS BUDGET [--log]] | dash gen SEED\n"
}

/// The line for a file that couldn't be read.
#[tactic(auto, unfolding(crate::specs::Outcome::failed_line))]
pub fn failed(alloc: Global, name: &str) -> Result<String, OutOfMemory>
    ensures { IfOk result (λ text. string_bytes text ≡ failed_line name.now) }
{
    Ok(format!(in alloc; "dash: {name}: read failed\n")?)
}

/// The line for a file above its limit.
#[tactic(auto, unfolding(crate::specs::Outcome::large_line))]
pub fn too_large(alloc: Global, name: &str, size: u64, limit: u64) -> Result<String, OutOfMemory>
    ensures { IfOk result (λ text. string_bytes text ≡ large_line (record { name = name.now; limit = limit }) size) }
{
    Ok(format!(in alloc; "dash: {name}: {size} bytes, limit {limit}\n")?)
}

/// The line for a topology that is refused.
#[tactic(auto, unfolding(crate::specs::Outcome::topology_line))]
pub fn bad_topology(alloc: Global, refusal: &TopoRefusal) -> Result<String, OutOfMemory>
    ensures { IfOk result (λ text. string_bytes text ≡ topology_line refusal.now) }
{
    let mut text = String::from_str(alloc, "dash: topology: ")?;
    push_cause(&mut text, refusal)?;
    text.push_str("\n")?;
    Ok(text)
}

/// Why a topology is refused.
fn push_cause(text: &mut String, refusal: &TopoRefusal) -> Result<(), OutOfMemory>
    ensures { OnOk result (string_bytes text.new ≡ string_bytes text.old ++ topology_text refusal.now) }
{
    match refusal {
        TopoRefusal::Syntax => text.push_str("syntax")?,
        TopoRefusal::Missing { key } => push_key(text, "missing ", *key)?,
        TopoRefusal::Unknown { key } => {
            text.push_str("unknown ")?;
            text.push_str(key.text.as_str())?;
        }
        TopoRefusal::Range { key } => push_key(text, "range ", *key)?,
        TopoRefusal::NotPower { key } => push_key(text, "not a power of two ", *key)?,
        TopoRefusal::TooMuch => text.push_str("too much")?,
        TopoRefusal::OutOfMemory => {}
    }
    Ok(())
}

fn push_key(text: &mut String, cause: &str, key: Key) -> Result<(), OutOfMemory>
    ensures { OnOk result (string_bytes text.new ≡ string_bytes text.old ++ (cause.now ++ key_name key)) }
{
    text.push_str(cause)?;
    text.push_str(key.name())?;
    Ok(())
}

/// The line for an image that is refused.
#[tactic(auto, unfolding(crate::specs::Outcome::refusal_line))]
pub fn refused(alloc: Global, refusal: LoadRefusal) -> Result<String, OutOfMemory>
    ensures { IfOk result (λ text. string_bytes text ≡ refusal_line refusal) }
{
    let mut text = String::from_str(alloc, "dash: image: ")?;
    push_refusal(&mut text, refusal)?;
    text.push_str("\n")?;
    Ok(text)
}

/// The number of a refusal, and why the image is refused.
#[tactic(auto, unfolding(trace_text::specs::Spelling::hex))]
fn push_refusal(text: &mut String, refusal: LoadRefusal) -> Result<(), OutOfMemory>
    ensures { OnOk result (string_bytes text.new ≡ string_bytes text.old ++ refusal_text refusal) }
{
    match refusal {
        LoadRefusal::Short { at } => write!(text, "1 short at {at}")?,
        LoadRefusal::NotElf => text.push_str("2 not an ELF file")?,
        LoadRefusal::NotClass32Little => text.push_str("3 not class 32 little endian")?,
        LoadRefusal::NotRiscv => text.push_str("4 not for RISC-V")?,
        LoadRefusal::NotExec => text.push_str("5 not an executable")?,
        LoadRefusal::Compressed => text.push_str("6 compressed instructions")?,
        LoadRefusal::Reduced => text.push_str("7 reduced registers")?,
        LoadRefusal::HeaderSize { size } => write!(text, "8 header size {size}")?,
        LoadRefusal::SegmentOutOfFile { i } => write!(text, "9 segment {i} out of file")?,
        LoadRefusal::FileSizeAboveMemory { i } => {
            write!(text, "10 segment {i} file size above memory size")?;
        }
        LoadRefusal::SegmentOutOfMemory { i } => write!(text, "11 segment {i} out of memory")?,
        LoadRefusal::Overlap { i, j } => write!(text, "12 segments {i} and {j} overlap")?,
        LoadRefusal::NoSegment => text.push_str("13 no segment")?,
        LoadRefusal::EntryNotExecutable { entry } => {
            write!(text, "14 entry {entry:08x} not executable")?;
        }
        LoadRefusal::OutOfMemory => {}
    }
    Ok(())
}
