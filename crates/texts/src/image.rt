//! Images from sources.
ghost use Rattle.std.specs.Prelude.{◌≡◌, ◌+◌, ◌^◌, ◌<◌, ◌≤◌, length, IfOk, IfSome};
ghost use Rattle.rv32_asm.specs.Programs.{program_of};
ghost use Rattle.rv32_encode.specs.Elf.{contents, elf_of};

use crate::failure::Failure;
use dash_base::Segment;
use rv32_asm::assemble;
use rv32_encode::write_elf;
use std::alloc::Global;

/// The most bytes of an image's segments, and the most segments. No source that is accepted says more.
const MOST_BYTES: usize = 33_554_432;

const MOST_SEGMENTS: usize = 64;

/// The executable file of the program that a source says.
pub fn assembled(alloc: Global, source: &str) -> Result<Vec<u8>, Failure>
    requires { length source.now + 2 < 2 ^ 32 }
    ensures file { IfOk result (λ file. file.items ≡ elf_of (program_of source.now)) }
{
    let program = assemble(alloc, source)?;
    if program.segments.len() > MOST_SEGMENTS || size_of(&program.segments).is_none() {
        return Err(Failure::Failed);
    }
    Ok(write_elf(alloc, &program)?)
}

/// How many bytes the segments have, or `None` where they are more than an image has.
#[tactic(auto, unfolding(rv32_encode::specs::Elf::contents))]
fn size_of(segments: &[Segment]) -> Option<usize>
    ensures bytes { IfSome result (λ size. size ≡ length (contents segments.now)) }
    ensures small { IfSome result (λ size. size ≤ 33554432) }
{
    let mut size: usize = 0;
    for segment in segments {
        if segment.bytes.len() > MOST_BYTES - size {
            return None;
        }
        size += segment.bytes.len();
    }
    Some(size)
}
