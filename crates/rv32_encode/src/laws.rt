//! That `encode` and `decode` undo each other, and that `load` reads what `write_elf` wrote. A function
//! is the two calls in a row, or empty where its law is of definitions alone; its contract is the law.
ghost use Rattle.std.specs.Prelude.{◌≡◌, ◌≢◌, ◌≤◌, IfSome, IfNone, IfOk, IfErr, Some, length};
ghost use Rattle.dash_base.specs.declared.instr.Instr.{Instr};
ghost use Rattle.elf_load.specs.Loader.{Refuses};
ghost use Rattle.elf_load.specs.Refusal.{number_of};
ghost use Rattle.rv32_decode.specs.Layout.{word_of};
ghost use Rattle.rv32_encode.specs.Elf.{contents, elf_of};
ghost use Rattle.rv32_encode.specs.Written.{WrittenFilesAreLoadable, WrittenFilesAreWellFormed, WrittenFilesGiveTheirProgram, as_loaded};

use crate::{Program, encode, write_elf};
use dash_base::Instr;
use elf_load::{Image, LoadRefusal, MemoryMap, load};
use rv32_decode::decode;
use std::alloc::Global;

/// The word of an instruction decodes to the instruction.
pub fn decode_of_encode(instr: &Instr) -> Option<Instr>
    ensures { result ≡ Some instr.now }
{
    decode(encode(instr))
}

/// What a word decodes to encodes to the word. None where it decodes to nothing.
pub fn encode_of_decode(word: u32) -> Option<u32>
    ensures some { IfSome result (λ again. again ≡ word) }
    ensures found { IfSome result (λ again. (i : Instr) × (word_of i ≡ again)) }
    ensures none { IfNone result ((i : Instr) → word_of i ≢ word) }
{
    decode(word).map(|instr| encode(&instr))
}

/// The first ten refusals of `load`, which are about the file alone, never apply to the file of a program.
#[tactic(auto, using(crate::proofs::WrittenFiles::well_formed))]
pub fn written_files_are_well_formed()
    ensures { WrittenFilesAreWellFormed }
{}

/// Where none of the other refusals applies, about memory and the entry, the file is accepted.
#[tactic(auto, using(crate::proofs::WrittenFiles::loadable))]
pub fn written_files_are_loadable()
    ensures { WrittenFilesAreLoadable }
{}

/// Its image is the program, without the segments that have no bytes in memory.
#[tactic(auto, using(crate::proofs::WrittenFiles::image_written))]
pub fn written_files_give_their_program()
    ensures { WrittenFilesGiveTheirProgram }
{}

/// What is loaded of the file of a program is the program, without the segments that have no bytes in
/// memory; and a refusal is one of those about memory and the entry, or out of memory.
pub fn load_of_write_elf(
    alloc: Global,
    program: &Program,
    map: MemoryMap,
) -> Result<Image, LoadRefusal>
    requires few { length program.now.segments ≤ 64 }
    requires small { length (contents program.now.segments) ≤ 33554432 }
    ensures image { IfOk result (λ image. image ≡ as_loaded program.now) }
    ensures late { IfErr result (λ refusal. 11 ≤ number_of refusal) }
    ensures refusal { IfErr result (Refuses (elf_of program.now) map) }
{
    let file = write_elf(alloc, program)?;
    load(alloc, &file, map)
}
