//! Programs from their sources.
ghost use Rattle.std.specs.Prelude.{◌≡◌, ◌+◌, ◌<◌, ◌^◌, IfOk, IfErr, length};
ghost use Rattle.rv32_asm.specs.Assembled.{IsAssembledBy, IsRefusedBy, IsAssembled, IsRefused};
ghost use Rattle.rv32_asm.specs.Tree.{in_tree};

use crate::assembly::Assembly;
use crate::causes::cause;
use crate::emission::put;
use crate::here::Here;
use crate::labels::Labels;
use crate::lines::read_line;
use crate::refusal::AsmRefusal;
use asm_words::{Word, before_mark, behind_mark};
use rv32_encode::Program;
use std::alloc::Global;

/// The program of a source, of less than 2^32 - 2 bytes. A source is accepted exactly where no line is
/// refused.
///
/// # Errors
///
/// `At` with the least line that is refused and its first cause. `OutOfMemory` may stand in place of any
/// answer.
pub fn assemble(alloc: Global, source: &str) -> Result<Program, AsmRefusal>
    requires { length source.now + 2 < 2 ^ 32 }
    ensures ok { IfOk result (IsAssembled source.now) }
    ensures refused { IfErr result (IsRefused source.now) }
{
    let bytes = source.as_bytes();
    let labels = Labels::collect(alloc, bytes)?;
    build(alloc, &labels, bytes)
}

/// The program of a source whose labels are known.
fn build(alloc: Global, labels: &Labels<'_>, source: &[u8]) -> Result<Program, AsmRefusal>
    requires { length source.now + 2 < 2 ^ 32 }
    ensures ok { IfOk result (IsAssembledBy (in_tree labels.now.map) source.now) }
    ensures refused { IfErr result (IsRefusedBy (in_tree labels.now.map) source.now) }
{
    let mut assembly = Assembly::new(alloc);
    let mut here = Here::start();
    let mut rest = Some(Word::new(source));
    while let Some(text) = rest {
        let said = read_line(before_mark(text.bytes(), b'\n'));
        if let Some(cause) = cause(labels, &here, &said) {
            return Err(AsmRefusal::At {
                line: here.line,
                cause,
            });
        }
        put(&mut assembly, alloc, labels, here.place, &said)?;
        here = here.next(&said);
        rest = behind_mark(text.bytes(), b'\n');
    }
    Ok(assembly.finish()?)
}
