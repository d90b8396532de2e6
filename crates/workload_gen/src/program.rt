//! The program of the workload.
ghost use Rattle.std.specs.Prelude.{◌≡◌, ◌++◌, IfOk, flat_map, map};
ghost use Rattle.byteorder.specs.Endian.{little_bytes};
ghost use Rattle.rv32_decode.specs.Layout.{word_of};
ghost use Rattle.workload_gen.specs.Program.{opening_words, turn_words, closing_words, image_of, code_of};

use crate::assembly::{
    add, addi, amoswap_aq, amoswap_rl, andi, bne, li_lower, li_upper, lw, mul, slli, srli, sw,
};
use crate::registers::{A0, A7, S1, S2, S3, S4, S5, S6, S7, T0, T1, T2, T3, T4, T5, T6, ZERO};
use dash_base::{Instr, OutOfMemory, Segment};
use elf_load::Image;
use rv32_encode::{Program, encode};
use std::alloc::Global;

/// Where the program is loaded, and where a run begins.
const ENTRY: u32 = 0x1000;

/// The program of a seed: one segment at its entry, which may be read and executed.
///
/// Each hart takes 468 turns. In a turn it draws a number, and adds a part of it to one of 64 counters,
/// between an Ask and an Unlock of the counter's lock word. Then it exits with code 0.
///
/// # Errors
///
/// `OutOfMemory` alone.
pub fn generate(alloc: Global, seed: u32) -> Result<Program, OutOfMemory>
    ensures { IfOk result (λ program. program ≡ image_of seed) }
{
    Ok(Program {
        entry: ENTRY,
        segments: segments(alloc, seed)?,
    })
}

/// The program as it is loaded, without the way through a file: what `load` gives of its file.
///
/// # Errors
///
/// `OutOfMemory` alone.
pub fn image(alloc: Global, seed: u32) -> Result<Image, OutOfMemory>
    ensures { IfOk result (λ image. image ≡ image_of seed) }
{
    Ok(Image::new(ENTRY, segments(alloc, seed)?))
}

/// The segment of the program, alone in a list.
fn segments(alloc: Global, seed: u32) -> Result<Vec<Segment>, OutOfMemory>
    ensures { IfOk result (λ segments. segments.items ≡ (image_of seed).segments) }
{
    let bytes = code(alloc, seed)?;
    let segment = Segment {
        vaddr: ENTRY,
        memsz: 140,
        flags: 5,
        bytes,
    };
    let mut segments = Vec::new(alloc);
    segments.push(segment)?;
    Ok(segments)
}

/// The bytes of the program's instructions.
fn code(alloc: Global, seed: u32) -> Result<Vec<u8>, OutOfMemory>
    ensures { IfOk result (λ bytes. bytes.items ≡ code_of seed) }
{
    let mut bytes = Vec::new(alloc);
    put(&mut bytes, &opening(seed))?;
    put(&mut bytes, &turn())?;
    put(&mut bytes, &closing())?;
    Ok(bytes)
}

/// What stands before the turns.
fn opening(seed: u32) -> [Instr; 16]
    ensures { map word_of result ≡ opening_words seed }
{
    [
        li_upper(S1, seed),
        li_lower(S1, seed),
        li_upper(T0, 2_654_435_761),
        li_lower(T0, 2_654_435_761),
        mul(T0, T0, A0),
        add(S1, S1, T0),
        li_upper(S2, 1_664_525),
        li_lower(S2, 1_664_525),
        li_upper(S3, 1_013_904_223),
        li_lower(S3, 1_013_904_223),
        li_upper(S4, 32_768),
        li_lower(S4, 32_768),
        li_upper(S5, 65_536),
        li_lower(S5, 65_536),
        addi(S6, ZERO, 468),
        addi(S7, ZERO, 1),
    ]
}

/// A turn.
fn turn() -> [Instr; 16]
    ensures { map word_of result ≡ turn_words }
{
    [
        mul(S1, S1, S2),
        add(S1, S1, S3),
        srli(T1, S1, 26),
        slli(T2, T1, 4),
        add(T2, T2, S4),
        slli(T3, T1, 2),
        add(T3, T3, S5),
        srli(T4, S1, 16),
        andi(T4, T4, 255),
        amoswap_aq(T5, S7, T3),
        lw(T6, T2),
        add(T6, T6, T4),
        sw(T6, T2),
        amoswap_rl(ZERO, ZERO, T3),
        addi(S6, S6, -1),
        bne(S6, ZERO, -60),
    ]
}

/// What stands behind the turns: a call to exit.
fn closing() -> [Instr; 3]
    ensures { map word_of result ≡ closing_words }
{
    [addi(A0, ZERO, 0), addi(A7, ZERO, 93), Instr::Ecall]
}

/// Appends the words of instructions, the lowest byte of each first.
fn put(bytes: &mut Vec<u8>, instrs: &[Instr]) -> Result<(), OutOfMemory>
    ensures { IfOk result (λ _. bytes.new.items ≡ bytes.old.items ++ flat_map (little_bytes 4) (map word_of instrs.now)) }
{
    for instr in instrs {
        bytes.extend_from_slice(&encode(instr).to_le_bytes())?;
    }
    Ok(())
}
