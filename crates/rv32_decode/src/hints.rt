//! Which instructions are prefetches.
ghost use Rattle.std.specs.Prelude.{◌≡◌, ◌<◌, IfSome};
ghost use Rattle.rv32_decode.specs.Hints.{hint_of, prefetch_kind, kind_of, low_bits, offset_of};

use crate::prefetch::Hint;
use dash_base::{AluOp, HintKind, Instr, OpImm};

/// The prefetch that an instruction is: an ORI with rd 0 and the low five bits of its immediate 0, 1
/// or 3, as the extension Zicbop has prefetch.i, prefetch.r and prefetch.w.
pub fn hint(i: &Instr) -> Option<Hint>
    ensures hint { result ≡ hint_of i.now }
    ensures source { IfSome result (λ h. h.rs1 < 32) }
{
    match i {
        Instr::OpImm(i) => {
            let kind = prefetch_kind(i)?;
            Some(Hint {
                kind,
                rs1: i.rs1,
                offset: offset(i),
            })
        }
        _ => None,
    }
}

fn prefetch_kind(i: &OpImm) -> Option<HintKind>
    ensures { result ≡ prefetch_kind i.now }
{
    if matches!(i.op, AluOp::Or) && i.rd == 0 {
        kind_of(low_bits(i))
    } else {
        None
    }
}

fn kind_of(bits: u32) -> Option<HintKind>
    ensures { result ≡ kind_of bits }
{
    match bits {
        0 => Some(HintKind::Fetch),
        1 => Some(HintKind::Shared),
        3 => Some(HintKind::Exclusive),
        _ => None,
    }
}

/// The immediate with its low five bits 0.
fn offset(i: &OpImm) -> i32
    ensures { result ≡ offset_of i.now.imm }
{
    let imm = i.imm;
    imm - low_bits(i) as i32
}

/// The low five bits of an immediate, in two's complement.
fn low_bits(i: &OpImm) -> u32
    ensures { result ≡ low_bits i.now.imm }
{
    let imm = i.imm;
    let bits = if imm < 0 {
        4096 - imm.unsigned_abs()
    } else {
        imm as u32
    };
    bits % 32
}
