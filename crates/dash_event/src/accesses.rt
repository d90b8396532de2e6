//! The access that an instruction makes.
ghost use Rattle.std.specs.Prelude.{◌≡◌, Some};
ghost use Rattle.dash_event.specs.Offered.{bare_access, bytes_under, offered, rmw_access};

use crate::access::{Access, Op, Seen};
use dash_base::{AmoOp, HartId, Labels, Mask, Need, WordAddr, merge};
use rv32_alu::amo_value;

/// The access of the instruction of this number of a hart, where the hart needs this, `content` is
/// what the word holds, and an SC succeeds or fails.
pub fn offer(hart: HartId, number: u32, need: &Need, content: u32, succeeds: bool) -> Option<Access>
    ensures { result ≡ offered hart.0 number need.now content succeeds }
{
    match need {
        Need::Load {
            word,
            mask,
            labels,
            reserve,
        } => {
            let op = if *reserve { Op::Reserve } else { Op::Load };
            let bare = bare_access(hart, number, op, *word);
            Some(load_access(&bare, *mask, *labels, content))
        }
        Need::Store { word, mask, value } => Some(Access {
            mask: *mask,
            written: Some(*value),
            ..bare_access(hart, number, Op::Store, *word)
        }),
        Need::Rmw {
            word,
            op,
            operand,
            labels,
        } => {
            let bare = bare_access(hart, number, Op::Amo, *word);
            Some(rmw_access(&bare, *labels, *op, *operand, content, succeeds))
        }
        Need::Ask { word, value } => {
            let bare = bare_access(hart, number, Op::Ask, *word);
            Some(lock_access(&bare, labelled(true, false), 0, *value))
        }
        Need::Unlock { word } => {
            let bare = bare_access(hart, number, Op::Unlock, *word);
            Some(lock_access(&bare, labelled(false, true), content, 0))
        }
        _ => None,
    }
}

fn labelled(aq: bool, rl: bool) -> Labels
    ensures { result ≡ record { aq = aq; rl = rl } }
{
    Labels { aq, rl }
}

/// An access of a whole word, without labels, that neither reads nor writes.
fn bare_access(hart: HartId, number: u32, op: Op, word: WordAddr) -> Access
    ensures { result ≡ bare_access hart.0 number op word }
{
    Access {
        hart,
        number,
        op,
        labels: labelled(false, false),
        word,
        mask: Mask::new(15),
        read: None,
        written: None,
        seen: Seen::Nothing,
    }
}

/// The access of a load or of LR, which reads the bytes under its mask.
fn load_access(bare: &Access, mask: Mask, labels: Labels, content: u32) -> Access
    ensures { result ≡ record bare.now { labels = labels; mask = mask; read = Some (bytes_under mask content) } }
{
    Access {
        labels,
        mask,
        read: Some(merge(0, mask, content)),
        ..*bare
    }
}

/// The access of SC, which writes its operand where it succeeds, or of another atomic operation,
/// which writes what it makes of the word.
fn rmw_access(
    bare: &Access,
    labels: Labels,
    op: AmoOp,
    operand: u32,
    old: u32,
    succeeds: bool,
) -> Access
    ensures { result ≡ rmw_access (record bare.now { labels = labels }) op operand old succeeds }
{
    if let AmoOp::Sc = op {
        return Access {
            op: Op::Cond,
            labels,
            written: if succeeds { Some(operand) } else { None },
            ..*bare
        };
    }
    let found = merge(0, Mask::new(15), old);
    let written = match op {
        AmoOp::Lr => found,
        _ => amo_value(op, found, operand),
    };
    Access {
        op: Op::Amo,
        labels,
        read: Some(found),
        written: Some(written),
        ..*bare
    }
}

/// The access of an Ask or an Unlock.
fn lock_access(bare: &Access, labels: Labels, read: u32, written: u32) -> Access
    ensures { result ≡ record bare.now { labels = labels; read = Some read; written = Some written } }
{
    Access {
        labels,
        read: Some(read),
        written: Some(written),
        ..*bare
    }
}
