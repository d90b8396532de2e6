//! Which mnemonic a word spells.
ghost use Rattle.std.specs.Prelude.{◌≡◌, ◌++◌, ◌&&◌};
ghost use Rattle.std.specs.Str.{bytes_eq};
ghost use Rattle.dash_base.specs.Ranges.{has_immediate};
ghost use Rattle.rv32_text.specs.Names.{branch_name, load_name, store_name, alu_name, immediate_name, amo_name, label_suffix, prefetch_name};
ghost use Rattle.asm_words.specs.Mnemonics.{single_name, single_of, branch_of, load_of, store_of, immediate_of, operation_of, prefetch_of, labelled_of, labels_with, atomic_with, atomic_of, mnemonic_of};

use crate::mnemonic::Mnemonic;
use arrayvec::ArrayString;
use dash_base::{AluOp, AmoOp, BranchOp, Labels, LoadOp, StoreOp};
use rv32_decode::HintKind;
use rv32_text::names;

/// The mnemonic or directive that a word spells. `None` where it spells none.
#[tactic(auto, unfolding(crate::specs::Mnemonics::mnemonic_of))]
pub fn read_mnemonic(word: &[u8]) -> Option<Mnemonic>
    ensures { result ≡ mnemonic_of word.now }
{
    if let Some(mnemonic) = single(word) {
        return Some(mnemonic);
    }
    if let Some(op) = branch(word) {
        return Some(Mnemonic::Branch(op));
    }
    if let Some(op) = load(word) {
        return Some(Mnemonic::Load(op));
    }
    if let Some(op) = store(word) {
        return Some(Mnemonic::Store(op));
    }
    if let Some(op) = immediate(word) {
        return Some(Mnemonic::Immediate(op));
    }
    if let Some(op) = operation(word) {
        return Some(Mnemonic::Registers(op));
    }
    if let Some(kind) = prefetch(word) {
        return Some(Mnemonic::Prefetch(kind));
    }
    atomic(word)
}

#[tactic(auto, unfolding(crate::specs::Mnemonics::single_of))]
fn single(word: &[u8]) -> Option<Mnemonic>
    ensures { result ≡ single_of word.now }
{
    let all = [
        Mnemonic::Lui,
        Mnemonic::Auipc,
        Mnemonic::Jal,
        Mnemonic::Jalr,
        Mnemonic::Fence,
        Mnemonic::Ecall,
        Mnemonic::Ebreak,
        Mnemonic::LoadImmediate,
        Mnemonic::LoadAddress,
        Mnemonic::Jump,
        Mnemonic::Nop,
        Mnemonic::Move,
        Mnemonic::Text,
        Mnemonic::Data,
        Mnemonic::Word,
        Mnemonic::Space,
        Mnemonic::Entry,
    ];
    all.iter().copied().find(|m| is_single(word, *m))
}

fn is_single(word: &[u8], mnemonic: Mnemonic) -> bool
    ensures { result ≡ bytes_eq (single_name mnemonic) word.now }
{
    single_name(mnemonic).as_bytes() == word
}

/// The spelling of a mnemonic or a directive that stands alone; of the others none.
fn single_name(mnemonic: Mnemonic) -> &'static str
    ensures { result.now ≡ single_name mnemonic }
{
    match mnemonic {
        Mnemonic::Lui => "lui",
        Mnemonic::Auipc => "auipc",
        Mnemonic::Jal => "jal",
        Mnemonic::Jalr => "jalr",
        Mnemonic::Fence => "fence",
        Mnemonic::Ecall => "ecall",
        Mnemonic::Ebreak => "ebreak",
        Mnemonic::LoadImmediate => "li",
        Mnemonic::LoadAddress => "la",
        Mnemonic::Jump => "j",
        Mnemonic::Nop => "nop",
        Mnemonic::Move => "mv",
        Mnemonic::Text => ".text",
        Mnemonic::Data => ".data",
        Mnemonic::Word => ".word",
        Mnemonic::Space => ".space",
        Mnemonic::Entry => ".entry",
        _ => "",
    }
}

#[tactic(auto, unfolding(crate::specs::Mnemonics::branch_of))]
fn branch(word: &[u8]) -> Option<BranchOp>
    ensures { result ≡ branch_of word.now }
{
    let all = [
        BranchOp::Beq,
        BranchOp::Bne,
        BranchOp::Blt,
        BranchOp::Bge,
        BranchOp::Bltu,
        BranchOp::Bgeu,
    ];
    all.iter().copied().find(|op| is_branch(word, *op))
}

fn is_branch(word: &[u8], op: BranchOp) -> bool
    ensures { result ≡ bytes_eq (branch_name op) word.now }
{
    names::branch_name(op).as_bytes() == word
}

#[tactic(auto, unfolding(crate::specs::Mnemonics::load_of))]
fn load(word: &[u8]) -> Option<LoadOp>
    ensures { result ≡ load_of word.now }
{
    let all = [LoadOp::Lb, LoadOp::Lh, LoadOp::Lw, LoadOp::Lbu, LoadOp::Lhu];
    all.iter().copied().find(|op| is_load(word, *op))
}

fn is_load(word: &[u8], op: LoadOp) -> bool
    ensures { result ≡ bytes_eq (load_name op) word.now }
{
    names::load_name(op).as_bytes() == word
}

#[tactic(auto, unfolding(crate::specs::Mnemonics::store_of))]
fn store(word: &[u8]) -> Option<StoreOp>
    ensures { result ≡ store_of word.now }
{
    let all = [StoreOp::Sb, StoreOp::Sh, StoreOp::Sw];
    all.iter().copied().find(|op| is_store(word, *op))
}

fn is_store(word: &[u8], op: StoreOp) -> bool
    ensures { result ≡ bytes_eq (store_name op) word.now }
{
    names::store_name(op).as_bytes() == word
}

#[tactic(auto, unfolding(crate::specs::Mnemonics::immediate_of))]
fn immediate(word: &[u8]) -> Option<AluOp>
    ensures { result ≡ immediate_of word.now }
{
    let all = [
        AluOp::Add,
        AluOp::Slt,
        AluOp::Sltu,
        AluOp::Xor,
        AluOp::Or,
        AluOp::And,
        AluOp::Sll,
        AluOp::Srl,
        AluOp::Sra,
    ];
    all.iter().copied().find(|op| is_immediate(word, *op))
}

fn is_immediate(word: &[u8], op: AluOp) -> bool
    ensures { result ≡ (has_immediate op && bytes_eq (immediate_name op) word.now) }
{
    has_immediate(op) && names::immediate_name(op).as_bytes() == word
}

/// Whether an operation has a form with an immediate.
pub fn has_immediate(op: AluOp) -> bool
    ensures { result ≡ has_immediate op }
{
    matches!(
        op,
        AluOp::Add
            | AluOp::Slt
            | AluOp::Sltu
            | AluOp::Xor
            | AluOp::Or
            | AluOp::And
            | AluOp::Sll
            | AluOp::Srl
            | AluOp::Sra
    )
}

#[tactic(auto, unfolding(crate::specs::Mnemonics::operation_of))]
fn operation(word: &[u8]) -> Option<AluOp>
    ensures { result ≡ operation_of word.now }
{
    let all = [
        AluOp::Add,
        AluOp::Sub,
        AluOp::Sll,
        AluOp::Slt,
        AluOp::Sltu,
        AluOp::Xor,
        AluOp::Srl,
        AluOp::Sra,
        AluOp::Or,
        AluOp::And,
        AluOp::Mul,
        AluOp::Mulh,
        AluOp::Mulhsu,
        AluOp::Mulhu,
        AluOp::Div,
        AluOp::Divu,
        AluOp::Rem,
        AluOp::Remu,
    ];
    all.iter().copied().find(|op| is_operation(word, *op))
}

fn is_operation(word: &[u8], op: AluOp) -> bool
    ensures { result ≡ bytes_eq (alu_name op) word.now }
{
    names::alu_name(op).as_bytes() == word
}

#[tactic(auto, unfolding(crate::specs::Mnemonics::prefetch_of))]
fn prefetch(word: &[u8]) -> Option<HintKind>
    ensures { result ≡ prefetch_of word.now }
{
    let all = [HintKind::Fetch, HintKind::Shared, HintKind::Exclusive];
    all.iter().copied().find(|kind| is_prefetch(word, *kind))
}

fn is_prefetch(word: &[u8], kind: HintKind) -> bool
    ensures { result ≡ bytes_eq (prefetch_name kind) word.now }
{
    names::prefetch_name(kind).as_bytes() == word
}

#[tactic(auto, unfolding(crate::specs::Mnemonics::atomic_of))]
fn atomic(word: &[u8]) -> Option<Mnemonic>
    ensures { result ≡ atomic_of word.now }
{
    if let Some(mnemonic) = atomic_with(word, labels(false, false)) {
        return Some(mnemonic);
    }
    if let Some(mnemonic) = atomic_with(word, labels(true, false)) {
        return Some(mnemonic);
    }
    if let Some(mnemonic) = atomic_with(word, labels(false, true)) {
        return Some(mnemonic);
    }
    atomic_with(word, labels(true, true))
}

fn labels(aq: bool, rl: bool) -> Labels
    ensures { result ≡ labels_with aq rl }
{
    Labels { aq, rl }
}

fn atomic_with(word: &[u8], labels: Labels) -> Option<Mnemonic>
    ensures { result ≡ atomic_with labels word.now }
{
    match labelled(word, labels) {
        Some(op) => Some(Mnemonic::Atomic(op, labels)),
        None => None,
    }
}

#[tactic(auto, unfolding(crate::specs::Mnemonics::labelled_of))]
fn labelled(word: &[u8], labels: Labels) -> Option<AmoOp>
    ensures { result ≡ labelled_of labels word.now }
{
    let all = [
        AmoOp::Lr,
        AmoOp::Sc,
        AmoOp::Swap,
        AmoOp::Add,
        AmoOp::Xor,
        AmoOp::And,
        AmoOp::Or,
        AmoOp::Min,
        AmoOp::Max,
        AmoOp::Minu,
        AmoOp::Maxu,
    ];
    all.iter()
        .copied()
        .find(|op| is_labelled(word, *op, labels))
}

fn is_labelled(word: &[u8], op: AmoOp, labels: Labels) -> bool
    ensures { result ≡ bytes_eq (amo_name op ++ label_suffix labels.aq labels.rl) word.now }
{
    let mut name: ArrayString<16> = ArrayString::new();
    name.push_str(names::amo_name(op));
    name.push_str(names::label_suffix(labels));
    name.as_str().as_bytes() == word
}
