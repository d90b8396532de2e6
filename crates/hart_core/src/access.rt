//! Accesses to data: which of them trap, and which bytes of a word they mean.
ghost use Rattle.std.specs.Prelude.{◌≡◌, ◌+◌, ◌-◌, ◌*◌, ◌<◌, ◌≤◌, ◌^◌, ◌%◌, IfNone, true, ◌&&◌, ◌==◌};
ghost use Rattle.hart_core.specs.Access.{size_of, load_width, store_width, word_address, place_in_word, mask_at, placed, in_memory, in_locks, access_trap, trap_or, load_need, store_need, reserve_need, is_ask, is_unlock, lock_need, rmw_need, amo_need, loaded, bytes_at, sign_extended, IsProper, IsInMemory, IsLockWord};
ghost use Rattle.dash_base.specs.declared.end.End.TheVariants.{Trapped};
ghost use Rattle.dash_base.specs.declared.need.Need.TheVariants.{Stop};

use crate::width::Width;
use dash_base::{AmoOp, End, Labels, LoadOp, Mask, Need, StoreOp, Topology, Trap, WordAddr};
use elf_load::Image;

/// What a load from an address needs.
pub fn load_need(image: &Image, topology: &Topology, op: LoadOp, address: u32) -> Need
    ensures need { result ≡ load_need image.now topology.now address (load_width op) }
    ensures proper { IsProper topology.now result }
{
    let width = Width::of_load(op);
    match access_trap(image, topology, false, address, width) {
        Some(cause) => trapped(cause, address),
        None => Need::Load {
            word: word_of(address),
            mask: mask_of(address, width),
            labels: Labels {
                aq: false,
                rl: false,
            },
            reserve: false,
        },
    }
}

/// What a store of the low bytes of a value to an address needs.
pub fn store_need(image: &Image, topology: &Topology, op: StoreOp, address: u32, value: u32) -> Need
    ensures need { result ≡ store_need image.now topology.now address (store_width op) value }
    ensures proper { IsProper topology.now result }
{
    let width = Width::of_store(op);
    match access_trap(image, topology, true, address, width) {
        Some(cause) => trapped(cause, address),
        None => Need::Store {
            word: word_of(address),
            mask: mask_of(address, width),
            value: placed(address, width, value),
        },
    }
}

/// What an atomic operation on the word at an address needs.
pub fn amo_need(
    image: &Image,
    topology: &Topology,
    address: u32,
    op: AmoOp,
    labels: Labels,
    operand: u32,
) -> Need
    ensures need { result ≡ amo_need image.now topology.now address op labels operand }
    ensures proper { IsProper topology.now result }
{
    match op {
        AmoOp::Lr => reserve_need(image, topology, address, labels),
        _ => rmw_need(image, topology, address, op, labels, operand),
    }
}

/// What LR needs.
fn reserve_need(image: &Image, topology: &Topology, address: u32, labels: Labels) -> Need
    ensures need { result ≡ reserve_need image.now topology.now address labels }
    ensures proper { IsProper topology.now result }
{
    match access_trap(image, topology, false, address, Width::Word) {
        Some(cause) => trapped(cause, address),
        None => Need::Load {
            word: WordAddr(address),
            mask: Mask::new(15),
            labels,
            reserve: true,
        },
    }
}

/// What SC or another atomic operation needs: in the lock region one of its two uses.
fn rmw_need(
    image: &Image,
    topology: &Topology,
    address: u32,
    op: AmoOp,
    labels: Labels,
    operand: u32,
) -> Need
    ensures need { result ≡ rmw_need image.now topology.now address op labels operand }
    ensures proper { IsProper topology.now result }
{
    if address % 4 == 0 && is_lock(topology, address) {
        return lock_need(topology, address, op, labels, operand);
    }
    match access_trap(image, topology, true, address, Width::Word) {
        Some(cause) => trapped(cause, address),
        None => Need::Rmw {
            word: WordAddr(address),
            op,
            operand,
            labels,
        },
    }
}

/// What SC or another atomic operation needs of a lock word: AMOSWAP with aq alone and an operand
/// asks for it, with rl alone and operand 0 gives it back, and everything else traps.
fn lock_need(topology: &Topology, address: u32, op: AmoOp, labels: Labels, operand: u32) -> Need
    requires { IsLockWord topology.now address }
    ensures need { result ≡ lock_need address op labels operand }
    ensures proper { IsProper topology.now result }
{
    let word = WordAddr(address);
    let is_swap = matches!(op, AmoOp::Swap);
    if is_swap && labels.aq && !labels.rl && operand != 0 {
        Need::Ask {
            word,
            value: operand,
        }
    } else if is_swap && !labels.aq && labels.rl && operand == 0 {
        Need::Unlock { word }
    } else {
        trapped(Trap::LockUse, address)
    }
}

/// What a load gives from the word that it found.
pub fn loaded(op: LoadOp, address: u32, word: u32) -> u32
    ensures { result ≡ loaded op address word }
{
    match op {
        LoadOp::Lb => sign_extended(byte_in(address, word), 8),
        LoadOp::Lh => sign_extended(half_in(address, word), 16),
        LoadOp::Lw => word,
        LoadOp::Lbu => byte_in(address, word),
        LoadOp::Lhu => half_in(address, word),
    }
}

/// The first trap of an access that is no use of a lock word.
fn access_trap(
    image: &Image,
    topology: &Topology,
    is_write: bool,
    address: u32,
    width: Width,
) -> Option<Trap>
    ensures trap { result ≡ access_trap image.now topology.now is_write address (size_of width) }
    ensures clear { IfNone result (IsInMemory topology.now address (size_of width)) }
{
    let size = width.size();
    if address % size != 0 {
        Some(Trap::Misaligned)
    } else if is_lock(topology, address) {
        Some(Trap::LockUse)
    } else if !is_memory(topology, address, size) {
        Some(Trap::Unmapped)
    } else if is_write && !image.writable(address, size) {
        Some(Trap::ReadOnly)
    } else {
        None
    }
}

/// Whether an address is in the lock region.
fn is_lock(topology: &Topology, address: u32) -> bool
    ensures { result ≡ in_locks topology.now address }
{
    let first = topology.base + topology.memory;
    first <= address && address < first + 4 * topology.locks
}

/// Whether memory has so many bytes from an address on.
fn is_memory(topology: &Topology, address: u32, size: u32) -> bool
    ensures { result ≡ in_memory topology.now address size }
{
    let end = u64::from(address) + u64::from(size);
    topology.base <= address && end <= u64::from(topology.base + topology.memory)
}

fn trapped(cause: Trap, address: u32) -> Need
    ensures { result ≡ Stop (Trapped cause address) }
{
    Need::Stop {
        end: End::Trapped {
            cause,
            value: address,
        },
    }
}

/// The word that has an address.
fn word_of(address: u32) -> WordAddr
    ensures { result ≡ record { 0 = word_address address } }
{
    WordAddr(address - address % 4)
}

/// The mask of the bytes of an aligned access in their word.
fn mask_of(address: u32, width: Width) -> Mask
    requires { address % size_of width ≡ 0 }
    ensures { result ≡ mask_at (place_in_word address) (size_of width) }
{
    let place = address % 4;
    match width {
        Width::Byte => Mask::new(1 << place),
        Width::Half => Mask::new(3 << place),
        Width::Word => Mask::new(15),
    }
}

/// The low bytes of a value in their places in the word.
fn placed(address: u32, width: Width, value: u32) -> u32
    requires { address % size_of width ≡ 0 }
    ensures { result ≡ placed (place_in_word address) (size_of width) value }
{
    let shift = 8 * (address % 4);
    match width {
        Width::Byte => (value & 0xff) << shift,
        Width::Half => (value & 0xffff) << shift,
        Width::Word => value,
    }
}

fn byte_in(address: u32, word: u32) -> u32
    ensures value { result ≡ bytes_at (place_in_word address) 1 word }
    ensures small { result < 2 ^ 8 }
{
    (word >> (8 * (address % 4))) & 0xff
}

fn half_in(address: u32, word: u32) -> u32
    ensures value { result ≡ bytes_at (place_in_word address) 2 word }
    ensures small { result < 2 ^ 16 }
{
    (word >> (8 * (address % 4))) & 0xffff
}

/// A number of so many bits, whose highest is its sign, in 32 bits.
fn sign_extended(bits: u32, width: u32) -> u32
    requires some { 0 < width }
    requires few { width < 32 }
    requires fits { bits < 2 ^ width }
    ensures { result ≡ sign_extended width bits }
{
    if bits < 1 << (width - 1) {
        bits
    } else {
        bits + (u32::MAX - (1 << width) + 1)
    }
}
