//! The sizes of a machine as they are given, and the bounds that they have to keep.
ghost use Rattle.std.specs.Prelude.{◌≡◌, ◌+◌, ◌*◌, ◌/◌, ◌<◌, ◌^◌};
ghost use Rattle.dash_base.specs.Sizes.{default_stack, simple_sizes, stack_limit, fits, first_out_of_bounds, is_power, first_no_power, is_too_much, sizes_refusal};

use crate::topology::{Key, TopoRefusal};

/// Every key, in the order of the table of keys.
pub const KEYS: [Key; 12] = [
    Key::Clusters,
    Key::Harts,
    Key::Budget,
    Key::Memory,
    Key::Locks,
    Key::Base,
    Key::L2,
    Key::L1,
    Key::Buffer,
    Key::Acks,
    Key::Prefetch,
    Key::Stack,
];

/// The keys whose sizes are powers of two.
const POWERS: [Key; 3] = [Key::Memory, Key::L2, Key::L1];

/// The twelve numbers of a topology as they are given, within their bounds or not. Each is in the unit
/// that the field of its name has in [`Topology`](crate::Topology).
#[derive(Clone, Copy, Debug, PartialEq, Eq)]
pub struct Sizes {
    pub clusters: u32,
    pub harts: u32,
    pub budget: u32,
    pub memory: u32,
    pub locks: u32,
    pub base: u32,
    pub l2: u32,
    pub l1: u32,
    pub buffer: u32,
    pub acks: u32,
    pub prefetch: u32,
    pub stack: u32,
}

impl Sizes {
    /// These three sizes, and every other one at its default.
    pub fn simple(clusters: u32, harts: u32, budget: u32) -> Sizes
        ensures { result ≡ simple_sizes clusters harts budget }
    {
        Sizes {
            clusters,
            harts,
            budget,
            memory: 1_048_576,
            locks: 64,
            base: 0,
            l2: 256,
            l1: 16,
            buffer: 4,
            acks: 4,
            prefetch: 2,
            stack: default_stack(clusters, harts, 1_048_576),
        }
    }

    /// Why there is no topology of these sizes: the first key out of its bounds, in the order of the
    /// table; then the first that is no power of two and has to be one; then too much work. None where
    /// there is one.
    pub fn refusal(&self) -> Option<TopoRefusal>
        ensures { result ≡ sizes_refusal self.now }
    {
        if let Some(key) = self.first_out_of_bounds() {
            return Some(TopoRefusal::Range { key });
        }
        if let Some(key) = self.first_no_power() {
            return Some(TopoRefusal::NotPower { key });
        }
        if self.is_too_much() {
            Some(TopoRefusal::TooMuch)
        } else {
            None
        }
    }

    fn first_out_of_bounds(&self) -> Option<Key>
        ensures { result ≡ first_out_of_bounds self.now }
    {
        KEYS.iter().copied().find(|key| !self.fits(*key))
    }

    fn first_no_power(&self) -> Option<Key>
        ensures { result ≡ first_no_power self.now }
    {
        POWERS.iter().copied().find(|key| !self.is_power(*key))
    }

    /// Whether a key's size is within its bounds.
    fn fits(&self, key: Key) -> bool
        ensures { result ≡ fits self.now key }
    {
        match key {
            Key::Clusters => (1..=16).contains(&self.clusters),
            Key::Harts => (1..=4).contains(&self.harts),
            Key::Budget => (1..=2_147_483_647).contains(&self.budget),
            Key::Memory => (65_536..=16_777_216).contains(&self.memory),
            Key::Locks => self.locks <= 1_024,
            Key::Base => self.base % 65_536 == 0 && self.end() <= 4_294_901_760,
            Key::L2 => (16..=16_384).contains(&self.l2),
            Key::L1 => (1..=self.l2).contains(&self.l1),
            Key::Buffer => (1..=16).contains(&self.buffer),
            Key::Acks => (1..=16).contains(&self.acks),
            Key::Prefetch => self.prefetch <= 8,
            Key::Stack => self.stack % 16 == 0
                && (16..=self.stack_limit()).contains(&u64::from(self.stack)),
        }
    }

    /// The first address behind the lock words.
    fn end(&self) -> u64
        ensures { result ≡ self.now.base + self.now.memory + 4 * self.now.locks }
    {
        u64::from(self.base) + u64::from(self.memory) + 4 * u64::from(self.locks)
    }

    /// Each hart's equal part of memory, in bytes.
    fn stack_limit(&self) -> u64
        ensures { result ≡ stack_limit self.now }
    {
        part_of(self.memory, self.clusters, self.harts)
    }

    /// Whether a key's size is a power of two.
    fn is_power(&self, key: Key) -> bool
        ensures { result ≡ is_power self.now key }
    {
        match key {
            Key::Memory => self.memory.is_power_of_two(),
            Key::L2 => self.l2.is_power_of_two(),
            Key::L1 => self.l1.is_power_of_two(),
            _ => true,
        }
    }

    /// Whether the harts may together retire more than 2,000,000 instructions.
    fn is_too_much(&self) -> bool
        ensures { result ≡ is_too_much self.now }
    {
        let harts = u128::from(self.clusters) * u128::from(self.harts);
        harts * u128::from(self.budget) > 2_000_000
    }
}

/// The bytes of stack that a hart has by default: a quarter of its equal part of memory, rounded down
/// to a multiple of 16.
pub fn default_stack(clusters: u32, harts: u32, memory: u32) -> u32
    ensures { result ≡ default_stack clusters harts memory }
{
    let part = part_of(memory / 4, clusters, harts);
    part as u32 / 16 * 16
}

/// The equal part that each hart has of so many bytes; 0 where there is no hart.
fn part_of(bytes: u32, clusters: u32, harts: u32) -> u64
    ensures part { result ≡ bytes / (clusters * harts) }
    ensures small { result < 2 ^ 32 }
{
    match u64::from(bytes).checked_div(u64::from(clusters) * u64::from(harts)) {
        Some(part) => part,
        None => 0,
    }
}
