//! The shape and the sizes of a machine, and why one is refused.
ghost use Rattle.std.specs.Prelude.{◌≡◌, ℕ, ◌+◌, ◌*◌, ◌/◌, ◌%◌, ◌≤◌};
ghost use Rattle.std.specs.Int.{IsPowerOfTwo};
ghost use Rattle.dash_base.specs.Bounds.{IsBetween};

use crate::sizes::Sizes;
use std::marker::Model;

/// The twelve keys of a topology, each within its bounds.
#[derive(Clone, Copy, Debug, PartialEq, Eq)]
pub struct Topology {
    /// Clusters: 1 to 16.
    pub clusters: u32,
    /// Harts in each cluster: 1 to 4.
    pub harts: u32,
    /// Instructions that each hart may retire: 1 to 2,147,483,647.
    pub budget: u32,
    /// Bytes of memory: a power of two from 65,536 to 16,777,216.
    pub memory: u32,
    /// Lock words, which follow memory: up to 1,024.
    pub locks: u32,
    /// The address of the first byte of memory: a multiple of 65,536.
    pub base: u32,
    /// Lines of each hart's second-level cache: a power of two from 16 to 16,384.
    pub l2: u32,
    /// Lines of each hart's first-level cache: a power of two from 1 to `l2`.
    pub l1: u32,
    /// Entries of each hart's write buffer: 1 to 16.
    pub buffer: u32,
    /// Entries of each cluster's table of acknowledgements: 1 to 16.
    pub acks: u32,
    /// Prefetch slots of each cluster: up to 8.
    pub prefetch: u32,
    /// Bytes of stack for each hart: a multiple of 16.
    pub stack: u32,
    pub ghost clusters_in_range: { IsBetween 1 16 clusters },
    pub ghost harts_in_range: { IsBetween 1 4 harts },
    pub ghost budget_in_range: { IsBetween 1 2147483647 budget },
    pub ghost memory_in_range: { IsBetween 65536 16777216 memory },
    pub ghost memory_is_power: { ∥ IsPowerOfTwo memory ∥₁ },
    pub ghost memory_in_pages: { memory % 65536 ≡ 0 },
    pub ghost locks_in_range: { locks ≤ 1024 },
    pub ghost base_in_pages: { base % 65536 ≡ 0 },
    pub ghost base_in_range: { base + memory + 4 * locks ≤ 4294901760 },
    pub ghost l2_in_range: { IsBetween 16 16384 l2 },
    pub ghost l2_is_power: { ∥ IsPowerOfTwo l2 ∥₁ },
    pub ghost l1_in_range: { IsBetween 1 l2 l1 },
    pub ghost l1_is_power: { ∥ IsPowerOfTwo l1 ∥₁ },
    pub ghost buffer_in_range: { IsBetween 1 16 buffer },
    pub ghost acks_in_range: { IsBetween 1 16 acks },
    pub ghost prefetch_in_range: { prefetch ≤ 8 },
    pub ghost stack_in_range: { IsBetween 16 (memory / (clusters * harts)) stack },
    pub ghost stack_is_aligned: { stack % 16 ≡ 0 },
    pub ghost work_in_range: { clusters * harts * budget ≤ 2000000 },
}

/// A key of a topology, by its name.
#[derive(Clone, Copy, Debug, PartialEq, Eq)]
pub enum Key {
    Clusters,
    Harts,
    Budget,
    Memory,
    Locks,
    Base,
    L2,
    L1,
    Buffer,
    Acks,
    Prefetch,
    Stack,
}

/// The name of a key that no topology has. Contracts see its bytes.
#[derive(Debug, Drop)]
pub struct KeyName {
    pub text: String,
}

impl Model for KeyName {
    ghost use Rattle.std.specs.Prelude.{ℕ, List, string_bytes};

    ghost Value = { List ℕ };

    ghost view = { λ k. string_bytes k.text };
}

/// Why a topology is refused.
#[derive(Debug, Drop)]
pub enum TopoRefusal {
    /// The text is no TOML document.
    Syntax,
    /// A required key is not there.
    Missing { key: Key },
    /// A key is there that no topology has.
    Unknown { key: KeyName },
    /// A key's value is no integer, or not within its bounds.
    Range { key: Key },
    /// A key's value is no power of two.
    NotPower { key: Key },
    /// The harts may together retire more than 2,000,000 instructions.
    TooMuch,
    /// There was no memory left.
    OutOfMemory,
}

impl Key {
    ghost use Rattle.std.specs.Prelude.{◌≡◌};
    ghost use Rattle.dash_base.specs.Names.{key_name};

    /// The name of the key, as a topology's text has it.
    pub fn name(self) -> &'static str
        ensures { result.now ≡ key_name self }
    {
        match self {
            Key::Clusters => "clusters",
            Key::Harts => "harts",
            Key::Budget => "budget",
            Key::Memory => "memory",
            Key::Locks => "locks",
            Key::Base => "base",
            Key::L2 => "l2",
            Key::L1 => "l1",
            Key::Buffer => "buffer",
            Key::Acks => "acks",
            Key::Prefetch => "prefetch",
            Key::Stack => "stack",
        }
    }
}

impl Topology {
    ghost use Rattle.std.specs.Prelude.{◌≡◌, IfOk, IfErr, Some, None, Option};
    ghost use Rattle.dash_base.specs.Sizes.{sizes_refusal};
    ghost use Rattle.dash_base.specs.Topology.{HasSizes, IsSimple, simple_refusal};

    /// The topology with these keys, and every other one at its default. It refuses as
    /// [`Topology::of`] does.
    pub fn simple(clusters: u32, harts: u32, budget: u32) -> Result<Topology, TopoRefusal>
        ensures ok { IfOk result (IsSimple clusters harts budget) }
        ensures accepted { IfOk result (λ _. simple_refusal clusters harts budget ≡ None) }
        ensures err { IfErr result (λ refusal. simple_refusal clusters harts budget ≡ Some refusal) }
    {
        let sizes = Sizes::simple(clusters, harts, budget);
        Topology::of(&sizes)
    }

    /// The topology of these sizes. It refuses the first key out of its bounds, in the order of the
    /// table of keys; then the first that is no power of two and has to be one; then too much work.
    pub fn of(sizes: &Sizes) -> Result<Topology, TopoRefusal>
        ensures ok { IfOk result (HasSizes sizes.now) }
        ensures accepted { IfOk result (λ _. sizes_refusal sizes.now ≡ None) }
        ensures err { IfErr result (λ refusal. sizes_refusal sizes.now ≡ Some refusal) }
    {
        if let Some(refusal) = sizes.refusal() {
            return Err(refusal);
        }
        Ok(Topology {
            clusters: sizes.clusters,
            harts: sizes.harts,
            budget: sizes.budget,
            memory: sizes.memory,
            locks: sizes.locks,
            base: sizes.base,
            l2: sizes.l2,
            l1: sizes.l1,
            buffer: sizes.buffer,
            acks: sizes.acks,
            prefetch: sizes.prefetch,
            stack: sizes.stack,
        })
    }
}
