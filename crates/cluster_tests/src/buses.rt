//! A worked example, the largest caches, and random calls against a plain program: tables with a
//! place for each line.

use dash_base::{Line, LineId, Topology};
use snoop_bus::Bus;
use std::process::Abort;
use std::test::Fail;

const ZEROS: Line = Line {
    words: [0; 4],
    version: 0,
};

/// Four harts, each with an L2 of 16 lines and an L1 of one.
fn small() -> Topology {
    Topology {
        clusters: 1,
        harts: 4,
        budget: 10,
        memory: 65_536,
        locks: 0,
        base: 0,
        l2: 16,
        l1: 1,
        buffer: 1,
        acks: 1,
        prefetch: 0,
        stack: 16,
    }
}

/// Four harts, each with the largest caches.
fn large() -> Topology {
    Topology {
        clusters: 1,
        harts: 4,
        budget: 10,
        memory: 65_536,
        locks: 0,
        base: 0,
        l2: 16_384,
        l1: 16_384,
        buffer: 1,
        acks: 1,
        prefetch: 0,
        stack: 16,
    }
}

/// What four harts have of the lines below 512.
#[derive(Drop)]
struct Plain {
    l1: u32,
    l2: u32,
    holders: [u32; 512],
    owners: [Option<u32>; 512],
    copies: [Line; 512],
    in_l1: [[bool; 512]; 4],
}

impl Plain {
    fn new(topology: &Topology) -> Plain {
        Plain {
            l1: topology.l1,
            l2: topology.l2,
            holders: [0; 512],
            owners: [None; 512],
            copies: [ZEROS; 512],
            in_l1: [[false; 512]; 4],
        }
    }

    fn holds(&self, hart: u32, line: usize) -> bool {
        (self.holders[line % 512] >> (hart % 4)) % 2 == 1
    }

    fn is_near(&self, hart: u32, line: usize) -> bool {
        let row = &self.in_l1[hart as usize % 4];
        row[line % 512]
    }

    fn set_in_l1(&mut self, hart: u32, line: usize, in_l1: bool) {
        let row = &mut self.in_l1[hart as usize % 4];
        row[line % 512] = in_l1;
    }

    fn peek(&self, line: usize) -> Option<Line> {
        (self.holders[line % 512] != 0).then_some(self.copies[line % 512])
    }

    fn victim(&self, hart: u32, line: usize) -> Option<LineId> {
        let l2 = self.l2.max(1) as usize;
        (0..512_u32)
            .find(|&other| {
                let other = other as usize;
                other != line && other % l2 == line % l2 && self.holds(hart, other)
            })
            .map(LineId)
    }

    fn read(&mut self, hart: u32, line: usize) -> Option<(Line, u32)> {
        if !self.holds(hart, line) {
            return None;
        }
        let copy = self.copies[line % 512];
        if self.is_near(hart, line) {
            return Some((copy, 1));
        }
        let l1 = self.l1.max(1) as usize;
        for other in 0..512 {
            if other % l1 == line % l1 {
                self.set_in_l1(hart, other, false);
            }
        }
        self.set_in_l1(hart, line, true);
        Some((copy, 2))
    }

    fn join(&mut self, hart: u32, line: usize) {
        self.holders[line % 512] |= 1 << (hart % 4);
    }

    fn drop_one(&mut self, hart: u32, line: usize) {
        self.holders[line % 512] &= !(1 << (hart % 4));
        self.set_in_l1(hart, line, false);
        if self.owners[line % 512] == Some(hart) {
            self.owners[line % 512] = None;
        }
    }

    fn clear_all(&mut self, line: usize) {
        for hart in 0..4 {
            self.drop_one(hart, line);
        }
    }

    fn install(&mut self, hart: u32, line: usize, copy: Line, own: bool) {
        for other in 0..4 {
            if other != hart {
                self.drop_one(other, line);
            }
        }
        self.join(hart, line);
        self.owners[line % 512] = own.then_some(hart);
        self.copies[line % 512] = copy;
    }
}

/// The next number of a fixed sequence, below 2^31 (Knuth's MMIX constants).
fn random(state: &mut u64) -> u32 {
    *state = state
        .wrapping_mul(6_364_136_223_846_793_005)
        .wrapping_add(1_442_695_040_888_963_407);
    (*state >> 33) as u32
}

/// One random call, made to the bus and to the tables where its conditions hold.
fn call(bus: &mut Bus, plain: &mut Plain, state: &mut u64, hart: u32, line: u32) {
    let place = line as usize;
    let copy = Line {
        words: [random(state), line, hart, 7],
        version: u64::from(random(state)),
    };
    if hart >= bus.harts() {
        return;
    }
    match random(state) % 10 {
        0 => {
            bus.drop_one(hart, LineId(line));
            plain.drop_one(hart, place);
        }
        1 if random(state) % 4 == 0 => {
            bus.clear_all(LineId(line));
            plain.clear_all(place);
        }
        2 => {
            bus.downgrade(LineId(line));
            plain.owners[place % 512] = None;
        }
        3 => commit(bus, plain, hart, line, copy),
        4 | 5 if bus.room(hart, LineId(line)) && bus.peek(LineId(line)).is_some() => {
            bus.bus_read(hart, LineId(line));
            plain.join(hart, place);
        }
        6 if bus.room(hart, LineId(line)) && bus.owner(LineId(line)).is_some() => {
            bus.bus_own(hart, LineId(line));
            let copy = plain.copies[place % 512];
            plain.install(hart, place, copy, true);
        }
        7 | 8 if bus.room(hart, LineId(line)) => {
            let own = random(state) % 2 == 0;
            bus.install(hart, LineId(line), copy, own);
            plain.install(hart, place, copy, own);
        }
        _ => {
            if let Some(other) = bus.victim(hart, LineId(line)) {
                bus.drop_one(hart, other);
                plain.drop_one(hart, other.0 as usize);
            }
        }
    }
}

/// A commit where the hart is the owner and the only holder.
fn commit(bus: &mut Bus, plain: &mut Plain, hart: u32, line: u32, copy: Line) {
    if hart >= bus.harts() || hart >= 32 {
        return;
    }
    if bus.owner(LineId(line)) == Some(hart) && bus.holders(LineId(line)) == 1 << hart {
        bus.commit(hart, LineId(line), copy);
        plain.copies[line as usize % 512] = copy;
    }
}

/// Whether the bus answers as the tables do, for one hart and one line.
fn answers_alike(bus: &mut Bus, plain: &mut Plain, hart: u32, line: u32) -> bool {
    let place = line as usize;
    let is_one_map = bus.holders(LineId(line)) == plain.holders[place % 512]
        && bus.owner(LineId(line)) == plain.owners[place % 512]
        && bus.peek(LineId(line)) == plain.peek(place);
    is_one_map
        && hart < bus.harts()
        && bus.victim(hart, LineId(line)) == plain.victim(hart, place)
        && bus.read(hart, LineId(line)) == plain.read(hart, place)
}

/// Random calls of as many harts as the topology has, on lines that are `stride` apart.
fn meets(rt: &impl Abort, bus: &mut Bus, topology: &Topology, stride: u32, seed: u64) {
    let mut state = seed;
    let mut plain = Plain::new(topology);
    for step in 0..700_u32 {
        let hart = random(&mut state) % topology.harts;
        let line = random(&mut state) % 48 * (stride % 10);
        call(bus, &mut plain, &mut state, hart, line);
        let alike = answers_alike(bus, &mut plain, hart, line);
        assert!(rt; alike, "seed {seed}, step {step}, hart {hart}, line {line}");
    }
}

#[test]
fn an_l1_of_one_line_keeps_the_line_read_last(rt: HostRuntime) -> Result<(), Fail> {
    let mut bus = Bus::new(rt.alloc(), &small())?;
    assert!(rt; bus.harts() == 4);
    for line in [0, 1] {
        if bus.harts() > 0 && bus.room(0, LineId(line)) {
            bus.install(0, LineId(line), ZEROS, false);
        }
    }
    for (line, level) in [(0, 2), (0, 1), (1, 2), (0, 2)] {
        if bus.harts() > 0 {
            assert_eq!(rt;
                bus.read(0, LineId(line)),
                Some((ZEROS, level)),
                "line {line}"
            );
        }
    }
    if bus.harts() > 0 {
        assert_eq!(rt; bus.victim(0, LineId(16)), Some(LineId(0)));
        assert_eq!(rt; bus.victim(0, LineId(2)), None);
    }
    assert_eq!(rt; bus.holders(LineId(0)), 1);
    assert_eq!(rt; bus.owner(LineId(0)), None);
    Ok(())
}

#[test]
fn the_largest_caches_are_made(rt: HostRuntime) -> Result<(), Fail> {
    let bus = Bus::new(rt.alloc(), &large())?;
    assert_eq!(rt; bus.harts(), 4);
    assert_eq!(rt; bus.peek(LineId(16_383)), None);
    Ok(())
}

#[test]
fn random_calls_meet_tables_by_line(rt: HostRuntime) -> Result<(), Fail> {
    for seed in [1, 2, 3] {
        let topology = small();
        let mut bus = Bus::new(rt.alloc(), &topology)?;
        meets(&rt, &mut bus, &topology, 1, seed);
    }
    for (seed, harts) in [(4, 1), (5, 2), (6, 3), (7, 4)] {
        let topology = Topology::simple(1, harts, 10)?;
        let mut bus = Bus::new(rt.alloc(), &topology)?;
        meets(&rt, &mut bus, &topology, 8, seed);
    }
    Ok(())
}
