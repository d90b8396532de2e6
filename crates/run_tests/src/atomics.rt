//! An atomic operation of a hart that is in state M on its line, while the line is pending and without.
ghost use Rattle.std.specs.Prelude.{IfOk};
ghost use Rattle.unit_rows.specs.Shown.{config, shown, AreSized};

use crate::openings::site;
use dash_base::{HartId, Labels, Line, LineId, Mask, Need, WordAddr};
use dash_event::{Access, Kind, Op, Seen};
use std::alloc::Global;
use std::process::Abort;
use std::test::Fail;
use unit_rows::{Parts, Site, atomic, opening_parts};

/// `amoadd.w t0,a1,(zero)`: it adds to the first word of memory how many harts there are, which is 4.
const ADD: u32 = 0x00b0_22af;

const LINE: LineId = LineId(0);

const COPY: Line = Line {
    words: [5, 6, 7, 8],
    version: 3,
};

/// The parts at the start, where hart 0 is in state M on the line, which is pending or not.
fn owning(rt: &impl Abort, alloc: Global, site: &Site, pending: bool) -> Result<Parts, Fail>
    ensures { IfOk result (λ parts. AreSized (config site.now) site.now.cluster.0 (shown parts)) }
{
    let mut parts = opening_parts(alloc, site)?;
    assert!(rt; parts.bus.harts() > 0);
    assert!(rt; parts.bus.room(0, LINE));
    parts.bus.install(0, LINE, COPY, true);
    if !pending {
        return Ok(parts);
    }
    assert!(rt; parts.acks.free());
    parts.acks.begin(LINE);
    Ok(parts)
}

/// Hart 0 does its next instruction, an atomic operation.
fn step(site: &Site, parts: &mut Parts) -> Option<Kind>
    requires { AreSized (config site.now) site.now.cluster.0 (shown parts.old) }
{
    match parts.locals[0].core.next(&site.image, &site.topology) {
        Need::Rmw {
            word,
            op,
            operand,
            labels,
        } => atomic(site, parts, 0, word, op, operand, labels),
        _ => None,
    }
}

#[test]
fn an_atomic_operation_answers_the_old_word_and_writes(rt: HostRuntime) -> Result<(), Fail> {
    let alloc = rt.alloc();
    let site = site(&rt, alloc, ADD)?;
    let mut parts = owning(&rt, alloc, &site, false)?;
    let access = Access {
        hart: HartId(0),
        number: 1,
        op: Op::Amo,
        labels: Labels {
            aq: false,
            rl: false,
        },
        word: WordAddr(0),
        mask: Mask::new(15),
        read: Some(5),
        written: Some(9),
        seen: Seen::Line(3),
    };
    let done = Kind::Rmw {
        access,
        line: LINE,
        version: 4,
    };
    let next = Line {
        words: [9, 6, 7, 8],
        version: 4,
    };
    assert_eq!(rt; step(&site, &mut parts), Some(done));
    assert_eq!(rt; parts.bus.peek(LINE), Some(next));
    for local in parts.locals.iter().take(1) {
        assert_eq!(rt; local.core.registers()[5], 5);
        assert_eq!(rt; local.core.pc(), 0x1_0004);
    }
    Ok(())
}

#[test]
fn an_atomic_operation_waits_while_its_line_is_pending(rt: HostRuntime) -> Result<(), Fail> {
    let alloc = rt.alloc();
    let site = site(&rt, alloc, ADD)?;
    let mut parts = owning(&rt, alloc, &site, true)?;
    assert_eq!(rt; step(&site, &mut parts), None);
    assert_eq!(rt; parts.bus.peek(LINE), Some(COPY));
    for local in &parts.locals {
        assert_eq!(rt; local.core.retired(), 0);
    }
    Ok(())
}
