//! Tests with a log of each kind that shows something.

use dash_base::{ClusterId, HartId, Labels, LineId, Mask, OutOfMemory, WordAddr};
use dash_event::{Access, Event, Kind, Op, Seen};
use std::alloc::Global;
use std::test::Fail;
use trace_merge::{accesses, console};
use workload_runs::{counters_of, summary_of_run};

const HART: HartId = HartId(0);

/// The access of an instruction to a word, with what it reads and writes.
fn access(number: u32, op: Op, read: Option<u32>, written: Option<u32>) -> Access {
    Access {
        hart: HART,
        number,
        op,
        labels: Labels {
            aq: false,
            rl: false,
        },
        word: WordAddr(0x1_0000),
        mask: Mask::new(15),
        read,
        written,
        seen: Seen::Nothing,
    }
}

/// Each kind that has an access or puts a byte, with others between them.
fn kinds() -> [Kind; 10] {
    [
        Kind::Store {
            access: access(1, Op::Store, None, Some(7)),
        },
        Kind::Put {
            hart: HART,
            pc: 4,
            byte: b'o',
        },
        Kind::Load {
            access: access(3, Op::Load, Some(7), None),
            level: 0,
        },
        Kind::Commit {
            hart: HART,
            number: 1,
            line: LineId(0),
            version: 1,
        },
        Kind::Rmw {
            access: access(4, Op::Amo, Some(7), Some(8)),
            line: LineId(0),
            version: 2,
        },
        Kind::ScFail {
            access: access(5, Op::Cond, None, None),
        },
        Kind::Alu { hart: HART, pc: 20 },
        Kind::Grant {
            access: access(7, Op::Ask, Some(0), Some(1)),
        },
        Kind::Put {
            hart: HART,
            pc: 28,
            byte: b'k',
        },
        Kind::Free {
            from: ClusterId(0),
            access: access(9, Op::Unlock, Some(1), Some(0)),
        },
    ]
}

/// A log of so many turns, with one event of each kind in a turn.
fn log_of(alloc: Global, turns: u32) -> Result<Vec<Event>, OutOfMemory> {
    let mut log: Vec<Event> = Vec::new(alloc);
    let mut stamp: u64 = 0;
    for _ in 0..turns {
        for kind in kinds() {
            stamp = stamp.saturating_add(1);
            log.push(Event {
                stamp,
                cluster: ClusterId(0),
                kind,
            })?;
        }
    }
    Ok(log)
}

#[test]
fn a_log_shows_its_accesses_and_its_console_in_order(rt: HostRuntime) -> Result<(), Fail> {
    let log = log_of(rt.alloc(), 1)?;
    let shown = accesses(rt.alloc(), &log)?;
    let numbers: Vec<u32> = shown
        .iter()
        .map(|access| access.number)
        .collect(rt.alloc())?;
    assert_eq!(rt; numbers.as_slice(), &[1, 3, 4, 5, 7, 9][..]);
    assert_eq!(rt; shown[3], access(5, Op::Cond, None, None));
    assert_eq!(rt; console(rt.alloc(), &log)?.as_slice(), &b"ok"[..]);
    Ok(())
}

#[test]
fn a_log_of_three_hundred_events_shows_each_of_them(rt: HostRuntime) -> Result<(), Fail> {
    let log = log_of(rt.alloc(), 30)?;
    assert_eq!(rt; log.len(), 300);
    let numbers: Vec<u32> = accesses(rt.alloc(), &log)?
        .iter()
        .map(|access| access.number)
        .collect(rt.alloc())?;
    let mut wanted: Vec<u32> = Vec::new(rt.alloc());
    let mut text: Vec<u8> = Vec::new(rt.alloc());
    for _ in 0..30 {
        wanted.extend_from_slice(&[1, 3, 4, 5, 7, 9])?;
        text.extend_from_slice(b"ok")?;
    }
    assert_eq!(rt; numbers, wanted);
    assert_eq!(rt; console(rt.alloc(), &log)?, text);
    Ok(())
}

/// A store of a value to the word at an address.
fn stores(word: u32, value: u32) -> Event {
    let access = Access {
        word: WordAddr(word),
        ..access(1, Op::Store, None, Some(value))
    };
    Event {
        stamp: 1,
        cluster: ClusterId(0),
        kind: Kind::Store { access },
    }
}

#[test]
fn a_counter_is_what_the_last_store_of_its_word_wrote(rt: HostRuntime) -> Result<(), Fail> {
    let log = [
        stores(0x8000, 5),
        stores(0x8010, 6),
        stores(0x8000, 7),
        stores(0x83f0, 8),
        stores(0x8400, 9),
        stores(0x8004, 10),
        stores(0x7ff0, 11),
    ];
    let counters = counters_of(rt.alloc(), &log)?;
    assert_eq!(rt; counters.len(), 64);
    assert_eq!(rt; counters[0], 7);
    assert_eq!(rt; counters[1], 6);
    assert_eq!(rt; counters[2], 0);
    assert_eq!(rt; counters[63], 8);
    let text = summary_of_run(rt.alloc(), 7, &[20, 22], &log)?;
    let head = b"seed 7 harts 2 retired 42\ncounter 0 7\ncounter 1 6\ncounter 2 0\n";
    assert!(rt; text.starts_with(&head[..]));
    assert!(rt; text.ends_with(&b"counter 62 0\ncounter 63 8\n"[..]));
    Ok(())
}
