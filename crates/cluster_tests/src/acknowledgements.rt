//! The life of an entry, a table of rows, and random calls beside a table by line.

use ack_counter::AckTable;
use dash_base::LineId;

const LINE: LineId = LineId(7);

const OTHER: LineId = LineId(8);

/// Begins an entry, where there is room.
fn begin(table: &mut AckTable, line: LineId) {
    if table.free() {
        table.begin(line);
    }
}

/// One more acknowledgement of a line came, where it can be counted.
fn ack(table: &mut AckTable, line: LineId) {
    match table.got(line) {
        Some(u32::MAX) => {}
        Some(_) | None => table.ack(line),
    }
}

#[test]
fn an_entry_closes_with_its_last_acknowledgement(rt: HostRuntime) {
    let mut table = AckTable::new(2);
    assert!(rt; table.free());
    assert!(rt; !table.pending(LINE));
    assert_eq!(rt; table.got(LINE), None);
    begin(&mut table, LINE);
    assert!(rt; table.pending(LINE));
    assert_eq!(rt; table.got(LINE), Some(0));
    table.owe(LINE, 0);
    table.owe(LINE, 3);
    table.owe(LINE, 3);
    table.owe(OTHER, 1);
    begin(&mut table, OTHER);
    assert!(rt; !table.free());
    table.owe(OTHER, 3);
    assert_eq!(rt; table.owed(0), 1);
    assert_eq!(rt; table.owed(1), 0);
    assert_eq!(rt; table.owed(3), 2);
    ack(&mut table, LINE);
    table.grant(LINE, 2);
    assert_eq!(rt; table.got(LINE), Some(1));
    ack(&mut table, LINE);
    assert!(rt; !table.pending(LINE));
    assert!(rt; table.free());
    assert_eq!(rt; table.owed(0), 0);
    assert_eq!(rt; table.owed(3), 1);
    table.cancel(OTHER);
    assert_eq!(rt; table.owed(3), 0);
    table.keeps_to_its_capacity();
}

#[test]
fn what_is_owed_goes_with_the_entry(rt: HostRuntime) {
    let mut table = AckTable::new(4);
    let line = LineId(5);
    begin(&mut table, line);
    ack(&mut table, line);
    table.owe(line, 1);
    assert_eq!(rt; table.owed(1), 1);
    table.grant(line, 2);
    assert!(rt; table.pending(line));
    ack(&mut table, line);
    assert!(rt; !table.pending(line));
    assert_eq!(rt; table.owed(1), 0);
}

#[test]
fn an_entry_that_begins_again_is_fresh(rt: HostRuntime) {
    let mut table = AckTable::new(2);
    begin(&mut table, LINE);
    table.owe(LINE, 2);
    table.grant(LINE, 3);
    ack(&mut table, LINE);
    begin(&mut table, LINE);
    assert_eq!(rt; table.got(LINE), Some(0));
    assert_eq!(rt; table.owed(2), 0);
    ack(&mut table, LINE);
    ack(&mut table, LINE);
    ack(&mut table, LINE);
    assert_eq!(rt; table.got(LINE), Some(3));
    assert!(rt; table.free());
}

/// What happens to a line.
#[derive(Clone, Copy)]
enum Step {
    Begin,
    Cancel,
    Grant(u32),
    Ack,
}

/// How many acknowledgements came after these steps, if the line has an entry.
fn after(steps: &[Step]) -> Option<u32> {
    let mut table = AckTable::new(1);
    for step in steps {
        match *step {
            Step::Begin => begin(&mut table, LINE),
            Step::Cancel => table.cancel(LINE),
            Step::Grant(count) => table.grant(LINE, count),
            Step::Ack => ack(&mut table, LINE),
        }
    }
    table.got(LINE)
}

#[test]
fn an_entry_is_closed_exactly_where_all_came(rt: HostRuntime) {
    let rows: [(&[Step], Option<u32>); 12] = [
        (&[], None),
        (&[Step::Ack], None),
        (&[Step::Grant(0)], None),
        (&[Step::Begin], Some(0)),
        (&[Step::Begin, Step::Cancel], None),
        (&[Step::Begin, Step::Grant(0)], None),
        (&[Step::Begin, Step::Grant(1)], Some(0)),
        (&[Step::Begin, Step::Grant(1), Step::Ack], None),
        (&[Step::Begin, Step::Ack, Step::Grant(1)], None),
        (&[Step::Begin, Step::Ack, Step::Ack], Some(2)),
        (
            &[Step::Begin, Step::Ack, Step::Ack, Step::Grant(1)],
            Some(2),
        ),
        (
            &[Step::Begin, Step::Grant(2), Step::Ack, Step::Grant(1)],
            None,
        ),
    ];
    for (row, (steps, got)) in rows.iter().enumerate() {
        assert_eq!(rt; after(steps), *got, "row {row}");
    }
}

/// What a plain table has of a line.
#[derive(Clone, Copy)]
struct Plain {
    expected: Option<u32>,
    got: u32,
    owed: [bool; 4],
}

/// The entry, unless all came.
fn unless_all(entry: Plain) -> Option<Plain> {
    if entry.expected == Some(entry.got) {
        None
    } else {
        Some(entry)
    }
}

/// The next number of a fixed sequence, below 2^31 (Knuth's MMIX constants).
fn random(state: &mut u64) -> u32 {
    *state = state
        .wrapping_mul(6_364_136_223_846_793_005)
        .wrapping_add(1_442_695_040_888_963_407);
    (*state >> 33) as u32
}

/// How many entries are owed to a hart.
fn owed(plain: &[Option<Plain>], hart: u32) -> u32 {
    let mut count: u32 = 0;
    for entry in plain {
        if let Some(entry) = entry {
            if entry.owed[(hart % 4) as usize] {
                count = count.saturating_add(1);
            }
        }
    }
    count
}

/// One random call on both tables, for a line below 20.
fn call(table: &mut AckTable, plain: &mut [Option<Plain>; 20], state: &mut u64) {
    let line = random(state) % 20;
    let hart = random(state) % 4;
    let old = plain[(line % 20) as usize];
    let new = match random(state) % 8 {
        0 | 1 if table.free() => {
            table.begin(LineId(line));
            Some(Plain {
                expected: None,
                got: 0,
                owed: [false; 4],
            })
        }
        2 => {
            table.cancel(LineId(line));
            None
        }
        3 => {
            let count = random(state) % 4;
            table.grant(LineId(line), count);
            old.and_then(|entry| {
                unless_all(Plain {
                    expected: Some(count),
                    ..entry
                })
            })
        }
        4 | 5 => {
            ack(table, LineId(line));
            old.and_then(|entry| {
                unless_all(Plain {
                    got: entry.got.saturating_add(1),
                    ..entry
                })
            })
        }
        _ => {
            table.owe(LineId(line), hart);
            old.map(|mut entry| {
                entry.owed[(hart % 4) as usize] = true;
                entry
            })
        }
    };
    plain[(line % 20) as usize] = new;
}

#[test]
fn random_calls_meet_a_table_by_line(rt: HostRuntime) {
    for (seed, entries) in [(1, 1), (2, 4), (3, 16)] {
        let mut state = seed;
        let mut table = AckTable::new(entries);
        let mut plain = [None; 20];
        for step in 0..600 {
            call(&mut table, &mut plain, &mut state);
            let mut count: u32 = 0;
            for line in 0..20_u32 {
                let entry = plain[(line % 20) as usize];
                assert_eq!(rt;
                    table.got(LineId(line)),
                    entry.map(|entry| entry.got),
                    "seed {seed}, step {step}, line {line}"
                );
                assert_eq!(rt; table.pending(LineId(line)), entry.is_some());
                if entry.is_some() {
                    count = count.saturating_add(1);
                }
            }
            assert_eq!(rt; table.free(), count < entries);
            for hart in 0..4 {
                assert_eq!(rt; table.owed(hart), owed(&plain, hart));
            }
        }
    }
}
