//! The life of a request, and a table of what messages make of a slot.

use dash_base::{ClusterId, Line, LineId};
use dash_msg::Msg;
use remote_cache::{Phase, Slot, Slots};

const LINE: LineId = LineId(7);

const OTHER: LineId = LineId(8);

const COPY: Line = Line {
    words: [1, 2, 3, 4],
    version: 5,
};

/// The replies to a request for a line.
const DATA: Msg = Msg::Data {
    line: LINE,
    copy: COPY,
};

const DATA_EX: Msg = Msg::DataEx {
    line: LINE,
    copy: COPY,
    count: 3,
};

const NAK: Msg = Msg::Nak { line: LINE };

/// Issues a request of hart 0, or 1 where there are two, where the slot is there and empty, and no
/// slot has the line. The answer says whether it did.
fn issue(slots: &mut Slots, id: u32, line: LineId, own: bool) -> bool {
    let first_prefetch = slots.first_prefetch();
    if id >= slots.count() || first_prefetch == 0 {
        return false;
    }
    match (slots.get(id), slots.of_line(line)) {
        (None, None) => {
            slots.issue(id, first_prefetch / 4, line, own);
            true
        }
        _ => false,
    }
}

/// What a slot has, where it is there.
fn got(slots: &Slots, id: u32) -> Option<Slot> {
    if id < slots.count() {
        slots.get(id)
    } else {
        None
    }
}

/// The copy that came to a slot, where it is there.
fn arrived(slots: &Slots, id: u32) -> Option<Line> {
    if id < slots.count() {
        slots.arrived(id)
    } else {
        None
    }
}

/// Empties a slot, where it is there.
fn close(slots: &mut Slots, id: u32) {
    if id < slots.count() {
        slots.close(id);
    }
}

#[test]
fn slots_are_numbered_front_store_prefetch(rt: HostRuntime) {
    for (harts, prefetch, first, count) in [
        (1, 0, 2, 2),
        (2, 2, 4, 6),
        (3, 1, 6, 7),
        (4, 8, 8, 16),
    ] {
        let slots = Slots::new(harts, prefetch);
        assert_eq!(rt; slots.first_prefetch(), first);
        assert_eq!(rt; slots.count(), count);
        for id in 0..count {
            assert_eq!(rt; got(&slots, id), None);
        }
    }
}

#[test]
fn a_copy_comes_and_the_slot_is_free_again(rt: HostRuntime) {
    let mut slots = Slots::new(2, 1);
    assert!(rt; issue(&mut slots, 1, LINE, false));
    assert!(rt; issue(&mut slots, 0, OTHER, true));
    assert!(rt; !issue(&mut slots, 3, LINE, false));
    assert_eq!(rt; slots.of_line(LINE), Some(1));
    assert_eq!(rt; slots.of_line(LineId(9)), None);
    assert_eq!(rt; arrived(&slots, 1), None);
    assert_eq!(rt; slots.take_reply(&DATA), Some(1));
    assert_eq!(rt; arrived(&slots, 1), Some(COPY));
    assert_eq!(rt; arrived(&slots, 0), None);
    assert_eq!(rt; slots.take_reply(&DATA), None);
    close(&mut slots, 1);
    assert_eq!(rt; got(&slots, 1), None);
    assert_eq!(rt; slots.of_line(LINE), None);
    assert_eq!(rt; slots.of_line(OTHER), Some(0));
}

/// Asks again for the line of a slot, where it is there and refused. The answer says whether it did.
fn ask_again(slots: &mut Slots, id: u32) -> bool {
    if id >= slots.count() {
        return false;
    }
    match slots.get(id) {
        Some(
            Slot {
                phase: Phase::Refused,
                ..
            },
        ) => {
            slots.ask_again(id);
            true
        }
        _ => false,
    }
}

#[test]
fn a_refused_request_is_sent_again(rt: HostRuntime) {
    let mut slots = Slots::new(2, 1);
    assert!(rt; issue(&mut slots, 1, LINE, true));
    assert!(rt; issue(&mut slots, 2, OTHER, false));
    assert!(rt; !ask_again(&mut slots, 1));
    assert_eq!(rt; slots.take_reply(&NAK), Some(1));
    assert!(rt; !ask_again(&mut slots, 2));
    assert!(rt; ask_again(&mut slots, 1));
    assert!(rt; !ask_again(&mut slots, 1));
    assert_eq!(rt; slots.take_reply(&DATA_EX), Some(1));
    assert_eq!(rt; arrived(&slots, 1), Some(COPY));
    assert_eq!(rt; got(&slots, 1).map(|slot| slot.own), Some(true));
}

/// What happens to a slot.
#[derive(Clone, Copy)]
enum Step {
    Take(Msg),
    Poison,
}

/// What a slot has after these steps, and the last answer, where a request for `LINE` began in the
/// slot of this number. There are one hart and one slot for prefetches.
fn after(id: u32, own: bool, steps: &[Step]) -> (Option<Phase>, Option<u32>) {
    let mut slots = Slots::new(1, 1);
    issue(&mut slots, id, LINE, own);
    let mut met = None;
    for step in steps {
        met = match *step {
            Step::Take(msg) => slots.take_reply(&msg),
            Step::Poison => {
                slots.poison(LINE);
                None
            }
        };
    }
    (got(&slots, id).map(|slot| slot.phase), met)
}

#[test]
fn each_message_makes_of_a_slot_what_its_row_says(rt: HostRuntime) {
    let other = Step::Take(Msg::Data {
        line: OTHER,
        copy: COPY,
    });
    let (data, data_ex, nak) = (Step::Take(DATA), Step::Take(DATA_EX), Step::Take(NAK));
    let poison = Step::Poison;
    let came = Some(Phase::Came(COPY));
    let (asked, poisoned, refused) = (
        Some(Phase::Asked),
        Some(Phase::Poisoned),
        Some(Phase::Refused),
    );
    let rows: [(bool, &[Step], Option<Phase>, bool); 16] = [
        (false, &[], asked, false),
        (false, &[data], came, true),
        (false, &[data_ex], asked, false),
        (false, &[nak], refused, true),
        (false, &[other], asked, false),
        (false, &[poison], poisoned, false),
        (false, &[poison, poison], poisoned, false),
        (false, &[poison, data], refused, true),
        (false, &[poison, nak], refused, true),
        (false, &[data, poison], refused, false),
        (false, &[data, nak], came, false),
        (false, &[nak, data], refused, false),
        (true, &[data_ex], came, true),
        (true, &[data], asked, false),
        (true, &[nak], refused, true),
        (true, &[data_ex, poison], came, false),
    ];
    for (row, (own, steps, phase, met)) in rows.iter().enumerate() {
        for id in [0_u32, 2] {
            let closed = id == 2 && *phase == refused;
            assert_eq!(rt;
                after(id, *own, steps),
                (
                    if closed { None } else { *phase },
                    if *met { Some(id) } else { None }
                ),
                "row {row}, slot {id}"
            );
        }
    }
}

#[test]
fn no_other_message_meets_a_slot(rt: HostRuntime) {
    let home = ClusterId(0);
    for msg in [
        Msg::Read { line: LINE },
        Msg::Inval {
            line: LINE,
            to: home,
        },
        Msg::Ack { line: LINE },
        Msg::TransferAck { line: LINE },
    ] {
        assert_eq!(rt;
            after(0, false, &[Step::Take(msg)]),
            (Some(Phase::Asked), None)
        );
    }
}
