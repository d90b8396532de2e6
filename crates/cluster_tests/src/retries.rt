//! Requests of three harts that are refused, found and asked again.

use dash_base::{Line, LineId};
use dash_msg::Msg;
use nak_retry::{next_refused, refused, reissue};
use remote_cache::{Phase, Slots};

/// Issues a request of hart 0 for a line that is the slot's number, where the slot is there and empty,
/// and no slot has the line.
fn issue(slots: &mut Slots, id: u32, own: bool) {
    if id < slots.count() && slots.first_prefetch() > 0 {
        if let (None, None) = (slots.get(id), slots.of_line(LineId(id))) {
            slots.issue(id, 0, LineId(id), own);
        }
    }
}

/// Asks again for the line of a slot, where it is there and refused. The answer says whether it did.
fn again(slots: &mut Slots, id: u32) -> bool {
    if id < slots.count() && refused(slots, id) {
        reissue(slots, id);
        true
    } else {
        false
    }
}

/// The phase of a slot, where it is there and not empty.
fn phase(slots: &Slots, id: u32) -> Option<Phase> {
    if id < slots.count() {
        slots.get(id).map(|slot| slot.phase)
    } else {
        None
    }
}

#[test]
fn each_refused_slot_is_found_and_asks_again(rt: HostRuntime) {
    let mut slots = Slots::new(3, 2);
    for id in [0, 1, 3, 5, 6] {
        issue(&mut slots, id, id % 2 == 1);
    }
    assert_eq!(rt; next_refused(&slots, 0), None);
    for id in [1, 5, 6] {
        assert_eq!(rt; slots.take_reply(&Msg::Nak { line: LineId(id) }), Some(id));
    }
    for (from, next) in [
        (0, Some(1)),
        (1, Some(1)),
        (2, Some(5)),
        (5, Some(5)),
        (6, None),
        (8, None),
        (u32::MAX, None),
    ] {
        assert_eq!(rt; next_refused(&slots, from), next, "from {from}");
    }
    assert_eq!(rt; phase(&slots, 6), None);
    for (id, asks) in [
        (0, false),
        (1, true),
        (1, false),
        (2, false),
        (6, false),
        (9, false),
    ] {
        assert_eq!(rt; again(&mut slots, id), asks, "slot {id}");
    }
    assert_eq!(rt; phase(&slots, 1), Some(Phase::Asked));
    assert_eq!(rt; next_refused(&slots, 0), Some(5));
    let copy = Line {
        words: [1, 2, 3, 4],
        version: 5,
    };
    let came = Msg::DataEx {
        line: LineId(1),
        copy,
        count: 0,
    };
    assert_eq!(rt; slots.take_reply(&came), Some(1));
    assert_eq!(rt; phase(&slots, 1), Some(Phase::Came(copy)));
}
