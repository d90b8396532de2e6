//! A table of hints, and slots that fill.

use ack_counter::AckTable;
use dash_base::{HintKind, LineId};
use prefetch_unit::choose;
use remote_cache::Slots;

const LINE: LineId = LineId(7);

/// Fills a slot, where it is there and empty, and no slot has the line.
fn fill(slots: &mut Slots, id: u32, line: LineId) {
    if id < slots.count() && slots.first_prefetch() > 0 {
        if slots.get(id).is_none() && slots.of_line(line).is_none() {
            slots.issue(id, 0, line, false);
        }
    }
}

#[test]
fn a_hint_opens_a_slot_where_it_has_something_to_ask_for(rt: HostRuntime) {
    let slots = Slots::new(2, 2);
    let acks = AckTable::new(1);
    let rows = [
        (HintKind::Fetch, false, false, None),
        (HintKind::Shared, false, false, Some(4)),
        (HintKind::Shared, true, false, None),
        (HintKind::Shared, true, true, None),
        (HintKind::Exclusive, false, false, Some(4)),
        (HintKind::Exclusive, true, false, Some(4)),
        (HintKind::Exclusive, true, true, None),
    ];
    for (row, (kind, copy, owner, slot)) in rows.into_iter().enumerate() {
        assert_eq!(rt;
            choose(kind, LINE, copy, owner, &slots, &acks),
            slot,
            "row {row}"
        );
    }
}

#[test]
fn one_to_own_needs_an_entry_of_acknowledgements(rt: HostRuntime) {
    let slots = Slots::new(1, 1);
    let mut acks = AckTable::new(1);
    if acks.free() {
        acks.begin(LineId(9));
    }
    assert_eq!(rt;
        choose(HintKind::Exclusive, LINE, false, false, &slots, &acks),
        None
    );
    assert_eq!(rt;
        choose(HintKind::Shared, LINE, false, false, &slots, &acks),
        Some(2)
    );
}

#[test]
fn the_least_empty_slot_is_taken(rt: HostRuntime) {
    let mut slots = Slots::new(1, 3);
    let acks = AckTable::new(1);
    let open = |slots: &Slots| choose(HintKind::Shared, LINE, false, false, slots, &acks);
    fill(&mut slots, 2, LineId(1));
    assert_eq!(rt; open(&slots), Some(3));
    fill(&mut slots, 4, LineId(2));
    assert_eq!(rt; open(&slots), Some(3));
    fill(&mut slots, 3, LineId(3));
    assert_eq!(rt; open(&slots), None);
    if slots.count() > 2 {
        slots.close(2);
    }
    assert_eq!(rt; open(&slots), Some(2));
    fill(&mut slots, 0, LINE);
    assert_eq!(rt; open(&slots), None);
    assert_eq!(rt;
        choose(
            HintKind::Exclusive,
            LineId(8),
            false,
            false,
            &Slots::new(1, 0),
            &acks
        ),
        None
    );
}
