//! Tests with short logs.
ghost use Rattle.std.specs.Prelude.{◌≡◌};

use dash_base::{ClusterId, HartId, LineId};
use dash_event::{Event, EventLog, Kind, Logged};
use dash_msg::Msg;
use std::test::Fail;
use trace_merge::laws::{nothing_starts, settled_parts_stay};
use trace_merge::{Merger, merge};

#[test]
fn a_log_gives_its_events_in_order(rt: HostRuntime) -> Result<(), Fail> {
    let asks = Event {
        stamp: 1,
        cluster: ClusterId(0),
        kind: Kind::Ask {
            slot: 0,
            hart: HartId(0),
            line: LineId(4),
            own: true,
        },
    };
    let takes = Event {
        stamp: 2,
        cluster: ClusterId(1),
        kind: Kind::Take {
            from: ClusterId(0),
            msg: Msg::ReadEx { line: LineId(4) },
        },
    };
    let events = Vec::from_slice(rt.alloc(), &[asks, takes])?;
    let log = EventLog { events };
    let shown = log.events();
    assert_eq!(rt; shown.len(), 2);
    assert_eq!(rt; shown[0], asks);
    assert_eq!(rt; shown[1], takes);
    Ok(())
}

/// An instruction that retired in this cluster, at this stamp.
fn retires(cluster: u32, stamp: u64) -> Event
    ensures cluster { result.cluster.0 ≡ cluster }
    ensures stamp { result.stamp ≡ stamp }
{
    Event {
        stamp,
        cluster: ClusterId(cluster),
        kind: Kind::Alu {
            hart: HartId(0),
            pc: 0,
        },
    }
}

#[test]
fn logs_are_merged_by_stamp_and_then_by_cluster(rt: HostRuntime) -> Result<(), Fail> {
    let near = Vec::from_slice(rt.alloc(), &[retires(0, 1), retires(0, 3), retires(0, 4)])?;
    let far = Vec::from_slice(rt.alloc(), &[retires(1, 2), retires(1, 3), retires(1, 7)])?;
    let merged = merge(
        rt.alloc(),
        &[EventLog { events: near }, EventLog { events: far }],
    )?;
    let wanted = [
        retires(0, 1),
        retires(1, 2),
        retires(0, 3),
        retires(1, 3),
        retires(0, 4),
        retires(1, 7),
    ];
    assert_eq!(rt; merged.as_slice(), wanted.as_slice());
    Ok(())
}

#[test]
fn an_event_is_merged_once_no_cluster_can_write_one_before_it(rt: HostRuntime) -> Result<(), Fail> {
    let near = [retires(0, 1), retires(0, 2), retires(0, 5)];
    let far = retires(1, 3);
    let early = [
        EventLog {
            events: Vec::from_slice(rt.alloc(), &near)?,
        },
        EventLog {
            events: Vec::from_slice(rt.alloc(), &[far])?,
        },
    ];
    let late = [
        EventLog {
            events: Vec::from_slice(rt.alloc(), &near)?,
        },
        EventLog {
            events: Vec::from_slice(rt.alloc(), &[far, retires(1, 6)])?,
        },
    ];
    let mut merger = Merger::new(rt.alloc(), 2)?;
    nothing_starts();
    merger.add(&early)?;
    let wanted = [retires(0, 1), retires(0, 2), retires(1, 3)];
    assert_eq!(rt; merger.done(), wanted.as_slice());
    settled_parts_stay();
    merger.add(&late)?;
    let wanted = [retires(0, 1), retires(0, 2), retires(1, 3), retires(0, 5)];
    assert_eq!(rt; merger.done(), wanted.as_slice());
    let merged = merger.finish(&late)?;
    let wanted = [
        retires(0, 1),
        retires(0, 2),
        retires(1, 3),
        retires(0, 5),
        retires(1, 6),
    ];
    assert_eq!(rt; merged.as_slice(), wanted.as_slice());
    Ok(())
}
