//! The lines of events, as a person would write them.

use dash_base::{ClusterId, End, HartId, Labels, Line, LineId, Mask, Trap, WordAddr};
use dash_event::{Access, Event, Kind, Op, Seen};
use dash_msg::Msg;
use std::alloc::Global;
use std::test::Fail;
use trace_text::{TextRefusal, read_log, write_log};

const HART: HartId = HartId(3);

const LINE: LineId = LineId(2_048);

fn access(op: Op, aq: bool, rl: bool, seen: Seen) -> Access {
    Access {
        hart: HART,
        number: 17,
        op,
        labels: Labels { aq, rl },
        word: WordAddr(0x8004),
        mask: Mask::new(15),
        read: None,
        written: None,
        seen,
    }
}

fn copy() -> Line {
    Line {
        words: [1, 0xff, 0x8000_0000, 0xdead_beef],
        version: 18_446_744_073_709_551_615,
    }
}

fn kinds() -> [(Kind, &'static str); 26] {
    let hart = HART;
    let line = LINE;
    let pc = 0x1_0004;
    let to = ClusterId(2);
    let from = ClusterId(1);
    let word = WordAddr(0x8004);
    let load = access(Op::Load, false, false, Seen::Own(3));
    let byte = Access {
        mask: Mask::new(4),
        read: Some(0xab_0000),
        ..load
    };
    let amo = Access {
        read: Some(0),
        written: Some(1),
        ..access(Op::Amo, true, true, Seen::Line(8))
    };
    let grant = access(Op::Ask, true, false, Seen::Lock(5));
    let free = access(Op::Unlock, false, true, Seen::Nothing);
    let end = End::Trapped {
        cause: Trap::Unmapped,
        value: 0xfff0,
    };
    [
        (Kind::Alu { hart, pc }, "alu 3 00010004"),
        (Kind::Fence { hart, pc }, "fence 3 00010004"),
        (
            Kind::Hint {
                hart,
                pc,
                slot: Some(9),
            },
            "hint 3 00010004 9",
        ),
        (
            Kind::Hint {
                hart,
                pc,
                slot: None,
            },
            "hint 3 00010004 -",
        ),
        (
            Kind::Put {
                hart,
                pc,
                byte: 0x0a,
            },
            "put 3 00010004 0a",
        ),
        (
            Kind::Stop { hart, pc, end },
            "stop 3 00010004 trap unmapped 0000fff0",
        ),
        (
            Kind::Stop {
                hart,
                pc,
                end: End::Exited(1),
            },
            "stop 3 00010004 exit 00000001",
        ),
        (
            Kind::Stop {
                hart,
                pc,
                end: End::Running,
            },
            "stop 3 00010004 running",
        ),
        (
            Kind::Load {
                access: byte,
                level: 0,
            },
            "load 3 17 load - 00008004 4 00ab0000 - own 3 0",
        ),
        (
            Kind::Store {
                access: access(Op::Store, false, false, Seen::Nothing),
            },
            "store 3 17 store - 00008004 f - - -",
        ),
        (
            Kind::Commit {
                hart,
                number: 17,
                line,
                version: 4,
            },
            "commit 3 17 2048 4",
        ),
        (
            Kind::Rmw {
                access: amo,
                line,
                version: 9,
            },
            "rmw 3 17 amo ar 00008004 f 00000000 00000001 line 8 2048 9",
        ),
        (
            Kind::ScFail {
                access: access(Op::Cond, false, true, Seen::Nothing),
            },
            "scfail 3 17 sc r 00008004 f - - -",
        ),
        (
            Kind::LockSend {
                hart,
                msg: Msg::LockAsk {
                    hart,
                    number: 7,
                    word,
                    value: 16,
                },
            },
            "locksend 3 lockask 3 7 00008004 00000010",
        ),
        (Kind::BusRead { hart, line }, "busread 3 2048"),
        (Kind::BusOwn { hart, line }, "busown 3 2048"),
        (Kind::Evict { hart, line }, "evict 3 2048"),
        (
            Kind::Ask {
                slot: 0,
                hart,
                line,
                own: true,
            },
            "ask 0 3 2048 own",
        ),
        (
            Kind::Ask {
                slot: 0,
                hart,
                line,
                own: false,
            },
            "ask 0 3 2048 read",
        ),
        (Kind::Again { slot: 4, line }, "again 4 2048"),
        (
            Kind::Install {
                slot: 4,
                hart,
                line,
            },
            "install 4 3 2048",
        ),
        (
            Kind::Grant { access: grant },
            "grant 3 17 ask a 00008004 f - - lock 5",
        ),
        (
            Kind::Free { from, access: free },
            "free 1 3 17 unlock r 00008004 f - - -",
        ),
        (
            Kind::Take {
                from,
                msg: Msg::FwdReadEx { line, to },
            },
            "take 1 fwdreadex 2048 2",
        ),
        (
            Kind::Take {
                from,
                msg: Msg::SharingBack {
                    line,
                    copy: copy(),
                    to,
                },
            },
            "take 1 sharingback 2048 00000001 000000ff 80000000 deadbeef 18446744073709551615 2",
        ),
        (
            Kind::Take {
                from,
                msg: Msg::UnlockAck { hart, old: 26 },
            },
            "take 1 unlockack 3 0000001a",
        ),
    ]
}

fn text_of(alloc: Global, log: &[Event]) -> Result<String, Fail> {
    Ok(String::from_utf8(write_log(alloc, log)?)?)
}

fn read(alloc: Global, text: &[u8]) -> Result<Vec<Event>, TextRefusal> {
    if text.len() >= 4_294_967_295 {
        return Err(TextRefusal::OutOfMemory);
    }
    read_log(alloc, text)
}

#[test]
fn each_kind_of_event_has_its_line(rt: HostRuntime) -> Result<(), Fail> {
    let alloc = rt.alloc();
    for (kind, line) in &kinds() {
        let event = Event {
            stamp: 1_000,
            cluster: ClusterId(15),
            kind: *kind,
        };
        let text = text_of(alloc, &[event])?;
        let expected = format!(in alloc; "dash log 1\n1000 15 {line}\n")?;
        assert_eq!(rt; text.as_str(), expected.as_str());
        assert_eq!(rt; read(alloc, text.as_bytes())?.as_slice(), &[event][..]);
    }
    Ok(())
}

#[test]
fn a_log_without_events_is_one_line(rt: HostRuntime) -> Result<(), Fail> {
    let text = text_of(rt.alloc(), &[])?;
    assert_eq!(rt; text.as_str(), "dash log 1\n");
    assert_eq!(rt; read(rt.alloc(), text.as_bytes())?.len(), 0);
    Ok(())
}
