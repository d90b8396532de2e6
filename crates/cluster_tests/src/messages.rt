//! Tests with messages of each kind.

use dash_base::{ClusterId, HartId, Line, LineId, WordAddr};
use dash_msg::{Class, Msg, class};

const LINE: LineId = LineId(7);

const HART: HartId = HartId(3);

const WORD: WordAddr = WordAddr(0x1_0000);

const TO: ClusterId = ClusterId(2);

const COPY: Line = Line {
    words: [1, 2, 3, 4],
    version: 5,
};

#[test]
fn requests_and_replies_have_their_classes(rt: HostRuntime) {
    let requests = [
        Msg::Read { line: LINE },
        Msg::ReadEx { line: LINE },
        Msg::FwdRead { line: LINE, to: TO },
        Msg::FwdReadEx { line: LINE, to: TO },
        Msg::Inval { line: LINE, to: TO },
        Msg::WriteBack {
            line: LINE,
            copy: COPY,
        },
        Msg::SharingBack {
            line: LINE,
            copy: COPY,
            to: TO,
        },
        Msg::Transfer { line: LINE, to: TO },
        Msg::LockAsk {
            hart: HART,
            number: 9,
            word: WORD,
            value: 1,
        },
        Msg::Unlock {
            hart: HART,
            number: 9,
            word: WORD,
        },
    ];
    for msg in &requests {
        assert_eq!(rt; class(msg), Class::Request);
    }
    let replies = [
        Msg::Data {
            line: LINE,
            copy: COPY,
        },
        Msg::DataEx {
            line: LINE,
            copy: COPY,
            count: 3,
        },
        Msg::Ack { line: LINE },
        Msg::TransferAck { line: LINE },
        Msg::Nak { line: LINE },
        Msg::LockGrant { hart: HART },
        Msg::UnlockAck { hart: HART, old: 1 },
    ];
    for msg in &replies {
        assert_eq!(rt; class(msg), Class::Reply);
    }
}
