//! A table of what a buffer and a table of acknowledgements have.

use ack_counter::AckTable;
use dash_base::{Labels, LineId, Mask, WordAddr};
use fence_release::{may_commit, may_fence};
use std::test::Fail;
use write_buffer::{Buffer, Entry};

const LINE: LineId = LineId(7);

const WORD: WordAddr = WordAddr(112);

/// What waits, and what is asked.
#[derive(Clone, Copy)]
struct Row {
    /// The word of a store that waits in the buffer.
    stored: Option<WordAddr>,
    /// The line that is pending, and the hart to which its acknowledgements are owed.
    pending: Option<(LineId, u32)>,
    /// Whether an atomic operation, a release, and a fence of hart 1 go on.
    goes_on: (bool, bool, bool),
}

#[test]
fn each_condition_holds_a_hart_back(rt: HostRuntime) -> Result<(), Fail> {
    let other = Some(WordAddr(116));
    let rows = [
        (None, None, (true, true, true)),
        (Some(WORD), None, (false, false, false)),
        (other, None, (true, false, false)),
        (None, Some((LINE, 0)), (false, false, true)),
        (None, Some((LINE, 1)), (false, false, false)),
        (None, Some((LineId(8), 0)), (true, true, true)),
        (None, Some((LineId(8), 1)), (true, false, false)),
        (other, Some((LineId(8), 0)), (true, false, false)),
    ];
    for (row, (stored, pending, goes_on)) in rows.into_iter().enumerate() {
        let row_of = Row {
            stored,
            pending,
            goes_on,
        };
        let mut buffer = Buffer::new(rt.alloc(), 2)?;
        if let Some(word) = row_of.stored {
            let entry = Entry {
                number: 1,
                word,
                mask: Mask::new(15),
                value: 5,
            };
            assert_eq!(rt; buffer.try_put(entry), Ok(()));
        }
        let mut acks = AckTable::new(2);
        if let Some((line, hart)) = row_of.pending {
            if acks.free() && hart < 4 {
                acks.begin(line);
                acks.owe(line, hart);
            }
        }
        let acquire = Labels {
            aq: true,
            rl: false,
        };
        let release = Labels {
            aq: false,
            rl: true,
        };
        assert_eq!(rt;
            (
                may_commit(acquire, WORD, LINE, 1, &buffer, &acks),
                may_commit(release, WORD, LINE, 1, &buffer, &acks),
                may_fence(1, &buffer, &acks)
            ),
            row_of.goes_on,
            "row {row}"
        );
    }
    Ok(())
}
