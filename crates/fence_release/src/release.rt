//! The conditions.
ghost use Rattle.std.specs.Prelude.{◌≡◌, ◌<◌};
ghost use Rattle.fence_release.specs.Conditions.{is_drained, is_free_to_commit};

use ack_counter::AckTable;
use dash_base::{Labels, LineId, WordAddr};
use write_buffer::Buffer;

/// Whether a read-modify-write of a word commits, once its hart, by its number in the cluster, owns
/// the line of the word alone. The line's acknowledgements must all be in, and no store to the word
/// may wait in the hart's buffer. A release also waits until all that the hart stored is seen by
/// every other hart, as a fence does.
pub fn may_commit(
    labels: Labels,
    word: WordAddr,
    line: LineId,
    hart: u32,
    buffer: &Buffer,
    acks: &AckTable,
) -> bool
    requires { hart < 4 }
    ensures { result ≡ is_free_to_commit labels.rl word.0 line.0 hart buffer.now acks.now }
{
    if acks.pending(line) || buffer.has(word) {
        return false;
    }
    !labels.rl || may_fence(hart, buffer, acks)
}

/// Whether a fence of a hart, by its number in the cluster, that waits may retire: the hart's buffer
/// is empty, and no acknowledgements are owed to it.
pub fn may_fence(hart: u32, buffer: &Buffer, acks: &AckTable) -> bool
    requires { hart < 4 }
    ensures { result ≡ is_drained hart buffer.now acks.now }
{
    buffer.len() == 0 && acks.owed(hart) == 0
}
