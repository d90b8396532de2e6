//! The choice of a slot.
ghost use Rattle.std.specs.Prelude.{◌≡◌, ℕ, MatchOption};
ghost use Rattle.prefetch_unit.specs.Hints.{kind_opens, AreFull, IsLeastEmpty, Opens};

use ack_counter::AckTable;
use dash_base::{HintKind, LineId};
use remote_cache::Slots;

/// The slot for prefetches that a hint opens, whose address is in memory, in this line. `copy` says
/// whether the cluster has a copy of the line, and `owner` whether it has an owner. `None` where the
/// hint opens no slot: it does nothing then.
pub fn choose(
    kind: HintKind,
    line: LineId,
    copy: bool,
    owner: bool,
    slots: &Slots,
    acks: &AckTable,
) -> Option<u32>
    ensures { MatchOption result
        ((n : ℕ) → ¬ (Opens kind line.0 copy owner slots.now acks.now n))
        (λ n. Opens kind line.0 copy owner slots.now acks.now n) }
{
    if !opens(kind, copy, owner, acks) {
        return None;
    }
    if slots.of_line(line).is_some() {
        return None;
    }
    least_empty(slots)
}

/// Whether a hint of this kind has something to ask for.
fn opens(kind: HintKind, copy: bool, owner: bool, acks: &AckTable) -> bool
    ensures { result ≡ kind_opens kind copy owner acks.now }
{
    match kind {
        HintKind::Fetch => false,
        HintKind::Shared => !copy,
        HintKind::Exclusive => !owner && acks.free(),
    }
}

/// The first slot for prefetches that is empty. `None` where none is.
fn least_empty(slots: &Slots) -> Option<u32>
    ensures { MatchOption result (AreFull slots.now) (IsLeastEmpty slots.now) }
{
    for id in slots.first_prefetch()..slots.count() {
        if slots.get(id).is_none() {
            return Some(id);
        }
    }
    None
}
