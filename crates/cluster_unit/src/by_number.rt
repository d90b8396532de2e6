//! Choices that go by one number alone, and are listed by it.
ghost use Rattle.std.specs.Prelude.{◌≡◌, ◌+◌, ◌≤◌, vec_len, vec_capacity};
ghost use Rattle.unit_rows.specs.AskFits.{StoresAreOfMemory};
ghost use Rattle.unit_rows.specs.Shown.{config, shown, AreSized};
ghost use Rattle.cluster_unit.specs.Listing.{HasListed, IsBelow, choice_of, place_of};

use crate::offers::offer;
use unit_rows::{Choice, Parts, Site};

/// The kinds of choices that go by one number alone: by that of a hart, or of a slot.
#[derive(Clone, Copy)]
pub enum ByNumber {
    Step,
    Commit,
    Ask,
    Again,
    Install,
}

/// The choice of a number.
#[inline(always)]
fn choice(kind: ByNumber, number: u32) -> Choice
    ensures { result ≡ choice_of kind number }
{
    match kind {
        ByNumber::Step => Choice::Step(number),
        ByNumber::Commit => Choice::Commit(number),
        ByNumber::Ask => Choice::Ask(number),
        ByNumber::Again => Choice::Again(number),
        ByNumber::Install => Choice::Install(number),
    }
}

/// Lists the enabled choices of one kind, by their numbers, of which there are `count`.
#[inline(always)]
pub fn list_by_number(
    site: &Site,
    parts: &Parts,
    kind: ByNumber,
    count: u32,
    choices: &mut Vec<Choice>,
)
    requires sized { AreSized (config site.now) site.now.cluster.0 (shown parts.now) }
    requires stores { StoresAreOfMemory (config site.now) (shown parts.now) }
    requires room { vec_len choices.old + count ≤ vec_capacity choices.old }
    requires before { HasListed (config site.now) site.now.cluster.0 (shown parts.now) (IsBelow (place_of kind) 0) choices.old.items }
    ensures listed { HasListed (config site.now) site.now.cluster.0 (shown parts.now) (IsBelow (place_of kind) count) choices.new.items }
    ensures short { vec_len choices.new ≤ vec_len choices.old + count }
    ensures room { vec_capacity choices.new ≡ vec_capacity choices.old }
{
    for number in 0..count {
        offer(site, parts, choice(kind, number), choices);
    }
}
