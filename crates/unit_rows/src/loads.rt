//! Loads, and LR.
ghost use Rattle.std.specs.Prelude.{◌≡◌, ◌<◌, [], false, Some, IfSome, IfNone, slice_index_or, if◌then◌else◌};
ghost use Rattle.dash_base.specs.declared.instr.Labels.{Labels};
ghost use Rattle.dash_base.specs.declared.need.Need.TheVariants.{Load};
ghost use Rattle.write_buffer.specs.Look.{newest_of, look_by};
ghost use Rattle.write_buffer.specs.declared.entry.Look.TheVariants.{None as NoStore, Hit};
ghost use Rattle.unit_rows.specs.declared.choice.Choice.TheVariants.{Step};
ghost use Rattle.unit_rows.specs.declared.parts.Local.{Local};
ghost use Rattle.unit_rows.specs.Shown.{shown, config, AreSized};
ghost use Rattle.unit_rows.specs.StepFits.{LoadFits};
ghost use Rattle.unit_rows.specs.Steps.{HartNeeds};
ghost use Rattle.unit_rows.specs.Rows.{DoesChoice, Cannot};

use crate::held::holds;
use crate::line_words::word_in;
use crate::parts::Parts;
use crate::site::Site;
use crate::source::Source;
use dash_base::{Labels, Mask, Need, WordAddr, merge};
use dash_event::{Access, Kind, Seen, offer};
use write_buffer::Look;

/// Where a load of these bytes of a word finds them; `reserve` says that it is LR. `None` where the
/// stores that wait do not let it retire, or its hart does not hold the line.
pub fn fits_load(
    site: &Site,
    parts: &Parts,
    hart: u32,
    word: WordAddr,
    mask: Mask,
    reserve: bool,
) -> Option<Source>
    requires sized { AreSized (config site.now) site.now.cluster.0 (shown parts.now) }
    requires hart { hart < site.now.topology.harts }
    ensures fits { IfSome result (λ source. LoadFits (config site.now) (shown parts.now) hart word mask reserve source) }
    ensures idle { IfNone result ((labels : Labels) → HartNeeds (config site.now) (shown parts.now) hart (Load word mask labels reserve) → Cannot (config site.now) site.now.cluster.0 (shown parts.now) (Step hart)) }
{
    let local = &parts.locals[hart as usize];
    match local.buffer.look(word, mask) {
        Look::Wait => None,
        Look::Hit { value, number } => {
            if reserve {
                return None;
            }
            Some(Source::Stored { value, number })
        }
        Look::None => {
            if !holds(&parts.bus, hart, site.topology.line_of(word)) {
                return None;
            }
            Some(Source::Held)
        }
    }
}

/// A load of these bytes of a word; `reserve` says that it is LR, which reserves the word. `None`
/// where the stores that wait do not let it retire, or its hart does not hold the line.
pub fn load(
    site: &Site,
    parts: &mut Parts,
    hart: u32,
    word: WordAddr,
    mask: Mask,
    labels: Labels,
    reserve: bool,
) -> Option<Kind>
    requires sized { AreSized (config site.now) site.now.cluster.0 (shown parts.old) }
    requires hart { hart < site.now.topology.harts }
    requires need { HartNeeds (config site.now) (shown parts.old) hart (Load word mask labels reserve) }
    ensures did { IfSome result (λ kind. DoesChoice (config site.now) site.now.cluster.0 (Step hart) kind (shown parts.old) (shown parts.new) []) }
    ensures idle { IfNone result (Cannot (config site.now) site.now.cluster.0 (shown parts.old) (Step hart)) }
    ensures same { IfNone result (shown parts.new ≡ shown parts.old) }
    ensures sized { AreSized (config site.now) site.now.cluster.0 (shown parts.new) }
{
    let source = fits_load(site, parts, hart, word, mask, reserve)?;
    match source {
        Source::Stored { value, number } => {
            load_stored(site, parts, hart, word, mask, labels, value, number)
        }
        Source::Held => load_held(site, parts, hart, word, mask, labels, reserve),
    }
}

/// A load whose bytes are all of the store with this number, which waits in its hart's buffer.
fn load_stored(
    site: &Site,
    parts: &mut Parts,
    hart: u32,
    word: WordAddr,
    mask: Mask,
    labels: Labels,
    value: u32,
    number: u32,
) -> Option<Kind>
    requires sized { AreSized (config site.now) site.now.cluster.0 (shown parts.old) }
    requires hart { hart < site.now.topology.harts }
    requires need { HartNeeds (config site.now) (shown parts.old) hart (Load word mask labels false) }
    requires look { (d : Local) → look_by (newest_of word.0 (slice_index_or (shown parts.old).locals hart d).buffer.items) mask ≡ Hit value number }
    ensures did { IfSome result (λ kind. DoesChoice (config site.now) site.now.cluster.0 (Step hart) kind (shown parts.old) (shown parts.new) []) }
    ensures idle { IfNone result (Cannot (config site.now) site.now.cluster.0 (shown parts.old) (Step hart)) }
    ensures same { IfNone result (shown parts.new ≡ shown parts.old) }
    ensures sized { AreSized (config site.now) site.now.cluster.0 (shown parts.new) }
{
    let need = Need::Load {
        word,
        mask,
        labels,
        reserve: false,
    };
    let instruction = parts.locals[hart as usize].core.retired() + 1;
    let access = offer(site.hart_id(hart), instruction, &need, value, false)?;
    let local = &mut parts.locals[hart as usize];
    let answer = merge(0, mask, value);
    local
        .core
        .advance(&site.image, &site.topology, &mut local.front, answer);
    let seen = Seen::Own(number);
    Some(Kind::Load {
        access: Access { seen, ..access },
        level: 0,
    })
}

/// A load from the cluster's copy, of a word to which no store waits that has a byte of it. `None`
/// where its hart does not hold the line.
fn load_held(
    site: &Site,
    parts: &mut Parts,
    hart: u32,
    word: WordAddr,
    mask: Mask,
    labels: Labels,
    reserve: bool,
) -> Option<Kind>
    requires sized { AreSized (config site.now) site.now.cluster.0 (shown parts.old) }
    requires hart { hart < site.now.topology.harts }
    requires need { HartNeeds (config site.now) (shown parts.old) hart (Load word mask labels reserve) }
    requires look { (d : Local) → look_by (newest_of word.0 (slice_index_or (shown parts.old).locals hart d).buffer.items) mask ≡ NoStore }
    ensures did { IfSome result (λ kind. DoesChoice (config site.now) site.now.cluster.0 (Step hart) kind (shown parts.old) (shown parts.new) []) }
    ensures idle { IfNone result (Cannot (config site.now) site.now.cluster.0 (shown parts.old) (Step hart)) }
    ensures same { IfNone result (shown parts.new ≡ shown parts.old) }
    ensures sized { AreSized (config site.now) site.now.cluster.0 (shown parts.new) }
{
    let need = Need::Load {
        word,
        mask,
        labels,
        reserve,
    };
    let line = site.topology.line_of(word);
    let number = parts.locals[hart as usize].core.retired() + 1;
    let found = parts.bus.read(hart, line)?;
    let (copy, level) = found;
    let content = word_in(site, word, &copy);
    let access = offer(site.hart_id(hart), number, &need, content, false)?;
    let answer = merge(0, mask, content);
    let local = &mut parts.locals[hart as usize];
    local
        .core
        .advance(&site.image, &site.topology, &mut local.front, answer);
    local.reserved = reserved_after(reserve, word, local.reserved);
    let seen = Seen::Line(copy.version);
    Some(Kind::Load {
        access: Access { seen, ..access },
        level,
    })
}

/// What a hart has reserved after a load: LR reserves its word.
fn reserved_after(reserve: bool, word: WordAddr, old: Option<WordAddr>) -> Option<WordAddr>
    ensures { result ≡ (if reserve then Some word else old) }
{
    if reserve { Some(word) } else { old }
}
