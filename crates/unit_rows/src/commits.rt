//! Commits of the stores that wait.
ghost use Rattle.std.specs.Prelude.{◌≡◌, ◌<◌, [], IfSome, IfNone};
ghost use Rattle.unit_rows.specs.declared.choice.Choice.TheVariants.{Commit};
ghost use Rattle.unit_rows.specs.CommitFits.{CommitFits};
ghost use Rattle.unit_rows.specs.Rows.{DoesChoice, Cannot};
ghost use Rattle.unit_rows.specs.Shown.{config, shown, AreSized};

use crate::held::owns_alone;
use crate::line_words::written;
use crate::parts::Parts;
use crate::site::Site;
use dash_base::Line;
use dash_event::Kind;
use write_buffer::Entry;

/// A hart's oldest store and the copy of its line, where the hart is in state M on that line, so that
/// it may commit.
pub fn fits_commit(site: &Site, parts: &Parts, hart: u32) -> Option<(Entry, Line)>
    requires sized { AreSized (config site.now) site.now.cluster.0 (shown parts.now) }
    requires hart { hart < site.now.topology.harts }
    ensures fits { IfSome result (λ found. CommitFits (config site.now) (shown parts.now) hart found.0 found.1) }
    ensures idle { IfNone result (Cannot (config site.now) site.now.cluster.0 (shown parts.now) (Commit hart)) }
{
    parts.bus.keeps_one_map();
    let local = &parts.locals[hart as usize];
    let oldest = local.buffer.head()?;
    let line = site.topology.line_of(oldest.word);
    if !owns_alone(&parts.bus, hart, line) {
        return None;
    }
    let copy = parts.bus.peek(line)?;
    Some((oldest, copy))
}

/// Commits a hart's oldest store: it leaves the buffer and becomes the next version of its line, for
/// which acknowledgements that are pending are owed to the hart too.
pub fn commit(site: &Site, parts: &mut Parts, hart: u32) -> Option<Kind>
    requires sized { AreSized (config site.now) site.now.cluster.0 (shown parts.old) }
    requires hart { hart < site.now.topology.harts }
    ensures did { IfSome result (λ kind. DoesChoice (config site.now) site.now.cluster.0 (Commit hart) kind (shown parts.old) (shown parts.new) []) }
    ensures idle { IfNone result (Cannot (config site.now) site.now.cluster.0 (shown parts.old) (Commit hart)) }
    ensures unchanged { IfNone result (shown parts.new ≡ shown parts.old) }
    ensures sized { AreSized (config site.now) site.now.cluster.0 (shown parts.new) }
{
    let (oldest, copy) = fits_commit(site, parts, hart)?;
    let line = site.topology.line_of(oldest.word);
    let next = written(site, oldest.word, oldest.mask, oldest.value, &copy);
    parts.bus.keeps_one_map();
    let local = &mut parts.locals[hart as usize];
    local.buffer.drop_head();
    parts.bus.commit(hart, line, next);
    parts.acks.owe(line, hart);
    Some(Kind::Commit {
        hart: site.hart_id(hart),
        number: oldest.number,
        line,
        version: next.version,
    })
}
