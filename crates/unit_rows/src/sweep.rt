//! Reservations of harts that lose a line.
ghost use Rattle.std.specs.Prelude.{◌≡◌, ◌≤◌, length};
ghost use Rattle.unit_rows.specs.Shown.{config};
ghost use Rattle.unit_rows.specs.Sweeps.{unreserved_word, swept, AreSwept};

use crate::held::has_hart;
use crate::parts::Local;
use crate::site::Site;
use dash_base::{LineId, WordAddr};

/// Clears the reservations in a line of the harts that were its holders and are none now: bit `i` of
/// each is for the hart `i`.
pub fn sweep(site: &Site, locals: &mut [Local], before: u32, after: u32, line: LineId)
    requires { length locals.old ≤ 4 }
    ensures { AreSwept (config site.now) line.0 before after locals.old locals.new }
{
    for (hart, local) in locals.iter_mut().enumerate() {
        if has_hart(before, hart as u32) && !has_hart(after, hart as u32) {
            local.reserved = unreserved(site, line, local.reserved);
        }
    }
}

/// Clears a hart's reservation in a line, where it is to be cleared.
pub fn clear(site: &Site, local: &mut Local, line: LineId, clears: bool)
    ensures { local.new ≡ swept (config site.now) line.0 clears local.old }
{
    if clears {
        local.reserved = unreserved(site, line, local.reserved);
    }
}

/// A reservation, unless it is of a word in the line.
fn unreserved(site: &Site, line: LineId, reserved: Option<WordAddr>) -> Option<WordAddr>
    ensures { result ≡ unreserved_word (config site.now) line.0 reserved }
{
    let word = reserved?;
    if site.topology.line_of(word).0 == line.0 {
        return None;
    }
    Some(word)
}
