//! What a list of segments has at an address.
ghost use Rattle.std.specs.Prelude.{◌≡◌, ◌+◌, ◌<◌, ◌≤◌, ◌^◌, length, option_copied, find, IfSome};
ghost use Rattle.std.specs.List.{list_any};
ghost use Rattle.elf_load.specs.Touched.{touches, HoldsWord};
ghost use Rattle.elf_load.specs.Image.{holds, covers, meets, may_execute, may_write, is_code_at, is_read_only_at, byte_among, word_among};

use byteorder::{ByteOrder, LittleEndian};
use dash_base::Segment;

/// Whether the address is one of the bytes that the segment begins with.
fn holds(segment: &Segment, address: u64) -> bool
    ensures { result ≡ holds address segment.now }
{
    let start = u64::from(segment.vaddr);
    start <= address && address < start + segment.bytes.len() as u64
}

/// Whether all of the bytes from the address on lie in the segment.
fn covers(segment: &Segment, address: u32, len: u32) -> bool
    ensures { result ≡ covers address len segment.now }
{
    let end = u64::from(segment.vaddr) + u64::from(segment.memsz);
    segment.vaddr <= address && u64::from(address) + u64::from(len) <= end
}

/// Whether one of the bytes from the address on lies in the segment.
fn meets(segment: &Segment, address: u32, len: u32) -> bool
    ensures { result ≡ meets address len segment.now }
{
    let end = u64::from(segment.vaddr) + u64::from(segment.memsz);
    u64::from(segment.vaddr.max(address)) < end.min(u64::from(address) + u64::from(len))
}

/// Whether the segment may be executed.
fn may_execute(segment: &Segment) -> bool
    ensures { result ≡ may_execute segment.now }
{
    segment.flags & Segment::EXECUTE != 0
}

/// Whether the segment may be written.
#[tactic(auto, using(crate::proofs::Flags::and_two))]
fn may_write(segment: &Segment) -> bool
    ensures { result ≡ may_write segment.now }
{
    segment.flags & Segment::WRITE != 0
}

/// The first segment that has the address among the bytes that it begins with.
fn holder(segments: &[Segment], address: u64) -> Option<&Segment>
    ensures first { option_copied result ≡ find (holds address) segments.now }
    ensures within { IfSome result (λ s. (s.now.vaddr ≤ address)
        × (address < s.now.vaddr + length s.now.bytes)) }
{
    segments.iter().find(|segment| holds(segment, address))
}

/// The opening byte at an address.
#[tactic(auto, unfolding(crate::specs::Image::byte_among))]
pub fn byte_at(segments: &[Segment], address: u64) -> u8
    ensures { result ≡ byte_among segments.now address }
{
    match holder(segments, address) {
        Some(segment) => segment.bytes[(address - u64::from(segment.vaddr)) as usize],
        None => 0,
    }
}

/// The opening word at an address.
#[tactic(auto, using(crate::proofs::Touched::word_untouched, crate::proofs::Touched::word_touched))]
pub fn word_at(segments: &[Segment], address: u32) -> u32
    ensures { result ≡ word_among segments.now address }
{
    let address = u64::from(address);
    match first_touched(segments, address) {
        None => 0,
        Some(segment) => match word_in(segment, address) {
            Some(word) => word,
            None => word_by_bytes(segments, address),
        },
    }
}

/// The first segment that may have one of the four bytes from an address on among those that it begins
/// with.
fn first_touched(segments: &[Segment], address: u64) -> Option<&Segment>
    requires { address < 2 ^ 32 }
    ensures { option_copied result ≡ find (touches address) segments.now }
{
    segments.iter().find(|segment| touches(segment, address))
}

/// Whether the segment may have one of the four bytes from an address on among those that it begins
/// with.
fn touches(segment: &Segment, address: u64) -> bool
    requires { address < 2 ^ 32 }
    ensures { result ≡ touches address segment.now }
{
    let start = u64::from(segment.vaddr);
    start < address + 4 && address < start + segment.bytes.len() as u64
}

/// The four bytes from an address on, where the segment begins with all of them.
fn word_in(segment: &Segment, address: u64) -> Option<u32>
    requires { address < 2 ^ 32 }
    ensures { IfSome result (λ word. HoldsWord word address segment.now) }
{
    let start = u64::from(segment.vaddr);
    if start <= address && address + 4 <= start + segment.bytes.len() as u64 {
        Some(LittleEndian::read_u32(&segment.bytes[(address - start) as usize..]))
    } else {
        None
    }
}

/// The four bytes from an address on, each of its own segment.
#[tactic(auto, unfolding(crate::specs::Image::word_among))]
fn word_by_bytes(segments: &[Segment], address: u64) -> u32
    requires { address < 2 ^ 32 }
    ensures { result ≡ word_among segments.now address }
{
    u32::from_le_bytes([
        byte_at(segments, address),
        byte_at(segments, address + 1),
        byte_at(segments, address + 2),
        byte_at(segments, address + 3),
    ])
}

/// Whether one segment that may be executed has all four bytes from an address on.
pub fn has_code(segments: &[Segment], pc: u32) -> bool
    ensures { result ≡ list_any (is_code_at pc) segments.now }
{
    segments
        .iter()
        .any(|segment| may_execute(segment) && covers(segment, pc, 4))
}

/// Whether one of the bytes from an address on is in a segment that may not be written.
pub fn has_read_only(segments: &[Segment], address: u32, len: u32) -> bool
    ensures { result ≡ list_any (is_read_only_at address len) segments.now }
{
    segments.iter().any(|segment| !may_write(segment) && meets(segment, address, len))
}
