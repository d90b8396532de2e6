//! The program as far as it is put together.
ghost use Rattle.std.specs.Prelude.{◌≡◌, ◌+◌, ◌++◌, ◌≤◌, ◌<◌, ◌^◌, [], ◌∷◌, IfOk, length};
ghost use Rattle.std.specs.List.{repeat};
ghost use Rattle.rv32_encode.specs.Elf.{words};
ghost use Rattle.rv32_asm.specs.Assembling.{opened, with_more, open_len, Adds, Begins};
ghost use Rattle.rv32_asm.specs.Programs.{segment, start_of};

use dash_base::{OutOfMemory, Segment};
use rv32_encode::Program;
use std::alloc::Global;

/// A segment whose bytes are not all there yet.
#[derive(Drop)]
pub struct Open {
    pub vaddr: u32,
    pub flags: u32,
    pub bytes: Vec<u8>,
}

/// The segments so far, the one that is open, and the entry where a line set it.
#[derive(Drop)]
pub struct Assembly {
    pub closed: Vec<Segment>,
    pub open: Option<Open>,
    pub entry: Option<u32>,
}

impl Assembly {
    /// Nothing yet.
    pub fn new(alloc: Global) -> Assembly
        ensures closed { result.closed.items ≡ [] }
        ensures open { result.open ≡ None }
        ensures entry { result.entry ≡ None }
    {
        Assembly {
            closed: Vec::new(alloc),
            open: None,
            entry: None,
        }
    }

    /// Ends the open segment, and begins another.
    pub fn begin(&mut self, alloc: Global, address: u32, flags: u32) -> Result<(), OutOfMemory>
        requires { open_len self.old.open < 2 ^ 32 }
        ensures begun { IfOk result (λ _. Begins address flags self.old self.new) }
        ensures len { IfOk result (λ _. open_len self.new.open ≡ 0) }
        ensures entry { IfOk result (λ _. self.new.entry ≡ self.old.entry) }
    {
        self.close()?;
        self.open = Some(Open {
            vaddr: address,
            flags,
            bytes: Vec::new(alloc),
        });
        Ok(())
    }

    /// Ends the open segment.
    fn close(&mut self) -> Result<(), OutOfMemory>
        requires { open_len self.old.open < 2 ^ 32 }
        ensures closed { IfOk result (λ _. self.new.closed.items ≡ self.old.closed.items ++ opened self.old.open [] []) }
        ensures open { IfOk result (λ _. self.new.open ≡ None) }
        ensures entry { IfOk result (λ _. self.new.entry ≡ self.old.entry) }
    {
        if let Some(open) = self.open.take() {
            self.closed.push(closed(open))?;
        }
        Ok(())
    }

    /// Puts a word, its lowest byte first.
    #[tactic(auto, unfolding(rv32_encode::specs::Elf::words))]
    pub fn put_word(&mut self, word: u32) -> Result<(), OutOfMemory>
        ensures added { IfOk result (λ _. Adds (words (word ∷ [])) self.old self.new) }
        ensures len { IfOk result (λ _. open_len self.new.open ≤ open_len self.old.open + 4) }
        ensures entry { IfOk result (λ _. self.new.entry ≡ self.old.entry) }
    {
        if let Some(open) = &mut self.open {
            open.bytes.extend_from_slice(&word.to_le_bytes())?;
        }
        Ok(())
    }

    /// Puts so many zeros.
    pub fn put_zeros(&mut self, count: u32) -> Result<(), OutOfMemory>
        ensures added { IfOk result (λ _. Adds (repeat count (0 ∷ [])) self.old self.new) }
        ensures len { IfOk result (λ _. open_len self.new.open ≤ open_len self.old.open + count) }
        ensures entry { IfOk result (λ _. self.new.entry ≡ self.old.entry) }
    {
        if let Some(open) = &mut self.open {
            push_zeros(&mut open.bytes, count)?;
        }
        Ok(())
    }

    /// The program.
    ///
    /// # Errors
    ///
    /// `OutOfMemory` alone.
    pub fn finish(mut self) -> Result<Program, OutOfMemory>
        requires { open_len self.open < 2 ^ 32 }
        ensures { IfOk result (λ program. program ≡ record { entry = start_of self.entry (with_more self [] []); segments = with_more self [] [] }) }
    {
        self.close()?;
        let entry = start_of(self.entry, &self.closed);
        Ok(Program {
            entry,
            segments: self.closed,
        })
    }
}

fn closed(open: Open) -> Segment
    requires { length open.bytes.items < 2 ^ 32 }
    ensures { result ≡ segment open.vaddr open.flags open.bytes.items }
{
    Segment {
        vaddr: open.vaddr,
        memsz: open.bytes.len() as u32,
        flags: open.flags,
        bytes: open.bytes,
    }
}

fn start_of(entry: Option<u32>, segments: &[Segment]) -> u32
    ensures { result ≡ start_of entry segments.now }
{
    match entry {
        Some(entry) => entry,
        None => match segments {
            [first, ..] => first.vaddr,
            [] => 0,
        },
    }
}

fn push_zeros(bytes: &mut Vec<u8>, count: u32) -> Result<(), OutOfMemory>
    ensures bytes { IfOk result (λ _. bytes.new.items ≡ bytes.old.items ++ repeat count (0 ∷ [])) }
    ensures len { IfOk result (λ _. length bytes.new.items ≡ length bytes.old.items + count) }
{
    for i in 0..count {
        let _ = i;
        bytes.push(0)?;
    }
    Ok(())
}
