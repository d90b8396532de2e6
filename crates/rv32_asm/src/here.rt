//! What stands before a line.
ghost use Rattle.std.specs.Prelude.{◌≡◌, ◌+◌, ◌<◌, ◌^◌, ◌≤◌, unwrap_or};
ghost use Rattle.rv32_asm.specs.Labels.{moved, moved_by, size, size_of};
ghost use Rattle.rv32_asm.specs.Causes.{begins, next, start};

use crate::refusal::AsmCause;
use crate::statement::Statement;

/// What stands before a line.
#[derive(Clone, Copy, Debug, PartialEq, Eq)]
pub struct Here {
    /// The line's number, from 1.
    pub line: u32,
    /// The address of its first byte. `None` before any segment.
    pub place: Option<u64>,
    /// The bytes before it, in all segments.
    pub total: u64,
    /// The segments that began.
    pub segments: u32,
}

impl Here {
    /// Before the first line.
    pub fn start() -> Here
        ensures { result ≡ start }
    {
        Here {
            line: 1,
            place: None,
            total: 0,
            segments: 0,
        }
    }

    /// Before the next line, where this one says so.
    pub fn next(&self, said: &Result<Statement<'_>, AsmCause>) -> Here
        requires line { self.now.line + 1 < 2 ^ 32 }
        requires place { unwrap_or self.now.place 0 + 2 ^ 32 < 2 ^ 64 }
        requires total { self.now.total + 2 ^ 32 < 2 ^ 64 }
        requires segments { self.now.segments + 1 < 2 ^ 32 }
        ensures value { result ≡ next self.now said.now }
        ensures bound { unwrap_or result.place 0 ≤ unwrap_or self.now.place 0 + 2 ^ 32 }
    {
        Here {
            line: self.line + 1,
            place: moved(self.place, said),
            total: self.total + size_of(said),
            segments: self.segments + begins(said),
        }
    }
}

/// The address behind a line.
pub fn moved(place: Option<u64>, said: &Result<Statement<'_>, AsmCause>) -> Option<u64>
    requires { unwrap_or place 0 + 2 ^ 32 < 2 ^ 64 }
    ensures value { result ≡ moved place said.now }
    ensures bound { unwrap_or result 0 ≤ unwrap_or place 0 + 2 ^ 32 }
{
    match said {
        Ok(Statement::Segment(address, _)) => Some(u64::from(*address)),
        Ok(statement) => moved_by(size(statement), place),
        Err(_) => place,
    }
}

fn moved_by(size: u64, place: Option<u64>) -> Option<u64>
    requires small { size < 2 ^ 32 }
    requires place { unwrap_or place 0 + 2 ^ 32 < 2 ^ 64 }
    ensures value { result ≡ moved_by size place }
    ensures bound { unwrap_or result 0 ≤ unwrap_or place 0 + 2 ^ 32 }
{
    match place {
        Some(address) => Some(address + size),
        None => None,
    }
}

/// How many bytes a line puts.
pub fn size(statement: &Statement<'_>) -> u64
    ensures value { result ≡ size statement.now }
    ensures small { result < 2 ^ 32 }
{
    match statement {
        Statement::Space(n) => u64::from(*n),
        Statement::Put(_)
        | Statement::PutAddress(_)
        | Statement::Branch(_, _, _, _)
        | Statement::Jump(_, _) => 4,
        Statement::Pair(_, _) | Statement::PairAddress(_, _) => 8,
        _ => 0,
    }
}

fn size_of(said: &Result<Statement<'_>, AsmCause>) -> u64
    ensures value { result ≡ size_of said.now }
    ensures small { result < 2 ^ 32 }
{
    match said {
        Ok(statement) => size(statement),
        Err(_) => 0,
    }
}

fn begins(said: &Result<Statement<'_>, AsmCause>) -> u32
    ensures value { result ≡ begins said.now }
    ensures small { result ≤ 1 }
{
    match said {
        Ok(Statement::Segment(_, _)) => 1,
        _ => 0,
    }
}
