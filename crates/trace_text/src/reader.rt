//! Logs, read from their text.
ghost use Rattle.std.specs.Prelude.{◌≡◌, ◌+◌, ◌-◌, ◌^◌, ◌<◌, [], length, position, true, unwrap_or, IfOk, IfErr};
ghost use Rattle.trace_text.specs.Reading.{is_whole, is_newline, IsFirstLine, AreLinesOf, IsTextOf, AreRefusedFor, IsRefusedFor};

use crate::read_line::read_event;
use crate::refusal::TextRefusal;
use dash_event::Event;
use std::alloc::Global;

/// The log of this text: a text is accepted exactly where it is that of a log. It refuses, in this
/// order, a text that doesn't begin with the line `dash log 1` (`Head`), one whose last byte is no
/// newline (`Cut`), and one with a line that is no event's (`At`, the first such line). `OutOfMemory`
/// may stand in place of any answer.
pub fn read_log(alloc: Global, bytes: &[u8]) -> Result<Vec<Event>, TextRefusal>
    requires { length bytes.now < 2 ^ 32 - 1 }
    ensures ok { IfOk result (λ log. IsTextOf bytes.now log.items) }
    ensures refused { IfErr result (IsRefusedFor bytes.now) }
{
    let Some(lines) = bytes.strip_prefix(b"dash log 1\n") else {
        return Err(TextRefusal::Head);
    };
    if !is_whole(lines) {
        return Err(TextRefusal::Cut);
    }
    read_lines(alloc, lines)
}

/// Whether nothing stands behind the last newline.
fn is_whole(text: &[u8]) -> bool
    ensures { result ≡ is_whole text.now }
{
    match text.split_last() {
        Some((last, _)) => *last == b'\n',
        None => true,
    }
}

/// The events of the lines behind the head.
fn read_lines(alloc: Global, lines: &[u8]) -> Result<Vec<Event>, TextRefusal>
    requires whole { is_whole lines.now ≡ true }
    requires short { length lines.now + 3 < 2 ^ 32 }
    ensures ok { IfOk result (λ log. AreLinesOf lines.now log.items []) }
    ensures refused { IfErr result (AreRefusedFor lines.now) }
{
    let mut log = Vec::new(alloc);
    let mut buffer = String::new(alloc);
    let mut rest = lines;
    let mut number = 2_u32;
    while !rest.is_empty() {
        let (line, others) = cut_line(rest);
        if !read_event(&mut log, &mut buffer, line)? {
            return Err(TextRefusal::At { line: number });
        }
        number += 1;
        rest = others;
    }
    Ok(log)
}

/// The first line, newline included, and those behind it.
fn cut_line(lines: &[u8]) -> (&[u8], &[u8])
    requires some { 0 < length lines.now }
    requires whole { is_whole lines.now ≡ true }
    ensures { IsFirstLine lines.now result.0.now result.1.now }
{
    lines.split_at(body_len(lines) + 1)
}

/// How many bytes stand before the first newline.
fn body_len(lines: &[u8]) -> usize
    ensures { result ≡ unwrap_or (position is_newline lines.now) (length lines.now) }
{
    match first_newline(lines) {
        Some(place) => place,
        None => lines.len(),
    }
}

/// Where the first newline stands.
fn first_newline(lines: &[u8]) -> Option<usize>
    ensures { result ≡ position is_newline lines.now }
{
    lines.iter().position(|byte| *byte == b'\n')
}
