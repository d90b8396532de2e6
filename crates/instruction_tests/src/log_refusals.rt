//! Texts that are no log's, each with its refusal, as a person would tell it from the form of a log.

use dash_event::Event;
use std::alloc::Global;
use std::test::Fail;
use trace_text::{TextRefusal, read_log};

/// A log of two events. Its head ends at byte 11, its second line at byte 30.
const SHORT: &str = "dash log 1\n1 0 alu 0 00010000\n2 1 evict 3 2048\n";

fn read(alloc: Global, text: &[u8]) -> Result<Vec<Event>, TextRefusal> {
    if text.len() >= 4_294_967_295 {
        return Err(TextRefusal::OutOfMemory);
    }
    read_log(alloc, text)
}

fn refusal_of(alloc: Global, text: &str) -> Option<TextRefusal> {
    read(alloc, text.as_bytes()).err()
}

#[test]
fn a_text_without_the_head_is_refused_for_it(rt: HostRuntime) -> Result<(), Fail> {
    let texts = [
        "",
        "\n",
        "dash log 1",
        "dash log 2\n",
        "dash log 1\r\n",
        "dash log 1 \n",
        " dash log 1\n",
        "Dash log 1\n",
        "1 0 alu 0 00010000\n",
    ];
    for text in &texts {
        assert_eq!(rt; refusal_of(rt.alloc(), text), Some(TextRefusal::Head));
    }
    Ok(())
}

#[test]
fn a_text_without_the_last_newline_is_cut(rt: HostRuntime) -> Result<(), Fail> {
    let texts = [
        "dash log 1\n1 0 alu 0 00010000",
        "dash log 1\n1 0 alu 0 00010000\r",
        "dash log 1\nno event\n1",
        "dash log 1\n\n ",
    ];
    for text in &texts {
        assert_eq!(rt; refusal_of(rt.alloc(), text), Some(TextRefusal::Cut));
    }
    Ok(())
}

#[test]
fn a_line_that_is_no_events_is_told(rt: HostRuntime) -> Result<(), Fail> {
    let lines = [
        "01 0 alu 0 00010000",
        "+1 0 alu 0 00010000",
        "-1 0 alu 0 00010000",
        "1 0 alu 0 00010000\r",
        "1 0 alu 0 00010000 ",
        " 1 0 alu 0 00010000",
        "1  0 alu 0 00010000",
        "1 0 alu 0 0010000",
        "1 0 alu 0 0001000A",
        "1 0 alu 0 000010000",
        "1 0 alu 0",
        "1 0 move 0 00010000",
        "1 0 ALU 0 00010000",
        "18446744073709551616 0 alu 0 00010000",
        "1 4294967296 alu 0 00010000",
        "1 0 alu 4294967296 00010000",
        "1 0 put 0 00010000 100",
        "1 0 store 3 17 store - 00008004 10 - - -",
        "1 0 store 3 17 store ra 00008004 f - - -",
        "1 0 store 3 17 swap - 00008004 f - - -",
        "1 0 stop 0 00010000 trap nothing 00000000",
        "1 0 take 1 fwd 2048 2",
        "",
    ];
    for line in &lines {
        let alloc = rt.alloc();
        let first = format!(in alloc; "dash log 1\n{line}\n1 0 alu 0 00010000\n")?;
        assert_eq!(rt;
            refusal_of(alloc, &first),
            Some(TextRefusal::At { line: 2 })
        );
        let last = format!(in alloc; "dash log 1\n1 0 alu 0 00010000\n{line}\n")?;
        assert_eq!(rt; refusal_of(alloc, &last), Some(TextRefusal::At { line: 3 }));
    }
    Ok(())
}

#[test]
fn a_log_cut_off_at_any_byte_is_told_from_a_shorter_log(rt: HostRuntime) -> Result<(), Fail> {
    let text = SHORT.as_bytes();
    for len in 0..=text.len() {
        let events = match read(rt.alloc(), &text[..len]) {
            Ok(log) => Ok(log.len()),
            Err(refusal) => Err(refusal),
        };
        let expected = match len {
            0..=10 => Err(TextRefusal::Head),
            11 => Ok(0),
            30 => Ok(1),
            47 => Ok(2),
            _ => Err(TextRefusal::Cut),
        };
        assert_eq!(rt; events, expected);
    }
    Ok(())
}
