//! What no clause says: that a run succeeds where there is memory, and how a few reports look, over a
//! host in memory. Expected texts are written out by hand.

use arbiter::{Arbiter, Rotate};
use dash_base::{MemoryHost, Stream};
use dash_event::Event;
use dash_run::{Ended, dash};
use round_run::OpenGate;
use std::alloc::{AllocError, Global};
use std::collections::BTreeMap;
use std::sync::Wait;
use std::test::Fail;
use std::thread::Threads;
use trace_text::{TextRefusal, read_log};

/// The headers of a file with one segment at 0x10000, which stands at 84 in the file.
static HEADERS: [u8; 84] = [
    0x7f, 0x45, 0x4c, 0x46, 1, 1, 1, 0, 0, 0, 0, 0, 0, 0, 0, 0, // e_ident
    2, 0, 243, 0, 1, 0, 0, 0, // e_type, e_machine, e_version
    0, 0, 1, 0, 52, 0, 0, 0, 0, 0, 0, 0, // e_entry, e_phoff, e_shoff
    0, 0, 0, 0, 52, 0, 32, 0, 1, 0, // e_flags, e_ehsize, e_phentsize, e_phnum
    0, 0, 0, 0, 0, 0, // e_shentsize, e_shnum, e_shstrndx
    1, 0, 0, 0, 84, 0, 0, 0, // p_type, p_offset
    0, 0, 1, 0, 0, 0, 1, 0, // p_vaddr, p_paddr
    0, 0, 0, 0, 0, 0, 0, 0, // p_filesz, p_memsz: filled in
    5, 0, 0, 0, 1, 0, 0, 0, // p_flags, p_align
];

/// Puts "ok" on the console and exits with 0.
pub static OK: [u32; 8] = [
    0x06f0_0513,
    0x0010_0893,
    0x0000_0073,
    0x06b0_0513,
    0x0000_0073,
    0x0000_0513,
    0x05d0_0893,
    0x0000_0073,
];

static OK_CONSOLE: &str = "console 2\nok\n";

static OK_HARTS: &str = "hart 0 exit 00000000 pc 0001001c retired 8
x0 00000000 00000000 00100000 00000000 00000000 00000000 00000000 00000000
x8 00000000 00000000 00000000 00000001 00000000 00000000 00000000 00000000
x16 00000000 0000005d 00000000 00000000 00000000 00000000 00000000 00000000
x24 00000000 00000000 00000000 00000000 00000000 00000000 00000000 00000000
status 0
";

static NO_ACCESSES: &str = "accesses 0\n";

static BAD_CALL: &str = "console 0\n
hart 0 trap badcall 00000000 pc 00010000 retired 0
x0 00000000 00000000 00100000 00000000 00000000 00000000 00000000 00000000
x8 00000000 00000000 00000000 00000001 00000000 00000000 00000000 00000000
x16 00000000 00000000 00000000 00000000 00000000 00000000 00000000 00000000
x24 00000000 00000000 00000000 00000000 00000000 00000000 00000000 00000000
status 11
accesses 0
";

/// `addi a2,zero,1` and then a jump to itself, which spends the budget.
pub static SPIN: [u32; 2] = [0x0010_0613, 0x0000_006f];

static SPENT: &str = "console 0\n
hart 0 budget pc 00010004 retired 1000000
x0 00000000 00000000 00100000 00000000 00000000 00000000 00000000 00000000
x8 00000000 00000000 00000000 00000001 00000001 00000000 00000000 00000000
x16 00000000 00000000 00000000 00000000 00000000 00000000 00000000 00000000
x24 00000000 00000000 00000000 00000000 00000000 00000000 00000000 00000000
status 10
accesses 0
";

static USAGE: &str =
    "dash: usage: dash run IMAGE [TOPOLOGY [--log] | CLUSTERS HARTS BUDGET [--log]] | dash gen SEED\n";

/// Each of two harts adds 2 to a word, between asking for a lock word and giving it back.
static LOCKED: [u32; 7] = [
    0x0010_0637, // lui a2, 0x100
    0x0002_07b7, // lui a5, 0x20
    0x0cb6_26af, // amoswap.w.aq a3, a1, (a2)
    0x06b7_a72f, // amoadd.w.aqrl a4, a1, (a5)
    0x0a06_282f, // amoswap.w.rl a6, zero, (a2)
    0x05d0_0893, // li a7, 93
    0x0000_0073, // ecall
];

static LOCKED_REPORT: &str = "console 0\n
hart 0 exit 00000000 pc 00010018 retired 7
x0 00000000 00000000 00100000 00000000 00000000 00000000 00000000 00000000
x8 00000000 00000000 00000000 00000002 00100000 00000000 00000000 00020000
x16 00000002 0000005d 00000000 00000000 00000000 00000000 00000000 00000000
x24 00000000 00000000 00000000 00000000 00000000 00000000 00000000 00000000
hart 1 exit 00000001 pc 00010018 retired 7
x0 00000000 00000000 000e0000 00000000 00000000 00000000 00000000 00000000
x8 00000000 00000000 00000001 00000002 00100000 00000000 00000002 00020000
x16 00000002 0000005d 00000000 00000000 00000000 00000000 00000000 00000000
x24 00000000 00000000 00000000 00000000 00000000 00000000 00000000 00000000
status 0
accesses 6
0 3 ask a 00100000 f 00000000 00000002 lock 0
0 4 amo ar 00020000 f 00000000 00000002 line 0
0 5 unlock r 00100000 f 00000002 00000000 lock 1
1 3 ask a 00100000 f 00000000 00000002 lock 2
1 4 amo ar 00020000 f 00000002 00000004 line 1
1 5 unlock r 00100000 f 00000002 00000000 lock 3
";

/// The same lock word is asked for and never given back.
pub static KEPT: [u32; 4] = [0x0010_0637, 0x0cb6_26af, 0x05d0_0893, 0x0000_0073];

static KEPT_REPORT: &str = "console 0\n
hart 0 exit 00000000 pc 0001000c retired 4
x0 00000000 00000000 00100000 00000000 00000000 00000000 00000000 00000000
x8 00000000 00000000 00000000 00000002 00100000 00000000 00000000 00000000
x16 00000000 0000005d 00000000 00000000 00000000 00000000 00000000 00000000
x24 00000000 00000000 00000000 00000000 00000000 00000000 00000000 00000000
hart 1 waits pc 00010004 retired 1
x0 00000000 00000000 000e0000 00000000 00000000 00000000 00000000 00000000
x8 00000000 00000000 00000001 00000002 00100000 00000000 00000000 00000000
x16 00000000 00000000 00000000 00000000 00000000 00000000 00000000 00000000
x24 00000000 00000000 00000000 00000000 00000000 00000000 00000000 00000000
status 12
accesses 1
0 2 ask a 00100000 f 00000000 00000002 lock 0
";

/// A file of these words.
pub fn file(alloc: Global, words: &[u32]) -> Result<Vec<u8>, AllocError> {
    let mut bytes = Vec::from_slice(alloc, &HEADERS)?;
    for word in words {
        bytes.extend_from_slice(&word.to_le_bytes())?;
    }
    let size = (words.len() % 64 * 4) as u8;
    if let Some(filesz) = bytes.get_mut(68) {
        *filesz = size;
    }
    if let Some(memsz) = bytes.get_mut(72) {
        *memsz = size;
    }
    Ok(bytes)
}

/// A topology of one cluster with two harts.
static TWO_HARTS: &str = "clusters = 1\nharts = 2\nbudget = 100\n";

/// A host with the files `a.elf` and `t.toml`, some of whose calls fail.
fn host(alloc: Global, bytes: Vec<u8>, failing: &[u32]) -> Result<MemoryHost, Fail> {
    let mut files = BTreeMap::new(alloc);
    files.insert(String::from_str(alloc, "a.elf")?, bytes)?;
    let topology = Vec::from_slice(alloc, TWO_HARTS.as_bytes())?;
    files.insert(String::from_str(alloc, "t.toml")?, topology)?;
    Ok(MemoryHost::new(alloc, files, 10_000, Vec::from_slice(alloc, failing)?)?)
}

fn words(alloc: Global, texts: &[&str]) -> Result<Vec<String>, AllocError> {
    let mut words = Vec::new(alloc);
    for text in texts {
        words.push(String::from_str(alloc, *text)?)?;
    }
    Ok(words)
}

/// The exit status of a call, and the number of events.
fn call<R: Threads + Wait + Sync>(
    rt: &R,
    alloc: Global,
    words: &[String],
    host: &mut MemoryHost,
) -> Result<(u8, usize), AllocError> {
    let ended = ended(rt, alloc, words, host)?;
    Ok((ended.status, ended.log.len()))
}

/// How a call with an open gate ended, each cluster choosing in rotation.
fn ended<R: Threads + Wait + Sync>(
    rt: &R,
    alloc: Global,
    words: &[String],
    host: &mut MemoryHost,
) -> Result<Ended, AllocError> {
    let mut arbiters: Vec<Box<dyn Arbiter + Send>> = Vec::new(alloc);
    for _cluster in 0..16 {
        arbiters.push(Box::new(alloc, Rotate::new())?)?;
    }
    if arbiters.len() != 16 {
        return Err(AllocError);
    }
    Ok(dash(rt, alloc, words, host, &OpenGate, arbiters))
}

#[test]
fn each_run_gives_its_report(rt: HostRuntime) -> Result<(), Fail> {
    let alloc = rt.alloc();
    let ok = format!(in alloc; "{OK_CONSOLE}{OK_HARTS}{NO_ACCESSES}")?;
    let spin: &[u32] = &SPIN;
    let cases: [(&[&str], &[u32], u8, &str, usize); 7] = [
        (&["run", "a.elf"], &OK, 0, ok.as_str(), 8),
        (&["run", "a.elf"], &[0x0000_0073], 11, BAD_CALL, 1),
        (&["run", "a.elf"], spin, 10, SPENT, 1_000_000),
        (
            &["run", "a.elf", "1", "1", "1000000"],
            spin,
            10,
            SPENT,
            1_000_000,
        ),
        (
            &["run", "a.elf", "1", "2", "100"],
            &LOCKED,
            0,
            LOCKED_REPORT,
            14,
        ),
        (&["run", "a.elf", "t.toml"], &LOCKED, 0, LOCKED_REPORT, 14),
        (
            &["run", "a.elf", "1", "2", "100"],
            &KEPT,
            12,
            KEPT_REPORT,
            5,
        ),
    ];
    for (texts, image, status, report, events) in cases {
        let mut host = host(alloc, file(alloc, image)?, &[])?;
        let words = words(alloc, texts)?;
        let (ended, happened) = call(&rt, alloc, words.as_slice(), &mut host)?;
        assert_eq!(rt; ended, status);
        assert!(rt; happened >= events);
        assert_eq!(rt; host.shown(Stream::Out), report.as_bytes());
        assert!(rt; host.shown(Stream::Err).is_empty());
    }
    Ok(())
}

#[test]
fn each_refusal_gives_its_line_alone(rt: HostRuntime) -> Result<(), Fail> {
    let alloc = rt.alloc();
    let no_header = {
        let mut bytes = file(alloc, &OK)?;
        if let Some(count) = bytes.get_mut(44) {
            *count = 0;
        }
        bytes
    };
    let cut = {
        let mut bytes = file(alloc, &OK)?;
        bytes.truncate(60);
        if let Some(kind) = bytes.get_mut(16) {
            *kind = 3;
        }
        bytes
    };
    let cases: [(&[&str], Vec<u8>, u8, &str); 16] = [
        (&["run", "a.elf"], cut, 3, "dash: image: 1 short at 60\n"),
        (
            &["run", "a.elf"],
            no_header,
            3,
            "dash: image: 13 no segment\n",
        ),
        (
            &["run", "b.elf"],
            file(alloc, &OK)?,
            5,
            "dash: b.elf: read failed\n",
        ),
        (
            &["run", "a.elf", "b.toml", "--log"],
            file(alloc, &OK)?,
            5,
            "dash: b.toml: read failed\n",
        ),
        (
            &["run", "b.elf", "b.toml"],
            file(alloc, &OK)?,
            5,
            "dash: b.elf: read failed\n",
        ),
        (
            &["run", "t.toml", "a.elf"],
            file(alloc, &OK)?,
            4,
            "dash: topology: syntax\n",
        ),
        (&["run"], file(alloc, &OK)?, 2, USAGE),
        (&[], file(alloc, &OK)?, 2, USAGE),
        (&["run", "-x"], file(alloc, &OK)?, 2, USAGE),
        (&["run", ""], file(alloc, &OK)?, 2, USAGE),
        (&["run", "a.elf", "1", "1"], file(alloc, &OK)?, 2, USAGE),
        (
            &["run", "a.elf", "007", "1", "1"],
            file(alloc, &OK)?,
            2,
            USAGE,
        ),
        (
            &["run", "a.elf", "1", "1", "4294967296"],
            file(alloc, &OK)?,
            2,
            USAGE,
        ),
        (
            &["run", "a.elf", "3", "1", "666667"],
            file(alloc, &OK)?,
            4,
            "dash: topology: too much\n",
        ),
        (
            &["run", "a.elf", "17", "5", "0"],
            file(alloc, &OK)?,
            4,
            "dash: topology: range clusters\n",
        ),
        (
            &["run", "b.elf", "17", "5", "0"],
            file(alloc, &OK)?,
            5,
            "dash: b.elf: read failed\n",
        ),
    ];
    for (texts, bytes, status, line) in cases {
        let mut host = host(alloc, bytes, &[])?;
        let words = words(alloc, texts)?;
        assert_eq!(rt;
            call(&rt, alloc, words.as_slice(), &mut host)?.0,
            status,
            "at {line}"
        );
        assert_eq!(rt; host.shown(Stream::Err), line.as_bytes());
        assert!(rt; host.shown(Stream::Out).is_empty(), "at {line}");
    }
    Ok(())
}

#[test]
fn a_fault_ends_with_status_5_and_what_was_printed_before(rt: HostRuntime) -> Result<(), Fail> {
    let alloc = rt.alloc();
    let two_sections = format!(in alloc; "{OK_CONSOLE}{OK_HARTS}")?;
    let cases: [(&[u32], &str, &str, u64, u64); 5] = [
        (&[0], "", "dash: a.elf: read failed\n", 1, 0),
        (&[1], "", "", 0, 1),
        (&[2], OK_CONSOLE, "", 0, 1),
        (&[3], two_sections.as_str(), "", 0, 1),
        (&[0, 1], "", "", 1, 1),
    ];
    let run = words(alloc, &["run", "a.elf"])?;
    for (failing, out, err, loads, prints) in cases {
        let mut host = host(alloc, file(alloc, &OK)?, failing)?;
        assert_eq!(rt; call(&rt, alloc, run.as_slice(), &mut host)?.0, 5);
        assert_eq!(rt; host.shown(Stream::Out), out.as_bytes());
        assert_eq!(rt; host.shown(Stream::Err), err.as_bytes());
        assert_eq!(rt; host.failed_loads(), loads);
        assert_eq!(rt; host.failed_prints(), prints);
    }
    Ok(())
}

fn read(alloc: Global, text: &[u8]) -> Result<Vec<Event>, TextRefusal> {
    if text.len() >= 4_294_967_295 {
        return Err(TextRefusal::OutOfMemory);
    }
    read_log(alloc, text)
}

#[test]
fn a_log_is_printed_last_and_reads_back(rt: HostRuntime) -> Result<(), Fail> {
    let alloc = rt.alloc();
    let two_sections = format!(in alloc; "{OK_CONSOLE}{OK_HARTS}")?;
    let three_sections = format!(in alloc; "{OK_CONSOLE}{OK_HARTS}{NO_ACCESSES}")?;
    let cases: [(&[u32], u8, &str, bool); 5] = [
        (&[], 0, three_sections.as_str(), true),
        (&[1], 5, "", false),
        (&[2], 5, OK_CONSOLE, false),
        (&[3], 5, two_sections.as_str(), false),
        (&[4], 5, three_sections.as_str(), false),
    ];
    let run = words(alloc, &["run", "a.elf", "1", "1", "100", "--log"])?;
    for (failing, status, sections, has_log) in cases {
        let mut host = host(alloc, file(alloc, &OK)?, failing)?;
        let ended = ended(&rt, alloc, run.as_slice(), &mut host)?;
        assert_eq!(rt; ended.status, status);
        assert!(rt; ended.log.len() >= 8);
        let out = host.shown(Stream::Out);
        assert!(rt; out.starts_with(sections.as_bytes()));
        let rest = out.get(sections.len()..).unwrap_or_default();
        if has_log {
            assert_eq!(rt; read(alloc, rest)?.as_slice(), ended.log.as_slice());
        } else {
            assert!(rt; rest.is_empty());
        }
    }
    Ok(())
}
