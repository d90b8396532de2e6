//! Sources, and what the assembler makes of them. The words of `LOOP` and those of `spelling` are those of
//! the GNU assembler; the others, with `li` and `la`, which it shortens, were worked out by hand.
use crate::spelling::WORDS;
use rv32_asm::{AsmCause, AsmRefusal, assemble};
use rv32_encode::Program;
use std::alloc::Global;
use std::test::Fail;

fn assembled(alloc: Global, source: &str) -> Result<Program, AsmRefusal> {
    if source.len() >= 4_294_967_290 {
        return Err(AsmRefusal::OutOfMemory);
    }
    assemble(alloc, source)
}

/// The line at which a source is refused, and why.
fn refused(alloc: Global, source: &str) -> Option<AsmRefusal> {
    assembled(alloc, source).err()
}

/// The word at a place among bytes; 0 behind their end.
fn word_at(bytes: &[u8], place: usize) -> u32 {
    match bytes.get(place..) {
        Some([a, b, c, d, ..]) => u32::from_le_bytes([*a, *b, *c, *d]),
        _ => 0,
    }
}

#[test]
fn each_spelling_is_read_as_its_word(rt: HostRuntime) -> Result<(), Fail> {
    for (word, spelling) in WORDS {
        let mut source = String::from_str(rt.alloc(), ".text 0\n")?;
        source.push_str(spelling)?;
        let program = assembled(rt.alloc(), &source)?;
        let segment = program.segments.first().expect(&rt, "a segment");
        // the fm of a fence isn't spelled
        let expected = if word == 0x8330000F { 0x0330000F } else { word };
        assert_eq!(rt; word_at(&segment.bytes, 0), expected, "of {spelling}");
    }
    Ok(())
}

/// Labels forward and back.
const LOOP: &str = "
.text 4096       # the first segment
start:
  addi a0,zero,0
loop:\t# in a line of its own
\taddi a0 , a0\t,1
  bne a0,a1,loop
  beq a0,a1,done
  jal ra,start
  j done
  nop
  mv t0,a0
  bgeu t0,zero,loop
done:
  ecall
  jal zero,loop";

const LOOP_WORDS: [u32; 11] = [
    0x00000513, 0x00150513, 0xfeb51ee3, 0x00b50c63, 0xff1ff0ef, 0x0100006f, 0x00000013, 0x00050293,
    0xfe02f2e3, 0x00000073, 0xfddff06f,
];

/// What is no instruction of the manual's, and numbers in each form.
const DATA: &str = ".data 65536
.word -1
.word 0xfFfF0000
.word 2147483648
.word there
.space 8
there:
.word 0x10
.text 0x0
li t0,2147483647
li t1,-2049
li t2,4294967295
la a0,there
lui a0,0x12345
ori zero,a0,2
.entry there
.entry here
here:
";

const DATA_WORDS: [u32; 7] = [0xffffffff, 0xffff0000, 0x80000000, 0x00010018, 0, 0, 0x10];

const TEXT_WORDS: [u32; 10] = [
    0x800002b7, 0xfff28293, 0xfffff337, 0x7ff30313, 0x000003b7, 0xfff38393, 0x00010537, 0x01850513,
    0x12345537, 0x00256013,
];

/// Whether these are the bytes of the words, and no more.
fn has_words(bytes: &[u8], words: &[u32]) -> bool {
    let mut rest = bytes;
    for word in words {
        match rest {
            [a, b, c, d, others @ ..] if u32::from_le_bytes([*a, *b, *c, *d]) == *word => {
                rest = others;
            }
            _ => return false,
        }
    }
    rest.is_empty()
}

#[test]
fn programs_of_sources(rt: HostRuntime) -> Result<(), Fail> {
    let table: [(&str, u32, &[(u32, u32, &[u32])]); 4] = [
        (LOOP, 4096, &[(4096, 5, &LOOP_WORDS)]),
        (DATA, 40, &[(65536, 6, &DATA_WORDS), (0, 5, &TEXT_WORDS)]),
        (
            ".text 65536\nstart:\necall\n.entry start\n",
            65536,
            &[(65536, 5, &[0x00000073])],
        ),
        ("# nothing\n\n", 0, &[]),
    ];
    for (source, entry, segments) in table {
        let program = assembled(rt.alloc(), source)?;
        assert_eq!(rt; program.entry, entry);
        assert_eq!(rt; program.segments.len(), segments.len());
        for (segment, (vaddr, flags, words)) in program.segments.iter().zip(segments) {
            assert_eq!(rt; segment.vaddr, *vaddr);
            assert_eq!(rt; segment.flags, *flags);
            assert_eq!(rt; segment.memsz as usize, segment.bytes.len());
            assert!(rt; has_words(&segment.bytes, words), "the words of {vaddr}");
        }
    }
    Ok(())
}

/// Sources that are refused, with the line and the cause.
const REFUSED: [(&str, u32, AsmCause); 50] = [
    ("addi t0,zero,2048", 1, AsmCause::Immediate),
    ("\n\nadd a0,a1", 3, AsmCause::Shape),
    ("add a0,a1,a2,a3", 1, AsmCause::Shape),
    ("add a0,,a2", 1, AsmCause::Shape),
    ("add a0,a1,-1", 1, AsmCause::Shape),
    ("ecall a0", 1, AsmCause::Shape),
    ("lw t0,4 (sp)", 1, AsmCause::Shape),
    ("lw t0,4(sp", 1, AsmCause::Shape),
    ("lw t0,(sp)", 1, AsmCause::Shape),
    ("amoadd.w t0,t1,0(a0)", 1, AsmCause::Shape),
    ("fence wr,r", 1, AsmCause::Shape),
    ("addi a0,a0,0x", 1, AsmCause::Shape),
    ("addi a0,a0,0x123456789", 1, AsmCause::Shape),
    ("addi a0,a0,+1", 1, AsmCause::Shape),
    ("addi a0,a0,-0x1", 1, AsmCause::Shape),
    (".entry 5", 1, AsmCause::Shape),
    ("li a0,there", 1, AsmCause::Shape),
    ("one two:", 1, AsmCause::Name),
    ("5:", 1, AsmCause::Shape),
    ("a23456789012345678901234567890123:", 1, AsmCause::Shape),
    ("ADD a0,a1,a2", 1, AsmCause::Name),
    ("subi a0,a0,1", 1, AsmCause::Name),
    (".byte 1", 1, AsmCause::Name),
    ("add x1,a1,a2", 1, AsmCause::Name),
    ("amoadd.w.rlaq t0,t1,(a0)", 1, AsmCause::Name),
    ("lw t0,4(fp)", 1, AsmCause::Name),
    ("beq a0,a1,-4098", 1, AsmCause::Immediate),
    ("beq a0,a1,3", 1, AsmCause::Immediate),
    ("jal zero,1048576", 1, AsmCause::Immediate),
    ("slli a0,a0,32", 1, AsmCause::Immediate),
    ("lui a0,-1", 1, AsmCause::Immediate),
    ("prefetch.r 16(a0)", 1, AsmCause::Immediate),
    (".text 2", 1, AsmCause::Immediate),
    (".space 16777220", 1, AsmCause::Immediate),
    ("li a0,99999999999999999999999999", 1, AsmCause::Immediate),
    (
        ".text 0\nbeq a0,a0,far\n.space 4096\nfar:",
        2,
        AsmCause::Immediate,
    ),
    (".text 0\none:\none:", 3, AsmCause::Twice),
    (".text 0\nj there", 2, AsmCause::Missing),
    (".entry there", 1, AsmCause::Missing),
    ("nop", 1, AsmCause::NoSegment),
    ("there:", 1, AsmCause::NoSegment),
    (".text 0xfffffffc\nli a0,1", 2, AsmCause::TooLong),
    (".text 0xfffffffc\nnop\nthere:", 3, AsmCause::TooLong),
    (".text 0\n.space 16777216\nnop", 3, AsmCause::TooLong),
    // several causes on a line: the first of them
    ("add x1,a1", 1, AsmCause::Shape),
    ("addi x1,a1,4096", 1, AsmCause::Name),
    ("li x1,there", 1, AsmCause::Shape),
    ("j there", 1, AsmCause::Missing),
    (
        ".text 0\none:\n.text 4294967292\nnop\none:",
        5,
        AsmCause::Twice,
    ),
    // and of several lines the least
    (".text 0\nj there\nadd\nfoo", 2, AsmCause::Missing),
];

#[test]
fn refusals_of_sources(rt: HostRuntime) {
    for (source, line, cause) in REFUSED {
        assert_eq!(rt;
            refused(rt.alloc(), source),
            Some(AsmRefusal::At { line, cause }),
            "of {source}"
        );
    }
}

#[test]
fn many_segments_and_labels(rt: HostRuntime) -> Result<(), Fail> {
    let mut source = String::new(rt.alloc());
    for i in 0..64_u32 {
        let label = i * 7 % 64;
        write!(source, ".text {}\nl{label}:\nj l{}\n", i * 4096, 63 - label)?;
    }
    assert_eq!(rt; assembled(rt.alloc(), &source)?.segments.len(), 64);
    source.push_str(".data 0\n")?;
    let cause = AsmCause::TooLong;
    assert_eq!(rt;
        refused(rt.alloc(), &source),
        Some(AsmRefusal::At { line: 193, cause })
    );
    Ok(())
}
