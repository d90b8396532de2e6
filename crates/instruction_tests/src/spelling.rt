//! Texts and the words that GNU as makes of them. It takes no empty set of a fence, and no fence.tso
//! as a fence, so these two words are by hand.
use dash_base::{AluOp, Instr, Op};
use rv32_decode::decode;
use rv32_text::text;

pub static WORDS: [(u32, &str); 55] = [
    (0x00000037, "lui zero,0"),
    (0xFFFFFFB7, "lui t6,1048575"),
    (0x00001117, "auipc sp,1"),
    (0xFFDFF0EF, "jal ra,-4"),
    (0x7FFFF06F, "jal zero,1048574"),
    (0x8000046F, "jal s0,-1048576"),
    (0x000280E7, "jalr ra,0(t0)"),
    (0x80008067, "jalr zero,-2048(ra)"),
    (0x80B50063, "beq a0,a1,-4096"),
    (0x7E049FE3, "bne s1,zero,4094"),
    (0x00734463, "blt t1,t2,8"),
    (0xFE41DCE3, "bge gp,tp,-8"),
    (0x01BD6063, "bltu s10,s11,0"),
    (0x7FDE7F63, "bgeu t3,t4,2046"),
    (0xFFF68603, "lb a2,-1(a3)"),
    (0x7FF79703, "lh a4,2047(a5)"),
    (0xFFC12283, "lw t0,-4(sp)"),
    (0x0008C803, "lbu a6,0(a7)"),
    (0x8009D903, "lhu s2,-2048(s3)"),
    (0xFF4A8FA3, "sb s4,-1(s5)"),
    (0x7F6B9FA3, "sh s6,2047(s7)"),
    (0x818CA023, "sw s8,-2048(s9)"),
    (0x800F8F13, "addi t5,t6,-2048"),
    (0x7FF5A513, "slti a0,a1,2047"),
    (0xFFF5B513, "sltiu a0,a1,-1"),
    (0xFFF5C513, "xori a0,a1,-1"),
    (0x0005E513, "ori a0,a1,0"),
    (0x0025E013, "ori zero,a1,2"),
    (0x0FF5F513, "andi a0,a1,255"),
    (0x01F59513, "slli a0,a1,31"),
    (0x0005D513, "srli a0,a1,0"),
    (0x4075D513, "srai a0,a1,7"),
    (0x100522AF, "lr.w t0,(a0)"),
    (0x140522AF, "lr.w.aq t0,(a0)"),
    (0x1A6522AF, "sc.w.rl t0,t1,(a0)"),
    (0x0FB02D2F, "amoswap.w.aqrl s10,s11,(zero)"),
    (0x066522AF, "amoadd.w.aqrl t0,t1,(a0)"),
    (0x206522AF, "amoxor.w t0,t1,(a0)"),
    (0x606522AF, "amoand.w t0,t1,(a0)"),
    (0x406522AF, "amoor.w t0,t1,(a0)"),
    (0x806522AF, "amomin.w t0,t1,(a0)"),
    (0xA46522AF, "amomax.w.aq t0,t1,(a0)"),
    (0xC26522AF, "amominu.w.rl t0,t1,(a0)"),
    (0xE06522AF, "amomaxu.w t0,t1,(a0)"),
    (0x0FF0000F, "fence iorw,iorw"),
    (0x0310000F, "fence rw,w"),
    (0x0840000F, "fence i,o"),
    (0x0230000F, "fence r,rw"),
    (0x0000000F, "fence 0,0"),
    (0x8330000F, "fence rw,rw"),
    (0x00056013, "prefetch.i 0(a0)"),
    (0x80116013, "prefetch.r -2048(sp)"),
    (0x7E3FE013, "prefetch.w 2016(t6)"),
    (0x00000073, "ecall"),
    (0x00100073, "ebreak"),
];

#[test]
fn texts_of_words(rt: HostRuntime) {
    for (word, expected) in WORDS {
        let instr = decode(word).expect(&rt, "an instruction");
        assert_eq!(rt; text(&instr).as_str(), expected, "of {word:08x}");
    }
}

#[test]
fn operations_on_registers(rt: HostRuntime) {
    let table = [
        (AluOp::Add, "add t0,t1,t2"),
        (AluOp::Sub, "sub t0,t1,t2"),
        (AluOp::Sll, "sll t0,t1,t2"),
        (AluOp::Slt, "slt t0,t1,t2"),
        (AluOp::Sltu, "sltu t0,t1,t2"),
        (AluOp::Xor, "xor t0,t1,t2"),
        (AluOp::Srl, "srl t0,t1,t2"),
        (AluOp::Sra, "sra t0,t1,t2"),
        (AluOp::Or, "or t0,t1,t2"),
        (AluOp::And, "and t0,t1,t2"),
        (AluOp::Mul, "mul t0,t1,t2"),
        (AluOp::Mulh, "mulh t0,t1,t2"),
        (AluOp::Mulhsu, "mulhsu t0,t1,t2"),
        (AluOp::Mulhu, "mulhu t0,t1,t2"),
        (AluOp::Div, "div t0,t1,t2"),
        (AluOp::Divu, "divu t0,t1,t2"),
        (AluOp::Rem, "rem t0,t1,t2"),
        (AluOp::Remu, "remu t0,t1,t2"),
    ];
    for (op, expected) in table {
        let instr = Instr::Op(Op {
            op,
            rd: 5,
            rs1: 6,
            rs2: 7,
        });
        assert_eq!(rt; text(&instr).as_str(), expected);
    }
}
