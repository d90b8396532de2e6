//! Words as GNU as makes them, and words that objdump refuses or that are of no RV32IMA instruction.
use dash_base::{Branch, Jal, Jalr, Labels, Load, Op, OpImm, Store, Upper};
use rv32_decode::{AluOp, AmoOp, BranchOp, Hint, HintKind, Instr, LoadOp, StoreOp, decode, hint};

#[test]
fn words_of_the_assembler(rt: HostRuntime) {
    let table = [
        (
            0x06F00513,
            Instr::OpImm(OpImm {
                op: AluOp::Add,
                rd: 10,
                rs1: 0,
                imm: 111,
            }),
        ),
        (
            0x00100893,
            Instr::OpImm(OpImm {
                op: AluOp::Add,
                rd: 17,
                rs1: 0,
                imm: 1,
            }),
        ),
        (
            0x8005F513,
            Instr::OpImm(OpImm {
                op: AluOp::And,
                rd: 10,
                rs1: 11,
                imm: -2048,
            }),
        ),
        (
            0xFFF5B513,
            Instr::OpImm(OpImm {
                op: AluOp::Sltu,
                rd: 10,
                rs1: 11,
                imm: -1,
            }),
        ),
        (
            0x01F59513,
            Instr::OpImm(OpImm {
                op: AluOp::Sll,
                rd: 10,
                rs1: 11,
                imm: 31,
            }),
        ),
        (
            0x41F5D513,
            Instr::OpImm(OpImm {
                op: AluOp::Sra,
                rd: 10,
                rs1: 11,
                imm: 31,
            }),
        ),
        (
            0x40C58533,
            Instr::Op(Op {
                op: AluOp::Sub,
                rd: 10,
                rs1: 11,
                rs2: 12,
            }),
        ),
        (
            0x00C5E533,
            Instr::Op(Op {
                op: AluOp::Or,
                rd: 10,
                rs1: 11,
                rs2: 12,
            }),
        ),
        (
            0x02C58533,
            Instr::Op(Op {
                op: AluOp::Mul,
                rd: 10,
                rs1: 11,
                rs2: 12,
            }),
        ),
        (
            0x027312B3,
            Instr::Op(Op {
                op: AluOp::Mulh,
                rd: 5,
                rs1: 6,
                rs2: 7,
            }),
        ),
        (
            0x0324A433,
            Instr::Op(Op {
                op: AluOp::Mulhsu,
                rd: 8,
                rs1: 9,
                rs2: 18,
            }),
        ),
        (
            0x02F736B3,
            Instr::Op(Op {
                op: AluOp::Mulhu,
                rd: 13,
                rs1: 14,
                rs2: 15,
            }),
        ),
        (
            0x03EECE33,
            Instr::Op(Op {
                op: AluOp::Div,
                rd: 28,
                rs1: 29,
                rs2: 30,
            }),
        ),
        (
            0x0220DFB3,
            Instr::Op(Op {
                op: AluOp::Divu,
                rd: 31,
                rs1: 1,
                rs2: 2,
            }),
        ),
        (
            0x023160B3,
            Instr::Op(Op {
                op: AluOp::Rem,
                rd: 1,
                rs1: 2,
                rs2: 3,
            }),
        ),
        (
            0x03EFF033,
            Instr::Op(Op {
                op: AluOp::Remu,
                rd: 0,
                rs1: 31,
                rs2: 30,
            }),
        ),
        (
            0x000800B7,
            Instr::Lui(Upper {
                rd: 1,
                imm: 0x0008_0000,
            }),
        ),
        (
            0x12345297,
            Instr::Auipc(Upper {
                rd: 5,
                imm: 0x1234_5000,
            }),
        ),
        (
            0x7EB51F63,
            Instr::Branch(Branch {
                op: BranchOp::Bne,
                rs1: 10,
                rs2: 11,
                offset: 2046,
            }),
        ),
        (
            0x80628063,
            Instr::Branch(Branch {
                op: BranchOp::Beq,
                rs1: 5,
                rs2: 6,
                offset: -4096,
            }),
        ),
        (0xFFDFF0EF, Instr::Jal(Jal { rd: 1, offset: -4 })),
        (
            0x003004EF,
            Instr::Jal(Jal {
                rd: 9,
                offset: 2050,
            }),
        ),
        (
            0xFFF280E7,
            Instr::Jalr(Jalr {
                rd: 1,
                rs1: 5,
                offset: -1,
            }),
        ),
        (
            0xFFC12283,
            Instr::Load(Load {
                op: LoadOp::Lw,
                rd: 5,
                rs1: 2,
                offset: -4,
            }),
        ),
        (
            0xFE512E23,
            Instr::Store(Store {
                op: StoreOp::Sw,
                rs1: 2,
                rs2: 5,
                offset: -4,
            }),
        ),
        (0x00000073, Instr::Ecall),
        (0x00100073, Instr::Ebreak),
    ];
    for (word, instr) in table {
        assert_eq!(rt; decode(word), Some(instr), "at {word:08x}");
    }
}

#[test]
fn words_of_no_instruction(rt: HostRuntime) {
    let words = [
        0x0000_0000, // no instruction
        0xFFFF_FFFF, // no instruction
        0x0200_1013, // SLLI by 32
        0x4000_1033, // SLL with the funct7 of SUB
        0x0000_10E7, // JALR with funct3 1
        0x0000_2063, // a branch with funct3 2
        0x0000_3003, // a load with funct3 3
        0x0000_3023, // a store with funct3 3
        0x0020_0073, // URET
        0x1415_22AF, // LR.W with a source
        0x1405_32AF, // LR.D
        0x4865_22AF, // AMO with funct5 9
        0x0400_0033, // funct7 2
        0x0000_100F, // FENCE.I
    ];
    for word in words {
        assert_eq!(rt; decode(word), None, "at {word:08x}");
    }
}

#[test]
fn atomic_operations_of_the_assembler(rt: HostRuntime) {
    let table = [
        (0x1405_22AF, AmoOp::Lr, true, false, 0),
        (0x1005_22AF, AmoOp::Lr, false, false, 0),
        (0x1605_22AF, AmoOp::Lr, true, true, 0),
        (0x1A65_22AF, AmoOp::Sc, false, true, 6),
        (0x0C65_22AF, AmoOp::Swap, true, false, 6),
        (0x0665_22AF, AmoOp::Add, true, true, 6),
        (0x2065_22AF, AmoOp::Xor, false, false, 6),
        (0x6065_22AF, AmoOp::And, false, false, 6),
        (0x4065_22AF, AmoOp::Or, false, false, 6),
        (0x8065_22AF, AmoOp::Min, false, false, 6),
        (0xA065_22AF, AmoOp::Max, false, false, 6),
        (0xC065_22AF, AmoOp::Minu, false, false, 6),
        (0xE065_22AF, AmoOp::Maxu, false, false, 6),
    ];
    for (word, op, aq, rl, rs2) in table {
        let found = match decode(word) {
            Some(Instr::Amo(i)) => Some((i.op, i.labels, [i.rd, i.rs1, i.rs2])),
            _ => None,
        };
        let expected = Some((op, Labels { aq, rl }, [5, 10, rs2]));
        assert_eq!(rt; found, expected, "at {word:08x}");
    }
}

#[test]
fn fences_of_the_assembler(rt: HostRuntime) {
    let table = [
        (0x0FF0_000F, [0, 15, 15, 0, 0]), // fence
        (0x0310_000F, [0, 3, 1, 0, 0]), // fence rw,w
        (0x8330_000F, [8, 3, 3, 0, 0]), // fence.tso
    ];
    for (word, fields) in table {
        let found = match decode(word) {
            Some(Instr::Fence(i)) => Some([i.fm, i.pred, i.succ, i.rd, i.rs1]),
            _ => None,
        };
        assert_eq!(rt; found, Some(fields), "at {word:08x}");
    }
}

#[test]
fn prefetches_of_the_assembler(rt: HostRuntime) {
    let table = [
        (0x0005_6013, Some((HintKind::Fetch, 10, 0))), // prefetch.i 0(a0)
        (0x0415_6013, Some((HintKind::Shared, 10, 64))), // prefetch.r 64(a0)
        (0xFE35_E013, Some((HintKind::Exclusive, 11, -32))), // prefetch.w -32(a1)
        (0x0025_6013, None), // ori zero,a0,2
        (0x0015_6093, None), // ori ra,a0,1
        (0x0015_7013, None), // andi zero,a0,1
        (0x00B5_6033, None), // or zero,a0,a1
    ];
    for (word, expected) in table {
        let found = match decode(word) {
            Some(instr) => hint(&instr),
            None => None,
        };
        let expected = match expected {
            Some((kind, rs1, offset)) => Some(Hint { kind, rs1, offset }),
            None => None,
        };
        assert_eq!(rt; found, expected, "at {word:08x}");
    }
}
