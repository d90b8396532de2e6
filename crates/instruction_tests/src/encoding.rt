//! Words as GNU as makes them.
use dash_base::{
    AluOp, Amo, AmoOp, Branch, BranchOp, Labels, Load, LoadOp, Op, OpImm, Store, StoreOp,
};
use rv32_encode::laws::{decode_of_encode, encode_of_decode};
use rv32_encode::{Instr, encode};

#[test]
fn operations_of_the_assembler(rt: HostRuntime) {
    // with the operands a0,a1,a2
    let table = [
        (0x00C5_8533, AluOp::Add),
        (0x40C5_8533, AluOp::Sub),
        (0x00C5_9533, AluOp::Sll),
        (0x00C5_A533, AluOp::Slt),
        (0x00C5_B533, AluOp::Sltu),
        (0x00C5_C533, AluOp::Xor),
        (0x00C5_D533, AluOp::Srl),
        (0x40C5_D533, AluOp::Sra),
        (0x00C5_E533, AluOp::Or),
        (0x00C5_F533, AluOp::And),
        (0x02C5_8533, AluOp::Mul),
        (0x02C5_9533, AluOp::Mulh),
        (0x02C5_A533, AluOp::Mulhsu),
        (0x02C5_B533, AluOp::Mulhu),
        (0x02C5_C533, AluOp::Div),
        (0x02C5_D533, AluOp::Divu),
        (0x02C5_E533, AluOp::Rem),
        (0x02C5_F533, AluOp::Remu),
    ];
    for (word, op) in table {
        let instr = Instr::Op(Op {
            op,
            rd: 10,
            rs1: 11,
            rs2: 12,
        });
        assert_eq!(rt; encode(&instr), word, "at {word:08x}");
    }
}

#[test]
fn immediates_of_the_assembler(rt: HostRuntime) {
    let shift = OpImm {
        op: AluOp::Sra,
        rd: 10,
        rs1: 11,
        imm: 31,
    };
    let least = OpImm {
        op: AluOp::And,
        rd: 10,
        rs1: 11,
        imm: -2048,
    };
    assert_eq!(rt; encode(&Instr::OpImm(shift)), 0x41F5_D513); // srai a0,a1,31
    assert_eq!(rt; encode(&Instr::OpImm(least)), 0x8005_F513); // andi a0,a1,-2048
}

#[test]
fn branches_of_the_assembler(rt: HostRuntime) {
    // with the operands a0,a1,2046
    let table = [
        (0x7EB5_0F63, BranchOp::Beq),
        (0x7EB5_1F63, BranchOp::Bne),
        (0x7EB5_4F63, BranchOp::Blt),
        (0x7EB5_5F63, BranchOp::Bge),
        (0x7EB5_6F63, BranchOp::Bltu),
        (0x7EB5_7F63, BranchOp::Bgeu),
    ];
    for (word, op) in table {
        let instr = Instr::Branch(Branch {
            op,
            rs1: 10,
            rs2: 11,
            offset: 2046,
        });
        assert_eq!(rt; encode(&instr), word, "at {word:08x}");
    }
}

#[test]
fn loads_of_the_assembler(rt: HostRuntime) {
    // with the operands t0,-4(sp)
    let table = [
        (0xFFC1_0283, LoadOp::Lb),
        (0xFFC1_1283, LoadOp::Lh),
        (0xFFC1_2283, LoadOp::Lw),
        (0xFFC1_4283, LoadOp::Lbu),
        (0xFFC1_5283, LoadOp::Lhu),
    ];
    for (word, op) in table {
        let instr = Instr::Load(Load {
            op,
            rd: 5,
            rs1: 2,
            offset: -4,
        });
        assert_eq!(rt; encode(&instr), word, "at {word:08x}");
    }
}

#[test]
fn stores_of_the_assembler(rt: HostRuntime) {
    // with the operands t0,-4(sp)
    let table = [
        (0xFE51_0E23, StoreOp::Sb),
        (0xFE51_1E23, StoreOp::Sh),
        (0xFE51_2E23, StoreOp::Sw),
    ];
    for (word, op) in table {
        let instr = Instr::Store(Store {
            op,
            rs1: 2,
            rs2: 5,
            offset: -4,
        });
        assert_eq!(rt; encode(&instr), word, "at {word:08x}");
    }
}

#[test]
fn reserving_loads_of_the_assembler(rt: HostRuntime) {
    let table = [
        (0x1005_22AF, false, false), // lr.w t0,(a0)
        (0x1405_22AF, true, false), // lr.w.aq t0,(a0)
        (0x1205_22AF, false, true), // lr.w.rl t0,(a0)
        (0x1605_22AF, true, true), // lr.w.aqrl t0,(a0)
    ];
    for (word, aq, rl) in table {
        let instr = Instr::Amo(Amo {
            op: AmoOp::Lr,
            labels: Labels { aq, rl },
            rd: 5,
            rs1: 10,
            rs2: 0,
        });
        assert_eq!(rt; encode(&instr), word, "at {word:08x}");
        assert_eq!(rt; decode_of_encode(&instr), Some(instr), "at {word:08x}");
    }
}

#[test]
fn words_of_the_assembler_come_back(rt: HostRuntime) {
    let table = [
        0x06F0_0513, // li a0,111
        0xFFF5_B513, // sltiu a0,a1,-1
        0x01F5_9513, // slli a0,a1,31
        0x0055_D513, // srli a0,a1,5
        0x0008_00B7, // lui ra,0x80
        0xFFFF_FFB7, // lui t6,0xfffff
        0x1234_5297, // auipc t0,0x12345
        0xFEB5_4FE3, // blt a0,a1,.-2
        0x00B5_60E3, // bltu a0,a1,.+2048
        0x80B5_5063, // bge a0,a1,.-4096
        0x7FFF_7FE3, // bgeu t5,t6,.+4094
        0x7FFF_F06F, // jal zero,.+1048574
        0x8000_00EF, // jal ra,.-1048576
        0x0010_04EF, // jal s1,.+2048
        0xFFF2_80E7, // jalr ra,-1(t0)
        0x7FF4_C403, // lbu s0,2047(s1)
        0x8051_0023, // sb t0,-2048(sp)
        0x54DF_1AA3, // sh a3,1365(t5)
        0x1A65_22AF, // sc.w.rl t0,t1,(a0)
        0x0C65_22AF, // amoswap.w.aq t0,t1,(a0)
        0xE265_22AF, // amomaxu.w.rl t0,t1,(a0)
        0x0F10_000F, // fence iorw,w
        0x8330_000F, // fence.tso
        0x0000_0073, // ecall
        0x0010_0073, // ebreak
    ];
    for word in table {
        assert_eq!(rt; encode_of_decode(word), Some(word), "at {word:08x}");
    }
}
