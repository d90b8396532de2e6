//! Values that the RISC-V manual gives or that are easily done by hand.
use rv32_alu::{AluOp, AmoOp, BranchOp, alu, amo_value, branch};

#[test]
fn values_of_operations(rt: HostRuntime) {
    let table = [
        (AluOp::Add, 0xFFFF_FFFF, 2, 1),
        (AluOp::Sub, 1, 2, 0xFFFF_FFFF),
        (AluOp::Sll, 1, 33, 2),
        (AluOp::Slt, 0x8000_0000, 1, 1),
        (AluOp::Sltu, 0x8000_0000, 1, 0),
        (AluOp::Xor, 0b1100, 0b1010, 0b0110),
        (AluOp::Srl, 0x8000_0000, 31, 1),
        (AluOp::Sra, 0x8000_0000, 31, 0xFFFF_FFFF),
        (AluOp::Or, 0b1100, 0b1010, 0b1110),
        (AluOp::And, 0b1100, 0b1010, 0b1000),
    ];
    for (op, a, b, value) in table {
        assert_eq!(rt; alu(op, a, b), value, "{op:?} of {a:08x} and {b:08x}");
    }
}

#[test]
fn upper_halves_of_products(rt: HostRuntime) {
    let table = [
        (
            0x8000_0000,
            0x8000_0000,
            [0x4000_0000, 0xC000_0000, 0x4000_0000],
        ),
        (0xFFFF_FFFF, 0xFFFF_FFFF, [0, 0xFFFF_FFFF, 0xFFFF_FFFE]),
        (0xFFFF_FFFF, 1, [0xFFFF_FFFF, 0xFFFF_FFFF, 0]),
        (1, 0xFFFF_FFFF, [0xFFFF_FFFF, 0, 0]),
        (0x8000_0000, 0xFFFF_FFFF, [0, 0x8000_0000, 0x7FFF_FFFF]),
        (
            0x7FFF_FFFF,
            0xFFFF_FFFF,
            [0xFFFF_FFFF, 0x7FFF_FFFE, 0x7FFF_FFFE],
        ),
        (0xFFFF_FFFE, 0x8000_0000, [1, 0xFFFF_FFFF, 0x7FFF_FFFF]),
        (0x8000_0000, 0, [0, 0, 0]),
    ];
    for (a, b, values) in table {
        let signed = alu(AluOp::Mulh, a, b);
        let mixed = alu(AluOp::Mulhsu, a, b);
        let unsigned = alu(AluOp::Mulhu, a, b);
        assert_eq!(rt; [signed, mixed, unsigned], values, "of {a:08x} and {b:08x}");
    }
    assert_eq!(rt; alu(AluOp::Mul, 0xFFFF_FFFF, 0xFFFF_FFFF), 1);
    assert_eq!(rt; alu(AluOp::Mul, 0x0001_0003, 0x0001_0005), 0x0008_000F);
}

#[test]
fn quotients_and_remainders(rt: HostRuntime) {
    let table = [
        (7, 0, [0xFFFF_FFFF, 0xFFFF_FFFF, 7, 7]),
        (
            0x8000_0000,
            0,
            [0xFFFF_FFFF, 0xFFFF_FFFF, 0x8000_0000, 0x8000_0000],
        ),
        (0, 0, [0xFFFF_FFFF, 0xFFFF_FFFF, 0, 0]),
        (0x8000_0000, 0xFFFF_FFFF, [0x8000_0000, 0, 0, 0x8000_0000]),
        (7, 2, [3, 3, 1, 1]),
        (0xFFFF_FFF9, 2, [0xFFFF_FFFD, 0x7FFF_FFFC, 0xFFFF_FFFF, 1]),
        (7, 0xFFFF_FFFE, [0xFFFF_FFFD, 0, 1, 7]),
        (0xFFFF_FFF9, 0xFFFF_FFFE, [3, 0, 0xFFFF_FFFF, 0xFFFF_FFF9]),
        (0x8000_0000, 1, [0x8000_0000, 0x8000_0000, 0, 0]),
        (0x8000_0000, 3, [0xD555_5556, 0x2AAA_AAAA, 0xFFFF_FFFE, 2]),
    ];
    for (a, b, values) in table {
        let quotients = [alu(AluOp::Div, a, b), alu(AluOp::Divu, a, b)];
        let remainders = [alu(AluOp::Rem, a, b), alu(AluOp::Remu, a, b)];
        let found = [quotients[0], quotients[1], remainders[0], remainders[1]];
        assert_eq!(rt; found, values, "of {a:08x} and {b:08x}");
    }
}

#[test]
fn branches_that_are_taken(rt: HostRuntime) {
    let table = [
        (BranchOp::Beq, [false, true, false]),
        (BranchOp::Bne, [true, false, true]),
        (BranchOp::Blt, [true, false, false]),
        (BranchOp::Bge, [false, true, true]),
        (BranchOp::Bltu, [false, false, true]),
        (BranchOp::Bgeu, [true, true, false]),
    ];
    for (op, taken) in table {
        let below = branch(op, 0xFFFF_FFFE, 3);
        let same = branch(op, 3, 3);
        let above = branch(op, 3, 0xFFFF_FFFE);
        assert_eq!(rt; [below, same, above], taken, "{op:?}");
    }
}

#[test]
fn words_that_atomic_operations_leave(rt: HostRuntime) {
    let table = [
        (AmoOp::Swap, 7),
        (AmoOp::Add, 3),
        (AmoOp::Xor, 0xFFFF_FFFB),
        (AmoOp::And, 4),
        (AmoOp::Or, 0xFFFF_FFFF),
        (AmoOp::Min, 0xFFFF_FFFC),
        (AmoOp::Max, 7),
        (AmoOp::Minu, 7),
        (AmoOp::Maxu, 0xFFFF_FFFC),
    ];
    for (op, value) in table {
        assert_eq!(rt; amo_value(op, 0xFFFF_FFFC, 7), value, "{op:?}");
    }
}
