//! Words by the manual's formats. Each field is in its range, so that none meets another.
ghost use Rattle.std.specs.Prelude.{◌≡◌, ◌^◌, ◌<◌};
ghost use Rattle.rv32_decode.specs.Layout.{b_type, i_type, j_type, r_type, s_type, u_type};

use crate::fields::bits;

/// Two sources and a destination.
pub fn r_type(funct7: u32, rs2: u32, rs1: u32, funct3: u32, rd: u32, opcode: u32) -> u32
    requires funct7 { funct7 < 2 ^ 7 }
    requires rs2 { rs2 < 2 ^ 5 }
    requires rs1 { rs1 < 2 ^ 5 }
    requires funct3 { funct3 < 2 ^ 3 }
    requires rd { rd < 2 ^ 5 }
    requires opcode { opcode < 2 ^ 7 }
    ensures { result ≡ r_type funct7 rs2 rs1 funct3 rd opcode }
{
    (funct7 << 25) + (rs2 << 20) + (rs1 << 15) + (funct3 << 12) + (rd << 7) + opcode
}

/// A source, a destination and an immediate of 12 bits.
pub fn i_type(imm: u32, rs1: u32, funct3: u32, rd: u32, opcode: u32) -> u32
    requires imm { imm < 2 ^ 12 }
    requires rs1 { rs1 < 2 ^ 5 }
    requires funct3 { funct3 < 2 ^ 3 }
    requires rd { rd < 2 ^ 5 }
    requires opcode { opcode < 2 ^ 7 }
    ensures { result ≡ i_type imm rs1 funct3 rd opcode }
{
    (imm << 20) + (rs1 << 15) + (funct3 << 12) + (rd << 7) + opcode
}

/// Two sources, and an immediate of 12 bits in two parts.
pub fn s_type(imm: u32, rs2: u32, rs1: u32, funct3: u32, opcode: u32) -> u32
    requires rs2 { rs2 < 2 ^ 5 }
    requires rs1 { rs1 < 2 ^ 5 }
    requires funct3 { funct3 < 2 ^ 3 }
    requires opcode { opcode < 2 ^ 7 }
    ensures { result ≡ s_type imm rs2 rs1 funct3 opcode }
{
    (bits(imm, 5, 7) << 25)
        + (rs2 << 20)
        + (rs1 << 15)
        + (funct3 << 12)
        + (bits(imm, 0, 5) << 7)
        + opcode
}

/// Two sources, and an even immediate of 13 bits in four parts.
pub fn b_type(imm: u32, rs2: u32, rs1: u32, funct3: u32, opcode: u32) -> u32
    requires rs2 { rs2 < 2 ^ 5 }
    requires rs1 { rs1 < 2 ^ 5 }
    requires funct3 { funct3 < 2 ^ 3 }
    requires opcode { opcode < 2 ^ 7 }
    ensures { result ≡ b_type imm rs2 rs1 funct3 opcode }
{
    (bits(imm, 12, 1) << 31)
        + (bits(imm, 5, 6) << 25)
        + (rs2 << 20)
        + (rs1 << 15)
        + (funct3 << 12)
        + (bits(imm, 1, 4) << 8)
        + (bits(imm, 11, 1) << 7)
        + opcode
}

/// A destination and the upper 20 bits of an immediate.
pub fn u_type(imm: u32, rd: u32, opcode: u32) -> u32
    requires rd { rd < 2 ^ 5 }
    requires opcode { opcode < 2 ^ 7 }
    ensures { result ≡ u_type imm rd opcode }
{
    (bits(imm, 12, 20) << 12) + (rd << 7) + opcode
}

/// A destination, and an even immediate of 21 bits in four parts.
pub fn j_type(imm: u32, rd: u32, opcode: u32) -> u32
    requires rd { rd < 2 ^ 5 }
    requires opcode { opcode < 2 ^ 7 }
    ensures { result ≡ j_type imm rd opcode }
{
    (bits(imm, 20, 1) << 31)
        + (bits(imm, 1, 10) << 21)
        + (bits(imm, 11, 1) << 20)
        + (bits(imm, 12, 8) << 12)
        + (rd << 7)
        + opcode
}
