//! The formats R, I, S, B, U and J: a word from its fields.
ghost use Rattle.std.specs.Prelude.{◌≡◌, ◌<◌, ◌^◌};
ghost use Rattle.rv_decode.specs.Ranges.{IsRegister, IsUpper};
ghost use Rattle.rv_decode.specs.Words.{word_r, word_i, word_s, word_b, word_u, word_j};

use crate::fields::field;

/// A word of format R: two source registers and a destination.
#[tactic(auto, using(crate::proofs::Joins::join_r), unfolding(crate::specs::Words::word_r))]
pub fn word_r(opcode: u32, funct3: u32, funct7: u32, rd: u8, rs1: u8, rs2: u8) -> u32
    requires opcode { opcode < 2 ^ 7 }
    requires funct3 { funct3 < 2 ^ 3 }
    requires funct7 { funct7 < 2 ^ 7 }
    requires rd { IsRegister rd }
    requires rs1 { IsRegister rs1 }
    requires rs2 { IsRegister rs2 }
    ensures { result ≡ word_r opcode funct3 funct7 rd rs1 rs2 }
{
    opcode
        | (rd as u32) << 7
        | funct3 << 12
        | (rs1 as u32) << 15
        | (rs2 as u32) << 20
        | funct7 << 25
}

/// A word of format I: a source register, a destination and twelve bits of immediate, the low ones of `imm`.
#[tactic(auto, using(crate::proofs::Joins::join_i), unfolding(crate::specs::Words::word_i))]
pub fn word_i(opcode: u32, funct3: u32, rd: u8, rs1: u8, imm: i32) -> u32
    requires opcode { opcode < 2 ^ 7 }
    requires funct3 { funct3 < 2 ^ 3 }
    requires rd { IsRegister rd }
    requires rs1 { IsRegister rs1 }
    ensures { result ≡ word_i opcode funct3 rd rs1 imm }
{
    let bits = imm.cast_unsigned();
    opcode | (rd as u32) << 7 | funct3 << 12 | (rs1 as u32) << 15 | field(bits, 0, 12) << 20
}

/// A word of format S: a store of `rs2` at `rs1` and twelve bits of offset, the low ones of `imm`.
#[tactic(auto, unfolding(crate::specs::Words::word_s))]
pub fn word_s(opcode: u32, funct3: u32, rs1: u8, rs2: u8, imm: i32) -> u32
    requires codes { (opcode < 2 ^ 7) × (funct3 < 2 ^ 3) }
    requires registers { IsRegister rs1 × IsRegister rs2 }
    ensures { result ≡ word_s opcode funct3 rs1 rs2 imm }
{
    let high = field(imm.cast_unsigned(), 5, 7);
    let low = field(imm.cast_unsigned(), 0, 5);
    word_r(opcode, funct3, high, low as u8, rs1, rs2)
}

/// A word of format B: a branch that compares two registers, by the low thirteen bits of `offset` but for the lowest.
#[tactic(auto, unfolding(crate::specs::Words::word_b))]
pub fn word_b(opcode: u32, funct3: u32, rs1: u8, rs2: u8, offset: i32) -> u32
    requires codes { (opcode < 2 ^ 7) × (funct3 < 2 ^ 3) }
    requires registers { IsRegister rs1 × IsRegister rs2 }
    ensures { result ≡ word_b opcode funct3 rs1 rs2 offset }
{
    let bits = offset.cast_unsigned();
    let high = field(bits, 5, 6) + field(bits, 12, 1) * (1 << 6);
    let low = field(bits, 11, 1) + field(bits, 1, 4) * 2;
    word_r(opcode, funct3, high, low as u8, rs1, rs2)
}

/// A word of format U: a destination and the twenty bits of LUI and AUIPC.
#[tactic(auto, using(crate::proofs::Joins::join_u), unfolding(crate::specs::Words::word_u))]
pub fn word_u(opcode: u32, rd: u8, upper: u32) -> u32
    requires opcode { opcode < 2 ^ 7 }
    requires rd { IsRegister rd }
    requires upper { IsUpper upper }
    ensures { result ≡ word_u opcode rd upper }
{
    opcode | (rd as u32) << 7 | upper << 12
}

/// A word of format J: a jump with a destination, by the low twenty-one bits of `offset` but for the lowest.
#[tactic(auto, unfolding(crate::specs::Words::word_j))]
pub fn word_j(opcode: u32, rd: u8, offset: i32) -> u32
    requires opcode { opcode < 2 ^ 7 }
    requires rd { IsRegister rd }
    ensures { result ≡ word_j opcode rd offset }
{
    let bits = offset.cast_unsigned();
    let low = field(bits, 12, 8) + field(bits, 11, 1) * (1 << 8);
    let high = field(bits, 1, 10) * (1 << 9) + field(bits, 20, 1) * (1 << 19);
    word_u(opcode, rd, low + high)
}
