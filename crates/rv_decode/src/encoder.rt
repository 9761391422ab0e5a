//! From an instruction to its word.
ghost use Rattle.std.specs.Prelude.{◌≡◌, Some};
ghost use Rattle.rv_decode.specs.Ranges.{Fits, IsRegister};
ghost use Rattle.rv_decode.specs.Table.{decoded};
ghost use Rattle.rv_decode.specs.Atomics.{amo_code};
ghost use Rattle.rv_decode.specs.Words.{encoding, condition_code, width_code, alu_code, alu_variant, is_shift};
ghost use Rattle.rv_decode.specs.Words.{alu_immediate_word};

use crate::fields::field;
use crate::formats::{word_b, word_i, word_j, word_r, word_s, word_u};
use crate::op::{Alu, AmoOp, Cond, Op, Width};

/// The instruction's word, from which `decode` has the instruction again. FENCE is 0x0FF0000F, which
/// orders all before it with all after it. An atomic memory operation has the bits aq and rl as 0.
#[tactic(auto, using(crate::proofs::RoundTrip::back), unfolding(crate::specs::Words::encoding))]
pub fn encode(op: &Op) -> u32
    requires { Fits op.now }
    ensures word { result ≡ encoding op.now }
    ensures read_back { decoded result ≡ Some op.now }
{
    match *op {
        Op::Lui { rd, upper } => word_u(0x37, rd, upper),
        Op::Auipc { rd, upper } => word_u(0x17, rd, upper),
        Op::Jal { rd, offset } => word_j(0x6F, rd, offset),
        Op::Jalr { rd, rs1, imm } => word_i(0x67, 0, rd, rs1, imm),
        Op::Branch {
            cond,
            rs1,
            rs2,
            offset,
        } => word_b(0x63, condition_code(cond), rs1, rs2, offset),
        Op::Load {
            width,
            rd,
            rs1,
            imm,
        } => word_i(0x03, width_code(width), rd, rs1, imm),
        Op::Store {
            width,
            rs1,
            rs2,
            imm,
        } => word_s(0x23, width_code(width), rs1, rs2, imm),
        Op::AluImm { alu, rd, rs1, imm } => alu_immediate_word(alu, rd, rs1, imm),
        Op::AluReg { alu, rd, rs1, rs2 } => {
            word_r(0x33, alu_code(alu), alu_variant(alu), rd, rs1, rs2)
        }
        Op::Amo { op, rd, rs1, rs2 } => word_r(0x2F, 2, amo_code(op) * 4, rd, rs1, rs2),
        Op::Fence => 0x0FF0_000F,
        Op::Ecall => 0x0000_0073,
        Op::Ebreak => 0x0010_0073,
    }
}

/// SLLI, SRLI and SRAI have funct7, and the amount in the place of rs2.
fn alu_immediate_word(alu: Alu, rd: u8, rs1: u8, imm: i32) -> u32
    requires rd { IsRegister rd }
    requires rs1 { IsRegister rs1 }
    ensures { result ≡ alu_immediate_word alu rd rs1 imm }
{
    if is_shift(alu) {
        let amount = field(imm.cast_unsigned(), 0, 5) as u8;
        word_r(0x13, alu_code(alu), alu_variant(alu), rd, rs1, amount)
    } else {
        word_i(0x13, alu_code(alu), rd, rs1, imm)
    }
}

fn is_shift(alu: Alu) -> bool
    ensures { result ≡ is_shift alu }
{
    matches!(alu, Alu::Sll | Alu::Srl | Alu::Sra)
}

fn condition_code(cond: Cond) -> u32
    ensures { result ≡ condition_code cond }
{
    match cond {
        Cond::Eq => 0,
        Cond::Ne => 1,
        Cond::Lt => 4,
        Cond::Ge => 5,
        Cond::Ltu => 6,
        Cond::Geu => 7,
    }
}

fn width_code(width: Width) -> u32
    ensures { result ≡ width_code width }
{
    match width {
        Width::Byte => 0,
        Width::Half => 1,
        Width::Word => 2,
        Width::ByteU => 4,
        Width::HalfU => 5,
    }
}

/// funct3
fn alu_code(alu: Alu) -> u32
    ensures { result ≡ alu_code alu }
{
    match alu {
        Alu::Add | Alu::Sub => 0,
        Alu::Sll => 1,
        Alu::Slt => 2,
        Alu::Sltu => 3,
        Alu::Xor => 4,
        Alu::Srl | Alu::Sra => 5,
        Alu::Or => 6,
        Alu::And => 7,
    }
}

/// funct7
fn alu_variant(alu: Alu) -> u32
    ensures { result ≡ alu_variant alu }
{
    if matches!(alu, Alu::Sub | Alu::Sra) {
        0x20
    } else {
        0
    }
}

/// funct5, the upper five bits of funct7
fn amo_code(op: AmoOp) -> u32
    ensures { result ≡ amo_code op }
{
    match op {
        AmoOp::Swap => 1,
        AmoOp::Add => 0,
        AmoOp::Xor => 4,
        AmoOp::And => 12,
        AmoOp::Or => 8,
        AmoOp::Min => 16,
        AmoOp::Max => 20,
        AmoOp::Minu => 24,
        AmoOp::Maxu => 28,
    }
}
