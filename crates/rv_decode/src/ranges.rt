//! Which instructions have a word.
ghost use Rattle.std.specs.Prelude.{IsTrue, ◌↔◌, ◌≤ℤ◌};
ghost use Rattle.rv_decode.specs.Ranges.{Fits, IsRegister, IsUpper, IsImmediate, IsShiftAmount, IsEven, IsBranchOffset};
ghost use Rattle.rv_decode.specs.Ranges.{IsJumpOffset, IsStored, IsAluImmediate};

use crate::op::{Alu, Op, Width};

/// Whether the instruction has a word: registers are below 32, `upper` is below 2^20, an immediate is
/// from -2048 to 2047, the amount of a shift from 0 to 31, a branch offset even and from -4096 to 4094,
/// and a jump offset even and from -1048576 to 1048574. No word subtracts an immediate, and none stores
/// a `ByteU` or `HalfU`.
pub fn fits(op: &Op) -> bool
    ensures { IsTrue result ↔ Fits op.now }
{
    match *op {
        Op::Lui { rd, upper } => is_register(rd) && is_upper(upper),
        Op::Auipc { rd, upper } => is_register(rd) && is_upper(upper),
        Op::Jal { rd, offset } => is_register(rd) && is_jump_offset(offset),
        Op::Jalr { rd, rs1, imm } => is_register(rd) && is_register(rs1) && is_immediate(imm),
        Op::Branch {
            rs1,
            rs2,
            offset,
            ..
        } => { is_register(rs1) && is_register(rs2) && is_branch_offset(offset) }
        Op::Load { rd, rs1, imm, .. } => is_register(rd) && is_register(rs1) && is_immediate(imm),
        Op::Store {
            width,
            rs1,
            rs2,
            imm,
        } => { is_register(rs1) && is_register(rs2) && is_immediate(imm) && is_stored(width) }
        Op::AluImm { alu, rd, rs1, imm } => {
            is_register(rd) && is_register(rs1) && is_alu_immediate(alu, imm)
        }
        Op::AluReg { rd, rs1, rs2, .. } => is_register(rd) && is_register(rs1) && is_register(rs2),
        Op::Amo { rd, rs1, rs2, .. } => is_register(rd) && is_register(rs1) && is_register(rs2),
        Op::Fence | Op::Ecall | Op::Ebreak => true,
    }
}

fn is_register(number: u8) -> bool
    ensures { IsTrue result ↔ IsRegister number }
{
    number < 32
}

fn is_upper(upper: u32) -> bool
    ensures { IsTrue result ↔ IsUpper upper }
{
    upper < 1 << 20
}

fn is_immediate(imm: i32) -> bool
    ensures { IsTrue result ↔ IsImmediate imm }
{
    -2048 <= imm && imm <= 2047
}

fn is_shift_amount(imm: i32) -> bool
    ensures { IsTrue result ↔ IsShiftAmount imm }
{
    0 <= imm && imm <= 31
}

fn is_even(offset: i32) -> bool
    ensures { IsTrue result ↔ IsEven offset }
{
    offset % 2 == 0
}

fn is_branch_offset(offset: i32) -> bool
    ensures { IsTrue result ↔ IsBranchOffset offset }
{
    is_even(offset) && -4096 <= offset && offset <= 4094
}

fn is_jump_offset(offset: i32) -> bool
    ensures { IsTrue result ↔ IsJumpOffset offset }
{
    is_even(offset) && -1048576 <= offset && offset <= 1048574
}

fn is_stored(width: Width) -> bool
    ensures { IsTrue result ↔ IsStored width }
{
    match width {
        Width::Byte | Width::Half | Width::Word => true,
        Width::ByteU | Width::HalfU => false,
    }
}

fn is_alu_immediate(alu: Alu, imm: i32) -> bool
    ensures { IsTrue result ↔ IsAluImmediate alu imm }
{
    match alu {
        Alu::Add | Alu::Slt | Alu::Sltu | Alu::Xor | Alu::Or | Alu::And => is_immediate(imm),
        Alu::Sll | Alu::Srl | Alu::Sra => is_shift_amount(imm),
        Alu::Sub => false,
    }
}
