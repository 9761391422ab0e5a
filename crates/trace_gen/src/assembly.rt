//! The instructions that the programs are made of, written as an assembler writes them: the register that is written
//! or stored comes first, and of a load or store the offset stands before the register that it is added to.

// The registers of the programs. X0 reads 0 always, and in X10 a core's number stands at the start.
pub(crate) const X0: u8 = 0;

pub(crate) const X5: u8 = 5;

pub(crate) const X6: u8 = 6;

pub(crate) const X7: u8 = 7;

pub(crate) const X8: u8 = 8;

pub(crate) const X9: u8 = 9;

pub(crate) const X10: u8 = 10;

pub(crate) const X11: u8 = 11;

pub(crate) const X12: u8 = 12;

pub(crate) const X13: u8 = 13;

/// An instruction by its name. The offset of a branch counts from the branch itself.
macro_rules! instruction {
    (addi $rd:expr, $rs1:expr, $imm:expr) => { Op::AluImm { alu: Alu::Add, rd: $rd, rs1: $rs1, imm: $imm } };
    (xori $rd:expr, $rs1:expr, $imm:expr) => { Op::AluImm { alu: Alu::Xor, rd: $rd, rs1: $rs1, imm: $imm } };
    (slli $rd:expr, $rs1:expr, $imm:expr) => { Op::AluImm { alu: Alu::Sll, rd: $rd, rs1: $rs1, imm: $imm } };
    (lw $rd:expr, $imm:expr, $rs1:expr) => { Op::Load { width: Width::Word, rd: $rd, rs1: $rs1, imm: $imm } };
    (sw $rs2:expr, $imm:expr, $rs1:expr) => { Op::Store { width: Width::Word, rs1: $rs1, rs2: $rs2, imm: $imm } };
    (sb $rs2:expr, $imm:expr, $rs1:expr) => { Op::Store { width: Width::Byte, rs1: $rs1, rs2: $rs2, imm: $imm } };
    (beq $rs1:expr, $rs2:expr, $offset:expr) => {
        Op::Branch { cond: Cond::Eq, rs1: $rs1, rs2: $rs2, offset: $offset }
    };
    (bne $rs1:expr, $rs2:expr, $offset:expr) => {
        Op::Branch { cond: Cond::Ne, rs1: $rs1, rs2: $rs2, offset: $offset }
    };
}

pub(crate) use instruction;
