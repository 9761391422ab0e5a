//! The instructions of RV32I and of the A extension's atomic memory operations.

/// When a branch is taken: a comparison of rs1 with rs2, unsigned for `Ltu` and `Geu`.
#[derive(Clone, Copy)]
pub enum Cond {
    Eq,
    Ne,
    Lt,
    Ge,
    Ltu,
    Geu,
}

/// How much a load or store moves: 8, 16 or 32 bits. A load of `Byte` or `Half` extends the sign, one
/// of `ByteU` or `HalfU` fills with zeros.
#[derive(Clone, Copy, PartialEq, Eq)]
pub enum Width {
    Byte,
    Half,
    Word,
    ByteU,
    HalfU,
}

/// What an arithmetic or logical instruction computes of its two operands.
#[derive(Clone, Copy)]
pub enum Alu {
    Add,
    Sub,
    Sll,
    Slt,
    Sltu,
    Xor,
    Srl,
    Sra,
    Or,
    And,
}

/// What an atomic memory operation makes of its word's old value and of rs2: `Swap` leaves rs2, `Add`
/// wraps at 32 bits, `Min` and `Max` compare with sign, `Minu` and `Maxu` without.
#[derive(Clone, Copy)]
pub enum AmoOp {
    Swap,
    Add,
    Xor,
    And,
    Or,
    Min,
    Max,
    Minu,
    Maxu,
}

/// An instruction of RV32I, or an atomic memory operation on a word. `rd`, `rs1` and `rs2` are numbers of
/// registers, from 0 to 31. `upper`, below 2^20, stands for `upper * 4096`. `imm` and `offset` are
/// sign-extended, and `offset` counts bytes from the instruction's own address. An atomic memory operation
/// has its whole address in rs1. `fits` says which values have a word.
#[derive(Clone, Copy)]
pub enum Op {
    Lui {
        rd: u8,
        upper: u32,
    },
    Auipc {
        rd: u8,
        upper: u32,
    },
    Jal {
        rd: u8,
        offset: i32,
    },
    Jalr {
        rd: u8,
        rs1: u8,
        imm: i32,
    },
    Branch {
        cond: Cond,
        rs1: u8,
        rs2: u8,
        offset: i32,
    },
    Load {
        width: Width,
        rd: u8,
        rs1: u8,
        imm: i32,
    },
    Store {
        width: Width,
        rs1: u8,
        rs2: u8,
        imm: i32,
    },
    AluImm {
        alu: Alu,
        rd: u8,
        rs1: u8,
        imm: i32,
    },
    AluReg {
        alu: Alu,
        rd: u8,
        rs1: u8,
        rs2: u8,
    },
    Amo {
        op: AmoOp,
        rd: u8,
        rs1: u8,
        rs2: u8,
    },
    Fence,
    Ecall,
    Ebreak,
}
