//! From a word to its instruction.
ghost use Rattle.std.specs.Prelude.{◌≡◌, IfSome};
ghost use Rattle.rv_decode.specs.Ranges.{Fits};
ghost use Rattle.rv_decode.specs.Table.{decoded, condition_of, loaded_width, stored_width, shift_of, immediate_alu};
ghost use Rattle.rv_decode.specs.Table.{plain_alu, register_alu, jump_and_link_register, branch, load, store};
ghost use Rattle.rv_decode.specs.Table.{constant_shift, alu_immediate, alu_register, atomic, fence, system};
ghost use Rattle.rv_decode.specs.Atomics.{amo_of};

use crate::fields::{
    funct3, funct5, funct7, immediate_b, immediate_i, immediate_j, immediate_s, opcode, rd, rs1,
    rs2, upper,
};
use crate::op::{Alu, AmoOp, Cond, Op, Width};

/// The instruction that the word is, or None where it is neither an instruction of RV32I nor an atomic memory
/// operation on a word. An atomic memory operation is read whatever its bits aq and rl are. An instruction has
/// its registers and immediates in their ranges.
#[tactic(auto, using(crate::proofs::DecodedFits::in_range))]
pub fn decode(word: u32) -> Option<Op>
    ensures table { result ≡ decoded word }
    ensures in_range { IfSome result (λ op. Fits op) }
{
    by_opcode(word)
}

#[tactic(auto, unfolding(crate::specs::Table::decoded))]
fn by_opcode(word: u32) -> Option<Op>
    ensures { result ≡ decoded word }
{
    match opcode(word) {
        0x37 => Some(Op::Lui {
            rd: rd(word),
            upper: upper(word),
        }),
        0x17 => Some(Op::Auipc {
            rd: rd(word),
            upper: upper(word),
        }),
        0x6F => Some(Op::Jal {
            rd: rd(word),
            offset: immediate_j(word),
        }),
        0x67 => jump_and_link_register(word),
        0x63 => branch(word),
        0x03 => load(word),
        0x23 => store(word),
        0x13 => alu_immediate(word),
        0x33 => alu_register(word),
        0x2F => atomic(word),
        0x0F => fence(word),
        0x73 => system(word),
        _ => None,
    }
}

#[tactic(auto, unfolding(crate::specs::Table::jump_and_link_register))]
fn jump_and_link_register(word: u32) -> Option<Op>
    ensures { result ≡ jump_and_link_register word }
{
    if funct3(word) == 0 {
        Some(Op::Jalr {
            rd: rd(word),
            rs1: rs1(word),
            imm: immediate_i(word),
        })
    } else {
        None
    }
}

#[tactic(auto, unfolding(crate::specs::Table::branch))]
fn branch(word: u32) -> Option<Op>
    ensures { result ≡ branch word }
{
    let cond = condition_of(funct3(word))?;
    Some(Op::Branch {
        cond,
        rs1: rs1(word),
        rs2: rs2(word),
        offset: immediate_b(word),
    })
}

fn condition_of(funct3: u32) -> Option<Cond>
    ensures { result ≡ condition_of funct3 }
{
    match funct3 {
        0 => Some(Cond::Eq),
        1 => Some(Cond::Ne),
        4 => Some(Cond::Lt),
        5 => Some(Cond::Ge),
        6 => Some(Cond::Ltu),
        7 => Some(Cond::Geu),
        _ => None,
    }
}

#[tactic(auto, unfolding(crate::specs::Table::load))]
fn load(word: u32) -> Option<Op>
    ensures { result ≡ load word }
{
    let width = loaded_width(funct3(word))?;
    Some(Op::Load {
        width,
        rd: rd(word),
        rs1: rs1(word),
        imm: immediate_i(word),
    })
}

fn loaded_width(funct3: u32) -> Option<Width>
    ensures { result ≡ loaded_width funct3 }
{
    match funct3 {
        0 => Some(Width::Byte),
        1 => Some(Width::Half),
        2 => Some(Width::Word),
        4 => Some(Width::ByteU),
        5 => Some(Width::HalfU),
        _ => None,
    }
}

#[tactic(auto, unfolding(crate::specs::Table::store))]
fn store(word: u32) -> Option<Op>
    ensures { result ≡ store word }
{
    let width = stored_width(funct3(word))?;
    Some(Op::Store {
        width,
        rs1: rs1(word),
        rs2: rs2(word),
        imm: immediate_s(word),
    })
}

fn stored_width(funct3: u32) -> Option<Width>
    ensures { result ≡ stored_width funct3 }
{
    match funct3 {
        0 => Some(Width::Byte),
        1 => Some(Width::Half),
        2 => Some(Width::Word),
        _ => None,
    }
}

#[tactic(auto, unfolding(crate::specs::Table::alu_immediate))]
fn alu_immediate(word: u32) -> Option<Op>
    ensures { result ≡ alu_immediate word }
{
    let funct3 = funct3(word);
    if funct3 == 1 || funct3 == 5 {
        return constant_shift(word);
    }
    let alu = immediate_alu(funct3)?;
    Some(Op::AluImm {
        alu,
        rd: rd(word),
        rs1: rs1(word),
        imm: immediate_i(word),
    })
}

fn immediate_alu(funct3: u32) -> Option<Alu>
    ensures { result ≡ immediate_alu funct3 }
{
    match funct3 {
        0 => Some(Alu::Add),
        2 => Some(Alu::Slt),
        3 => Some(Alu::Sltu),
        4 => Some(Alu::Xor),
        6 => Some(Alu::Or),
        7 => Some(Alu::And),
        _ => None,
    }
}

#[tactic(auto, unfolding(crate::specs::Table::constant_shift))]
fn constant_shift(word: u32) -> Option<Op>
    ensures { result ≡ constant_shift word }
{
    let alu = shift_of(funct3(word), funct7(word))?;
    Some(Op::AluImm {
        alu,
        rd: rd(word),
        rs1: rs1(word),
        imm: rs2(word) as i32,
    })
}

fn shift_of(funct3: u32, funct7: u32) -> Option<Alu>
    ensures { result ≡ shift_of funct3 funct7 }
{
    match (funct3, funct7) {
        (1, 0) => Some(Alu::Sll),
        (5, 0) => Some(Alu::Srl),
        (5, 0x20) => Some(Alu::Sra),
        _ => None,
    }
}

#[tactic(auto, unfolding(crate::specs::Table::alu_register))]
fn alu_register(word: u32) -> Option<Op>
    ensures { result ≡ alu_register word }
{
    let alu = register_alu(funct3(word), funct7(word))?;
    Some(Op::AluReg {
        alu,
        rd: rd(word),
        rs1: rs1(word),
        rs2: rs2(word),
    })
}

fn register_alu(funct3: u32, funct7: u32) -> Option<Alu>
    ensures { result ≡ register_alu funct3 funct7 }
{
    match (funct7, funct3) {
        (0, _) => plain_alu(funct3),
        (0x20, 0) => Some(Alu::Sub),
        (0x20, 5) => Some(Alu::Sra),
        _ => None,
    }
}

fn plain_alu(funct3: u32) -> Option<Alu>
    ensures { result ≡ plain_alu funct3 }
{
    match funct3 {
        0 => Some(Alu::Add),
        1 => Some(Alu::Sll),
        2 => Some(Alu::Slt),
        3 => Some(Alu::Sltu),
        4 => Some(Alu::Xor),
        5 => Some(Alu::Srl),
        6 => Some(Alu::Or),
        7 => Some(Alu::And),
        _ => None,
    }
}

#[tactic(auto, unfolding(crate::specs::Table::atomic))]
fn atomic(word: u32) -> Option<Op>
    ensures { result ≡ atomic word }
{
    if funct3(word) != 2 {
        return None;
    }
    let op = amo_of(funct5(word))?;
    Some(Op::Amo {
        op,
        rd: rd(word),
        rs1: rs1(word),
        rs2: rs2(word),
    })
}

fn amo_of(funct5: u32) -> Option<AmoOp>
    ensures { result ≡ amo_of funct5 }
{
    match funct5 {
        1 => Some(AmoOp::Swap),
        0 => Some(AmoOp::Add),
        4 => Some(AmoOp::Xor),
        12 => Some(AmoOp::And),
        8 => Some(AmoOp::Or),
        16 => Some(AmoOp::Min),
        20 => Some(AmoOp::Max),
        24 => Some(AmoOp::Minu),
        28 => Some(AmoOp::Maxu),
        _ => None,
    }
}

#[tactic(auto, unfolding(crate::specs::Table::fence))]
fn fence(word: u32) -> Option<Op>
    ensures { result ≡ fence word }
{
    if funct3(word) == 0 {
        Some(Op::Fence)
    } else {
        None
    }
}

#[tactic(auto, unfolding(crate::specs::Table::system))]
fn system(word: u32) -> Option<Op>
    ensures { result ≡ system word }
{
    match word {
        0x0000_0073 => Some(Op::Ecall),
        0x0010_0073 => Some(Op::Ebreak),
        _ => None,
    }
}
