//! Words from an outside assembler (LLVM 14's `llvm-mc`), each read and written.
use rv_decode::{Alu, AmoOp, Cond, Op, Width, decode, encode, fits};
use std::process::Abort;

// The word is read as the instruction: one with the same word of its own.
fn reads_as(rt: &impl Abort, word: u32, op: &Op) {
    assert!(rt; fits(op), "{word:08x}");
    let own = encode(op);
    assert!(rt; own_word(word) == Some(own), "reading {word:08x}");
}

// The word that stands for the instruction which is read of this one, or none.
fn own_word(word: u32) -> Option<u32> {
    let op = decode(word)?;
    if fits(&op) { Some(encode(&op)) } else { None }
}

/// A word, and the instruction that is read of it.
struct Word {
    word: u32,
    op: Op,
}

macro_rules! word {
    ($word:literal => $op:expr) => {
        Word {
            word: $word,
            op: $op,
        }
    };
}

/// Words that are those of their instructions.
static WORDS: [Word; 64] = [
    // Whole words.
    word!(0x0ff0_000f => Op::Fence),
    word!(0x0000_0073 => Op::Ecall),
    word!(0x0010_0073 => Op::Ebreak),
    // Operations on registers.
    word!(0x0073_02b3 => Op::AluReg { alu: Alu::Add, rd: 5, rs1: 6, rs2: 7 }),
    word!(0x41e0_8fb3 => Op::AluReg { alu: Alu::Sub, rd: 31, rs1: 1, rs2: 30 }),
    word!(0x0031_10b3 => Op::AluReg { alu: Alu::Sll, rd: 1, rs1: 2, rs2: 3 }),
    word!(0x0062_a233 => Op::AluReg { alu: Alu::Slt, rd: 4, rs1: 5, rs2: 6 }),
    word!(0x0094_33b3 => Op::AluReg { alu: Alu::Sltu, rd: 7, rs1: 8, rs2: 9 }),
    word!(0x00c5_c533 => Op::AluReg { alu: Alu::Xor, rd: 10, rs1: 11, rs2: 12 }),
    word!(0x00f7_56b3 => Op::AluReg { alu: Alu::Srl, rd: 13, rs1: 14, rs2: 15 }),
    word!(0x4128_d833 => Op::AluReg { alu: Alu::Sra, rd: 16, rs1: 17, rs2: 18 }),
    word!(0x015a_69b3 => Op::AluReg { alu: Alu::Or, rd: 19, rs1: 20, rs2: 21 }),
    word!(0x018b_fb33 => Op::AluReg { alu: Alu::And, rd: 22, rs1: 23, rs2: 24 }),
    // Operations with an immediate.
    word!(0x0045_1313 => Op::AluImm { alu: Alu::Sll, rd: 6, rs1: 10, imm: 4 }),
    word!(0x01f5_5313 => Op::AluImm { alu: Alu::Srl, rd: 6, rs1: 10, imm: 31 }),
    word!(0x41f5_5313 => Op::AluImm { alu: Alu::Sra, rd: 6, rs1: 10, imm: 31 }),
    word!(0x1f40_0293 => Op::AluImm { alu: Alu::Add, rd: 5, rs1: 0, imm: 500 }),
    word!(0x7ff1_0093 => Op::AluImm { alu: Alu::Add, rd: 1, rs1: 2, imm: 2047 }),
    word!(0x0052_3193 => Op::AluImm { alu: Alu::Sltu, rd: 3, rs1: 4, imm: 5 }),
    word!(0x0015_4393 => Op::AluImm { alu: Alu::Xor, rd: 7, rs1: 10, imm: 1 }),
    word!(0x0fff_ff13 => Op::AluImm { alu: Alu::And, rd: 30, rs1: 31, imm: 255 }),
    word!(0xfff2_8293 => Op::AluImm { alu: Alu::Add, rd: 5, rs1: 5, imm: -1 }),
    word!(0x8001_0093 => Op::AluImm { alu: Alu::Add, rd: 1, rs1: 2, imm: -2048 }),
    word!(0xffb2_2193 => Op::AluImm { alu: Alu::Slt, rd: 3, rs1: 4, imm: -5 }),
    word!(0xf004_e413 => Op::AluImm { alu: Alu::Or, rd: 8, rs1: 9, imm: -256 }),
    // JALR, and loads.
    word!(0xffc2_80e7 => Op::Jalr { rd: 1, rs1: 5, imm: -4 }),
    word!(0x0000_8067 => Op::Jalr { rd: 0, rs1: 1, imm: 0 }),
    word!(0x0022_1183 => Op::Load { width: Width::Half, rd: 3, rs1: 4, imm: 2 }),
    word!(0x1200_2603 => Op::Load { width: Width::Word, rd: 12, rs1: 0, imm: 288 }),
    word!(0x7ff3_4283 => Op::Load { width: Width::ByteU, rd: 5, rs1: 6, imm: 2047 }),
    word!(0xfff1_0083 => Op::Load { width: Width::Byte, rd: 1, rs1: 2, imm: -1 }),
    word!(0x8004_5383 => Op::Load { width: Width::HalfU, rd: 7, rs1: 8, imm: -2048 }),
    // Upper parts.
    word!(0x1234_52b7 => Op::Lui { rd: 5, upper: 0x1_2345 }),
    word!(0xffff_ffb7 => Op::Lui { rd: 31, upper: 0xf_ffff }),
    word!(0x8000_00b7 => Op::Lui { rd: 1, upper: 0x8_0000 }),
    word!(0x0000_1117 => Op::Auipc { rd: 2, upper: 1 }),
    word!(0xffff_f197 => Op::Auipc { rd: 3, upper: 0xf_ffff }),
    // Stores.
    word!(0x0255_0023 => Op::Store { width: Width::Byte, rs1: 10, rs2: 5, imm: 32 }),
    word!(0x1093_2023 => Op::Store { width: Width::Word, rs1: 6, rs2: 9, imm: 256 }),
    word!(0x7e11_0fa3 => Op::Store { width: Width::Byte, rs1: 2, rs2: 1, imm: 2047 }),
    word!(0xfe63_9f23 => Op::Store { width: Width::Half, rs1: 7, rs2: 6, imm: -2 }),
    word!(0x81ff_2023 => Op::Store { width: Width::Word, rs1: 30, rs2: 31, imm: -2048 }),
    // Jumps.
    word!(0xffdf_f2ef => Op::Jal { rd: 5, offset: -4 }),
    word!(0x8000_036f => Op::Jal { rd: 6, offset: -1_048_576 }),
    word!(0x0010_00ef => Op::Jal { rd: 1, offset: 2048 }),
    word!(0x0000_006f => Op::Jal { rd: 0, offset: 0 }),
    word!(0x7fff_ffef => Op::Jal { rd: 31, offset: 1_048_574 }),
    word!(0x0000_13ef => Op::Jal { rd: 7, offset: 4096 }),
    // Branches.
    word!(0xfe76_0ae3 => Op::Branch { cond: Cond::Eq, rs1: 12, rs2: 7, offset: -12 }),
    word!(0x0005_8663 => Op::Branch { cond: Cond::Eq, rs1: 11, rs2: 0, offset: 12 }),
    word!(0xfc02_9ae3 => Op::Branch { cond: Cond::Ne, rs1: 5, rs2: 0, offset: -44 }),
    word!(0x7e20_cfe3 => Op::Branch { cond: Cond::Lt, rs1: 1, rs2: 2, offset: 4094 }),
    word!(0x8041_d063 => Op::Branch { cond: Cond::Ge, rs1: 3, rs2: 4, offset: -4096 }),
    word!(0x0062_e0e3 => Op::Branch { cond: Cond::Ltu, rs1: 5, rs2: 6, offset: 2048 }),
    word!(0x8083_f0e3 => Op::Branch { cond: Cond::Geu, rs1: 7, rs2: 8, offset: -2048 }),
    // Atomic memory operations.
    word!(0x0821_a0af => Op::Amo { op: AmoOp::Swap, rd: 1, rs1: 3, rs2: 2 }),
    word!(0x0053_a32f => Op::Amo { op: AmoOp::Add, rd: 6, rs1: 7, rs2: 5 }),
    word!(0x21ee_afaf => Op::Amo { op: AmoOp::Xor, rd: 31, rs1: 29, rs2: 30 }),
    word!(0x60b6_252f => Op::Amo { op: AmoOp::And, rd: 10, rs1: 12, rs2: 11 }),
    word!(0x40d7_202f => Op::Amo { op: AmoOp::Or, rd: 0, rs1: 14, rs2: 13 }),
    word!(0x8008_27af => Op::Amo { op: AmoOp::Min, rd: 15, rs1: 16, rs2: 0 }),
    word!(0xa129_a8af => Op::Amo { op: AmoOp::Max, rd: 17, rs1: 19, rs2: 18 }),
    word!(0xc15b_2a2f => Op::Amo { op: AmoOp::Minu, rd: 20, rs1: 22, rs2: 21 }),
    word!(0xe18c_abaf => Op::Amo { op: AmoOp::Maxu, rd: 23, rs1: 25, rs2: 24 }),
];

/// Words of instructions that have another word of their own: `amoswap.w.aq`, `amoadd.w.rl` and `amomaxu.w.aqrl`, then
/// `fence r, w`, `fence.tso`, and a fence with every other bit set.
static OTHERS: [Word; 6] = [
    word!(0x0c21_a0af => Op::Amo { op: AmoOp::Swap, rd: 1, rs1: 3, rs2: 2 }),
    word!(0x0253_a32f => Op::Amo { op: AmoOp::Add, rd: 6, rs1: 7, rs2: 5 }),
    word!(0xe78c_abaf => Op::Amo { op: AmoOp::Maxu, rd: 23, rs1: 25, rs2: 24 }),
    word!(0x0210_000f => Op::Fence),
    word!(0x8330_000f => Op::Fence),
    word!(0xffff_8f8f => Op::Fence),
];

#[test]
fn each_word_goes_both_ways(rt: HostRuntime) {
    for row in &WORDS {
        reads_as(&rt, row.word, &row.op);
        let own = own_word(row.word);
        assert!(rt; own == Some(row.word), "writing {:08x}", row.word);
    }
    for row in &OTHERS {
        reads_as(&rt, row.word, &row.op);
    }
}

fn reg(alu: Alu, rd: u8, rs1: u8, rs2: u8) -> Op {
    Op::AluReg { alu, rd, rs1, rs2 }
}

fn imm(alu: Alu, rd: u8, rs1: u8, imm: i32) -> Op {
    Op::AluImm { alu, rd, rs1, imm }
}

fn amo(op: AmoOp, rd: u8, rs2: u8, rs1: u8) -> Op {
    Op::Amo { op, rd, rs1, rs2 }
}

#[test]
fn other_words(rt: HostRuntime) {
    for word in [
        // FENCE.I, CSRRW, CSRRS, MRET, WFI, MUL, DIVU, LR.W, LR.W.AQRL, SC.W
        0x0000100f, 0x30529073, 0xc00022f3, 0x30200073, 0x10500073, 0x02c58533, 0x02c5d533,
        0x1002a32f, 0x1602a32f, 0x1872a32f,
        // of RV64: LWU, LD, SD, ADDIW, ADDW, SRLI by 32, and AMOADD.D
        0x00016083, 0x00013083, 0x00113023, 0x0031009b, 0x003100bb, 0x02055313, 0x0053b32f,
        // ECALL with rd 1 and with rs1 1, SLLI with SRAI's funct7, JALR and BEQ with no such funct3, a
        // 16-bit C.NOP, no bit, every bit
        0x000000f3, 0x00008073, 0x40451313, 0x000090e7, 0x0005a663, 0x00000001, 0x00000000,
        0xffffffff,
    ] {
        assert!(rt; decode(word).is_none(), "{word:08x}");
    }
}

#[test]
fn outside_the_ranges(rt: HostRuntime) {
    for (what, op) in [
        ("an immediate above 11 bits", imm(Alu::Add, 1, 2, 2048)),
        ("one below them", imm(Alu::And, 1, 2, -2049)),
        ("a difference with an immediate", imm(Alu::Sub, 1, 2, 3)),
        ("a shift by 32", imm(Alu::Sra, 1, 2, 32)),
        ("a shift by less than 0", imm(Alu::Sll, 1, 2, -1)),
        ("register 32", reg(Alu::Add, 32, 0, 0)),
        ("an atomic with register 32", amo(AmoOp::Swap, 1, 2, 32)),
        (
            "an unsigned store",
            Op::Store {
                width: Width::ByteU,
                rs1: 1,
                rs2: 2,
                imm: 0,
            },
        ),
        (
            "a branch by an odd offset",
            Op::Branch {
                cond: Cond::Eq,
                rs1: 1,
                rs2: 2,
                offset: 3,
            },
        ),
        (
            "a branch too far",
            Op::Branch {
                cond: Cond::Eq,
                rs1: 1,
                rs2: 2,
                offset: 4096,
            },
        ),
        (
            "a jump too far back",
            Op::Jal {
                rd: 1,
                offset: -1_048_578,
            },
        ),
        (
            "an upper part of 21 bits",
            Op::Lui {
                rd: 1,
                upper: 0x10_0000,
            },
        ),
    ] {
        assert!(rt; !fits(&op), "{what}");
    }
}
