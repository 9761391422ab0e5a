//! The fields of an instruction word, and the immediates that they make up.
ghost use Rattle.std.specs.Prelude.{◌≡◌, ◌≤◌, ◌<◌, ◌^◌};
ghost use Rattle.rv_decode.specs.Fields.{field, signed, opcode, rd, funct3, rs1, rs2, funct7, funct5, register};
ghost use Rattle.rv_decode.specs.Fields.{upper};
ghost use Rattle.rv_decode.specs.Fields.{immediate_i, immediate_s, immediate_b, immediate_j};

/// `width` bits of the word, from bit `low` up.
#[tactic(auto, using(crate::proofs::Bits::masked))]
pub fn field(word: u32, low: u32, width: u32) -> u32
    requires low { low < 32 }
    requires width { width < 32 }
    ensures value { result ≡ field word low width }
    ensures small { result < 2 ^ width }
{
    (word >> low) & ((1 << width) - 1)
}

/// The opcode, bits 0 to 6: which format and group of instructions the word is of.
pub fn opcode(word: u32) -> u32
    ensures { result ≡ opcode word }
{
    field(word, 0, 7)
}

/// Bits 12 to 14: which instruction of its group.
pub fn funct3(word: u32) -> u32
    ensures { result ≡ funct3 word }
{
    field(word, 12, 3)
}

/// Bits 25 to 31: with `funct3`, which instruction of its group.
pub fn funct7(word: u32) -> u32
    ensures { result ≡ funct7 word }
{
    field(word, 25, 7)
}

/// Bits 27 to 31: which atomic memory operation. The two bits below are aq and rl.
pub fn funct5(word: u32) -> u32
    ensures { result ≡ funct5 word }
{
    field(funct7(word), 2, 5)
}

/// The number of a register, 0 to 31: five bits, from bit `low` up.
fn register(word: u32, low: u32) -> u8
    requires { low < 32 }
    ensures { result ≡ register word low }
{
    field(word, low, 5) as u8
}

/// The destination register, bits 7 to 11: 0 to 31.
pub fn rd(word: u32) -> u8
    ensures { result ≡ rd word }
{
    register(word, 7)
}

/// The first source register, bits 15 to 19: 0 to 31.
pub fn rs1(word: u32) -> u8
    ensures { result ≡ rs1 word }
{
    register(word, 15)
}

/// The second source register, bits 20 to 24: 0 to 31. Of a shift by a constant, the amount.
pub fn rs2(word: u32) -> u8
    ensures { result ≡ rs2 word }
{
    register(word, 20)
}

/// Bits 12 to 31, the bare twenty bits of LUI and AUIPC.
pub fn upper(word: u32) -> u32
    ensures { result ≡ upper word }
{
    field(word, 12, 20)
}

/// The number that stands in the low `width` bits as two's complement.
fn sign_extended(bits: u32, width: u32) -> i32
    requires some { 1 ≤ width }
    requires width { width ≤ 21 }
    requires bits { bits < 2 ^ width }
    ensures { result ≡ signed width bits }
{
    if bits < 1 << (width - 1) {
        bits as i32
    } else {
        bits as i32 - (1 << width)
    }
}

/// The immediate of format I, from -2048 to 2047: bits 20 to 31, the topmost the sign.
pub fn immediate_i(word: u32) -> i32
    ensures { result ≡ immediate_i word }
{
    sign_extended(field(word, 20, 12), 12)
}

/// The immediate of format S, from -2048 to 2047: the low five bits from bit 7, the rest from bit 25.
pub fn immediate_s(word: u32) -> i32
    ensures { result ≡ immediate_s word }
{
    sign_extended(field(word, 7, 5) + field(word, 25, 7) * (1 << 5), 12)
}

/// The offset of a branch, format B, even and from -4096 to 4094, from the branch's own address.
pub fn immediate_b(word: u32) -> i32
    ensures { result ≡ immediate_b word }
{
    let bits = field(word, 8, 4) * 2
        + field(word, 25, 6) * (1 << 5)
        + field(word, 7, 1) * (1 << 11)
        + field(word, 31, 1) * (1 << 12);
    sign_extended(bits, 13)
}

/// The offset of JAL, format J, even and from -1048576 to 1048574, from the jump's own address.
pub fn immediate_j(word: u32) -> i32
    ensures { result ≡ immediate_j word }
{
    let low = field(word, 21, 10) * 2 + field(word, 20, 1) * (1 << 11);
    let high = field(word, 12, 8) * (1 << 12) + field(word, 31, 1) * (1 << 20);
    sign_extended(low + high, 21)
}
