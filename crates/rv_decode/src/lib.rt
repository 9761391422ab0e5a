//! Instruction words of RV32I and of the atomic memory operations on a word. The standard is the RISC-V Unprivileged
//! ISA, version 20191213: chapter 2, and of chapter 8 the nine operations. Everything else is no instruction here:
//! FENCE.I, the CSR instructions, the extensions M and C, and LR and SC of A.
//!
//! FENCE is any word with opcode 0x0F and funct3 0, so FENCE.TSO is a plain FENCE. The bits aq and rl are read as
//! anything and written as 0, since an atomic memory operation is ordered already. LR and SC are left out: a
//! reservation would be state beside the words.
//!
//! Proved: `decode` is the table of the standard (`table`), and what it answers is in range (`in_range`). `encode` is
//! the formats, and `decode(encode(op)) = op` (`word`, `read_back`).
#![tactic(auto)]

mod decoder;
mod encoder;
mod fields;
mod formats;
mod laws;
mod op;
mod ranges;

pub use decoder::decode;
pub use encoder::encode;
pub use laws::{decode_of_encode, decoded_fits};
pub use op::{Alu, AmoOp, Cond, Op, Width};
pub use ranges::fits;
