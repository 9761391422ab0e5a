//! One core: its state, what its next instruction needs, and the retiring of that instruction.
ghost use Rattle.std.specs.Prelude.{◌≡◌, ◌↔◌, ℕ, ◌<◌, ◌+◌, ◌^◌, ◌%◌, IsTrue, true, false, bit_and, Some};
ghost use Rattle.std.specs.Prelude.{if◌then◌else◌};
ghost use Rattle.rv_core.specs.declared.core_state.Need.TheVariants.{Local};
ghost use Rattle.rv_core.specs.Operations.{bits_of, moved};
ghost use Rattle.rv_core.specs.States.{starting, register, address_of, register_target, branches, written, retired};
ghost use Rattle.rv_core.specs.States.{word_after, stores_aligned};
ghost use Rattle.rv_core.specs.StoreMask.{is_store, mask_of, masked, store_mask};
ghost use Rattle.rv_core.specs.Steps.{need, after, wrote, is_done, is_whole, access_of, stop_of, instruction_at};
ghost use Rattle.rv_core.specs.Steps.{need_of, need_to_jump, need_to_access, need_at_pc};

use crate::atomics::exchanged;
use crate::branches::{is_taken, moved, without_low_bit};
use crate::lane_access::{loaded, size_of};
use crate::operations::compute;
use image_mem::{Image, merge_lanes};
use rtr_types::Kind;
use rv_decode::{Cond, Op, Width, decode};

/// How many registers a core has, x0 to x31.
pub const REGISTERS: usize = 32;

/// Why a core's program is done, in the order in which the stops are looked for. A core whose program
/// isn't done but that has reached its total stops at `Total`, which is never a need.
#[derive(Clone, Copy, Debug, PartialEq, Eq)]
pub enum Stop {
    /// ECALL has retired.
    Exit,
    /// EBREAK has retired.
    Break,
    /// As many instructions have retired as the limit says.
    Limit,
    /// pc is no multiple of 4, or its four bytes aren't all the image's.
    Fetch,
    /// The word at pc is no instruction.
    Illegal,
    /// A jump or taken branch has a target that is no multiple of 4.
    Jump,
    /// The address of an access is no multiple of its size.
    Align,
    /// The address of an access is past the memory.
    Address,
    /// The core has retired its total.
    Total,
}

/// What a core's next instruction needs of memory. A word is named by its index, `address / 4`, also
/// where the instruction moves only a part of it; `whole` is true for SW alone. An atomic memory operation
/// reads and writes a whole word in one step.
#[derive(Clone, Copy, Debug, PartialEq, Eq)]
pub enum Need {
    Local,
    Load { word: u32 },
    Store { word: u32, whole: bool },
    Amo { word: u32 },
    Done(Stop),
}

impl Need {
    /// Whether the program is done.
    pub fn is_done(self) -> bool
        ensures { result ≡ is_done self }
    {
        matches!(self, Need::Done(_))
    }

    /// Whether it is a store that leaves nothing of what its word held.
    pub fn is_whole(self) -> bool
        ensures { result ≡ is_whole self }
    {
        match self {
            Need::Store { whole, .. } => whole,
            Need::Local | Need::Load { .. } | Need::Amo { .. } | Need::Done(_) => false,
        }
    }

    /// The access that the instruction makes, and the index of its word. None for a local instruction
    /// and where the program is done.
    pub fn access(self) -> Option<(Kind, u32)>
        ensures { result ≡ access_of self }
    {
        match self {
            Need::Load { word } => Some((Kind::Load, word)),
            Need::Store { word, .. } => Some((Kind::Store, word)),
            Need::Amo { word } => Some((Kind::Amo, word)),
            Need::Local | Need::Done(_) => None,
        }
    }
}

/// Whether ECALL or EBREAK has retired.
#[derive(Clone, Copy, Debug, PartialEq, Eq)]
pub enum Halt {
    Running,
    Exited,
    Broke,
}

/// A core: its number, the greatest number of instructions that it may retire, how many it has
/// retired, the address of its next instruction, its registers, and whether ECALL or EBREAK has
/// retired.
#[derive(Clone, Copy, Debug, PartialEq, Eq)]
pub struct Core {
    pub id: u8,
    pub limit: u32,
    pub count: u32,
    pub pc: u32,
    pub registers: [u32; REGISTERS],
    pub halt: Halt,
}

impl Core {
    /// The core of this number before its first instruction: pc is 0, x10 is the number, and every
    /// other register is 0.
    #[tactic(auto, unfolding(crate::specs::States::starting))]
    pub fn new(id: u8, limit: u32) -> Core
        ensures { result ≡ starting id limit }
    {
        let mut registers = [0; REGISTERS];
        registers[10] = id.into();
        Core {
            id,
            limit,
            count: 0,
            pc: 0,
            registers,
            halt: Halt::Running,
        }
    }

    /// The core's number.
    pub fn id(&self) -> u8
        ensures { result ≡ self.now.id }
    {
        self.id
    }

    /// How many instructions have retired.
    pub fn count(&self) -> u32
        ensures { result ≡ self.now.count }
    {
        self.count
    }

    /// The address of the next instruction.
    pub fn pc(&self) -> u32
        ensures { result ≡ self.now.pc }
    {
        self.pc
    }

    /// The value of register xk. x0 is 0, and so is a register past x31.
    #[tactic(auto, unfolding(crate::specs::States::register))]
    pub fn reg(&self, k: u8) -> u32
        ensures { result ≡ register self.now k }
    {
        if k == 0 {
            return 0;
        }
        self.registers.get(k as usize).copied().unwrap_or(0)
    }

    /// What the next instruction needs. It changes nothing, so an instruction that would stop doesn't
    /// retire.
    pub fn need(&self, image: &Image) -> Need
        ensures { result ≡ need image.now self.now }
    {
        self.need_by_op(image, self.next_op(image))
    }

    /// The instruction at pc: none where no word can be fetched there, and where the word is no
    /// instruction.
    #[tactic(auto, unfolding(crate::specs::Steps::instruction_at))]
    pub fn next_op(&self, image: &Image) -> Option<Op>
        ensures { result ≡ instruction_at image.now self.now.pc }
    {
        decode(image.fetch(self.pc)?)
    }

    /// What the next instruction needs, where the one at pc is at hand already.
    #[tactic(auto, unfolding(crate::specs::Steps::need))]
    #[inline(always)]
    pub fn need_by_op(&self, image: &Image, op: Option<Op>) -> Need
        requires { op ≡ instruction_at image.now self.now.pc }
        ensures { result ≡ need image.now self.now }
    {
        match self.halt {
            Halt::Exited => Need::Done(Stop::Exit),
            Halt::Broke => Need::Done(Stop::Break),
            Halt::Running if self.count >= self.limit => Need::Done(Stop::Limit),
            Halt::Running => self.need_at_pc(image, op),
        }
    }

    /// Retires the next instruction, which finds the value `old` in its word, and answers the word's
    /// value after. A local instruction ignores `old` and answers 0. An atomic memory operation reads both
    /// of its registers before rd gets `old`.
    pub fn finish(&mut self, image: &Image, old: u32) -> u32
        requires { is_done (need image.now self.old) ≡ false }
        ensures core { self.new ≡ after image.now self.old old }
        ensures value { result ≡ wrote image.now self.old old }
    {
        let op = self.next_op(image);
        self.finish_op(image, op, old)
    }

    /// Retires the next instruction as `finish` does, where the one at pc is at hand already.
    #[inline(always)]
    pub fn finish_op(&mut self, _image: &Image, op: Option<Op>, old: u32) -> u32
        requires more { is_done (need _image.now self.old) ≡ false }
        requires at_pc { op ≡ instruction_at _image.now self.old.pc }
        ensures core { self.new ≡ after _image.now self.old old }
        ensures value { result ≡ wrote _image.now self.old old }
    {
        let Some(op) = op else { unreachable!() };
        self.execute(op, old)
    }

    /// What the next instruction, which is a store, leaves of its word: the mask of the bits that it replaces,
    /// and what they become, which lies within the mask. Whatever the word holds, `finish` leaves in it
    /// `old & !mask | bits`.
    pub fn store_mask(&self, image: &Image) -> (u32, u32)
        requires { is_store (need image.now self.now) ≡ true }
        ensures mask { result ≡ store_mask image.now self.now }
        ensures writes { (old : ℕ) → wrote image.now self.now old ≡ masked old result.0 result.1 }
        ensures within { bit_and result.1 result.0 ≡ result.1 }
    {
        self.store_mask_by_op(image, self.next_op(image))
    }

    /// The mask and the bits as `store_mask` answers them, where the instruction at pc is at hand already.
    pub fn store_mask_by_op(&self, _image: &Image, op: Option<Op>) -> (u32, u32)
        requires store { is_store (need _image.now self.now) ≡ true }
        requires at_pc { op ≡ instruction_at _image.now self.now.pc }
        ensures mask { result ≡ store_mask _image.now self.now }
        ensures writes { (old : ℕ) → wrote _image.now self.now old ≡ masked old result.0 result.1 }
        ensures within { bit_and result.1 result.0 ≡ result.1 }
    {
        let Some(op) = op else { unreachable!() };
        self.mask_of(op)
    }

    /// Why the program is done, or `Total` where it isn't.
    pub fn stop(&self, image: &Image) -> Stop
        ensures { result ≡ stop_of (need image.now self.now) }
    {
        match self.need(image) {
            Need::Done(stop) => stop,
            _ => Stop::Total,
        }
    }
}

// The parts of the next instruction.
impl Core {
    fn address_of(&self, base: u8, immediate: i32) -> u32
        ensures { result ≡ address_of self.now base immediate }
    {
        moved(self.reg(base), immediate)
    }

    fn register_target(&self, base: u8, immediate: i32) -> u32
        ensures { result ≡ register_target self.now base immediate }
    {
        without_low_bit(self.address_of(base, immediate))
    }

    fn branches(&self, cond: Cond, left: u8, right: u8) -> bool
        ensures { result ≡ branches self.now cond left right }
    {
        is_taken(cond, self.reg(left), self.reg(right))
    }

    #[tactic(auto, using(crate::proofs::StepLemmas::needs_of_op, crate::proofs::StepLemmas::stops_without_op))]
    #[inline(always)]
    fn need_at_pc(&self, image: &Image, op: Option<Op>) -> Need
        requires { op ≡ instruction_at image.now self.now.pc }
        ensures { result ≡ need_at_pc image.now self.now }
    {
        match op {
            Some(op) => self.need_of(image.words(), op),
            None => match image.fetch(self.pc) {
                Some(_) => Need::Done(Stop::Illegal),
                None => Need::Done(Stop::Fetch),
            },
        }
    }

    #[tactic(auto, unfolding(crate::specs::Steps::need_of))]
    #[inline(always)]
    fn need_of(&self, words: u32, op: Op) -> Need
        requires { self.now.pc % 4 ≡ 0 }
        ensures { result ≡ need_of words self.now op }
    {
        match op {
            Op::Jal { offset, .. } => self.need_to_move(offset),
            Op::Jalr { rs1, imm, .. } => need_to_jump(self.register_target(rs1, imm)),
            Op::Branch {
                cond,
                rs1,
                rs2,
                offset,
            } => self.need_to_branch(cond, rs1, rs2, offset),
            Op::Load {
                width,
                rs1,
                imm,
                ..
            } => {
                let address = self.address_of(rs1, imm);
                let load = Need::Load { word: address / 4 };
                need_to_access(words, address, size_of(width), load)
            }
            Op::Store {
                width,
                rs1,
                imm,
                ..
            } => {
                let address = self.address_of(rs1, imm);
                let word = address / 4;
                let whole = width == Width::Word;
                need_to_access(words, address, size_of(width), Need::Store { word, whole })
            }
            Op::Amo { rs1, .. } => {
                let address = self.reg(rs1);
                let word = address / 4;
                need_to_access(words, address, 4, Need::Amo { word })
            }
            Op::Lui { .. } | Op::Auipc { .. } | Op::AluImm { .. } | Op::AluReg { .. } =>
                Need::Local,
            Op::Fence | Op::Ecall | Op::Ebreak => Need::Local,
        }
    }

    /// What a jump by an offset from pc needs. Where that is whole words, as in all that compilers make, the
    /// target isn't looked at.
    #[tactic(auto, using(crate::proofs::Jumps::whole_jump))]
    fn need_to_move(&self, offset: i32) -> Need
        requires { self.now.pc % 4 ≡ 0 }
        ensures { result ≡ need_to_jump (moved self.now.pc offset) }
    {
        if is_whole_words(offset) {
            return Need::Local;
        }
        need_to_jump(moved(self.pc, offset))
    }

    /// What a branch needs: what its jump does, where it is taken.
    #[tactic(auto, using(crate::proofs::Jumps::whole_branch))]
    #[inline(always)]
    fn need_to_branch(&self, cond: Cond, left: u8, right: u8, offset: i32) -> Need
        requires { self.now.pc % 4 ≡ 0 }
        ensures { result
            ≡ if branches self.now cond left right then need_to_jump (moved self.now.pc offset) else Local }
    {
        if is_whole_words(offset) {
            return Need::Local;
        }
        if self.branches(cond, left, right) {
            need_to_jump(moved(self.pc, offset))
        } else {
            Need::Local
        }
    }

    /// Retires the instruction, by one match, and answers its word's value after it.
    #[tactic(auto, unfolding(crate::specs::States::retired, crate::specs::States::word_after, crate::specs::States::next_pc, crate::specs::States::result_of, crate::specs::States::halt_after, crate::specs::States::register))]
    #[inline(always)]
    fn execute(&mut self, op: Op, old: u32) -> u32
        requires room { self.old.count < self.old.limit }
        requires aligned { stores_aligned self.old op ≡ true }
        ensures core { self.new ≡ retired self.old op old }
        ensures value { result ≡ word_after self.old op old }
    {
        prove!(self.count < self.limit);
        let here = self.pc;
        let after = here.wrapping_add(4);
        self.count += 1;
        self.pc = after;
        match op {
            Op::Lui { rd, upper } => self.put(rd, upper << 12),
            Op::Auipc { rd, upper } => self.put(rd, here.wrapping_add(upper << 12)),
            Op::Jal { rd, offset } => {
                self.put(rd, after);
                self.pc = moved(here, offset);
            }
            Op::Jalr { rd, rs1, imm } => {
                let target = self.register_target(rs1, imm);
                self.put(rd, after);
                self.pc = target;
            }
            Op::Branch {
                cond,
                rs1,
                rs2,
                offset,
            } => {
                if self.branches(cond, rs1, rs2) {
                    self.pc = moved(here, offset);
                }
            }
            Op::Load {
                width,
                rd,
                rs1,
                imm,
            } => {
                let value = loaded(width, old, self.address_of(rs1, imm) % 4);
                self.put(rd, value);
                return old;
            }
            Op::Store {
                width,
                rs1,
                rs2,
                imm,
            } => {
                let value = self.reg(rs2);
                return merge_lanes(old, value, self.address_of(rs1, imm), size_of(width));
            }
            Op::AluImm { alu, rd, rs1, imm } => {
                let value = compute(alu, self.reg(rs1), imm.cast_unsigned());
                self.put(rd, value);
            }
            Op::AluReg { alu, rd, rs1, rs2 } => {
                let value = compute(alu, self.reg(rs1), self.reg(rs2));
                self.put(rd, value);
            }
            Op::Amo { op, rd, rs2, .. } => {
                let value = exchanged(op, old, self.reg(rs2));
                self.put(rd, old);
                return value;
            }
            Op::Fence => {}
            Op::Ecall => self.halt = Halt::Exited,
            Op::Ebreak => self.halt = Halt::Broke,
        }
        0
    }

    /// Puts a value into a register.
    fn put(&mut self, rd: u8, value: u32)
        ensures { self.new ≡ record self.old { registers = written self.old.registers rd value } }
    {
        write_register(&mut self.registers, rd, value);
    }

    /// The bits that the instruction replaces in its word, and what they become.
    fn mask_of(&self, op: Op) -> (u32, u32)
        requires { stores_aligned self.now op ≡ true }
        ensures { result ≡ mask_of self.now (Some op) }
    {
        let Op::Store {
            width,
            rs1,
            rs2,
            imm,
        } = op
        else {
            return (0, 0);
        };
        let address = self.address_of(rs1, imm);
        let size = size_of(width);
        let mask = merge_lanes(0, u32::MAX, address, size);
        let bits = merge_lanes(0, self.reg(rs2), address, size);
        (mask, bits)
    }
}

#[tactic(auto, unfolding(crate::specs::States::written))]
fn write_register(registers: &mut [u32; REGISTERS], k: u8, value: u32)
    ensures { registers.new ≡ written registers.old k value }
{
    if k != 0 && (k as usize) < REGISTERS {
        registers[k as usize] = value;
    }
}

/// Whether the offset is a multiple of 4.
fn is_whole_words(offset: i32) -> bool
    ensures { IsTrue result ↔ (bits_of offset % 4 ≡ 0) }
{
    offset.cast_unsigned() % 4 == 0
}

#[tactic(auto, unfolding(crate::specs::Steps::need_to_jump))]
fn need_to_jump(target: u32) -> Need
    ensures { result ≡ need_to_jump target }
{
    if target % 4 == 0 {
        Need::Local
    } else {
        Need::Done(Stop::Jump)
    }
}

#[tactic(auto, unfolding(crate::specs::Steps::need_to_access))]
fn need_to_access(words: u32, address: u32, size: u32, access: Need) -> Need
    requires { 0 < size }
    ensures { result ≡ need_to_access words address size access }
{
    if address % size != 0 {
        Need::Done(Stop::Align)
    } else if address as u64 >= words as u64 * 4 {
        Need::Done(Stop::Address)
    } else {
        access
    }
}
