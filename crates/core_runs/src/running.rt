//! Cores that run: many instructions in one go, each carried out by one match.
ghost use Rattle.std.specs.Prelude.{◌≡◌, ◌≢◌, ◌<◌, ◌≤◌, ◌+◌, ◌/◌, ◌%◌, ◌==◌, ℕ, false, true, if◌then◌else◌};
ghost use Rattle.std.specs.Prelude.{slice_index};
ghost use Rattle.std.specs.Prelude.{Some, None, MatchResult, IsTrue, ◌↔◌};
ghost use Rattle.rv_decode.specs.declared.op.Op.TheVariants.{Load as Loads, Store as Stores, Amo as Amos};
ghost use Rattle.rtr_types.specs.declared.instr.Instr.{Instr as SomeInstr};
ghost use Rattle.rtr_types.specs.declared.access.Kind.TheVariants.{Load as Loading, Store as Storing};
ghost use Rattle.rtr_types.specs.declared.access.Kind.TheVariants.{Amo as Exchanging};
ghost use Rattle.image_mem.specs.Lanes.{is_access_size, merged};
ghost use Rattle.rv_core.specs.Atomics.{exchanged};
ghost use Rattle.rv_core.specs.Operations.{size_of, wrapped_sum};
ghost use Rattle.rv_core.specs.States.{retired, written};
ghost use Rattle.core_runs.specs.Runs.{HopsTo, IsNextOp, Refusing, RunsTo, StepsTo, Telling, Use, core_of, gone_to};
ghost use Rattle.core_runs.specs.Runs.{is_access, is_plain, next_instr, standing, stands};

use rtr_types::Instr;
use rv_core::branches::{is_taken, moved, without_low_bit};
use rv_core::lane_access::{loaded, size_of};
use rv_core::operations::compute;
use rv_core::{Core, Halt, Program, REGISTERS};
use rv_decode::{AmoOp, Op, Width};

/// A reach refuses an instruction: it does not retire. Why it refuses, the reach itself knows.
#[derive(Clone, Copy, Debug, PartialEq, Eq)]
pub struct Refused;

/// What the instructions of a run find in memory and leave there. Each instruction is told once, as it retires, by the
/// one of the five calls that fits; the calls for accesses may refuse it, and then it doesn't retire. Who watches is
/// handed on to each call.
pub trait Reach<W> {
    /// How many words it has.
    ghost words: { Self → ℕ };

    /// The instructions that it accepts.
    ghost accepts: { Self → W → SomeInstr → Type 0 };

    /// What it is told of an instruction: the reach and the watch before; the instruction, what it uses, the value that
    /// its word had and the value that it leaves there; the reach and the watch after.
    ghost told: { Telling Self W };

    /// The reach and the watch before and after an instruction that it refuses.
    ghost refused: { Refusing Self W };

    /// A local instruction.
    fn local(&mut self, watch: &mut W, at: Instr)
        requires { accepts self.old watch.old at }
        ensures { told self.old watch.old at None 0 0 self.new watch.new };

    /// A load: the value of the word with this index.
    fn load(&mut self, watch: &mut W, at: Instr, word: u32) -> Result<u32, Refused>
        requires accepts { accepts self.old watch.old at }
        requires within { word < words self.old }
        ensures { MatchResult result
            (λ old. told self.old watch.old at (Some (Loading, word)) old old self.new watch.new)
            (λ _. refused self.old watch.old at self.new watch.new) };

    /// A store of a whole word: the word becomes the value.
    fn store(&mut self, watch: &mut W, at: Instr, word: u32, value: u32) -> Result<(), Refused>
        requires accepts { accepts self.old watch.old at }
        requires within { word < words self.old }
        ensures { MatchResult result
            (λ _. (old : ℕ) × told self.old watch.old at (Some (Storing, word)) old value self.new watch.new)
            (λ _. refused self.old watch.old at self.new watch.new) };

    /// A store of a part of a word: the 1 or 2 bytes at the address, which is a multiple of so many, become the low
    /// bytes
    /// of the value.
    fn store_part(
        &mut self,
        watch: &mut W,
        at: Instr,
        address: u32,
        size: u32,
        value: u32,
    ) -> Result<(), Refused>
        requires accepts { accepts self.old watch.old at }
        requires within { address / 4 < words self.old }
        requires size { IsTrue (is_access_size size) }
        requires aligned { address % size ≡ 0 }
        ensures { MatchResult result
            (λ _. (old : ℕ) × told self.old watch.old at (Some (Storing, address / 4)) old
            (merged old value (address % 4) size) self.new watch.new)
            (λ _. refused self.old watch.old at self.new watch.new) };

    /// An atomic memory operation: answers the word's value, and the word becomes what the operation leaves.
    fn change(
        &mut self,
        watch: &mut W,
        at: Instr,
        word: u32,
        op: AmoOp,
        value: u32,
    ) -> Result<u32, Refused>
        requires accepts { accepts self.old watch.old at }
        requires within { word < words self.old }
        ensures { MatchResult result
            (λ old. told self.old watch.old at (Some (Exchanging, word)) old (exchanged op old value)
            self.new watch.new)
            (λ _. refused self.old watch.old at self.new watch.new) };

    /// It keeps its words.
    ghost keeps_words: { (r : Self) (w : W) (at : SomeInstr) (used : Use) (old new : ℕ) (r' : Self) (w' : W)
        → told r w at used old new r' w' → words r' ≡ words r };

    /// Later instructions of the core that it accepts it still accepts.
    ghost keeps_accepting: { (r : Self) (w : W) (at : SomeInstr) (used : Use) (old new : ℕ) (r' : Self) (w' : W)
        (later : SomeInstr) → told r w at used old new r' w' → later.core ≡ at.core → at.count < later.count
        → accepts r w later → accepts r' w' later };
}

/// How a run ended.
#[derive(Clone, Copy, Debug, PartialEq, Eq)]
pub enum Ran {
    /// The core has come to the count.
    Whole,
    /// Its program is done before that.
    Done,
    /// The reach refused the next instruction.
    Refused,
}

/// What one instruction comes to.
#[derive(Clone, Copy)]
enum Carried {
    /// It has retired.
    Gone,
    /// It stops the program.
    Done,
    /// The reach refused it.
    Refused,
}

/// A core but for its registers.
#[derive(Clone, Copy)]
struct Head {
    id: u8,
    limit: u32,
    count: u32,
    pc: u32,
    halt: Halt,
}

/// Retires instructions of the core until so many have retired, which is at most the limit, or the program is done
/// before, or the reach refuses one. The reach is told of each.
#[inline(always)]
pub fn run<W, R: Reach<W>>(
    core: &mut Core,
    program: &Program,
    until: u32,
    reach: &mut R,
    watch: &mut W,
) -> Ran
    requires up { core.old.count ≤ until }
    requires limit { until ≤ core.old.limit }
    requires words { R.words reach.old ≡ program.now.words }
    requires accepts { (n : ℕ) → core.old.count < n → n ≤ until
        → R.accepts reach.old watch.old (record { core = core.old.id; count = n }) }
    ensures { RunsTo R.told R.refused program.now until (standing core.old reach.old watch.old) result
        (standing core.new reach.new watch.new) }
{
    let mut head = Head {
        id: core.id,
        limit: core.limit,
        count: core.count,
        pc: core.pc,
        halt: core.halt,
    };
    let ran = follow(program, until, &mut head, &mut core.registers, reach, watch);
    core.count = head.count;
    core.pc = head.pc;
    core.halt = head.halt;
    ran
}

/// The run of a core by its head and its registers.
#[inline(always)]
fn follow<W, R: Reach<W>>(
    program: &Program,
    until: u32,
    head: &mut Head,
    registers: &mut [u32; REGISTERS],
    reach: &mut R,
    watch: &mut W,
) -> Ran
    requires up { head.old.count ≤ until }
    requires limit { until ≤ head.old.limit }
    requires words { R.words reach.old ≡ program.now.words }
    requires accepts { (n : ℕ) → head.old.count < n → n ≤ until
        → R.accepts reach.old watch.old (record { core = head.old.id; count = n }) }
    ensures { RunsTo R.told R.refused program.now until (stands head.old registers.old reach.old watch.old) result
        (stands head.new registers.new reach.new watch.new) }
{
    let words = program.image().words();
    while head.count < until {
        let Some(op) = head.next_op(program) else {
            return Ran::Done;
        };
        match step(op, words, head, registers, reach, watch) {
            Carried::Gone => {}
            Carried::Done => return Ran::Done,
            Carried::Refused => return Ran::Refused,
        }
    }
    Ran::Whole
}

/// Carries an instruction out, unless it stops the program or the reach refuses it.
#[inline(always)]
fn step<W, R: Reach<W>>(
    op: Op,
    words: u32,
    head: &mut Head,
    registers: &mut [u32; REGISTERS],
    reach: &mut R,
    watch: &mut W,
) -> Carried
    requires room { head.old.count < head.old.limit }
    requires words { words ≡ R.words reach.old }
    requires accepts { R.accepts reach.old watch.old (next_instr (core_of head.old registers.old)) }
    ensures { StepsTo R.told R.refused words op (stands head.old registers.old reach.old watch.old) result
        (stands head.new registers.new reach.new watch.new) }
{
    match op {
        Op::Load {
            width,
            rd,
            rs1,
            imm,
        } => load(width, rd, rs1, imm, words, head, registers, reach, watch),
        Op::Store {
            width,
            rs1,
            rs2,
            imm,
        } => store(width, rs1, rs2, imm, words, head, registers, reach, watch),
        Op::Amo { op, rd, rs1, rs2 } => {
            change(op, rd, rs1, rs2, words, head, registers, reach, watch)
        }
        op => {
            let at = head.next();
            if !hop(op, head, registers) {
                return Carried::Done;
            }
            reach.local(watch, at);
            Carried::Gone
        }
    }
}

/// Carries a load out.
#[inline(always)]
fn load<W, R: Reach<W>>(
    width: Width,
    rd: u8,
    rs1: u8,
    imm: i32,
    words: u32,
    head: &mut Head,
    registers: &mut [u32; REGISTERS],
    reach: &mut R,
    watch: &mut W,
) -> Carried
    requires room { head.old.count < head.old.limit }
    requires words { words ≡ R.words reach.old }
    requires accepts { R.accepts reach.old watch.old (next_instr (core_of head.old registers.old)) }
    ensures { StepsTo R.told R.refused words (Loads width rd rs1 imm)
        (stands head.old registers.old reach.old watch.old) result
        (stands head.new registers.new reach.new watch.new) }
{
    let address = moved(get(registers, rs1), imm);
    if !reaches(words, address, size_of(width)) {
        return Carried::Done;
    }
    let Ok(old) = reach.load(watch, head.next(), address / 4) else {
        return Carried::Refused;
    };
    put(registers, rd, loaded(width, old, address % 4));
    head.go_on();
    Carried::Gone
}

/// Carries a store out.
#[inline(always)]
fn store<W, R: Reach<W>>(
    width: Width,
    rs1: u8,
    rs2: u8,
    imm: i32,
    words: u32,
    head: &mut Head,
    registers: &mut [u32; REGISTERS],
    reach: &mut R,
    watch: &mut W,
) -> Carried
    requires room { head.old.count < head.old.limit }
    requires words { words ≡ R.words reach.old }
    requires accepts { R.accepts reach.old watch.old (next_instr (core_of head.old registers.old)) }
    ensures { StepsTo R.told R.refused words (Stores width rs1 rs2 imm)
        (stands head.old registers.old reach.old watch.old) result
        (stands head.new registers.new reach.new watch.new) }
{
    let address = moved(get(registers, rs1), imm);
    if !reaches(words, address, size_of(width)) {
        return Carried::Done;
    }
    let value = get(registers, rs2);
    let Ok(()) = leave(width, address, value, head.next(), reach, watch) else {
        return Carried::Refused;
    };
    head.go_on();
    Carried::Gone
}

/// Leaves a value in the bytes of an access at an address.
#[inline(always)]
fn leave<W, R: Reach<W>>(
    width: Width,
    address: u32,
    value: u32,
    at: Instr,
    reach: &mut R,
    watch: &mut W,
) -> Result<(), Refused>
    requires accepts { R.accepts reach.old watch.old at }
    requires within { address / 4 < R.words reach.old }
    requires aligned { address % size_of width ≡ 0 }
    ensures { MatchResult result
        (λ _. (old : ℕ) × R.told reach.old watch.old at (Some (Storing, address / 4)) old
        (merged old value (address % 4) (size_of width)) reach.new watch.new)
        (λ _. R.refused reach.old watch.old at reach.new watch.new) }
{
    match width {
        Width::Word => reach.store(watch, at, address / 4, value),
        Width::Half | Width::HalfU => reach.store_part(watch, at, address, 2, value),
        Width::Byte | Width::ByteU => reach.store_part(watch, at, address, 1, value),
    }
}

/// Carries an atomic memory operation out.
#[inline(always)]
fn change<W, R: Reach<W>>(
    op: AmoOp,
    rd: u8,
    rs1: u8,
    rs2: u8,
    words: u32,
    head: &mut Head,
    registers: &mut [u32; REGISTERS],
    reach: &mut R,
    watch: &mut W,
) -> Carried
    requires room { head.old.count < head.old.limit }
    requires words { words ≡ R.words reach.old }
    requires accepts { R.accepts reach.old watch.old (next_instr (core_of head.old registers.old)) }
    ensures { StepsTo R.told R.refused words (Amos op rd rs1 rs2)
        (stands head.old registers.old reach.old watch.old) result
        (stands head.new registers.new reach.new watch.new) }
{
    let address = get(registers, rs1);
    if !reaches(words, address, 4) {
        return Carried::Done;
    }
    let value = get(registers, rs2);
    let Ok(old) = reach.change(watch, head.next(), address / 4, op, value) else {
        return Carried::Refused;
    };
    put(registers, rd, old);
    head.go_on();
    Carried::Gone
}

/// Carries an instruction out that makes no access, unless it stops the program.
#[tactic(auto, using(crate::proofs::RunSteps::plain_hops))]
#[inline(always)]
fn hop(op: Op, head: &mut Head, registers: &mut [u32; REGISTERS]) -> bool
    requires room { head.old.count < head.old.limit }
    requires local { is_access op ≡ false }
    ensures { HopsTo op (core_of head.old registers.old) result (core_of head.new registers.new) }
{
    match op {
        Op::Jal { rd, offset } => jump(rd, moved(head.pc, offset), head, registers),
        Op::Jalr { rd, rs1, imm } => {
            let target = without_low_bit(moved(get(registers, rs1), imm));
            jump(rd, target, head, registers)
        }
        Op::Branch {
            cond,
            rs1,
            rs2,
            offset,
        } => {
            if is_taken(cond, get(registers, rs1), get(registers, rs2)) {
                return head.jump(moved(head.pc, offset));
            }
            head.go_on();
            true
        }
        op => {
            plain(op, head, registers);
            true
        }
    }
}

/// Goes to a target, and puts the address of the next instruction into a register, unless the target isn't whole.
#[inline(always)]
fn jump(rd: u8, target: u32, head: &mut Head, registers: &mut [u32; REGISTERS]) -> bool
    requires room { head.old.count < head.old.limit }
    ensures result { result ≡ (target % 4 == 0) }
    ensures head { head.new ≡ if target % 4 == 0 then gone_to head.old target else head.old }
    ensures registers { registers.new
        ≡ if target % 4 == 0 then written registers.old rd (wrapped_sum head.old.pc 4) else registers.old }
{
    let next = head.pc.wrapping_add(4);
    if !head.jump(target) {
        return false;
    }
    put(registers, rd, next);
    true
}

/// Carries an instruction out that makes no access and goes on to the next one.
#[tactic(auto, unfolding(rv_core::specs::States::retired, rv_core::specs::States::next_pc, rv_core::specs::States::result_of, rv_core::specs::States::halt_after, rv_core::specs::States::register))]
#[inline(always)]
fn plain(op: Op, head: &mut Head, registers: &mut [u32; REGISTERS])
    requires room { head.old.count < head.old.limit }
    requires local { is_plain op ≡ true }
    ensures { core_of head.new registers.new ≡ retired (core_of head.old registers.old) op 0 }
{
    let here = head.pc;
    head.go_on();
    match op {
        Op::Lui { rd, upper } => put(registers, rd, upper << 12),
        Op::Auipc { rd, upper } => put(registers, rd, here.wrapping_add(upper << 12)),
        Op::AluImm { alu, rd, rs1, imm } => {
            let value = compute(alu, get(registers, rs1), imm.cast_unsigned());
            put(registers, rd, value);
        }
        Op::AluReg { alu, rd, rs1, rs2 } => {
            let value = compute(alu, get(registers, rs1), get(registers, rs2));
            put(registers, rd, value);
        }
        Op::Ecall => head.halt = Halt::Exited,
        Op::Ebreak => head.halt = Halt::Broke,
        _ => {}
    }
}

impl Head {
    /// The instruction that comes next.
    fn next(&self) -> Instr
        requires { self.now.count < self.now.limit }
        ensures { result ≡ record { core = self.now.id; count = self.now.count + 1 } }
    {
        Instr {
            core: self.id,
            count: self.count + 1,
        }
    }

    /// The instruction at pc, unless the core has halted.
    #[tactic(auto, using(crate::proofs::RunSteps::next_op, crate::proofs::RunSteps::halted_op))]
    #[inline(always)]
    fn next_op(&self, program: &Program) -> Option<Op>
        ensures { IsNextOp program.now self.now result }
    {
        match self.halt {
            Halt::Running => program.op(self.pc),
            Halt::Exited | Halt::Broke => None,
        }
    }

    /// On to the instruction behind, which is the next one.
    fn go_on(&mut self)
        requires { self.old.count < self.old.limit }
        ensures { self.new ≡ gone_to self.old (wrapped_sum self.old.pc 4) }
    {
        self.pc = self.pc.wrapping_add(4);
        self.count += 1;
    }

    /// On to a target, unless that isn't whole.
    fn jump(&mut self, target: u32) -> bool
        requires { self.old.count < self.old.limit }
        ensures result { result ≡ (target % 4 == 0) }
        ensures head { self.new ≡ if target % 4 == 0 then gone_to self.old target else self.old }
    {
        if target % 4 != 0 {
            return false;
        }
        self.pc = target;
        self.count += 1;
        true
    }
}

/// Whether an access of this size at this address is aligned and within the memory.
#[inline(always)]
fn reaches(words: u32, address: u32, size: u32) -> bool
    requires { 0 < size }
    ensures { IsTrue result ↔ (address % size ≡ 0) × (address / 4 < words) }
{
    address % size == 0 && address / 4 < words
}

/// A register's value: x0 is 0, and so is a register past x31.
#[inline(always)]
fn get(registers: &[u32; REGISTERS], k: u8) -> u32
    ensures { result ≡ if k == 0 then 0 else slice_index registers.now k }
{
    if k == 0 {
        return 0;
    }
    registers.get(k as usize).copied().unwrap_or(0)
}

/// Puts a value into a register, unless that is x0 or past x31.
#[tactic(auto, unfolding(rv_core::specs::States::written))]
#[inline(always)]
fn put(registers: &mut [u32; REGISTERS], k: u8, value: u32)
    ensures { registers.new ≡ written registers.old k value }
{
    if k != 0 && (k as usize) < REGISTERS {
        registers[k as usize] = value;
    }
}
