//! The text that tells why a command gave up.
ghost use Rattle.std.specs.Prelude.{◌≡◌, ◌+◌, ◌*◌, ◌≤◌, [], ◌++◌, length, decimal};
ghost use Rattle.state_text.specs.Exits.{count_text, counts_text, edge_fault_line, edge_text, elf_line, failure_line};
ghost use Rattle.state_text.specs.Exits.{fault_line, instr_text, segment_line};
ghost use Rattle.state_text.specs.Pieces.{line};

use crate::exit::Exit;
use image_elf::ElfFault;
use itoa::Buffer;
use min_certificate::CheckFailure;
use rtr_types::{CORES_MAX, Cut, Edge, Instr};
use std::marker::Model;

/// The most bytes that a fault text has.
pub const FAULT_TEXT_MAX: usize = 256;

/// The most digits of a number.
const DIGITS_MAX: usize = 20;

/// The most digits of a count.
const COUNT_DIGITS_MAX: usize = 10;

/// A text of at most 256 bytes that stands inline, so that it can be made where memory ran out.
#[derive(Drop)]
pub struct FaultText {
    bytes: [u8; FAULT_TEXT_MAX],
    used: usize,
}

impl Model for FaultText {
    ghost use Rattle.std.specs.Prelude.{List, ℕ, take, ◌≤◌};

    ghost Value = { List ℕ };

    ghost view = { λ text. take text.used text.bytes };

    ghost invariant = { λ text. text.used ≤ 256 };
}

impl FaultText {
    /// The text's bytes.
    pub fn bytes(&self) -> &[u8]
        ensures text { result.now ≡ self.now }
        ensures short { length result.now ≤ FAULT_TEXT_MAX }
    {
        &self.bytes[..self.used]
    }

    // The text of no byte.
    fn empty() -> FaultText
        ensures { result ≡ [] }
    {
        FaultText {
            bytes: [0; FAULT_TEXT_MAX],
            used: 0,
        }
    }

    // The text of these bytes.
    fn of(piece: &[u8]) -> FaultText
        requires { length piece.now ≤ FAULT_TEXT_MAX }
        ensures { result ≡ piece.now }
    {
        FaultText::empty().then(piece)
    }

    // With these bytes at the end.
    fn then(mut self, piece: &[u8]) -> FaultText
        requires { length self + length piece.now ≤ FAULT_TEXT_MAX }
        ensures { result ≡ self ++ piece.now }
    {
        let start = self.used;
        let end = start + piece.len();
        self.bytes[start..end].copy_from_slice(piece);
        self.used = end;
        self
    }

    // With a line feed at the end.
    fn ended(self) -> FaultText
        requires { length self + 1 ≤ FAULT_TEXT_MAX }
        ensures { result ≡ line self }
    {
        self.then(b"\n")
    }

    // With a decimal number at the end.
    fn number(self, number: u64) -> FaultText
        requires { length self + DIGITS_MAX ≤ FAULT_TEXT_MAX }
        ensures text { result ≡ self ++ decimal number }
        ensures short { length result ≤ length self + DIGITS_MAX }
    {
        let mut buffer = Buffer::new();
        self.then(buffer.format(number).as_bytes())
    }

    // With the core and the count of an instruction at the end.
    fn instr(self, at: Instr) -> FaultText
        requires { length self + 2 * DIGITS_MAX + 1 ≤ FAULT_TEXT_MAX }
        ensures text { result ≡ self ++ instr_text at }
        ensures short { length result ≤ length self + 2 * DIGITS_MAX + 1 }
    {
        self.number(at.core.into())
            .then(b":")
            .number(at.count.into())
    }

    // With the two instructions of an edge at the end.
    fn edge(self, edge: Edge) -> FaultText
        requires { length self + 4 * DIGITS_MAX + 6 ≤ FAULT_TEXT_MAX }
        ensures text { result ≡ self ++ edge_text edge }
        ensures short { length result ≤ length self + 4 * DIGITS_MAX + 6 }
    {
        self.instr(edge.from).then(b" to ").instr(edge.to)
    }

    // With a space and a count at the end.
    fn count(self, count: u32) -> FaultText
        requires { length self + COUNT_DIGITS_MAX + 1 ≤ FAULT_TEXT_MAX }
        ensures text { result ≡ self ++ count_text count }
        ensures short { length result ≤ length self + COUNT_DIGITS_MAX + 1 }
    {
        let mut buffer = Buffer::new();
        self.then(b" ").then(buffer.format(count).as_bytes())
    }

    // With the counts of a cut at the end, each after a space.
    fn counts(self, cut: &Cut) -> FaultText
        requires { length self + (COUNT_DIGITS_MAX + 1) * CORES_MAX ≤ FAULT_TEXT_MAX }
        ensures text { result ≡ self ++ counts_text cut.now }
        ensures short { length result ≤ length self + (COUNT_DIGITS_MAX + 1) * CORES_MAX }
    {
        let mut text = self;
        let cores = cut.counts.len().min(cut.cores.into());
        for count in &cut.counts[..cores] {
            text = text.count(*count);
        }
        text
    }
}

/// The line of an edge that has a fault.
fn edge_fault_text(edge: Edge, fault: &[u8]) -> FaultText
    requires { length fault.now ≤ 64 }
    ensures { result ≡ edge_fault_line edge fault.now }
{
    FaultText::of(b"rtr: edge ").edge(edge).then(fault).ended()
}

/// The line that tells why a log isn't shown to be least.
fn failure_text(failure: &CheckFailure) -> FaultText
    ensures { result ≡ failure_line failure.now }
{
    match failure {
        CheckFailure::NotConflict { edge } => edge_fault_text(*edge, b" is no conflict"),
        CheckFailure::BadClock { core, entry } => FaultText::of(b"rtr: clock ")
            .number((*entry).into())
            .then(b" of core ")
            .number((*core).into())
            .then(b" is wrong")
            .ended(),
        CheckFailure::NotNeeded { edge } => edge_fault_text(*edge, b" is not needed"),
        CheckFailure::NotLeast { edge } => edge_fault_text(*edge, b" is not in the least log"),
    }
}

/// The line of a segment of an ELF file: its number, and what is wrong with it.
fn segment_text(index: u32, wrong: &[u8]) -> FaultText
    requires { length wrong.now + DIGITS_MAX + 19 ≤ FAULT_TEXT_MAX }
    ensures { result ≡ segment_line index wrong.now }
{
    FaultText::of(b"rtr: ELF segment ")
        .number(index.into())
        .then(b" ")
        .then(wrong)
        .ended()
}

/// The line that tells why an ELF file has no flat image; no line for want of memory, which has an exit of its own.
fn elf_text(fault: ElfFault) -> FaultText
    ensures { result ≡ elf_line fault }
{
    match fault {
        ElfFault::NotElf => FaultText::of(b"rtr: not an ELF file\n"),
        ElfFault::Header => FaultText::of(b"rtr: ELF header not accepted\n"),
        ElfFault::Segment { index } => segment_text(index, b"not accepted"),
        ElfFault::Outside { index } => segment_text(index, b"outside memory"),
        ElfFault::Overlap { index } => segment_text(index, b"overlaps"),
        ElfFault::Entry => FaultText::of(b"rtr: ELF entry not accepted\n"),
        ElfFault::OutOfMemory => FaultText::empty(),
    }
}

/// The text that goes to the report where a command ends so: one line, or nothing where it did what
/// it was asked for. It takes no memory.
pub fn fault_text(exit: &Exit) -> FaultText
    ensures { result ≡ fault_line exit.now }
{
    match exit {
        Exit::Done => FaultText::empty(),
        Exit::Usage => FaultText::of(b"rtr: usage\n"),
        Exit::TooLarge => FaultText::of(b"rtr: input too large\n"),
        Exit::Bad { part } => FaultText::of(b"rtr: bad input, part ")
            .number((*part).into())
            .ended(),
        Exit::Stuck { cut } => FaultText::of(b"rtr: stuck at").counts(cut).ended(),
        Exit::Short { core, count } => FaultText::of(b"rtr: core ")
            .number((*core).into())
            .then(b" stops at ")
            .number((*count).into())
            .ended(),
        Exit::Undetermined { first, second } => FaultText::of(b"rtr: no order from ")
            .instr(*first)
            .then(b" to ")
            .instr(*second)
            .ended(),
        Exit::CheckFailed(failure) => failure_text(failure),
        Exit::ReadFault => FaultText::of(b"rtr: read fault\n"),
        Exit::WriteFault => FaultText::of(b"rtr: write fault\n"),
        Exit::OutOfMemory => FaultText::of(b"rtr: out of memory\n"),
        Exit::Elf(fault) => elf_text(*fault),
        Exit::NoInstr { at } => FaultText::of(b"rtr: no instruction ").instr(*at).ended(),
        Exit::TooMany { vectors, edges } => FaultText::of(b"rtr: ")
            .number(*vectors)
            .then(b" vectors with ")
            .number(*edges)
            .then(b" edges are too many")
            .ended(),
        Exit::NotShown { vector } => FaultText::of(b"rtr: vector ")
            .number((*vector).into())
            .then(b" is not shown needed")
            .ended(),
    }
}
