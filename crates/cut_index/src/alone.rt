//! One core on its own.
ghost use Rattle.std.specs.Prelude.{◌≡◌, ◌+◌, ◌<◌, ◌^◌, false};
ghost use Rattle.rv_core.specs.Steps.{is_done, need};
ghost use Rattle.cut_index.specs.Alone.{alone_first, goes_on, own_value, reads};
ghost use Rattle.cut_index.specs.Runs.{next_of};

use rtr_types::Kind;
use rv_core::{Core, LoadNote, Program};

/// A core that runs on its own, and how many of its loads it has read.
#[derive(Clone, Copy)]
pub struct Alone {
    pub core: Core,
    pub read: u32,
}

/// What comes next at a core: the address of its next instruction, and the kind and the word of the access that this
/// makes, if it makes one.
#[derive(Clone, Copy, Debug, PartialEq, Eq)]
pub struct Next {
    pub pc: u32,
    pub used: Option<(Kind, u32)>,
}

impl Alone {
    /// The core before its first instruction.
    pub(crate) fn first(id: u8, limit: u32) -> Alone
        ensures { result ≡ alone_first id limit }
    {
        Alone {
            core: Core::new(id, limit),
            read: 0,
        }
    }

    /// One instruction more, which finds what the core's next load read, if it reads. It answers what came next.
    pub(crate) fn go_on(&mut self, program: &Program, loads: &[LoadNote]) -> Next
        requires more { is_done (need program.now self.old.core) ≡ false }
        requires room { self.old.read + 1 < 2 ^ 32 }
        ensures next { result ≡ next_of program.now self.old.core }
        ensures on { self.new ≡ goes_on program.now loads.now self.old }
    {
        let pc = self.core.pc();
        let op = program.op(pc);
        let used = self.core.need_by_op(program.image(), op).access();
        let value = own_value(used, loads, self.read);
        self.core.finish_op(program.image(), op, value);
        if reads(used) {
            self.read += 1;
        }
        Next { pc, used }
    }
}

/// What comes next at a core.
pub(crate) fn next_of(program: &Program, core: &Core) -> Next
    ensures { result ≡ next_of program.now core.now }
{
    let pc = core.pc();
    let used = core.need_by_op(program.image(), program.op(pc)).access();
    Next { pc, used }
}

/// Whether an instruction reads a word.
fn reads(used: Option<(Kind, u32)>) -> bool
    ensures { result ≡ reads used }
{
    match used {
        Some((kind, _)) => kind.is_read(),
        None => false,
    }
}

/// What the next instruction finds, behind so many loads.
fn own_value(used: Option<(Kind, u32)>, loads: &[LoadNote], read: u32) -> u32
    ensures { result ≡ own_value used loads.now read }
{
    if !reads(used) {
        return 0;
    }
    match loads.get(read as usize) {
        Some(note) => note.value,
        None => 0,
    }
}
