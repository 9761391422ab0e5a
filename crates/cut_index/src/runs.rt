//! What is kept of each core on its own: what comes next at each of its counts, and how it stands at some of them.
ghost use Rattle.std.specs.Prelude.{◌≡◌, ◌≤◌, ◌^◌, IfOk, OnOk, [], ◌∷◌, ◌++◌};
ghost use Rattle.replay_core.specs.Answers.{UsesWithin};
ghost use Rattle.cut_index.specs.Alone.{alone_after};
ghost use Rattle.cut_index.specs.Runs.{CanRun, IsRun, marked};
ghost use Rattle.cut_index.specs.Touches.{code_of};

use crate::alone::{Alone, Next};
use crate::touches::code_of;
use rtr_types::Items;
use rv_core::{LoadNote, Program};
use std::alloc::{AllocError, Global};

/// How many instructions lie from one snapshot of a core to its next.
pub(crate) const SPAN: u32 = 1024;

/// The most instructions for which there is room from the first on.
const ROOM: u32 = 1 << 20;

/// A core's run on its own: the address of what comes next behind each number of its instructions, the number that
/// stands for its access, and the core itself behind each whole number of spans.
pub(crate) struct Run {
    pub pcs: Items<u32>,
    pub uses: Items<u32>,
    pub marks: Items<Alone>,
}

impl Drop for Run {
    fn drop(self) {
        let Run {
            pcs: _pcs,
            uses: _uses,
            marks: _marks,
        } = self;
    }
}

impl Run {
    /// The run of a core that has these loads, over so many instructions.
    pub fn of(
        alloc: Global,
        program: &Program,
        loads: &[LoadNote],
        first: Alone,
        total: u32,
    ) -> Result<Run, AllocError>
        requires { CanRun program.now loads.now first total }
        ensures { IfOk result (IsRun program.now loads.now first total) }
    {
        let mut run = Run::new(alloc, first, total)?;
        let mut alone = first;
        for count in 0..total {
            let next = alone.go_on(program, loads);
            run.note(next)?;
            run.mark(count + 1, alone)?;
        }
        Ok(run)
    }

    /// No instruction yet, with room for so many.
    fn new(alloc: Global, first: Alone, total: u32) -> Result<Run, AllocError>
        ensures pcs { IfOk result (λ run. run.pcs ≡ []) }
        ensures uses { IfOk result (λ run. run.uses ≡ []) }
        ensures marks { IfOk result (λ run. run.marks ≡ first ∷ []) }
    {
        let mut marks = Items::new(alloc);
        marks.push(first)?;
        let pcs = Items::from_vec(Vec::with_capacity(alloc, total.min(ROOM) as usize)?);
        let uses = Items::from_vec(Vec::with_capacity(alloc, total.min(ROOM) as usize)?);
        Ok(Run { pcs, uses, marks })
    }

    /// Notes what comes next.
    fn note(&mut self, next: Next) -> Result<(), AllocError>
        requires { UsesWithin next.used (2 ^ 30) }
        ensures pcs { OnOk result (self.new.pcs ≡ self.old.pcs ++ next.pc ∷ []) }
        ensures uses { OnOk result (self.new.uses ≡ self.old.uses ++ code_of next.used ∷ []) }
        ensures marks { OnOk result (self.new.marks ≡ self.old.marks) }
    {
        self.pcs.push(next.pc)?;
        self.uses.push(code_of(next.used))
    }

    /// Takes a snapshot of the core behind so many instructions, if these are whole spans.
    fn mark(&mut self, count: u32, alone: Alone) -> Result<(), AllocError>
        ensures pcs { OnOk result (self.new.pcs ≡ self.old.pcs) }
        ensures uses { OnOk result (self.new.uses ≡ self.old.uses) }
        ensures marks { OnOk result (self.new.marks ≡ marked self.old.marks count alone) }
    {
        if count % SPAN == 0 {
            self.marks.push(alone)?;
        }
        Ok(())
    }

    /// The core behind so many of its instructions, by the last snapshot before.
    pub fn alone(
        &self,
        program: &Program,
        loads: &[LoadNote],
        _first: Alone,
        _total: u32,
        count: u32,
    ) -> Alone
        requires can { CanRun program.now loads.now _first _total }
        requires run { IsRun program.now loads.now _first _total self.now }
        requires count { count ≤ _total }
        ensures { result ≡ alone_after program.now loads.now _first count }
    {
        let mut alone = self.marks.as_slice()[(count / SPAN) as usize];
        for _done in count / SPAN * SPAN..count {
            let _ = alone.go_on(program, loads);
        }
        alone
    }
}
