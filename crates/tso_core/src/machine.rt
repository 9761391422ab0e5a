//! The machine and its calls.
ghost use Rattle.std.specs.Prelude.{◌≡◌, ◌<◌, ◌≤◌, ◌/◌, ◌%◌, ℕ, IfOk, IsTrue, List, OnOk, Some, false, length};
ghost use Rattle.std.specs.Prelude.{slice_index, true};
ghost use Rattle.access_times.specs.Riding.{none_carrying, none_riding};
ghost use Rattle.rtr_types.specs.Parameters.{Fits};
ghost use Rattle.rv_core.specs.Steps.{need};
ghost use Rattle.rtr_types.specs.declared.TheConstants.{BLOCK_WORDS, CORES_MAX};
ghost use Rattle.machine_data.specs.Coherent.{opening_memory};
ghost use Rattle.msi_directory.specs.Blocks.{touched};
ghost use Rattle.msi_memory.specs.Rests.{RoomsMade};
ghost use Rattle.tso_state.specs.FinalMemory.{final_word};
ghost use Rattle.tso_state.specs.Pending.{stores_in};
ghost use Rattle.tso_state.specs.Runs.{chosen, opening_state};
ghost use Rattle.tso_state.specs.States.{all_done, core_at, state_start};
ghost use Rattle.tso_state.specs.Steps.{event, moves};
ghost use Rattle.tso_state.specs.declared.moves.Move.{Move};
ghost use Rattle.tso_data.specs.Orders.{Coherent};
ghost use Rattle.tso_plain.specs.Plain.{plain};
ghost use Rattle.tso_core.specs.Machineries.{heads_roomy};
ghost use Rattle.tso_core.specs.Marks.{AllMarked, marked};
ghost use Rattle.tso_core.specs.Numbers.{IsTaken};
ghost use Rattle.tso_core.specs.Queues.{oldest};
ghost use Rattle.tso_core.specs.Steppings.{HasMoved, KeepsPromises};
ghost use Rattle.tso_core.specs.Moving.{AcceptsOf, TellsOf};
ghost use Rattle.machine_ports.specs.Writers.{OneWriterEach};

use crate::marks::Marks;
use crate::parts::Parts;
use crate::standing::{Standing, first_marks, first_standings};
use access_times::{Carry, Rider};
use image_mem::Image;
use machine_ports::SteppedMachine;
use move_marks::{make_room, with_late};
use rtr_types::{BLOCK_WORDS, CORES_MAX, Params};
use rv_core::{Need, Program};
use std::alloc::{AllocError, Global};
use std::marker::Model;
use tso_clerk::TsoClerk;
use tso_state::{Move, Pending};

/// A machine of some cores with store buffers, in a state of a run. Contracts see that state, and which of the
/// home's blocks have room for a request.
///
/// Beside the state it keeps what each core stands at, which moves can be made, and which core moved last, or
/// none once room was made. Room is made before each step, so that only that core may have a request for whose
/// block there is none; and the home is asked only then whether that block is free.
pub struct BufferedMachine<R: Rider, K: Carry> {
    pub(crate) parts: Parts<R, K>,
    standings: Vec<Standing>,
    marks: Marks,
    mover: u8,
}

impl<R: Rider, K: Carry> Drop for BufferedMachine<R, K> {
    fn drop(self) {
        let BufferedMachine {
            parts: _parts,
            standings: _standings,
            marks: _marks,
            mover: _mover,
        } = self;
    }
}

impl<R: Rider, K: Carry> Model for BufferedMachine<R, K> {
    ghost use Rattle.tso_core.specs.Machineries.{Machinery};
    ghost use Rattle.tso_core.specs.Standings.{NotesFit};

    ghost Value = { Machinery R K };

    ghost view = { λ a. a.parts };

    ghost invariant = { λ a. NotesFit R.riding K.carrying a.parts a.standings.items a.marks a.mover };
}

impl<R: Rider, K: Carry> BufferedMachine<R, K> {
    /// The machine of an image before its first step. No access is pending, no cache holds a block, and nothing
    /// is under way.
    pub fn new(
        alloc: Global,
        image: Image,
        params: Params,
    ) -> Result<BufferedMachine<R, K>, AllocError>
        requires fits { Fits params }
        requires words { image.words ≡ params.words }
        ensures start { IfOk result (λ machine.
            machine.state ≡ state_start R.riding K.carrying image params.cores params.limit) }
        ensures plain { IfOk result (λ machine. plain machine.state ≡ opening_state image params) }
        ensures coherent { IfOk result (λ machine. Coherent R.riding K.carrying machine.state (opening_memory image)) }
        ensures one_writer { IfOk result (λ machine. OneWriterEach R.riding K.carrying machine.state.memory) }
        ensures untouched { IfOk result (λ machine. touched machine.rooms ≡ 0) }
    {
        let program = Program::new(alloc, image)?;
        BufferedMachine::of_program(alloc, program, params)
    }

    /// The machine of a program, which is an image decoded beforehand, before its first step. No access is pending, no
    /// cache holds a block, and nothing
    /// is under way.
    pub fn of_program(
        alloc: Global,
        program: Program,
        params: Params,
    ) -> Result<BufferedMachine<R, K>, AllocError>
        requires fits { Fits params }
        requires words { program.words ≡ params.words }
        ensures start { IfOk result (λ machine.
            machine.state ≡ state_start R.riding K.carrying program params.cores params.limit) }
        ensures plain { IfOk result (λ machine. plain machine.state ≡ opening_state program params) }
        ensures coherent { IfOk result (λ machine. Coherent R.riding K.carrying machine.state (opening_memory program)) }
        ensures one_writer { IfOk result (λ machine. OneWriterEach R.riding K.carrying machine.state.memory) }
        ensures untouched { IfOk result (λ machine. touched machine.rooms ≡ 0) }
    {
        let parts = Parts::new(alloc, program, params.cores, params.limit)?;
        BufferedMachine::over(alloc, parts, params)
    }

    /// The machine of the same program before its first step again, with the memory that this one has: a run after
    /// another one with as many cores takes hardly any.
    pub fn restart(self, alloc: Global, params: Params) -> Result<BufferedMachine<R, K>, AllocError>
        requires fits { Fits params }
        requires words { self.state.image.words ≡ params.words }
        ensures start { IfOk result (λ machine.
            machine.state ≡ state_start R.riding K.carrying self.state.image params.cores params.limit) }
        ensures plain { IfOk result (λ machine. plain machine.state ≡ opening_state self.state.image params) }
        ensures coherent { IfOk result (λ machine.
            Coherent R.riding K.carrying machine.state (opening_memory self.state.image)) }
        ensures one_writer { IfOk result (λ machine. OneWriterEach R.riding K.carrying machine.state.memory) }
        ensures untouched { IfOk result (λ machine. touched machine.rooms ≡ 0) }
    {
        let BufferedMachine {
            parts,
            standings: _standings,
            marks: _marks,
            mover: _mover,
        } = self;
        let parts = parts.restart(alloc, params.cores, params.limit)?;
        BufferedMachine::over(alloc, parts, params)
    }

    /// The machine over these parts, which are as at the start.
    fn over(
        alloc: Global,
        parts: Parts<R, K>,
        params: Params,
    ) -> Result<BufferedMachine<R, K>, AllocError>
        requires fits { Fits params }
        requires words { parts.state.image.words ≡ params.words }
        requires start { parts.state ≡ state_start R.riding K.carrying parts.state.image params.cores params.limit }
        ensures parts { IfOk result (λ machine. machine ≡ parts) }
        ensures plain { IfOk result (λ machine. plain parts.state ≡ opening_state parts.state.image params) }
        ensures coherent { IfOk result (λ machine.
            Coherent R.riding K.carrying parts.state (opening_memory parts.state.image)) }
        ensures one_writer { IfOk result (λ machine. OneWriterEach R.riding K.carrying parts.state.memory) }
    {
        let image = parts.program.image();
        let words = image.words();
        prove!(words == params.words);
        let standings = first_standings(alloc, &parts.program, parts.cores.as_slice())?;
        let marks = first_marks(standings.as_slice());
        Ok(BufferedMachine {
            parts,
            standings,
            marks,
            mover: 0,
        })
    }

    /// How many blocks the home made room for: it keeps so many entries, and the others are as the image has
    /// them.
    pub fn touched(&self) -> u32
        ensures { result ≡ touched self.now.rooms }
    {
        self.parts.memory.touched()
    }

    /// Makes room in the home for the block of each request link's head, so that a step needs no memory.
    /// After want of memory some of these blocks may have got room, and all else is unchanged.
    pub fn make_room(&mut self) -> Result<(), AllocError>
        ensures state { self.new.state ≡ self.old.state }
        ensures rooms { RoomsMade self.old.state.memory.ports self.old.rooms self.new.rooms }
        ensures ok { OnOk result (heads_roomy self.new ≡ true) }
    {
        let parts = &mut self.parts;
        let cores = self.marks.cores;
        make_room(
            &mut parts.memory,
            cores,
            &mut self.marks.moves,
            &mut self.mover,
        )
    }

    /// Whether the home has room for the block of each request link's head.
    pub fn has_room(&self) -> bool
        ensures { result ≡ heads_roomy self.now }
    {
        let parts = &self.parts;
        parts.memory.has_room()
    }

    /// One step: of the moves that can be made, of which there is always one, that which the choice
    /// numbers, counted around. It answers the move. The message that the move takes has a row in its
    /// receiver's table, and no link that it pushes to is full. The clerk is told of the instructions whose turn
    /// it is by it, in program order, and accepts all that the move tells. It takes no memory.
    ///
    /// What rides changes nothing: the plain part makes the plain machine's step. The step is paid for by
    /// the instructions that executed, the pending accesses and the messages under way. Whatever memory is
    /// coherent with the state before: an ordered access finds that memory's word, and the state after is
    /// coherent with the memory after the access. At most one cache may write a block, and then no other may
    /// read it.
    pub fn step<C: TsoClerk<R, K>>(&mut self, choice: u32, clerk: &mut C) -> Move
        requires more { all_done self.old.state ≡ false }
        requires roomy { IsTrue (heads_roomy self.old) }
        requires accepts { (m : Move) → chosen (plain self.old.state) choice ≡ Some m
            → AcceptsOf C.accepts C.accepts_alone C.told_local C.told_touch C.told_logged R.riding K.carrying
            self.old.state m clerk.old }
        ensures taken { IsTaken R.riding K.carrying self.old.state choice result }
        ensures moved { HasMoved R.riding K.carrying self.old self.new result }
        ensures told { TellsOf C.told_local C.told_touch C.told_logged R.riding K.carrying self.old.state
            self.new.state result clerk.old clerk.new }
        ensures keeps { KeepsPromises R.riding K.carrying self.old.state self.new.state
            (event R.riding K.carrying self.old.state result) }
    {
        let mut marks = self.all_marks();
        let taken = marks.pick(choice % marks.count());
        let standings = self.standings.as_mut_slice();
        self.parts.make_move(taken, standings, &mut marks, clerk);
        self.marks = marks;
        self.mover = taken.core();
        taken
    }

    /// Which moves can be made: exactly these are marked. They stand in the order in which a choice numbers them.
    pub fn moves(&self) -> Marks
        ensures all { AllMarked R.riding K.carrying self.now.state result }
        ensures moves { marked result ≡ moves R.riding K.carrying self.now.state }
    {
        self.all_marks()
    }

    /// What a core's next instruction needs.
    pub fn need(&self, core: u8) -> Need
        requires { core < length self.now.state.cores }
        ensures { result ≡ need self.now.state.image (core_at self.now.state.cores core).core }
    {
        // What always holds of a machine says this of its standings.
        let _ = &self.parts;
        self.standings[core as usize].need
    }

    /// The oldest of a core's pending accesses.
    pub fn oldest(&self, core: u8) -> Option<Pending>
        requires { core < length self.now.state.cores }
        ensures { result ≡ oldest (core_at self.now.state.cores core).queue }
    {
        self.parts.cores[core as usize].queue.oldest()
    }

    /// How many of a core's pending accesses are stores.
    pub fn stores(&self, core: u8) -> usize
        requires { core < length self.now.state.cores }
        ensures { result ≡ stores_in (core_at self.now.state.cores core).queue }
    {
        self.parts.cores[core as usize].queue.stores()
    }

    /// The marks of the moves that can be made.
    #[inline(always)]
    pub(crate) fn all_marks(&self) -> Marks
        ensures all { AllMarked R.riding K.carrying self.now.state result }
        ensures moves { marked result ≡ moves R.riding K.carrying self.now.state }
    {
        let parts = &self.parts;
        let Marks {
            cores,
            orders,
            moves,
        } = self.marks;
        // no move asked the home about the block of the mover's oldest request yet
        let moves = with_late(&parts.memory, cores, moves, self.mover);
        Marks {
            cores,
            orders,
            moves,
        }
    }

    /// A word of the memory at the end, by its index: the owner's copy of it where a cache owns its block, else
    /// the home's. It is what the last ordered write to it left.
    pub fn final_word(&self, word: u32) -> u32
        requires done { all_done self.now.state ≡ true }
        requires within { word < self.now.state.image.words }
        ensures value { result ≡ final_word R.riding K.carrying self.now.state word }
        ensures plain { result ≡ final_word none_riding none_carrying (plain self.now.state) word }
        ensures last { (memory : ℕ → List ℕ) → Coherent R.riding K.carrying self.now.state memory
            → result ≡ slice_index (memory (word / BLOCK_WORDS)) (word % BLOCK_WORDS) }
    {
        let words = self.final_words(word / BLOCK_WORDS as u32);
        words[word as usize % BLOCK_WORDS]
    }

    /// The image that the machine runs.
    pub fn into_image(self) -> Image
        ensures { result ≡ self.state.image }
    {
        self.into_program().into_image()
    }

    /// The program that the machine runs.
    pub fn into_program(self) -> Program
        ensures { result ≡ self.state.image }
    {
        let BufferedMachine {
            parts,
            standings: _standings,
            marks: _marks,
            mover: _mover,
        } = self;
        parts.into_program()
    }

    /// Each core's number is its place, and below the greatest number of cores: a law for clerks that keep
    /// something for each core.
    pub fn cores_are_numbered(&self)
        ensures few { length self.now.state.cores ≤ CORES_MAX }
        ensures numbers { (core : ℕ) → core < length self.now.state.cores
            → (core_at self.now.state.cores core).core.id ≡ core }
    {
        // What always holds of a machine says this.
        let _ = &self.parts;
    }
}
