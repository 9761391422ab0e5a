//! The flat machine at its start.
ghost use Rattle.std.specs.Prelude.{◌≡◌, ◌≢◌, ◌<◌, ◌≤◌, ◌&&◌, ℕ, IfOk, false, length, nat_lt, not, replicate};
ghost use Rattle.rtr_types.specs.CoreSets.{has};
ghost use Rattle.rtr_types.specs.Parameters.{Fits};
ghost use Rattle.rtr_types.specs.declared.TheConstants.{CORES_MAX};
ghost use Rattle.rv_core.specs.Steps.{is_done};
ghost use Rattle.machine_data.specs.Coherent.{opening_memory};
ghost use Rattle.msi_directory.specs.Blocks.{block_count};
ghost use Rattle.move_marks.specs.Kinds.{set_of};
ghost use Rattle.move_marks.specs.declared.marks.MoveKind.{MoveKind};
ghost use Rattle.move_marks.specs.declared.marks.MoveKind.TheVariants.{Own};
ghost use Rattle.msi_state.specs.Runs.{opening_state};
ghost use Rattle.flat_state.specs.Shows.{Stands, node_at};
ghost use Rattle.flat_machine.specs.Machines.{IsKept, PlacesKept};

use crate::machine::FlatMachine;
use flat_start::start_on;
use flat_state::{Flat, HomeBlock, Node};
use image_mem::Image;
use move_marks::{MoveKind, MoveMarks};
use rtr_types::{BLOCK_WORDS, Params};
use rv_core::Program;
use std::alloc::{AllocError, Global};

impl FlatMachine {
    /// The machine of an image before its first step. The only refusal is want of memory.
    pub fn new(alloc: Global, image: Image, params: Params) -> Result<FlatMachine, AllocError>
        requires fits { Fits params }
        requires words { image.words ≡ params.words }
        ensures stands { IfOk result (λ m. Stands m.flat (opening_state image params) (opening_memory image)) }
        ensures kept { IfOk result (λ m. IsKept m) }
    {
        let program = Program::new(alloc, image)?;
        FlatMachine::of_program(alloc, program, params)
    }

    /// The machine of a program, which is an image decoded beforehand, before its first step. The only refusal is want
    /// of memory.
    pub fn of_program(
        alloc: Global,
        program: Program,
        params: Params,
    ) -> Result<FlatMachine, AllocError>
        requires fits { Fits params }
        requires words { program.words ≡ params.words }
        ensures stands { IfOk result (λ m. Stands m.flat (opening_state program params) (opening_memory program)) }
        ensures kept { IfOk result (λ m. IsKept m) }
    {
        let blocks = (program.image().words() as usize + BLOCK_WORDS - 1) / BLOCK_WORDS;
        let places = vec![in alloc; 0u32; blocks]?;
        FlatMachine::over(program, Vec::new(alloc), Vec::new(alloc), places, params)
    }

    /// The machine of the same program before its first step again, with the memory that this one has. The only refusal
    /// is want of memory.
    pub fn restart(self, params: Params) -> Result<FlatMachine, AllocError>
        requires fits { Fits params }
        requires words { self.flat.program.words ≡ params.words }
        requires kept { IsKept self }
        ensures stands { IfOk result (λ m. Stands m.flat (opening_state self.flat.program params)
            (opening_memory self.flat.program)) }
        ensures kept { IfOk result (λ m. IsKept m) }
    {
        let FlatMachine {
            flat,
            marks: _marks,
            places,
        } = self;
        let Flat {
            program,
            nodes,
            home,
        } = flat;
        let mut places = places;
        forget_places(home.as_slice(), places.as_mut_slice());
        FlatMachine::over(program, nodes, home, places, params)
    }

    /// The machine of a program, in whose places no block has an entry. What stood in the other lists goes. The only
    /// refusal is want of memory.
    fn over(
        program: Program,
        nodes: Vec<Node>,
        home: Vec<HomeBlock>,
        places: Vec<u32>,
        params: Params,
    ) -> Result<FlatMachine, AllocError>
        requires fits { Fits params }
        requires words { program.words ≡ params.words }
        requires places { places.items ≡ replicate (block_count program.words) 0 }
        ensures stands { IfOk result (λ m. Stands m.flat (opening_state program params) (opening_memory program)) }
        ensures kept { IfOk result (λ m. IsKept m) }
    {
        // this tells the prover that the image fits into the memory
        let _words = program.image().words();
        let flat = start_on(program, nodes, home, params.cores, params.limit)?;
        let marks = first_marks(&flat.nodes);
        Ok(FlatMachine {
            flat,
            marks,
            places,
        })
    }
}

/// Forgets the places of these entries, which are all that are noted.
fn forget_places(home: &[HomeBlock], places: &mut [u32])
    requires { PlacesKept home.now places.old }
    ensures { places.new ≡ replicate (length places.old) 0 }
{
    for place in 0..home.len() {
        places[home[place].block as usize] = 0;
    }
}

/// Marks each of these cores whose program isn't done, and nothing else.
fn first_marks(nodes: &Vec<Node>) -> MoveMarks
    requires { length nodes.now.items ≤ CORES_MAX }
    ensures own { (c : ℕ) → has (set_of Own result) c
        ≡ (nat_lt c (length nodes.now.items) && not (is_done (node_at nodes.now.items c).need)) }
    ensures others { (k : MoveKind) (c : ℕ) → k ≢ Own → has (set_of k result) c ≡ false }
{
    let mut marks = MoveMarks::none();
    for core in 0..nodes.len() {
        mark_first(nodes, core as u8, &mut marks);
    }
    marks
}

/// Marks the core if its program isn't done.
fn mark_first(nodes: &Vec<Node>, core: u8, marks: &mut MoveMarks)
    requires core { core < length nodes.now.items }
    requires few { core < CORES_MAX }
    ensures this { has (set_of Own marks.new) core ≡ not (is_done (node_at nodes.now.items core).need) }
    ensures others { (k : MoveKind) (c : ℕ) → (k ≡ Own → c ≢ core)
        → has (set_of k marks.new) c ≡ has (set_of k marks.old) c }
{
    let node = &nodes[core as usize];
    let more = !node.need.is_done();
    marks.set(MoveKind::Own, core, more);
}
