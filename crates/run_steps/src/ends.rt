//! What a run has come to where no step is left, whichever the machine is.
ghost use Rattle.std.specs.Prelude.{◌≡◌, ◌%◌, IfOk, length, map, true};
ghost use Rattle.rtr_types.specs.declared.TheConstants.{BLOCK_WORDS};
ghost use Rattle.run_steps.specs.Ends.{outcome_with, words_in};

use crate::running::Made;
use machine_ports::SteppedMachine;
use rtr_types::{BLOCK_WORDS, Items, Params};
use rv_core::{Core, LoadNote, Outcome};
use std::alloc::Global;

/// What the machine has come to at the end, with what each core's loads got. The only refusal is want of memory.
pub fn outcome_at_end<M: SteppedMachine>(
    alloc: Global,
    machine: &M,
    loads: Items<Items<LoadNote>>,
    params: Params,
) -> Made<Outcome>
    requires done { M.ended machine.now ≡ true }
    requires cores { params.cores ≡ length (M.cores machine.now) }
    requires words { params.words ≡ (M.image machine.now).words }
    requires whole { params.words % BLOCK_WORDS ≡ 0 }
    ensures { IfOk result (λ outcome. outcome
        ≡ outcome_with (M.cores machine.now) (M.words machine.now) (M.image machine.now).words loads) }
{
    let cores = cores_of(alloc, machine, params.cores)?;
    let words = words_of(alloc, machine, params.words)?;
    Ok(Outcome {
        cores,
        words,
        loads,
    })
}

/// The cores, of which there are so many. The only refusal is want of memory.
fn cores_of<M: SteppedMachine>(alloc: Global, machine: &M, cores: u8) -> Made<Items<Core>>
    requires { cores ≡ length (M.cores machine.now) }
    ensures { IfOk result (λ list. list ≡ M.cores machine.now) }
{
    let mut list = Items::new(alloc);
    for core in 0..cores {
        list.push(*machine.core(core))?;
    }
    Ok(list)
}

/// The words of the memory at the end, of which there are so many. The only refusal is want of memory.
fn words_of<M: SteppedMachine>(alloc: Global, machine: &M, words: u32) -> Made<Items<u32>>
    requires done { M.ended machine.now ≡ true }
    requires words { words ≡ (M.image machine.now).words }
    requires whole { words % BLOCK_WORDS ≡ 0 }
    ensures { IfOk result (λ list. list ≡ words_in (M.words machine.now) (M.image machine.now).words) }
{
    let mut list = Vec::with_capacity(alloc, words as usize)?;
    for block in 0..words / BLOCK_WORDS as u32 {
        list.extend_from_slice(&machine.final_words(block))?;
    }
    Ok(Items::from_vec(list))
}

/// How many instructions each core executed, of so many cores. The only refusal is want of memory.
pub fn totals_of<M: SteppedMachine>(alloc: Global, machine: &M, cores: u8) -> Made<Items<u32>>
    requires { cores ≡ length (M.cores machine.now) }
    ensures { IfOk result (λ totals. totals ≡ map (λ k. k.count) (M.cores machine.now)) }
{
    let mut totals = Items::new(alloc);
    for core in 0..cores {
        totals.push(machine.core(core).count())?;
    }
    Ok(totals)
}
