//! Runs of two cores by choices that a plain program computed: the same that `tso_examples` computes from the
//! definitions, and what they leave.
ghost use Rattle.std.specs.Prelude.{◌≡◌, length};
ghost use Rattle.machine_examples.specs.declared.images.TheConstants.{WORDS};

use crate::again::{machine_of, make_room};
use crate::images::{
    ALL_ZERO, BYTES_BUFFERED, BYTES_OF_A_WORD, HANDED_OVER, MIXED, MIXED_ENDS, ONE_LOGGED,
    OWN_STORE_SEEN, STORE_BUFFERING, SUM, WORDS, choice_at,
};
use access_times::{NoCarry, NoRider};
use machine_ports::SteppedMachine;
use rtr_types::{CORES_MAX, Params};
use std::alloc::Global;
use std::test::Fail;
use test_clerks::{Counter, Logged};
use tso_core::BufferedMachine;

/// A run of two cores: its choices, behind the last of which all are 0; after how many steps it ends; how many
/// instructions without data the cores execute; how many accesses are ordered; the loads that are logged; a
/// register of each core, by its number, and its value; and two words of the memory, by their indices, with their
/// values.
struct Run {
    image: &'static [u8],
    choices: &'static [u32],
    steps: u32,
    alone: u32,
    ordered: u32,
    logged: &'static [Logged],
    registers: [(u8, u32); 2],
    memory: [(u32, u32); 2],
}

macro_rules! run {
    (
        $image:ident by $choices:ident: steps $steps:literal, alone $alone:literal, ordered $ordered:literal,
        logged $logged:tt, registers $registers:tt, memory $memory:tt
    ) => {
        Run {
            image: &$image,
            choices: &$choices,
            steps: $steps,
            alone: $alone,
            ordered: $ordered,
            logged: &$logged,
            registers: $registers,
            memory: $memory,
        }
    };
}

static RUNS: [Run; 6] = [
    // each core runs up to its load before any store is ordered: both loads find 0, and both are logged
    run!(STORE_BUFFERING by ALL_ZERO: steps 30, alone 10, ordered 2, logged [(0, 6, 20, 0), (1, 6, 16, 0)],
        registers [(11, 0), (11, 0)], memory [(16, 1), (20, 1)]),
    // one load finds the new word and is ordered, the other is logged
    run!(STORE_BUFFERING by ONE_LOGGED: steps 29, alone 10, ordered 3, logged [(0, 6, 20, 0)],
        registers [(11, 0), (11, 1)], memory [(16, 1), (20, 1)]),
    // a load sees its core's own pending store, and is logged, as the word is another's by the time it is ordered
    run!(HANDED_OVER by OWN_STORE_SEEN: steps 24, alone 5, ordered 3, logged [(0, 4, 16, 7)],
        registers [(6, 7), (7, 0)], memory [(16, 1), (17, 0)]),
    // the word has both bytes
    run!(BYTES_OF_A_WORD by BYTES_BUFFERED: steps 14, alone 4, ordered 2, logged [],
        registers [(5, 5), (5, 6)], memory [(8, 1541), (9, 0)]),
    // the second sum finds the first
    run!(SUM by BYTES_BUFFERED: steps 14, alone 6, ordered 2, logged [],
        registers [(6, 0), (6, 1)], memory [(8, 3), (9, 0)]),
    // the fence and the addition wait for the pending stores
    run!(MIXED by MIXED_ENDS: steps 64, alone 8, ordered 9, logged [(1, 5, 16, 19)],
        registers [(9, 10), (9, 19)], memory [(16, 29), (80, 2560)]),
];

/// Whether the clerk kept exactly the run's logged loads.
fn has_logged(clerk: &Counter, run: &Run) -> bool {
    clerk.logs == run.logged.len() && clerk.logged.starts_with(run.logged)
}

/// Whether the machine ends with these registers and these words of its memory.
fn leaves(machine: &BufferedMachine<NoRider, NoCarry>, run: &Run) -> bool
    requires cores { length machine.now.state.cores ≡ 2 }
    requires words { machine.now.state.image.words ≡ WORDS }
{
    let [first, second] = run.registers;
    if machine.core(0).reg(first.0) != first.1 || machine.core(1).reg(second.0) != second.1 {
        return false;
    }
    for (word, value) in run.memory {
        if !machine.done() || word >= WORDS || machine.final_word(word) != value {
            return false;
        }
    }
    true
}

/// Makes the run: how many steps it takes, how many instructions without data and how many accesses the clerk was
/// told of, whether these loads were logged, and whether it leaves what it should.
fn made(alloc: Global, run: &Run) -> Result<(u32, u32, u32, bool, bool), Fail> {
    let params = Params {
        cores: 2,
        limit: 10_000,
        words: WORDS,
    };
    let mut machine = machine_of::<NoRider>(alloc, run.image, params)?;
    let mut clerk = Counter::new();
    let mut steps = 0u32;
    for number in 0..100usize {
        make_room(&mut machine)?;
        if !machine.done() && machine.has_room() {
            let _taken = machine.step(choice_at(run.choices, number), &mut clerk);
            steps = steps.saturating_add(1);
        }
    }
    let logged = has_logged(&clerk, run);
    let left = leaves(&machine, run);
    Ok((steps, clerk.alone, clerk.accesses, logged, left))
}

#[test]
fn runs_are_those_of_the_definitions(rt: HostRuntime) -> Result<(), Fail> {
    for run in &RUNS {
        let wanted = (run.steps, run.alone, run.ordered, true, true);
        assert!(rt; made(rt.alloc(), run)? == wanted);
    }
    Ok(())
}

// Each core adds its number and one to the word, which ends as the sum of these numbers from 1 on.
#[test]
fn every_core_that_there_may_be_adds_to_one_word(rt: HostRuntime) -> Result<(), Fail> {
    let params = Params {
        cores: CORES_MAX,
        limit: 10,
        words: WORDS,
    };
    let mut machine = machine_of::<NoRider>(rt.alloc(), &SUM, params)?;
    let mut clerk = Counter::new();
    for choice in 0..2_000 {
        make_room(&mut machine)?;
        if !machine.done() && machine.has_room() {
            let _taken = machine.step(choice, &mut clerk);
        }
    }
    assert!(rt; machine.done());
    assert!(rt; clerk.alone == 48);
    assert!(rt; clerk.accesses == 16);
    if machine.done() {
        assert!(rt; machine.final_word(8) == 136);
    }
    assert!(rt; machine.into_image().words() == WORDS);
    Ok(())
}
