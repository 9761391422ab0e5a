//! Cores that write one word, over any choices.
ghost use Rattle.std.specs.Prelude.{◌≡◌, IfOk, length};
ghost use Rattle.rtr_types.specs.Parameters.{Fits};

use access_times::{NoCarry, NoRider};
use image_mem::Image;
use machine_ports::SteppedMachine;
use msi_machine::{Machine, Move};
use rtr_types::{CORES_MAX, Instr, Params};
use std::alloc::Global;
use std::test::Fail;
use test_clerks::Counter;

/// A machine with the program over so many words, at its start: so many cores of at most ten instructions.
fn machine_of(
    alloc: Global,
    program: &[u8],
    cores: u8,
    words: u32,
) -> Result<Machine<NoRider, NoCarry>, Fail>
    requires { Fits (record { cores = cores; limit = 10; words = words }) }
    ensures words { IfOk result (λ machine. machine.state.image.words ≡ words) }
    ensures cores { IfOk result (λ machine. length machine.state.cores ≡ cores) }
{
    let image = Image::flat(program.to_vec(alloc)?, words)?;
    let params = Params {
        cores,
        limit: 10,
        words,
    };
    Ok(Machine::new(alloc, image, params)?)
}

/// addi x5,x10,5; sw x5,32(x0); ecall
const STORES: [u8; 12] = [
    0x93, 0x02, 0x55, 0x00, 0x23, 0x20, 0x50, 0x02, 0x73, 0x00, 0x00, 0x00,
];

/// addi x5,x10,5; sb x5,32(x10); ecall
const BYTE_STORES: [u8; 12] = [
    0x93, 0x02, 0x55, 0x00, 0x23, 0x00, 0x55, 0x02, 0x73, 0x00, 0x00, 0x00,
];

/// addi x7,x0,32; addi x5,x10,1; amoadd.w x6,x5,(x7); ecall
const SUM: [u8; 16] = [
    0x93, 0x03, 0x00, 0x02, 0x93, 0x02, 0x15, 0x00, 0x2f, 0xa3, 0x53, 0x00, 0x73, 0x00, 0x00, 0x00,
];

/// A run of two cores over an image: its choices, how many steps it takes, how many instructions retire in
/// it, half of them each core's, and what the word at address 32 is at its end.
struct Run {
    image: &'static [u8],
    choices: [u32; 14],
    steps: u32,
    retired: u32,
    word: u32,
}

/// Of the stores to one word, the fifth choice decides whose is the last; those of bytes leave both, and so
/// do sums.
static RUNS: [Run; 4] = [
    Run {
        image: &STORES,
        choices: [0, 0, 0, 0, 0, 0, 0, 0, 0, 0, 0, 0, 0, 0],
        steps: 12,
        retired: 6,
        word: 6,
    },
    Run {
        image: &STORES,
        choices: [0, 0, 0, 0, 1, 0, 0, 0, 0, 0, 0, 0, 0, 0],
        steps: 12,
        retired: 6,
        word: 5,
    },
    Run {
        image: &BYTE_STORES,
        choices: [0, 0, 0, 0, 0, 0, 0, 0, 0, 0, 0, 0, 0, 0],
        steps: 12,
        retired: 6,
        word: 0x605,
    },
    Run {
        image: &SUM,
        choices: [0, 0, 0, 0, 0, 0, 0, 0, 0, 0, 0, 0, 0, 0],
        steps: 14,
        retired: 8,
        word: 3,
    },
];

/// Runs both cores to their ends, or through all the choices: how many steps were made, how many
/// retirements there were, and the word.
fn written(alloc: Global, run: &Run) -> Result<(u32, u32, u32), Fail> {
    let mut machine = machine_of(alloc, run.image, 2, 16)?;
    let mut clerk = Counter::new();
    let mut steps = 0u32;
    for choice in &run.choices {
        machine.make_room()?;
        if !machine.done() && machine.has_room() {
            let _ = machine.step(*choice, &mut clerk);
            steps = steps.saturating_add(1);
        }
    }
    if !machine.done() || machine.core(1).count() != run.retired / 2 {
        return Ok((steps, clerk.told(), 0));
    }
    Ok((steps, clerk.told(), machine.final_word(8)))
}

// Each core retires all but one instruction by itself and one with its data, after a request was sent and
// taken. The second to be served also waits for the first to be asked for the block and to answer.
#[test]
fn two_writes_take_their_steps_and_a_choice_decides_which_is_last(
    rt: HostRuntime,
) -> Result<(), Fail> {
    for run in &RUNS {
        let wanted = (run.steps, run.retired, run.word);
        assert!(rt; written(rt.alloc(), run)? == wanted);
    }
    Ok(())
}

// Each core adds its number and one to the word, which ends as the sum of these numbers from 1 on.
#[test]
fn every_core_that_there_may_be_adds_to_one_word(rt: HostRuntime) -> Result<(), Fail> {
    let mut machine = machine_of(rt.alloc(), &SUM, CORES_MAX, 16)?;
    let mut clerk = Counter::new();
    for choice in 0..1_000 {
        machine.make_room()?;
        if !machine.done() && machine.has_room() {
            let _ = machine.step(choice, &mut clerk);
        }
    }
    assert!(rt; machine.done());
    let cores = CORES_MAX as u32;
    assert!(rt; clerk.told() == 4 * cores);
    assert!(rt; machine.final_words(2) == [cores * (cores + 1) / 2, 0, 0, 0]);
    Ok(())
}

/// lui x5,0x100; sw x5,-4(x5); ecall: a store to the last word of the largest memory.
const LAST_WORD: [u8; 12] = [
    0xb7, 0x02, 0x10, 0x00, 0x23, 0xae, 0x52, 0xfe, 0x73, 0x00, 0x00, 0x00,
];

#[test]
fn one_store_touches_one_block_of_the_largest_memory(rt: HostRuntime) -> Result<(), Fail> {
    let mut machine = machine_of(rt.alloc(), &LAST_WORD, 1, 262_144)?;
    let mut clerk = Counter::new();
    assert!(rt; machine.touched() == 0);
    for _step in 0..5 {
        machine.make_room()?;
        assert!(rt; !machine.done() && machine.has_room());
        let _ = machine.step(0, &mut clerk);
    }
    assert!(rt; (machine.done(), clerk.told()) == (true, 3));
    assert!(rt; machine.touched() == 1);
    Ok(())
}

// Of two moves the fourth choice takes the second.
#[test]
fn the_first_step_is_the_chosen_cores(rt: HostRuntime) -> Result<(), Fail> {
    // ecall
    let mut machine = machine_of(rt.alloc(), &[0x73, 0, 0, 0], 2, 4)?;
    let mut clerk = Counter::new();
    machine.make_room()?;
    assert!(rt; !machine.done() && machine.has_room());
    let stepped = machine.step(3, &mut clerk);
    let at = Instr { core: 1, count: 1 };
    assert!(rt; (stepped.taken, stepped.retired) == (Move::Core(1), Some(at)));
    assert!(rt; clerk.told() == 1);
    Ok(())
}
