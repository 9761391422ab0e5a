//! Small programs whose outcomes tell one order of memory from another, over many schedules: each outcome that total
//! store order allows is seen, and no other. Word 16 is x, and word 20, of another block, is y.
ghost use Rattle.std.specs.Prelude.{◌≡◌, ◌≤◌, IfOk};

use image_mem::Image;
use rtr_types::Params;
use rv_core::Outcome;
use schedule_pick::Schedule;
use std::alloc::Global;
use std::test::Fail;
use tso_run::tso_run;

/// slli x6,x10,4; xori x7,x10,1; slli x8,x7,4; addi x9,x0,1; sw x9,64(x6); lw x11,64(x8); ecall: each of two
/// cores writes a word of its own and then reads the other's.
pub const STORE_BUFFERING: [u32; 7] = [
    0x00451313, 0x00154393, 0x00439413, 0x00100493, 0x04932023, 0x04042583, 0x00000073,
];

/// bne x10,x0,+20; addi x9,x0,1; sw x9,64(x0); sw x9,80(x0); ecall; addi x0,x0,0; addi x0,x0,0;
/// lw x11,80(x0); lw x12,64(x0); ecall: core 0 writes x and then y, core 1 reads y and then x.
const MESSAGE_PASSING: [u32; 10] = [
    0x00051a63, 0x00100493, 0x04902023, 0x04902823, 0x00000073, 0x00000013, 0x00000013, 0x05002583,
    0x04002603, 0x00000073,
];

/// The same with a FENCE between the stores, which the branch passes over too, and one between the loads.
const MESSAGE_PASSING_FENCED: [u32; 12] = [
    0x00051c63, 0x00100493, 0x04902023, 0x0ff0000f, 0x04902823, 0x00000073, 0x00000013, 0x00000013,
    0x05002583, 0x0ff0000f, 0x04002603, 0x00000073,
];

/// slli x6,x10,4; xori x7,x10,1; slli x8,x7,4; addi x9,x0,1; lw x11,64(x8); sw x9,64(x6); ecall: each of two
/// cores reads the other's word and then writes its own.
const LOAD_BUFFERING: [u32; 7] = [
    0x00451313, 0x00154393, 0x00439413, 0x00100493, 0x04042583, 0x04932023, 0x00000073,
];

/// slli x6,x10,4; srli x5,x10,1; addi x9,x0,1; bne x5,x0,+12; sw x9,64(x6); ecall; xori x7,x6,16; lw x11,32(x6); lw
/// x12,32(x7); ecall: cores 0 and 1 write x and y, core 2 reads x and then y, and core 3 reads y and then x.
const TWO_READERS: [u32; 10] = [
    0x00451313, 0x00155293, 0x00100493, 0x00029663, 0x04932023, 0x00000073, 0x01034393, 0x02032583,
    0x0203a603, 0x00000073,
];

/// FENCE, which orders what stands before it before what stands behind it.
const FENCE: u32 = 0x0ff0000f;

/// A program: its code, and the place in it, if any, before which a FENCE is put.
#[derive(Clone, Copy)]
struct Program {
    code: &'static [u32],
    fence: Option<usize>,
}

/// How many schedules of each kind each program runs under.
const SCHEDULES: u64 = 100;

/// Choices by which the four cores of the readers and writers go one after the other: 2, 1, 3, 0; then 3, 0, 2, 1; then
/// 0, 2, 1, 3; then 1, 3, 0, 2. A plain program chose them, since their outcomes are rare.
static TURNS: [[u8; 52]; 4] = [
    [
        2, 2, 2, 2, 2, 2, 3, 3, 2, 2, 3, 3, 2, 1, 1, 1, 1, 1, 1, 2, 2, 2, 2, 2, 1, 1, 1, 1, 1, 1,
        1, 1, 1, 1, 1, 1, 1, 1, 1, 0, 0, 0, 0, 0, 0, 0, 0, 0, 0, 0, 0, 0,
    ],
    [
        3, 3, 3, 3, 3, 3, 3, 3, 3, 3, 3, 3, 3, 0, 0, 0, 0, 0, 0, 2, 2, 2, 2, 2, 1, 1, 1, 1, 1, 1,
        1, 1, 1, 1, 1, 1, 1, 1, 1, 0, 0, 0, 0, 0, 0, 0, 0, 1, 0, 0, 0, 0,
    ],
    [
        0, 0, 0, 0, 0, 0, 3, 3, 3, 1, 1, 1, 1, 1, 1, 2, 2, 2, 2, 1, 1, 2, 2, 1, 0, 0, 0, 0, 0, 0,
        1, 1, 1, 1, 1, 0, 0, 0, 0, 0, 0, 0, 0, 0, 0, 0, 0, 0, 0, 0, 0, 0,
    ],
    [
        1, 1, 1, 1, 1, 1, 3, 3, 3, 2, 2, 2, 2, 2, 2, 2, 2, 2, 2, 2, 2, 2, 2, 2, 0, 0, 0, 0, 0, 0,
        1, 1, 1, 1, 1, 0, 0, 0, 0, 0, 0, 0, 0, 0, 0, 0, 0, 0, 0, 0, 0, 0,
    ],
];

/// The image of the program over 32 words.
fn image(alloc: Global, program: Program) -> Result<Image, Fail>
    ensures { IfOk result (λ image. image.words ≡ 32) }
{
    let mut bytes = Vec::new(alloc);
    for (place, word) in program.code.iter().enumerate() {
        if program.fence == Some(place) {
            bytes.extend_from_slice(&FENCE.to_le_bytes())?;
        }
        bytes.extend_from_slice(&word.to_le_bytes())?;
    }
    Ok(Image::flat(bytes, 32)?)
}

/// The generator's schedule from this state on; or, where some core is to go ahead, one that begins with up to 23 times
/// one of the choices 0 to 3.
fn schedule(alloc: Global, seed: u64, ahead: bool) -> Result<Schedule, Fail> {
    let mut bytes = Vec::new(alloc);
    if ahead {
        for _ in 0..seed / 4 % 24 {
            bytes.push((seed % 4) as u8)?;
        }
    }
    Ok(Schedule::new(bytes, seed))
}

/// The number of an outcome: a bit for each load, 1 where it got the value that was written, of core 0 and the first
/// load highest.
fn number_of(outcome: &Outcome) -> u32 {
    let mut number = 0u32;
    for loads in outcome.loads.as_slice() {
        for load in loads.as_slice() {
            number = number << 1 | load.value & 1;
        }
    }
    number
}

/// The outcome of the program under the schedule, by the bit of its number.
fn outcome(alloc: Global, program: Program, cores: u8, schedule: Schedule) -> Result<u32, Fail>
    requires some { 1 ≤ cores }
    requires few { cores ≤ 4 }
{
    let params = Params {
        cores,
        limit: 100,
        words: 32,
    };
    let ran = tso_run(alloc, image(alloc, program)?, params, schedule)?;
    let number = number_of(&ran.outcome);
    Ok(if number < 32 { 1 << number } else { 0 })
}

/// The outcomes of the program under the schedules of both kinds, each by the bit of its number.
fn outcomes(alloc: Global, program: Program, cores: u8) -> Result<u32, Fail>
    requires some { 1 ≤ cores }
    requires few { cores ≤ 4 }
{
    let mut seen = 0u32;
    for seed in 0..SCHEDULES {
        seen |= outcome(alloc, program, cores, schedule(alloc, seed, false)?)?;
        seen |= outcome(alloc, program, cores, schedule(alloc, seed, true)?)?;
    }
    Ok(seen)
}

/// A program of two cores, and the outcomes that are seen of it, a bit each.
struct Litmus {
    program: Program,
    seen: u32,
}

macro_rules! litmus {
    ($code:ident, $fence:expr => $seen:literal) => {
        Litmus { program: Program { code: &$code, fence: $fence }, seen: $seen }
    };
}

static LITMUS: [Litmus; 6] = [
    // Each core's load may pass its own store, so that both get 0; a FENCE between them forbids that.
    litmus!(STORE_BUFFERING, None => 0b1111),
    litmus!(STORE_BUFFERING, Some(5) => 0b1110),
    // Stores are ordered as their core has them, and so are loads: whoever has read the new y reads the new x.
    litmus!(MESSAGE_PASSING, None => 0b1011),
    litmus!(MESSAGE_PASSING_FENCED, None => 0b1011),
    // No store is ordered before a load of its core that comes first, so not both loads get what was written.
    litmus!(LOAD_BUFFERING, None => 0b0111),
    litmus!(LOAD_BUFFERING, Some(5) => 0b0111),
];

#[test]
fn two_cores_have_these_outcomes(rt: HostRuntime) -> Result<(), Fail> {
    for litmus in &LITMUS {
        let seen = outcomes(rt.alloc(), litmus.program, 2)?;
        assert!(rt; seen == litmus.seen);
    }
    Ok(())
}

/// The outcomes of a program of four cores, of which each takes its turn.
fn outcomes_in_turn(alloc: Global, program: Program) -> Result<u32, Fail> {
    let mut seen = 0u32;
    for choices in &TURNS {
        let schedule = Schedule::new(choices.as_slice().to_vec(alloc)?, 0);
        seen |= outcome(alloc, program, 4, schedule)?;
    }
    Ok(seen)
}

// All cores see the stores in one order: never one reader x without y and the other y without x, with a FENCE between
// the loads or without.
#[test]
fn two_readers_of_two_writers(rt: HostRuntime) -> Result<(), Fail> {
    for fence in [None, Some(8)] {
        let code = &TWO_READERS;
        let program = Program { code, fence };
        let seen = outcomes(rt.alloc(), program, 4)? | outcomes_in_turn(rt.alloc(), program)?;
        assert!(rt; seen == 0xfbff, "{fence:?}");
    }
    Ok(())
}
