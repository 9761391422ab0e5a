//! The choices of small runs.
ghost use Rattle.std.specs.Prelude.{◌≡◌, ◌≤◌, IfOk, length};
ghost use Rattle.run_steps.specs.Ways.{IsSetUp};

use access_times::{NoCarry, NoRider};
use end_claims::EndView;
use hunt_runs::{
    AtEnd, Counting, FlatRun, HuntedMachine, picks_numbered, run_numbered, run_of_turns,
    straight_counts,
};
use image_mem::Image;
use rtr_types::{Items, Params};
use rv_core::Program;
use std::alloc::Global;
use std::test::Fail;
use tso_core::BufferedMachine;
use turn_lists::{Actor, Turn};
use turn_policies::Numbered;

const PARAMS: Params = Params {
    cores: 2,
    limit: 10_000,
    words: 64,
};

/// lw x5,64(x0); addi x5,x5,1; sw x5,64(x0); ecall.
static LOST_UPDATE: [u8; 16] = [131, 34, 0, 4, 147, 130, 18, 0, 35, 32, 80, 4, 115, 0, 0, 0];

/// Core c stores 1 to the word at 64 + 64c and loads the other core's.
static STORE_BUFFERING: [u8; 28] = [
    19, 19, 101, 0, 147, 2, 0, 8, 179, 130, 98, 64, 147, 3, 16, 0, 35, 32, 115, 4, 3, 174, 2, 0,
    115, 0, 0, 0,
];

/// Core 0 runs to its end, and then core 1.
static CORE_BY_CORE: [u8; 20] = [0, 1, 1, 0, 0, 1, 1, 0, 0, 0, 0, 0, 0, 0, 0, 0, 0, 0, 0, 0];

/// Core 1 makes one access first.
static ONE_FIRST: [u8; 20] = [1, 1, 1, 1, 0, 1, 1, 0, 0, 1, 1, 1, 1, 0, 0, 0, 0, 0, 0, 0];

/// Core 1 stores before core 0 loads.
static STORE_FIRST: [u8; 20] = [1, 1, 1, 1, 1, 1, 1, 1, 0, 0, 0, 0, 0, 0, 0, 0, 0, 0, 0, 0];

/// Each buffer makes its store after both loads.
static BUFFERED: [u8; 30] = [
    0, 0, 0, 0, 0, 1, 1, 1, 1, 1, 0, 2, 2, 0, 0, 1, 1, 0, 0, 1, 1, 1, 1, 0, 0, 0, 0, 0, 0, 0,
];

/// Core 0's buffer makes its store before core 1 loads.
static BUFFER_FIRST: [u8; 30] = [
    0, 0, 0, 0, 0, 1, 1, 1, 1, 1, 0, 2, 2, 0, 1, 2, 2, 1, 0, 0, 0, 0, 0, 0, 0, 0, 0, 0, 0, 0,
];

/// By ranks, with points for bugs of depth 3, number 5.
static BUFFERED_BY_RANKS: [u8; 30] = [
    0, 0, 0, 0, 0, 1, 1, 1, 1, 1, 1, 2, 2, 1, 0, 1, 1, 0, 0, 1, 1, 1, 1, 0, 0, 0, 0, 0, 0, 0,
];

/// A program of these bytes over 64 words.
fn program_of(alloc: Global, bytes: &[u8]) -> Result<Program, Fail>
    ensures { IfOk result (λ program. program.words ≡ 64) }
{
    let image = Image::flat(bytes.to_vec(alloc)?, 64)?;
    Ok(Program::new(alloc, image)?)
}

/// The choices of the run of these turns.
fn choices_by_turns<M: HuntedMachine>(
    alloc: Global,
    bytes: &[u8],
    turns: &[Turn],
) -> Result<Items<u8>, Fail> {
    let machine = M::start(alloc, program_of(alloc, bytes)?, PARAMS)?;
    let turns = Items::from_vec(turns.to_vec(alloc)?);
    let ended = run_of_turns(alloc, machine, PARAMS, turns)?;
    Ok(ended.into_choices())
}

/// The choices of the run of this number.
fn choices_numbered<M: HuntedMachine>(
    alloc: Global,
    bytes: &[u8],
    numbered: Numbered,
) -> Result<Items<u8>, Fail> {
    let machine = M::start(alloc, program_of(alloc, bytes)?, PARAMS)?;
    let Counting { counted, machine } = straight_counts(alloc, machine, PARAMS)?;
    let ended = run_numbered(alloc, machine, PARAMS, &counted, numbered)?;
    Ok(ended.into_choices())
}

/// The first `room` actors that the run of this number picks.
fn picks_of<M: HuntedMachine>(
    alloc: Global,
    bytes: &[u8],
    numbered: Numbered,
    room: usize,
) -> Result<Items<Actor>, Fail> {
    let machine = M::start(alloc, program_of(alloc, bytes)?, PARAMS)?;
    let Counting { counted, machine } = straight_counts(alloc, machine, PARAMS)?;
    let picks = picks_numbered(alloc, machine, PARAMS, &counted, numbered, room)?;
    Ok(picks)
}

/// The word at 0x40 where the run of these turns ended.
fn counter_by_turns<M: HuntedMachine>(
    alloc: Global,
    bytes: &[u8],
    turns: &[Turn],
) -> Result<u32, Fail> {
    let machine = M::start(alloc, program_of(alloc, bytes)?, PARAMS)?;
    let turns = Items::from_vec(turns.to_vec(alloc)?);
    let ended = run_of_turns(alloc, machine, PARAMS, turns)?;
    let machine = ended.into_machine();
    let end = AtEnd {
        machine: &machine,
        cores: PARAMS.cores,
    };
    Ok(end.final_word(16))
}

/// So many accesses of a core.
fn of_core(core: u8, count: u32) -> Turn {
    Turn {
        actor: Actor::Core(core),
        count,
    }
}

#[test]
fn turns_give_their_choices(rt: HostRuntime) -> Result<(), Fail> {
    type M = FlatRun;
    let alloc = rt.alloc();
    let straight = choices_by_turns::<M>(alloc, &LOST_UPDATE, &[])?;
    assert!(rt; straight.as_slice() == CORE_BY_CORE.as_slice());
    let one = choices_by_turns::<M>(alloc, &LOST_UPDATE, &[of_core(1, 1)])?;
    assert!(rt; one.as_slice() == ONE_FIRST.as_slice());
    let two = choices_by_turns::<M>(alloc, &LOST_UPDATE, &[of_core(1, 2), of_core(0, 1)])?;
    assert!(rt; two.as_slice() == STORE_FIRST.as_slice());
    Ok(())
}

#[test]
fn an_end_is_asked(rt: HostRuntime) -> Result<(), Fail> {
    type M = FlatRun;
    let alloc = rt.alloc();
    assert_eq!(rt; counter_by_turns::<M>(alloc, &LOST_UPDATE, &[])?, 2);
    assert_eq!(rt;
        counter_by_turns::<M>(alloc, &LOST_UPDATE, &[of_core(0, 1)])?,
        1
    );
    Ok(())
}

#[test]
fn numbers_give_their_choices(rt: HostRuntime) -> Result<(), Fail> {
    type M = FlatRun;
    let alloc = rt.alloc();
    let walk = choices_numbered::<M>(alloc, &LOST_UPDATE, Numbered::Walk(2))?;
    assert!(rt; walk.as_slice() == ONE_FIRST.as_slice());
    let ranked = choices_numbered::<M>(alloc, &LOST_UPDATE, Numbered::Ranked(3, 0))?;
    assert!(rt; ranked.as_slice() == STORE_FIRST.as_slice());
    let few = choices_numbered::<M>(alloc, &LOST_UPDATE, Numbered::Few(0))?;
    assert!(rt; few.as_slice() == CORE_BY_CORE.as_slice());
    let seed = choices_numbered::<M>(alloc, &LOST_UPDATE, Numbered::Seed(17))?;
    assert!(rt; seed.as_slice().is_empty());
    Ok(())
}

#[test]
fn picks_are_noted(rt: HostRuntime) -> Result<(), Fail> {
    type M = BufferedMachine<NoRider, NoCarry>;
    let alloc = rt.alloc();
    let all = [
        Actor::Core(1),
        Actor::Core(0),
        Actor::Buffer(0),
        Actor::Buffer(1),
    ];
    let ranked = picks_of::<M>(alloc, &STORE_BUFFERING, Numbered::Ranked(3, 5), 30)?;
    assert!(rt; ranked.as_slice() == all.as_slice());
    let first = picks_of::<M>(alloc, &STORE_BUFFERING, Numbered::Ranked(3, 5), 2)?;
    assert!(rt; first.as_slice() == &all[..2]);
    let seed = picks_of::<M>(alloc, &STORE_BUFFERING, Numbered::Seed(5), 30)?;
    assert!(rt; seed.as_slice().is_empty());
    Ok(())
}

#[test]
fn buffers_are_actors(rt: HostRuntime) -> Result<(), Fail> {
    type M = BufferedMachine<NoRider, NoCarry>;
    let alloc = rt.alloc();
    let straight = choices_by_turns::<M>(alloc, &STORE_BUFFERING, &[])?;
    assert!(rt; straight.as_slice() == BUFFERED.as_slice());
    let store = Turn {
        actor: Actor::Buffer(0),
        count: 1,
    };
    let first = choices_by_turns::<M>(alloc, &STORE_BUFFERING, &[of_core(0, 1), store])?;
    assert!(rt; first.as_slice() == BUFFER_FIRST.as_slice());
    let ranked = choices_numbered::<M>(alloc, &STORE_BUFFERING, Numbered::Ranked(3, 5))?;
    assert!(rt; ranked.as_slice() == BUFFERED_BY_RANKS.as_slice());
    Ok(())
}
