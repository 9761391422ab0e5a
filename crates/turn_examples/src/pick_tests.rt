//! Who is picked by each policy.
use rtr_types::CoreSet;
use std::alloc::Global;
use std::test::Fail;
use turn_lists::{Actor, Turn, joined, spelled_turns, turns_of};
use turn_policies::{ActorSet, ByTurns, Policy, Ranks, Straight, Walk};

/// Three cores and their buffers.
const ALL: ActorSet = ActorSet {
    cores: CoreSet { bits: 7 },
    buffers: CoreSet { bits: 7 },
};

/// Core 1, and the buffers of the others.
const SOME: ActorSet = ActorSet {
    cores: CoreSet { bits: 2 },
    buffers: CoreSet { bits: 5 },
};

static ACTORS: [Actor; 6] = [
    Actor::Core(0),
    Actor::Core(1),
    Actor::Core(2),
    Actor::Buffer(0),
    Actor::Buffer(1),
    Actor::Buffer(2),
];

/// Who is picked in so many steps from one set and the other by turns, joined; after the step `round` the actor goes
/// round.
fn played<P: Policy>(
    alloc: Global,
    policy: &mut P,
    sets: [ActorSet; 2],
    steps: usize,
    round: usize,
) -> Result<String, Fail> {
    let mut acts = Vec::new(alloc);
    for step in 0..steps {
        let set = sets[step % 2];
        if !set.is_nobody() {
            let actor = policy.pick(set);
            acts.push(Turn { actor, count: 1 })?;
            policy.told(actor, step == round);
        }
    }
    let turns = joined(alloc, acts.as_slice())?;
    Ok(spelled_turns(alloc, turns.as_slice())?)
}

/// Eight steps by ranks over all six actors, whose straight run has 6 picks.
fn ranked(
    alloc: Global,
    depth: u8,
    number: u64,
    sets: [ActorSet; 2],
    round: usize,
) -> Result<String, Fail> {
    let mut policy = Ranks::new(alloc, &ACTORS, 6, depth, number)?;
    played(alloc, &mut policy, sets, 8, round)
}

/// Nine steps by the turns of a text.
fn by_turns(alloc: Global, text: &str) -> Result<String, Fail> {
    match turns_of(alloc, text)? {
        Some(turns) => {
            let mut policy = ByTurns::new(turns);
            played(alloc, &mut policy, [ALL, SOME], 9, 9)
        }
        None => Ok(String::from_str(alloc, "no turns")?),
    }
}

#[test]
fn ranks_pick(rt: HostRuntime) -> Result<(), Fail> {
    assert!(rt; ranked(rt.alloc(), 3, 5, [ALL, ALL], 4)?.as_str() == "w1*2,0*3,w2*3");
    assert!(rt; ranked(rt.alloc(), 4, 7, [ALL, ALL], 4)?.as_str() == "w0*2,0*3,1*3");
    assert!(rt; ranked(rt.alloc(), 1, 2, [ALL, ALL], 4)?.as_str() == "w2*5,0*3");
    Ok(())
}

#[test]
fn ranks_pick_at_points(rt: HostRuntime) -> Result<(), Fail> {
    assert!(rt; ranked(rt.alloc(), 3, 0, [ALL, ALL], 4)?.as_str() == "w0*3,1*2,0*3");
    assert!(rt; ranked(rt.alloc(), 9, 11, [ALL, ALL], 4)?.as_str() == "w1*2,w0*1,w2*1,0*1,2*3");
    assert!(rt; ranked(rt.alloc(), 3, 5, [ALL, SOME], 2)?.as_str() == "w1*1,w2*1,0*1,w2*5");
    Ok(())
}

#[test]
fn walks_pick(rt: HostRuntime) -> Result<(), Fail> {
    let one = played(rt.alloc(), &mut Walk::new(42), [ALL, SOME], 8, 8)?;
    assert!(rt; one.as_str() == "w0*1,w2*1,2*1,1*1,w1*1,1*2,w2*1");
    let other = played(rt.alloc(), &mut Walk::new(0), [ALL, SOME], 8, 8)?;
    assert!(rt; other.as_str() == "0*1,w0*1,0*1,1*3,w2*1,1*1");
    Ok(())
}

#[test]
fn turns_pick(rt: HostRuntime) -> Result<(), Fail> {
    assert!(rt; by_turns(rt.alloc(), "1*2,w0*3,0*2")?.as_str() == "1*2,w0*3,1*4");
    assert!(rt; by_turns(rt.alloc(), "-")?.as_str() == "0*1,1*8");
    assert!(rt; by_turns(rt.alloc(), "0*1")?.as_str() == "0*1,1*8");
    assert!(rt; by_turns(rt.alloc(), "2*1,0*2")?.as_str() == "2*1,1*8");
    Ok(())
}

#[test]
fn straight_goes_on(rt: HostRuntime) -> Result<(), Fail> {
    let text = played(rt.alloc(), &mut Straight::new(), [ALL, SOME], 8, 8)?;
    assert!(rt; text.as_str() == "0*1,1*7");
    Ok(())
}
