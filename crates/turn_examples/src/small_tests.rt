//! Turns made small.
use rtr_types::Items;
use run_ranges::Asked;
use small_turns::{Act, Tries, by_conflicts, small, small_of_run, turns_made};
use std::alloc::{AllocError, Global};
use std::test::Fail;
use turn_lists::{Actor, Turn, joined, spelled_turns, turns_of};

/// A claim that runs by so many turns or more break.
#[derive(Drop)]
struct ManyTurns {
    least: usize,
}

impl Tries for ManyTurns {
    ghost use Rattle.std.specs.Prelude.{length, nat_le};

    type Bench = u8;

    ghost serves = { λ s b. Unit {0} };

    ghost breaks = { λ s ts. nat_le s.least (length ts) };

    fn ask(&self, bench: u8, turns: &[Turn]) -> Result<Asked<u8>, AllocError> {
        let breaks = self.least <= turns.len();
        Ok(Asked { breaks, bench })
    }
}

/// The text of the turns, and another word where there are none.
fn told(alloc: Global, found: Option<Items<Turn>>) -> Result<String, Fail> {
    match found {
        Some(turns) => Ok(spelled_turns(alloc, turns.as_slice())?),
        None => Ok(String::from_str(alloc, "none")?),
    }
}

/// The turns of a text made small, where runs by so many turns break the claim.
fn made_small(alloc: Global, least: usize, text: &str) -> Result<String, Fail> {
    let turns = match turns_of(alloc, text)? {
        Some(turns) => turns,
        None => Items::new(alloc),
    };
    let found = small(alloc, &ManyTurns { least }, 0, turns.as_slice())?;
    told(alloc, found)
}

#[test]
fn turns_are_made_small(rt: HostRuntime) -> Result<(), Fail> {
    assert!(rt; made_small(rt.alloc(), 2, "0*4,1*6,0*3")?.as_str() == "0*1,1*1");
    assert!(rt; made_small(rt.alloc(), 3, "0*2,1*3,0*5,w0*2,1*9")?.as_str() == "0*1,1*1,0*1");
    assert!(rt; made_small(rt.alloc(), 0, "0*2,1*3")?.as_str() == "-");
    assert!(rt; made_small(rt.alloc(), 4, "0*2,1*3,0*1")?.as_str() == "none");
    Ok(())
}

/// Three accesses of each of two cores, who read a word, write it and read another.
static ACTS: [Act; 6] = [
    Act {
        actor: Actor::Core(0),
        word: 1,
        writes: false,
    },
    Act {
        actor: Actor::Core(1),
        word: 1,
        writes: false,
    },
    Act {
        actor: Actor::Core(0),
        word: 1,
        writes: true,
    },
    Act {
        actor: Actor::Core(1),
        word: 1,
        writes: true,
    },
    Act {
        actor: Actor::Core(0),
        word: 2,
        writes: false,
    },
    Act {
        actor: Actor::Core(1),
        word: 2,
        writes: false,
    },
];

/// Stores by buffers, which the other core sees.
static STORED: [Act; 6] = [
    Act {
        actor: Actor::Buffer(0),
        word: 1,
        writes: true,
    },
    Act {
        actor: Actor::Core(1),
        word: 1,
        writes: false,
    },
    Act {
        actor: Actor::Core(0),
        word: 2,
        writes: false,
    },
    Act {
        actor: Actor::Buffer(1),
        word: 2,
        writes: true,
    },
    Act {
        actor: Actor::Core(1),
        word: 3,
        writes: false,
    },
    Act {
        actor: Actor::Buffer(0),
        word: 3,
        writes: true,
    },
];

/// The turns of the acts by the order of conflicts.
fn by_order(alloc: Global, acts: &[Act]) -> Result<String, Fail> {
    let order = by_conflicts(alloc, acts)?;
    let turns = joined(alloc, order.as_slice())?;
    Ok(spelled_turns(alloc, turns.as_slice())?)
}

#[test]
fn conflicts_keep_their_order(rt: HostRuntime) -> Result<(), Fail> {
    assert!(rt; by_order(rt.alloc(), &ACTS)?.as_str() == "1*1,0*3,1*2");
    assert!(rt; by_order(rt.alloc(), &STORED)?.as_str() == "0*1,w1*1,w0*1,1*2,w0*1");
    Ok(())
}

#[test]
fn acts_make_turns(rt: HostRuntime) -> Result<(), Fail> {
    let turns = turns_made(rt.alloc(), &ACTS)?;
    let text = spelled_turns(rt.alloc(), turns.as_slice())?;
    assert!(rt; text.as_str() == "0*1,1*1,0*1,1*1,0*1,1*1");
    Ok(())
}

/// The acts made small, where runs by so many turns break the claim.
fn run_made_small(alloc: Global, least: usize) -> Result<String, Fail> {
    let found = small_of_run(alloc, &ManyTurns { least }, 0, &ACTS)?;
    told(alloc, found)
}

#[test]
fn runs_are_made_small(rt: HostRuntime) -> Result<(), Fail> {
    assert!(rt; run_made_small(rt.alloc(), 2)?.as_str() == "1*1,0*1");
    assert!(rt; run_made_small(rt.alloc(), 5)?.as_str() == "0*1,1*1,0*1,1*1,0*1");
    assert!(rt; run_made_small(rt.alloc(), 7)?.as_str() == "none");
    Ok(())
}
