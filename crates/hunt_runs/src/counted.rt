//! The straight policy, counting.
ghost use Rattle.std.specs.Prelude.{◌≡◌, ◌++◌, IfOk, OnOk, map};
ghost use Rattle.hunt_runs.specs.Counted.{buffer_actors, core_actors, counted_policy, picked_once, uncounted};
ghost use Rattle.hunt_runs.specs.Counted.{unpicked, with_pick};

use run_steps::Made;
use std::alloc::Global;
use std::marker::Model;
use turn_lists::{Actor, Turn};
use turn_policies::{ActorSet, Policy, Straight};

/// The straight policy, and how often it picked each actor.
#[derive(Drop)]
pub(crate) struct StraightCounts {
    pub straight: Straight,
    pub picks: Vec<Turn>,
    pub all: u32,
}

impl Model for StraightCounts {
    ghost use Rattle.hunt_runs.specs.Counted.{Counts};

    ghost Value = { Counts };

    ghost view = { λ s. record {
      straight = s.straight;
      picks = record { each = s.picks.items; all = s.all };
    } };
}

impl StraightCounts {
    /// Nobody was picked yet of the actors of a machine of so many cores, with buffers or without. The only refusal is
    /// want of memory.
    pub fn new(alloc: Global, buffers: bool, cores: u8) -> Made<StraightCounts>
        ensures { IfOk result (λ counts. counts ≡ uncounted buffers cores) }
    {
        let mut picks = Vec::with_capacity(alloc, 2 * cores as usize)?;
        put_cores(&mut picks, cores)?;
        if buffers {
            put_buffers(&mut picks, cores)?;
        }
        Ok(StraightCounts {
            straight: Straight::new(),
            picks,
            all: 0,
        })
    }
}

impl Policy for StraightCounts {
    ghost policy = { counted_policy };

    fn pick(&mut self, actors: ActorSet) -> Actor {
        let actor = self.straight.pick(actors);
        count_pick(self.picks.as_mut_slice(), actor);
        self.all = self.all.saturating_add(1);
        actor
    }

    fn told(&mut self, _actor: Actor, _goes_round: bool) {}
}

/// The actor was picked once more.
fn count_pick(picks: &mut [Turn], actor: Actor)
    ensures { picks.new ≡ with_pick actor picks.old }
{
    for place in 0..picks.len() {
        picks[place] = picked_once(actor, picks[place]);
    }
}

/// A count of picks with one more, where it is this actor's.
fn picked_once(actor: Actor, turn: Turn) -> Turn
    ensures { result ≡ picked_once actor turn }
{
    if turn.actor.is(actor) {
        Turn {
            actor: turn.actor,
            count: turn.count.saturating_add(1),
        }
    } else {
        turn
    }
}

/// Puts so many cores at the end, none of which was picked yet. The only refusal is want of memory.
fn put_cores(picks: &mut Vec<Turn>, cores: u8) -> Made<()>
    ensures { OnOk result (picks.new.items ≡ picks.old.items ++ map unpicked (core_actors cores)) }
{
    for core in 0..cores {
        picks.push(Turn {
            actor: Actor::Core(core),
            count: 0,
        })?;
    }
    Ok(())
}

/// Puts the buffers of so many cores at the end, none of which was picked yet. The only refusal is want of memory.
fn put_buffers(picks: &mut Vec<Turn>, cores: u8) -> Made<()>
    ensures { OnOk result (picks.new.items ≡ picks.old.items ++ map unpicked (buffer_actors cores)) }
{
    for core in 0..cores {
        picks.push(Turn {
            actor: Actor::Buffer(core),
            count: 0,
        })?;
    }
    Ok(())
}
