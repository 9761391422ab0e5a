//! What is kept of the accesses along an order: the clocks by the log, the last accesses of each word, and
//! the first two accesses that the log leaves unordered.
ghost use Rattle.std.specs.Prelude.{◌≡◌, ◌<◌, ◌≤◌, ◌∷◌, ◌++◌, IfOk, IsTrue, OnOk, [], replicate, None as NoneFound};
ghost use Rattle.rtr_types.specs.declared.TheConstants.{CORES_MAX};
ghost use Rattle.rtr_types.specs.declared.access.Access.{Access as SomeAccess};
ghost use Rattle.conflict_edge.specs.Conflicts.{StandsIn};
ghost use Rattle.replay_core.specs.Sources.{sources_in};
ghost use Rattle.replay_audit.specs.Clocks.{CanNote};
ghost use Rattle.replay_audit.specs.Marks.{IsMarked};
ghost use Rattle.replay_audit.specs.Trails.{CanWatch, FoundNext, IsFirstOpen, NotesNext, Watches};
ghost use Rattle.replay_audit.specs.Trails.{watch_keeps_accepting};

use crate::clock_of::ClockOf;
use crate::log_clocks::LogClocks;
use crate::marks::Marks;
use crate::unordered::{Unordered, latest_open};
use clock_core::Clock;
use replay_core::{Sourced, Watch};
use rtr_types::{Access, CORES_MAX, Items};
use std::alloc::{AllocError, Global};
use std::marker::Model;

/// How many accesses there is room for beforehand, at most: totals may say anything.
const ROOM: usize = 1 << 16;

/// What is kept of the instructions and accesses so far. Where the accesses aren't listed, two that are
/// unordered are noticed, but not named.
pub struct Trail {
    listed: bool,
    clocks: LogClocks,
    marks: Marks,
    accesses: Items<Access>,
    found: Option<Unordered>,
}

impl Drop for Trail {
    fn drop(self) {
        let Trail {
            listed: _listed,
            clocks: _clocks,
            marks: _marks,
            accesses: _accesses,
            found: _found,
        } = self;
    }
}

impl Model for Trail {
    ghost use Rattle.replay_audit.specs.Trails.{Trailed};

    ghost Value = { Trailed };

    ghost view = { λ a. record {
      listed = a.listed;
      kept = a.clocks;
      marks = a.marks;
      accesses = a.accesses;
      found = a.found;
    } };
}

impl Trail {
    /// No instruction yet. Where accesses are listed, there is room for as many as the cores' totals say.
    pub fn new(
        alloc: Global,
        cores: u8,
        words: u32,
        totals: &[u32],
        listed: bool,
    ) -> Result<Trail, AllocError>
        ensures listed { IfOk result (λ trail. trail.listed ≡ listed) }
        ensures clocks { IfOk result (λ trail. trail.kept.clocks ≡ replicate cores []) }
        ensures accesses { IfOk result (λ trail. trail.accesses ≡ []) }
        ensures found { IfOk result (λ trail. trail.found ≡ NoneFound) }
    {
        let room = if listed { room_for(totals) } else { 0 };
        Ok(Trail {
            listed,
            clocks: LogClocks::new(alloc, cores, totals)?,
            marks: Marks::new(alloc, words)?,
            accesses: Items::from_vec(Vec::with_capacity(alloc, room)?),
            found: None,
        })
    }

    /// No access yet, with the clocks of instructions that were noted before, and room for accesses as above:
    /// they are listed.
    pub fn along(
        alloc: Global,
        words: u32,
        totals: &[u32],
        clocks: LogClocks,
    ) -> Result<Trail, AllocError>
        ensures listed { IfOk result (λ trail. IsTrue trail.listed) }
        ensures kept { IfOk result (λ trail. trail.kept ≡ clocks) }
        ensures accesses { IfOk result (λ trail. trail.accesses ≡ []) }
        ensures found { IfOk result (λ trail. trail.found ≡ NoneFound) }
    {
        Ok(Trail {
            listed: true,
            clocks,
            marks: Marks::new(alloc, words)?,
            accesses: Items::from_vec(Vec::with_capacity(alloc, room_for(totals))?),
            found: None,
        })
    }

    /// Notes the next instruction of its core, of so many cores.
    #[inline(always)]
    pub fn note(&mut self, next: &Sourced, cores: u8) -> Result<(), AllocError>
        requires next { CanNote self.old.kept next.now.at }
        requires few { cores ≤ CORES_MAX }
        ensures { OnOk result (NotesNext self.old next.now.at (sources_in next.now.sources.now) cores self.new) }
    {
        self.clocks.note(next, cores)
    }

    /// The first two accesses that the log leaves unordered, if there are some.
    pub fn unordered(&self) -> Option<Unordered>
        ensures { result ≡ self.now.found }
    {
        self.found
    }

    /// The accesses, and the clocks of the instructions.
    pub fn into_parts(self) -> (Items<Access>, LogClocks)
        ensures accesses { result.0 ≡ self.accesses }
        ensures clocks { result.1 ≡ self.kept }
    {
        let Trail {
            listed: _listed,
            clocks,
            marks: _marks,
            accesses,
            found: _found,
        } = self;
        (accesses, clocks)
    }

    /// Looks at an access, whose instruction was noted, and keeps it. How many clocks are kept of its core up
    /// to it is looked for from a guess on, which becomes what was found.
    #[inline(always)]
    pub fn watch(&mut self, access: Access, guess: &mut usize) -> Result<(), AllocError>
        requires core { access.at.core < CORES_MAX }
        requires each { IsTrue self.old.listed → (b : SomeAccess) → StandsIn self.old.accesses b →
            b.at.core < CORES_MAX }
        ensures { OnOk result (Watches self.old access self.new) }
    {
        let number = self.clocks.number(access.at, *guess);
        *guess = number;
        let clock = self.clocks.by_number(access.at, Some(number));
        look(
            self.listed,
            &mut self.found,
            &mut self.marks,
            &mut self.accesses,
            access,
            &clock,
        )
    }
}

/// Accesses of the instruction that was noted last on its core, and of later ones, are looked at and kept.
impl Watch for Trail {
    ghost accepts = { CanWatch };

    ghost touched = { Watches };

    #[inline(always)]
    fn touch(&mut self, access: Access) -> Result<(), AllocError> {
        let clock = self.clocks.by_number(access.at, None);
        look(
            self.listed,
            &mut self.found,
            &mut self.marks,
            &mut self.accesses,
            access,
            &clock,
        )
    }

    ghost keeps_accepting = { watch_keeps_accepting };
}

/// Looks at an access, whose clock this is, and keeps it. The first two unordered accesses that were found stay.
#[inline(always)]
fn look(
    listed: bool,
    found: &mut Option<Unordered>,
    marks: &mut Marks,
    accesses: &mut Items<Access>,
    access: Access,
    clock: &ClockOf,
) -> Result<(), AllocError>
    requires core { access.at.core < CORES_MAX }
    requires each { IsTrue listed → (b : SomeAccess) → StandsIn accesses.old b → b.at.core < CORES_MAX }
    ensures found { OnOk result (FoundNext listed found.old marks.old accesses.old access clock.now found.new) }
    ensures marks { OnOk result (IsMarked marks.old access clock.now marks.new) }
    ensures accesses { OnOk result (IsTrue listed → accesses.new ≡ accesses.old ++ access ∷ []) }
{
    if !marks.note(&access, clock)? {
        match found {
            Some(_) => {}
            None => first_open(found, listed, accesses.as_slice(), access, clock.to_clock()),
        }
    }
    if listed {
        accesses.push(access)?;
    }
    Ok(())
}

/// Finds the access, which the marks leave open, with the latest of those before it that is open, if one is. Where
/// the accesses aren't listed, the access itself stands in its place. The list is gone over once along an
/// order. The access and its clock are copies: what stays in registers elsewhere has a place in memory here.
#[cold]
#[inline(never)]
fn first_open(
    found: &mut Option<Unordered>,
    listed: bool,
    accesses: &[Access],
    access: Access,
    clock: Clock,
)
    requires { IsTrue listed → (b : SomeAccess) → StandsIn accesses.now b → b.at.core < CORES_MAX }
    ensures { IsFirstOpen listed accesses.now access clock found.new }
{
    let second = access.at;
    if !listed {
        *found = Some(Unordered {
            first: second,
            second,
        });
        return;
    }
    *found = match latest_open(accesses, &access, &clock) {
        Some(first) => Some(Unordered { first, second }),
        None => None,
    };
}

/// Room for an access of each instruction, as far as it is taken beforehand.
fn room_for(totals: &[u32]) -> usize {
    let mut room: usize = 0;
    for &total in totals {
        room = room.saturating_add(total as usize);
    }
    room.min(ROOM)
}
