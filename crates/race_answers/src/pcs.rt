//! Where each core stands before each of its instructions.
ghost use Rattle.std.specs.Prelude.{◌≡◌, IfOk, OnOk};
ghost use Rattle.roomy_lists.specs.Lists.{items_in};
ghost use Rattle.race_answers.specs.Pcs.{ArePcs, IsNoting, pc_in};

use cut_moves::Timeline;
use replay_audit::Audited;
use replay_core::{Advanced, Replay};
use roomy_lists::RoomyLists;
use rtr_types::{Access, Instr};
use std::alloc::{AllocError, Global};

/// What is known of a run's instructions, by which each is told.
#[derive(Drop)]
pub(crate) struct Known<'a> {
    /// The pc of each: for each core a list.
    pub pcs: RoomyLists<u32>,
    /// The accesses that they make.
    pub accesses: &'a [Access],
}

/// What is known of the instructions of the recording.
pub(crate) fn known_of(alloc: Global, audited: &Audited) -> Result<Known, AllocError>
    ensures pcs { IfOk result (λ known. ArePcs audited.now.which audited.now.recording (items_in known.pcs)) }
    ensures accesses { IfOk result (λ known. known.accesses.now ≡ audited.now.accesses) }
{
    let pcs = pcs_of(alloc, audited)?;
    Ok(Known {
        pcs,
        accesses: audited.accesses(),
    })
}

/// The pc of each instruction of the recording: for each core a list. They are noted along one replay of the run.
fn pcs_of(alloc: Global, audited: &Audited) -> Result<RoomyLists<u32>, AllocError>
    ensures { IfOk result (λ pcs. ArePcs audited.now.which audited.now.recording (items_in pcs)) }
{
    // The audit passed, so the timeline is a whole replay order.
    let _ = audited.outcome();
    let places = Timeline::by_rounds(alloc, audited)?;
    let mut replay = Replay::new(alloc, audited.recording(), audited.which())?;
    let mut pcs = RoomyLists::new(alloc, audited.recording().params.cores as usize)?;
    note(audited, &mut replay, &mut pcs, places.as_slice())?;
    Ok(pcs)
}

/// The replay takes the places that are left, and where the core of each stands is noted.
fn note(
    audited: &Audited,
    replay: &mut Replay,
    pcs: &mut RoomyLists<u32>,
    places: &[u8],
) -> Result<(), AllocError>
    requires { IsNoting audited.now.which audited.now.recording replay.old places.now (items_in pcs.old) }
    ensures { OnOk result (ArePcs audited.now.which audited.now.recording (items_in pcs.new)) }
{
    // The audit passed, so each order plays.
    let _ = audited.outcome();
    for core in places {
        replay.make_room()?;
        pcs.make_room()?;
        pcs.push(*core as usize, replay.core(*core).pc());
        let Advanced::Retired { .. } = replay.advance(*core) else {
            unreachable!()
        };
    }
    Ok(())
}

/// The pc of an instruction, by the lists of them; 0 where they have none.
pub(crate) fn pc_in(pcs: &RoomyLists<u32>, at: Instr) -> u32
    ensures { result ≡ pc_in (items_in pcs.now) at }
{
    let core = at.core as usize;
    if core >= pcs.count() {
        return 0;
    }
    match pcs.list(core).get(at.count.saturating_sub(1) as usize) {
        Some(pc) => *pc,
        None => 0,
    }
}
