//! A core with its pending accesses.
ghost use Rattle.std.specs.Prelude.{◌≡◌, ◌<◌};
ghost use Rattle.msi_state.specs.Events.{next_instr};
ghost use Rattle.tso_state.specs.Events.{count_before};
ghost use Rattle.tso_invariant.specs.Holds.{is_asking};
ghost use Rattle.tso_state.specs.States.{buffered_start};
ghost use Rattle.tso_state.specs.Steps.{is_next};

use crate::queue::{PendingQueue, count_of};
use rtr_types::Instr;
use rv_core::Core;
use std::marker::Model;
use tso_state::Asker;

/// A core, its pending accesses, and for whose access its port waits.
#[derive(Drop)]
pub struct Station {
    pub(crate) core: Core,
    pub(crate) queue: PendingQueue,
    pub(crate) asker: Asker,
}

impl Model for Station {
    ghost use Rattle.tso_state.specs.States.{BufferedCore};

    ghost Value = { BufferedCore };

    ghost view = { λ a. record { core = a.core; queue = a.queue; asker = a.asker } };
}

impl Station {
    /// The core of this number before its first instruction.
    pub(crate) fn new(id: u8, limit: u32) -> Station
        ensures { result ≡ buffered_start id limit }
    {
        Station {
            core: Core::new(id, limit),
            queue: PendingQueue::new(),
            asker: Asker::Nobody,
        }
    }

    /// The core.
    pub(crate) fn core(&self) -> &Core
        ensures { result.now ≡ self.now.core }
    {
        &self.core
    }

    /// The instruction that executes next.
    pub(crate) fn next_instr(&self) -> Instr
        requires { self.now.core.count < self.now.core.limit }
        ensures { result ≡ next_instr self.now.core }
    {
        let core = &self.core;
        prove!(core.count < core.limit);
        Instr {
            core: core.id(),
            count: core.count() + 1,
        }
    }

    /// The count of the last instruction before the oldest pending access, and of the core's last where there is
    /// none.
    pub(crate) fn count_before(&self) -> u32
        ensures { result ≡ count_before self.now.core self.now.queue }
    {
        match self.queue.oldest() {
            Some(pending) => count_of(pending).saturating_sub(1),
            None => self.core.count(),
        }
    }
}

/// Whether the port waits for somebody's access.
pub(crate) fn is_asking(asker: Asker) -> bool
    ensures { result ≡ is_asking asker }
{
    !matches!(asker, Asker::Nobody)
}

/// Whether the port waits for the access of the core's next instruction.
pub(crate) fn is_next(asker: Asker) -> bool
    ensures { result ≡ is_next asker }
{
    matches!(asker, Asker::Next)
}
