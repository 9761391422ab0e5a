//! The rider that records when the words of its block were accessed.
ghost use Rattle.std.specs.Prelude.{◌≡◌, ℕ, ◌<◌, is_some};
ghost use Rattle.rtr_types.specs.CoreSets.{has};
ghost use Rattle.rtr_types.specs.declared.TheConstants.{BLOCK_WORDS, CORES_MAX};
ghost use Rattle.access_times.specs.Reads.{read_seen};
ghost use Rattle.access_times.specs.Times.{no_times, read_at, slot_absorbed, slot_loaded, slot_stored};
ghost use Rattle.access_times.specs.Times.{times_loaded, times_stored, write_at};
ghost use Rattle.access_times.specs.Writes.{write_seen};

use crate::last_write::LastWrite;
use crate::reads::Reads;
use crate::rider::Rider;
use clock_core::Clock;
use rtr_types::{BLOCK_WORDS, CORES_MAX, CoreSet, Instr};

/// The times of one word: its last write, and each core's last read since that write, each with the
/// clock that was noted for it. An access that reads and writes is a write here.
#[derive(Drop)]
struct SlotTimes {
    write: LastWrite,
    reads: Reads,
}

/// The rider that records: for each slot of the block the last write, and for each core its last
/// read since that write, each with the clock that was noted for it.
#[derive(Drop)]
pub struct Times {
    slots: [SlotTimes; BLOCK_WORDS],
}

impl SlotTimes {
    /// The times of no access.
    fn none() -> SlotTimes
        ensures { result ≡ no_times }
    {
        SlotTimes {
            write: LastWrite::none(),
            reads: Reads::none(),
        }
    }

    /// Takes over the other's newer reads, where the last writes are the same. Most often the other has
    /// no reads, which is cheaper to see.
    fn absorb(&mut self, other: &SlotTimes)
        ensures { self.new ≡ slot_absorbed self.old other.now }
    {
        if self.reads.learn_nothing_from(&other.reads) {
            return;
        }
        if self.write.is_same(&other.write) {
            self.reads.absorb(&other.reads);
        }
    }

    /// Becomes equal to the other. No clock is copied where there is no write.
    fn copy_from(&mut self, other: &SlotTimes)
        ensures { self.new ≡ other.now }
    {
        self.write.copy_from(&other.write);
        self.reads.copy_from(&other.reads);
    }

    /// Becomes the other once that has absorbed what these times were.
    fn renew(&mut self, other: &SlotTimes)
        ensures { self.new ≡ slot_absorbed other.now self.old }
    {
        if other.reads.learn_nothing_from(&self.reads) {
            self.copy_from(other);
        } else if other.write.is_same(&self.write) {
            self.reads.renew(&other.reads);
        } else {
            self.copy_from(other);
        }
    }

    /// Becomes the times of no access.
    fn forget(&mut self)
        ensures { self.new ≡ no_times }
    {
        self.write.clear();
        self.reads.clear();
    }

    /// Notes the read.
    fn on_load(&mut self, at: Instr, clock: Clock)
        requires { at.core < CORES_MAX }
        ensures { self.new ≡ slot_loaded self.old at clock }
    {
        self.reads.set(at.core, at.count, clock);
    }

    /// Notes the write, and forgets the reads.
    fn on_store(&mut self, at: Instr, clock: Clock)
        ensures { self.new ≡ slot_stored at clock }
    {
        self.write.set(at, clock);
        self.reads.clear();
    }
}

impl Rider for Times {
    ghost use Rattle.access_times.specs.Times.{times_riding};

    ghost riding = { times_riding };

    fn fresh() -> Self {
        Times {
            slots: [
                SlotTimes::none(),
                SlotTimes::none(),
                SlotTimes::none(),
                SlotTimes::none(),
            ],
        }
    }

    fn absorb(&mut self, other: &Self) {
        for slot in 0..BLOCK_WORDS {
            self.slots[slot].absorb(&other.slots[slot]);
        }
    }

    fn copy_from(&mut self, other: &Self) {
        let [first, second, third, fourth] = &other.slots;
        self.slots[0].copy_from(first);
        self.slots[1].copy_from(second);
        self.slots[2].copy_from(third);
        self.slots[3].copy_from(fourth);
    }

    fn renew(&mut self, other: &Self) {
        for slot in 0..BLOCK_WORDS {
            self.slots[slot].renew(&other.slots[slot]);
        }
    }

    fn forget(&mut self) {
        self.slots[0].forget();
        self.slots[1].forget();
        self.slots[2].forget();
        self.slots[3].forget();
    }
}

impl Times {
    /// The last write of the slot's word, with its clock.
    pub fn write(&self, slot: u8) -> Option<(Instr, Clock)>
        requires { slot < BLOCK_WORDS }
        ensures { result ≡ write_at self.now slot }
    {
        self.last_write(slot).copied()
    }

    /// The same where it lies, for a caller that needs no copy.
    pub fn last_write(&self, slot: u8) -> Option<&(Instr, Clock)>
        requires { slot < BLOCK_WORDS }
        ensures { write_seen result ≡ write_at self.now slot }
    {
        self.slots[slot as usize].write.get()
    }

    /// The count of the core's last read of the slot's word since that write, with its clock.
    pub fn read_by(&self, slot: u8, core: u8) -> Option<(u32, Clock)>
        requires slot { slot < BLOCK_WORDS }
        requires core { core < CORES_MAX }
        ensures { result ≡ read_at self.now slot core }
    {
        self.last_read(slot, core).copied()
    }

    /// The same where it lies, for a caller that needs no copy.
    pub fn last_read(&self, slot: u8, core: u8) -> Option<&(u32, Clock)>
        requires slot { slot < BLOCK_WORDS }
        requires core { core < CORES_MAX }
        ensures { read_seen result ≡ read_at self.now slot core }
    {
        self.slots[slot as usize].reads.get(core)
    }

    /// The cores with a noted read of the slot's word.
    pub fn readers(&self, slot: u8) -> CoreSet
        requires { slot < BLOCK_WORDS }
        ensures { (core : ℕ) → core < CORES_MAX → has result core ≡ is_some (read_at self.now slot core) }
    {
        self.slots[slot as usize].reads.readers()
    }

    /// Notes the read, which doesn't write.
    pub fn on_load(&mut self, slot: u8, at: Instr, clock: Clock)
        requires slot { slot < BLOCK_WORDS }
        requires core { at.core < CORES_MAX }
        ensures { self.new ≡ times_loaded self.old slot at clock }
    {
        self.slots[slot as usize].on_load(at, clock);
    }

    /// Notes the write, which may read too, and forgets the reads of the slot's word.
    pub fn on_store(&mut self, slot: u8, at: Instr, clock: Clock)
        requires { slot < BLOCK_WORDS }
        ensures { self.new ≡ times_stored self.old slot at clock }
    {
        self.slots[slot as usize].on_store(at, clock);
    }
}
