//! Histories of runs of eight cores, against the plain reading of what the machine's carries counted.
ghost use Rattle.std.specs.Prelude.{◌≡◌, ◌≢◌, ◌<◌, ◌+◌, ◌↔◌, IfOk, IsTrue};
ghost use Rattle.rtr_types.specs.declared.TheConstants.{CORES_MAX};
ghost use Rattle.recorder_examples.specs.Dense.{AreCounted};

use crate::keeper::{Told, image_of, told_in_run};
use know_history::History;
use rtr_types::{CORES_MAX, Params};
use schedule_pick::Schedule;
use std::alloc::{AllocError, Global};
use std::test::Fail;

/// addi x5,x0,7; beq x10,x5,+40: core 7 ends without an access. slli x5,x10,2; addi x13,x0,3, and then three
/// rounds: lw x6,64(x5); addi x6,x6,1; sw x6,68(x5): a core reads its word and writes the next core's;
/// lw x7,128(x0); sw x6,128(x0): all read and write one word; addi x13,x13,-1; bne x13,x0,-24. At last ecall.
const CODE: [u32; 12] = [
    0x00700293, 0x02550463, 0x00251293, 0x00300693, 0x0402a303, 0x00130313, 0x0462a223, 0x08002383,
    0x08602023, 0xfff68693, 0xfe0694e3, 0x00000073,
];

/// How many cores there are.
const CORES: u8 = 8;

/// A place for each core, as the length of an array.
const PLACES: usize = CORES_MAX as usize;

const PARAMS: Params = Params {
    cores: CORES,
    limit: 100,
    words: 64,
};

/// How many instructions each core but the last retires: four, three rounds of seven, and the last.
const RETIRED: u32 = 26;

/// How many the last core retires.
const FEW: u32 = 3;

/// The most steps of a run: (2 P + 4) for each instruction that retires, P the number of cores.
const STEPS: u32 = (2 * CORES as u32 + 4) * RETIRED * CORES as u32;

/// The generator's states at the beginning of the runs.
static SEEDS: [u64; 3] = [1, 20_261_127, u64::MAX];

/// What was known at each retirement of a run, in their order, its history, and how many retirements of each core that
/// has.
struct Noted {
    rows: Vec<Told>,
    history: History,
    counts: [u32; PLACES],
}

impl Drop for Noted {
    fn drop(self) {
        let Noted {
            rows: _rows,
            history: _history,
            counts: _counts,
        } = self;
    }
}

/// What was known at each retirement of a run under the seed, in their order.
fn known_under(alloc: Global, seed: u64) -> Result<Vec<Told>, Fail> {
    let image = image_of(alloc, &CODE, PARAMS.words)?;
    told_in_run(
        alloc,
        image,
        PARAMS,
        Schedule::new(Vec::new(alloc), seed),
        STEPS,
    )
}

/// Whether the one count comes right after the other.
fn is_next(count: u32, next: u32) -> bool
    ensures { IsTrue result ↔ next ≡ count + 1 }
{
    count < next && next - count == 1
}

/// The retirements with their history.
#[tactic(auto, using(crate::proofs::Counts::begun, crate::proofs::Counts::noted, crate::proofs::Counts::next_one))]
fn note_all(alloc: Global, rows: Vec<Told>) -> Result<Noted, AllocError>
    ensures { IfOk result (λ noted. AreCounted noted.history.notes noted.counts) }
{
    let mut history = History::new(alloc, CORES)?;
    let mut counts = [0; PLACES];
    for Told { at, known, .. } in &rows {
        if at.core < CORES {
            if is_next(counts[at.core as usize], at.count) {
                history.ready()?;
                history.note(*at, known);
                counts[at.core as usize] = at.count;
            }
        }
    }
    Ok(Noted {
        rows,
        history,
        counts,
    })
}

/// A run under the seed with its history.
fn noted_under(alloc: Global, seed: u64) -> Result<Noted, Fail>
    ensures { IfOk result (λ noted. AreCounted noted.history.notes noted.counts) }
{
    Ok(note_all(alloc, known_under(alloc, seed)?)?)
}

/// The most that was known of core `of` at the core's retirements up to this count.
fn most_known(rows: &[Told], core: u8, count: u32, of: u8) -> u32
    requires { of < CORES_MAX }
{
    let mut most = 0;
    for Told { at, known, .. } in rows {
        if at.core == core && at.count <= count {
            most = most.max(known.count(of));
        }
    }
    most
}

/// Whether the history says at each of the core's retirements how much was known of core `of`, and counts
/// how often that rose.
fn is_dense(noted: &Noted, core: u8, of: u8) -> bool
    requires counted { AreCounted noted.now.history.notes noted.now.counts }
    requires core { core < 8 }
    requires place { of < 8 }
    requires other { of ≢ core }
{
    let mut last = 0;
    let mut changes = 0;
    for before in 0..noted.counts[core as usize] {
        let known = most_known(&noted.rows, core, before + 1, of);
        if noted.history.at(core, before + 1, of) != known {
            return false;
        }
        if last < known {
            changes += 1;
        }
        last = known;
    }
    noted.history.changes(core, of) == changes
}

/// The same of all other cores.
fn is_dense_of(noted: &Noted, core: u8) -> bool
    requires counted { AreCounted noted.now.history.notes noted.now.counts }
    requires core { core < 8 }
{
    for of in 0..CORES {
        if of != core && !is_dense(noted, core, of) {
            return false;
        }
    }
    true
}

/// Whether nothing is known of core `of` at the last core's last retirement, and nothing ever was.
fn is_told_nothing(noted: &Noted, of: u8) -> bool
    requires counted { AreCounted noted.now.history.notes noted.now.counts }
    requires place { of < 7 }
{
    noted.counts[7] == FEW && noted.history.at(7, FEW, of) == 0 && noted.history.changes(7, of) == 0
}

#[test]
fn histories_say_what_was_known(rt: HostRuntime) -> Result<(), Fail> {
    for seed in &SEEDS {
        let noted = noted_under(rt.alloc(), *seed)?;
        for core in 0..CORES - 1 {
            assert!(rt; noted.counts[core as usize] == RETIRED);
            assert!(rt; is_dense_of(&noted, core), "seed {seed}, core {core}");
        }
        assert!(rt; is_dense_of(&noted, 7), "seed {seed}");
        assert!(rt; noted.history.changes(0, 1) > 1, "seed {seed}");
    }
    Ok(())
}

// The last core makes no access, so that no message reaches it.
#[test]
fn a_core_that_is_told_nothing(rt: HostRuntime) -> Result<(), Fail> {
    for seed in &SEEDS {
        let noted = noted_under(rt.alloc(), *seed)?;
        for of in 0..CORES - 1 {
            assert!(rt; is_told_nothing(&noted, of), "seed {seed}, core {of}");
        }
    }
    Ok(())
}
