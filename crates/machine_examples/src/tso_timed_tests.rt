//! Machines with store buffers whose riders record times: each ordered access finds the last ordered write of its word,
//! and one that writes each core's last ordered read since.
use crate::again::{machine_of, make_room};
use crate::images::{
    BYTES_BUFFERED, HANDED_OVER, ONE_LOGGED, OWN_STORE_SEEN, STORE_BUFFERING, SUM, WORDS, choice_at,
};
use access_times::Times;
use machine_ports::SteppedMachine;
use rtr_types::{Instr, Params};
use std::alloc::Global;
use std::test::Fail;
use test_clerks::{Noter, Told, noted, noted_read};

/// An ordered access, the write of its word that it finds, and, where it writes, the counts of the reads by core 0 and
/// by core 1 that it finds.
struct Finds {
    at: Instr,
    write: Option<Instr>,
    first: Option<u32>,
    second: Option<u32>,
}

impl Finds {
    /// Whether this access was told, and found this.
    fn is(&self, told: &Told) -> bool {
        let reads = &told.found.reads;
        let first = reads[0] == noted_read(0, self.first);
        let second = reads[1] == noted_read(1, self.second);
        let read = !told.access.kind.is_write() || first && second;
        told.access.at == self.at && told.found.write == noted(self.write) && read
    }

    /// Whether an access of these is this one, and found this.
    fn is_among(&self, accesses: &[Option<Told>]) -> bool {
        for told in accesses {
            if let Some(told) = told
                && self.is(told)
            {
                return true;
            }
        }
        false
    }
}

/// Whether these accesses were told and no other, each with what it found.
fn has(noter: &Noter, accesses: &[Finds]) -> bool {
    let mut all = noter.kept == accesses.len();
    for access in accesses {
        all &= access.is_among(&noter.told);
    }
    all
}

/// A run of two cores: its program and choices, behind the last of which all are 0, and the accesses that it orders,
/// each with what it finds.
struct Row {
    program: &'static [u8],
    choices: &'static [u32],
    accesses: &'static [Finds],
}

macro_rules! finds {
    ($core:expr, $count:expr, $write:expr, $first:expr, $second:expr) => {
        Finds {
            at: Instr {
                core: $core,
                count: $count,
            },
            write: $write,
            first: $first,
            second: $second,
        }
    };
}

/// Core 1 reads the word before core 0's store is ordered, and writes it behind that. Core 0's load, which saw its own
/// store, is logged and noted nowhere.
const HANDED: [Finds; 3] = [
    finds!(1, 2, None, None, None),
    finds!(0, 3, None, None, Some(2)),
    finds!(1, 3, Some(Instr { core: 0, count: 3 }), None, None),
];

/// Core 1's load is ordered behind core 0's store, and core 0's is logged.
const BUFFERED: [Finds; 3] = [
    finds!(0, 5, None, None, None),
    finds!(1, 5, None, None, None),
    finds!(1, 6, Some(Instr { core: 0, count: 5 }), None, None),
];

/// Each addition is a write, which the next one finds.
const SUMS: [Finds; 2] = [
    finds!(0, 3, None, None, None),
    finds!(1, 3, Some(Instr { core: 0, count: 3 }), None, None),
];

static ROWS: [Row; 3] = [
    Row {
        program: &HANDED_OVER,
        choices: &OWN_STORE_SEEN,
        accesses: &HANDED,
    },
    Row {
        program: &STORE_BUFFERING,
        choices: &ONE_LOGGED,
        accesses: &BUFFERED,
    },
    Row {
        program: &SUM,
        choices: &BYTES_BUFFERED,
        accesses: &SUMS,
    },
];

/// Whether the row's run ends, and orders the row's accesses, each with what it finds.
fn is_timed(alloc: Global, row: &Row) -> Result<bool, Fail> {
    let params = Params {
        cores: 2,
        limit: 10_000,
        words: WORDS,
    };
    let mut machine = machine_of::<Times>(alloc, row.program, params)?;
    machine.a_new_machine_stands_for_no_access();
    let mut clerk = Noter::new();
    for number in 0..100usize {
        make_room(&mut machine)?;
        if !machine.done() && machine.has_room() {
            machine.cores_are_numbered();
            let _taken = machine.step_timed(choice_at(row.choices, number), &mut clerk);
        }
    }
    Ok(machine.done() && has(&clerk, row.accesses))
}

#[test]
fn each_ordered_access_finds_what_is_left(rt: HostRuntime) -> Result<(), Fail> {
    for row in &ROWS {
        assert!(rt; is_timed(rt.alloc(), row)?);
    }
    Ok(())
}
