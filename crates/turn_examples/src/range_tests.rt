//! The first run of a range that breaks a claim, and the table of a range.
use rtr_types::Items;
use run_ranges::{
    Asked, Pace, Row, Runs, Seen, Trial, first_in, first_of_range, table_in, table_of_range,
};
use std::alloc::{AllocError, Global};
use std::test::Fail;

/// Runs that end with their number's rest by 3, and break the claim where the rest by 7 is this one.
#[derive(Drop)]
struct Rests {
    alloc: Global,
    rest: u64,
}

impl Runs for Rests {
    ghost use Rattle.std.specs.Prelude.{◌==◌, ◌%◌, ◌∷◌, []};

    type Bench = u8;

    ghost serves = { λ s b. Unit {0} };

    ghost breaks = { λ s n. n % 7 == s.rest };

    ghost ends = { λ s n. (n % 3) ∷ [] };

    fn bench(&self) -> Result<u8, AllocError> {
        Ok(0)
    }

    fn ask(&self, bench: u8, n: u64) -> Result<Asked<u8>, AllocError> {
        let breaks = n % 7 == self.rest;
        Ok(Asked { breaks, bench })
    }

    fn see(&self, bench: u8, n: u64) -> Result<Seen<u8>, AllocError> {
        let breaks = n % 7 == self.rest;
        let mut values = Items::new(self.alloc);
        values.push((n % 3) as u32)?;
        Ok(Seen {
            values,
            breaks,
            bench,
        })
    }
}

impl Trial for Rests {
    ghost use Rattle.std.specs.Prelude.{◌==◌, ◌%◌, ◌∷◌, []};

    ghost breaks = { λ s n. n % 7 == s.rest };

    ghost ends = { λ s n. (n % 3) ∷ [] };

    fn first(&self, from: u64, to: u64) -> Result<Option<u64>, AllocError> {
        first_in(self, from, to)
    }

    fn table(&self, alloc: Global, from: u64, to: u64) -> Result<Vec<Row>, AllocError> {
        table_in(alloc, self, from, to)
    }
}

/// Two runs a batch.
#[derive(Drop)]
struct Twos;

impl Pace for Twos {
    fn batch(&mut self, _done: u64) -> u64 {
        2
    }

    fn over(&mut self) {}
}

/// Each row's value, count, number of broken runs and least run.
fn told(alloc: Global, rows: &[Row]) -> Result<String, AllocError> {
    let mut text = String::new(alloc);
    for k in 0..rows.len() {
        let values = rows[k].values.as_slice();
        if let Some(value) = values.first() {
            let (count, broken, least) = (rows[k].count, rows[k].broken, rows[k].least);
            write!(text, "{value}: {count} {broken} {least};")?;
        }
    }
    Ok(text)
}

#[test]
fn the_first_run_is_found(rt: HostRuntime) -> Result<(), Fail> {
    let runs = Rests {
        alloc: rt.alloc(),
        rest: 3,
    };
    assert!(rt; first_in(&runs, 0, 10)? == Some(3));
    assert!(rt; first_in(&runs, 4, 10)? == None);
    Ok(())
}

#[test]
fn the_first_run_is_found_by_threads(rt: HostRuntime) -> Result<(), Fail> {
    let runs = Rests {
        alloc: rt.alloc(),
        rest: 3,
    };
    assert!(rt; first_of_range(&rt, rt.alloc(), &runs, &mut Twos, 4, 40, 3)? == Some(10));
    assert!(rt; first_of_range(&rt, rt.alloc(), &runs, &mut Twos, 4, 10, 2)? == None);
    Ok(())
}

/// Of the runs 0 to 9, four end with 0, three with 1 and three with 2; run 3 alone breaks the claim.
const TABLE: &str = "0: 4 1 0;1: 3 0 1;2: 3 0 2;";

#[test]
fn runs_are_counted(rt: HostRuntime) -> Result<(), Fail> {
    let runs = Rests {
        alloc: rt.alloc(),
        rest: 3,
    };
    let rows = table_in(rt.alloc(), &runs, 0, 10)?;
    assert!(rt; told(rt.alloc(), rows.as_slice())?.as_str() == TABLE);
    Ok(())
}

#[test]
fn runs_are_counted_by_threads(rt: HostRuntime) -> Result<(), Fail> {
    let runs = Rests {
        alloc: rt.alloc(),
        rest: 3,
    };
    let rows = table_of_range(&rt, rt.alloc(), &runs, &mut Twos, 0, 10, 3)?;
    assert!(rt; told(rt.alloc(), rows.as_slice())?.as_str() == TABLE);
    Ok(())
}
