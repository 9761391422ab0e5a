//! What is printed of runs and tables.
use end_claims::Place;
use hunt_texts::{
    Shown, broken_report, found_report, none_text, put_shown, run_text, table_text, words_text,
};
use rtr_types::{Items, Params};
use run_ranges::Row;
use std::alloc::{AllocError, Global};
use std::test::Fail;
use tool_words::RunWords;
use turn_lists::{Actor, Turn};

/// The run of `lost_update` in which core 0 makes one access, and then core 1 all of its own.
fn lost_update(alloc: Global) -> Result<RunWords, AllocError> {
    Ok(RunWords {
        params: Params {
            cores: 2,
            limit: 10_000,
            words: 32,
        },
        choices: Items::from_vec(Vec::from_slice(alloc, &[0, 1, 0, 255])?),
        seed: 0,
        elf: false,
    })
}

#[test]
fn a_run_with_its_turns(rt: HostRuntime) -> Result<(), Fail> {
    let run = lost_update(rt.alloc())?;
    let turns = [Turn {
        actor: Actor::Core(0),
        count: 1,
    }];
    let mut text = run_text(rt.alloc(), 2)?;
    put_shown(
        rt.alloc(),
        &mut text,
        Shown {
            turns: Some(&turns),
            places: &[Place::Word(16), Place::Ended(1)],
            values: &[1, 0],
            tso: false,
            run: &run,
        },
    )?;
    assert!(rt;
        text.as_str()
            == "run 2\nturns 0*1\nends [40]=1 1:exit\nrtr record --cores 2 --words 32 --choices 000100ff\n"
    );
    Ok(())
}

#[test]
fn a_line_for_the_recorder(rt: HostRuntime) -> Result<(), Fail> {
    let run = lost_update(rt.alloc())?;
    let text = words_text(rt.alloc(), true, &run)?;
    assert!(rt; text.as_str() == "rtr tsorecord --cores 2 --words 32 --choices 000100ff\n");
    Ok(())
}

#[test]
fn reports_and_no_run(rt: HostRuntime) -> Result<(), Fail> {
    assert!(rt; none_text(rt.alloc(), 0, 9999)?.as_str() == "none 0..9999\n");
    assert!(rt; found_report(rt.alloc(), 1)?.as_str() == "rtr: run 1 breaks it\n");
    assert!(rt;
        broken_report(rt.alloc(), 257, 1000)?.as_str() == "rtr: 257 of 1000 runs break it\n"
    );
    Ok(())
}

/// A row of two values.
fn row(
    alloc: Global,
    values: &[u32],
    count: u64,
    broken: u64,
    least: u64,
) -> Result<Row, AllocError> {
    Ok(Row {
        values: Items::from_vec(Vec::from_slice(alloc, values)?),
        count,
        broken,
        least,
    })
}

#[test]
fn a_table(rt: HostRuntime) -> Result<(), Fail> {
    let mut rows = Vec::new(rt.alloc());
    rows.push(row(rt.alloc(), &[0, 0], 257, 257, 1)?)?;
    rows.push(row(rt.alloc(), &[0, 4294967295], 743, 0, 0)?)?;
    let places = [
        Place::Register {
            core: 0,
            number: 28,
        },
        Place::Register {
            core: 1,
            number: 28,
        },
    ];
    let text = table_text(rt.alloc(), 0, 999, &places, rows.as_slice(), Some(257))?;
    assert!(rt;
        text.as_str()
            == "runs 0..999 outcomes 2\n257 *> 0:x28=0 1:x28=0 run 1\n743 :> 0:x28=0 1:x28=-1 run 0\nbreaks 257\n"
    );
    Ok(())
}
