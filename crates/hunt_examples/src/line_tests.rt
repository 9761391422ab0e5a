//! The line by which `rtr` records a run.
use hunt_words::put_line;
use rtr_types::{Items, Params};
use std::alloc::Global;
use std::test::Fail;
use tool_words::RunWords;

/// The line of a run on two cores with these words of memory.
fn line(
    alloc: Global,
    tso: bool,
    elf: bool,
    words: u32,
    seed: u64,
    choices: &[u8],
) -> Result<String, Fail> {
    let run = RunWords {
        params: Params {
            cores: 2,
            limit: 10_000,
            words,
        },
        choices: Items::from_vec(choices.to_vec(alloc)?),
        seed,
        elf,
    };
    let mut text = String::new(alloc);
    put_line(alloc, &mut text, tso, &run)?;
    Ok(text)
}

#[test]
fn lines_are_written(rt: HostRuntime) -> Result<(), Fail> {
    assert!(rt;
        line(rt.alloc(), false, false, 32, 0, &[1, 1, 0, 255])?.as_str()
            == "rtr record --cores 2 --words 32 --choices 010100ff"
    );
    assert!(rt;
        line(rt.alloc(), false, false, 32, 17, &[])?.as_str()
            == "rtr record --cores 2 --words 32 --seed 17"
    );
    assert!(rt;
        line(rt.alloc(), true, false, 64, 0, &[0, 1])?.as_str()
            == "rtr tsorecord --cores 2 --words 64 --choices 0001"
    );
    assert!(rt;
        line(rt.alloc(), false, true, 16_384, 0, &[])?.as_str() == "rtr record --elf --cores 2"
    );
    Ok(())
}
