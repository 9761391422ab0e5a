//! Texts that are turns, and texts that aren't.
use rtr_types::Items;
use std::alloc::Global;
use std::test::Fail;
use turn_lists::{Turn, left_out, spelled_turns, turns_of, with_count};

/// The text of what was read of a text, and another word where it wasn't turns.
fn read_back(alloc: Global, text: &str) -> Result<String, Fail> {
    match turns_of(alloc, text)? {
        Some(turns) => Ok(spelled_turns(alloc, turns.as_slice())?),
        None => Ok(String::from_str(alloc, "no turns")?),
    }
}

/// The turns of a text, and none where it isn't turns.
fn turns(alloc: Global, text: &str) -> Result<Items<Turn>, Fail> {
    match turns_of(alloc, text)? {
        Some(turns) => Ok(turns),
        None => Ok(Items::new(alloc)),
    }
}

static TURNS: [&str; 5] = [
    "-",
    "0*1",
    "w15*4000000",
    "0*4,1*2,w0*12,0*1",
    "10*10,w10*10",
];

static OTHERS: [&str; 20] = [
    "",
    "--",
    "-,0*1",
    "0*1,-",
    "0*1,",
    ",0*1",
    "0*1,,1*1",
    "0",
    "0*",
    "*1",
    "0*0",
    "0*01",
    "00*1",
    "16*1",
    "w16*1",
    "x0*1",
    "0*4000001",
    "0*+1",
    " 0*1",
    "0*1*1",
];

#[test]
fn turns_are_read_back(rt: HostRuntime) -> Result<(), Fail> {
    for text in &TURNS {
        let back = read_back(rt.alloc(), text)?;
        assert!(rt; back.as_str() == *text);
    }
    Ok(())
}

#[test]
fn other_texts_are_no_turns(rt: HostRuntime) -> Result<(), Fail> {
    for text in &OTHERS {
        let back = read_back(rt.alloc(), text)?;
        assert!(rt; back.as_str() == "no turns");
    }
    Ok(())
}

#[test]
fn a_turn_is_left_out(rt: HostRuntime) -> Result<(), Fail> {
    let whole = turns(rt.alloc(), "0*1,1*2,0*3")?;
    assert!(rt; whole.len() == 3);
    let left = left_out(rt.alloc(), whole.as_slice(), 1, 2)?;
    assert!(rt; spelled_turns(rt.alloc(), left.as_slice())?.as_str() == "0*4");
    let shorter = with_count(rt.alloc(), whole.as_slice(), 2, 1)?;
    assert!(rt; spelled_turns(rt.alloc(), shorter.as_slice())?.as_str() == "0*1,1*2,0*1");
    Ok(())
}
