//! Which places claims name, and how their values are printed.
use end_claims::{Place, named_by, put_answer, read_claim};
use std::alloc::{AllocError, Global};
use std::test::Fail;

/// The places that the claim names in a run on two cores, each printed with the value 3.
fn named(alloc: Global, text: &str) -> Result<String, AllocError> {
    let mut told = String::new(alloc);
    if let Some(claim) = read_claim(alloc, text)? {
        let places = named_by(alloc, 2, &claim)?;
        for place in places.as_slice() {
            put_answer(&mut told, *place, 3)?;
            told.push_str(" ")?;
        }
    }
    Ok(told)
}

#[test]
fn places_are_named_once(rt: HostRuntime) -> Result<(), Fail> {
    assert!(rt; named(rt.alloc(), "[10ac]=6,all:exit")?.as_str() == "[10ac]=3 0:fetch 1:fetch ");
    assert!(rt;
        named(rt.alloc(), "1:x7<[40]|[40]=1:x7,1:exit")?.as_str() == "1:x7=3 [40]=3 1:fetch "
    );
    Ok(())
}

/// A place and its value, printed.
fn answer(alloc: Global, place: Place, value: u32) -> Result<String, AllocError> {
    let mut text = String::new(alloc);
    put_answer(&mut text, place, value)?;
    Ok(text)
}

#[test]
fn values_are_printed(rt: HostRuntime) -> Result<(), Fail> {
    assert!(rt; answer(rt.alloc(), Place::Word(0x42b), 3)?.as_str() == "[10ac]=3");
    assert!(rt;
        answer(
            rt.alloc(),
            Place::Register { core: 1, number: 7 },
            0xffff_ffec
        )?
        .as_str()
            == "1:x7=-20"
    );
    assert!(rt; answer(rt.alloc(), Place::Ended(15), 2)?.as_str() == "15:limit");
    Ok(())
}
