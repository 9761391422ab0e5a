//! What claims say of an end.
use end_claims::{
    Claim, Demand, OutcomeView, breaks, demand_within, holds_at, names_within, read_claim,
};
use image_mem::Image;
use rtr_types::{Items, Params};
use rv_core::{Core, Outcome};
use std::alloc::{AllocError, Global};
use std::test::Fail;

/// The end of a run on two cores: core 0 came to its limit at once, and core 1 left the image, which has no byte. Word
/// 16 is 1, word 17 has all bits, and the others are 0.
fn outcome(alloc: Global) -> Result<Outcome, AllocError> {
    let mut cores = Items::new(alloc);
    cores.push(Core::new(0, 0))?;
    cores.push(Core::new(1, 10))?;
    let mut words = Items::new(alloc);
    for word in 0..20 {
        words.push(match word {
            16 => 1,
            17 => 0xffff_ffff,
            _ => 0,
        })?;
    }
    Ok(Outcome {
        cores,
        words,
        loads: Items::new(alloc),
    })
}

/// What the claim says of the end, and `None` where it names what the end hasn't.
fn asked(view: &OutcomeView, claim: &Claim) -> Option<bool> {
    let params = Params {
        cores: view.outcome.cores.len() as u8,
        limit: 10,
        words: view.image.words(),
    };
    if names_within(params, claim) {
        Some(holds_at(view, claim))
    } else {
        None
    }
}

/// Whether the end breaks the demand, and `None` where it names what the end hasn't.
fn broken(view: &OutcomeView, demand: &Demand) -> Option<bool> {
    let params = Params {
        cores: view.outcome.cores.len() as u8,
        limit: 10,
        words: view.image.words(),
    };
    if demand_within(params, demand) {
        Some(breaks(view, demand, &[]))
    } else {
        None
    }
}

/// What the text claims of the end, and `None` where it is no claim on it.
fn claimed(
    alloc: Global,
    image: &Image,
    outcome: &Outcome,
    text: &str,
) -> Result<Option<bool>, AllocError> {
    if outcome.cores.len() > 16 {
        return Ok(None);
    }
    let view = OutcomeView { image, outcome };
    match read_claim(alloc, text)? {
        Some(claim) => Ok(asked(&view, &claim)),
        None => Ok(None),
    }
}

/// A text, and what it claims of the end.
struct Row {
    text: &'static str,
    holds: Option<bool>,
}

static ROWS: [Row; 14] = [
    Row {
        text: "[40]=1",
        holds: Some(true),
    },
    Row {
        text: "[40]!=0x1",
        holds: Some(false),
    },
    Row {
        text: "[44]<0",
        holds: Some(true),
    },
    Row {
        text: "[44]>=[40]",
        holds: Some(false),
    },
    Row {
        text: "[44]=4294967295,[44]=-1",
        holds: Some(true),
    },
    Row {
        text: "0:x10<1:x10",
        holds: Some(true),
    },
    Row {
        text: "0:limit,1:fetch",
        holds: Some(true),
    },
    Row {
        text: "all:fetch",
        holds: Some(false),
    },
    Row {
        text: "all:fetch|[40]<=1",
        holds: Some(true),
    },
    Row {
        text: "[40]=2,1:fetch|1:exit",
        holds: Some(false),
    },
    Row {
        text: "[50]=0",
        holds: None,
    },
    Row {
        text: "2:exit",
        holds: None,
    },
    Row {
        text: "[41]=0",
        holds: None,
    },
    Row {
        text: "[40]=1,",
        holds: None,
    },
];

#[test]
fn claims_are_asked(rt: HostRuntime) -> Result<(), Fail> {
    let outcome = outcome(rt.alloc())?;
    let image = Image::flat(Vec::new(rt.alloc()), 20)?;
    for row in &ROWS {
        let holds = claimed(rt.alloc(), &image, &outcome, row.text)?;
        assert!(rt; holds == row.holds, "{}", row.text);
    }
    Ok(())
}

/// Whether the end breaks what is demanded of the text.
fn demanded(
    alloc: Global,
    image: &Image,
    outcome: &Outcome,
    never: bool,
    text: &str,
) -> Result<Option<bool>, AllocError> {
    if outcome.cores.len() > 16 {
        return Ok(None);
    }
    let view = OutcomeView { image, outcome };
    match read_claim(alloc, text)? {
        Some(claim) if never => Ok(broken(&view, &Demand::Never(claim))),
        Some(claim) => Ok(broken(&view, &Demand::Expect(claim))),
        None => Ok(None),
    }
}

#[test]
fn demands_are_asked(rt: HostRuntime) -> Result<(), Fail> {
    let outcome = outcome(rt.alloc())?;
    let image = Image::flat(Vec::new(rt.alloc()), 20)?;
    assert!(rt; demanded(rt.alloc(), &image, &outcome, false, "[40]=2")? == Some(true));
    assert!(rt; demanded(rt.alloc(), &image, &outcome, true, "[40]=2")? == Some(false));
    Ok(())
}
