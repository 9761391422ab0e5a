//! Moves of three cores.
use crate::recordings::{cut_of, three};
use cut_moves::{earliest, hull, intersection, latest, step, step_back, union};
use replay_audit::Audited;
use row_texts::Counts;
use rtr_types::Which;
use std::alloc::{AllocError, Global};
use std::test::Fail;

/// The least closed cut with these counts, by its counts.
fn around(audited: &Audited, counts: Counts) -> Result<Option<Counts>, AllocError> {
    let Some(cut) = cut_of(audited.recording(), counts) else {
        return Ok(None);
    };
    Ok(Some(Counts::of(&hull(audited, &cut)?)))
}

/// Where a step of the core comes to from there, if the core has a next instruction.
fn forward(audited: &Audited, from: Counts, core: u8) -> Result<Option<Counts>, AllocError> {
    let Some(counts) = cut_of(audited.recording(), from) else {
        return Ok(None);
    };
    let cut = hull(audited, &counts)?;
    let totals = audited.recording().totals.as_slice();
    if core as usize >= totals.len() || cut.counts[core as usize] >= totals[core as usize] {
        return Ok(None);
    }
    Ok(Some(Counts::of(&step(audited, &cut, core)?)))
}

/// Where a step back comes to, if the core has a last instruction.
fn backward(audited: &Audited, from: Counts, core: u8) -> Result<Option<Counts>, AllocError> {
    let Some(counts) = cut_of(audited.recording(), from) else {
        return Ok(None);
    };
    let cut = hull(audited, &counts)?;
    let totals = audited.recording().totals.as_slice();
    if core as usize >= totals.len() || cut.counts[core as usize] == 0 {
        return Ok(None);
    }
    Ok(Some(Counts::of(&step_back(audited, &cut, core)?)))
}

/// The earliest and the latest cut with the core where it is.
fn ends(audited: &Audited, from: Counts, core: u8) -> Result<Option<(Counts, Counts)>, AllocError> {
    let Some(counts) = cut_of(audited.recording(), from) else {
        return Ok(None);
    };
    let cut = hull(audited, &counts)?;
    if core >= audited.recording().params.cores {
        return Ok(None);
    }
    let least = earliest(audited, &cut, core)?;
    let greatest = latest(audited, &cut, core)?;
    Ok(Some((Counts::of(&least), Counts::of(&greatest))))
}

/// These counts.
fn at(first: u32, second: u32, third: u32) -> Option<Counts> {
    Some(Counts::new(first, second, third))
}

// Counts that are closed, and counts that need others.
#[test]
fn hulls(rt: HostRuntime) -> Result<(), Fail> {
    let audited = three(rt.alloc(), Which::Reduced)?;
    assert!(rt; around(&audited, Counts::new(0, 0, 0))? == at(0, 0, 0));
    assert!(rt; around(&audited, Counts::new(0, 1, 1))? == at(0, 1, 1));
    assert!(rt; around(&audited, Counts::new(0, 2, 0))? == at(3, 2, 0));
    assert!(rt; around(&audited, Counts::new(4, 0, 0))? == at(4, 3, 3));
    assert!(rt; around(&audited, Counts::new(6, 0, 0))? == None);
    Ok(())
}

/// Which way a core goes.
enum Way {
    Forward,
    Backward,
}

/// A step of a core by one of the logs: from which counts, and to which, if the core can take it.
struct Move {
    which: Which,
    way: Way,
    core: u8,
    from: Counts,
    to: Option<Counts>,
}

macro_rules! counts {
    ($first:literal $second:literal $third:literal) => {
        Counts { first: $first, second: $second, third: $third }
    };
}

macro_rules! step {
    ($which:ident $way:ident $core:literal from $from:expr => $to:expr) => {
        Move { which: Which::$which, way: Way::$way, core: $core, from: $from, to: $to }
    };
}

static STEPS: [Move; 10] = [
    // A step alone, one that another core has to go before, and one that two have to.
    step!(Reduced Forward 0 from counts!(0 1 1) => Some(counts!(1 1 1))),
    step!(Reduced Forward 1 from counts!(0 1 1) => Some(counts!(3 2 1))),
    step!(Reduced Forward 1 from counts!(3 2 0) => Some(counts!(3 3 2))),
    step!(Reduced Forward 0 from counts!(5 0 0) => None),
    // A step back alone, and one that others have to go back for.
    step!(Reduced Backward 0 from counts!(5 4 4) => Some(counts!(4 4 4))),
    step!(Reduced Backward 1 from counts!(5 4 4) => Some(counts!(5 3 4))),
    step!(Reduced Backward 0 from counts!(3 2 1) => Some(counts!(2 1 1))),
    step!(Reduced Backward 0 from counts!(0 1 1) => None),
    // The regulated log asks for more.
    step!(Regulated Backward 1 from counts!(5 4 4) => Some(counts!(4 3 4))),
    step!(Regulated Forward 0 from counts!(4 3 3) => Some(counts!(5 4 4))),
];

/// Whether the step of the row comes to where the row says.
fn is_taken(alloc: Global, row: &Move) -> Result<bool, Fail> {
    let audited = three(alloc, row.which)?;
    let to = match row.way {
        Way::Forward => forward(&audited, row.from, row.core)?,
        Way::Backward => backward(&audited, row.from, row.core)?,
    };
    Ok(to == row.to)
}

#[test]
fn steps(rt: HostRuntime) -> Result<(), Fail> {
    for row in &STEPS {
        assert!(rt; is_taken(rt.alloc(), row)?);
    }
    Ok(())
}

// A core that stays, in the middle, at its beginning and at its end.
#[test]
fn earliest_and_latest(rt: HostRuntime) -> Result<(), Fail> {
    let audited = three(rt.alloc(), Which::Reduced)?;
    let middle = Some((Counts::new(0, 1, 0), Counts::new(3, 1, 2)));
    assert!(rt; ends(&audited, Counts::new(2, 1, 1), 1)? == middle);
    let beginning = Some((Counts::new(0, 0, 0), Counts::new(0, 1, 1)));
    assert!(rt; ends(&audited, Counts::new(0, 1, 0), 0)? == beginning);
    let end = Some((Counts::new(3, 4, 2), Counts::new(5, 4, 4)));
    assert!(rt; ends(&audited, Counts::new(4, 4, 4), 1)? == end);
    Ok(())
}

// Two cuts, neither of which contains the other.
#[test]
fn unions_and_intersections(rt: HostRuntime) -> Result<(), Fail> {
    let audited = three(rt.alloc(), Which::Reduced)?;
    let Some(first) = cut_of(audited.recording(), Counts::new(5, 1, 2)) else {
        return Ok(assert!(rt; false));
    };
    let Some(second) = cut_of(audited.recording(), Counts::new(3, 4, 0)) else {
        return Ok(assert!(rt; false));
    };
    assert!(rt; Counts::of(&union(&first, &second)) == Counts::new(5, 4, 2));
    assert!(rt; Counts::of(&intersection(&first, &second)) == Counts::new(3, 1, 0));
    Ok(())
}
