//! What is reported of runs that break a claim.
ghost use Rattle.std.specs.Prelude.{◌≡◌, IfOk, string_bytes};
ghost use Rattle.hunt_texts.specs.Reports.{broken_report, found_report, whole_report};

use std::alloc::{AllocError, Global};

/// The report of a run that is given to be made small and breaks nothing. The only refusal is want of memory.
pub fn whole_report(alloc: Global) -> Result<String, AllocError>
    ensures { IfOk result (λ text. string_bytes text ≡ whole_report) }
{
    let text = String::from_str(alloc, "rtr: the run doesn't break it\n")?;
    Ok(text)
}

/// The report of the run that was found. The only refusal is want of memory.
pub fn found_report(alloc: Global, number: u64) -> Result<String, AllocError>
    ensures { IfOk result (λ text. string_bytes text ≡ found_report number) }
{
    let text = format!(in alloc; "rtr: run {number} breaks it\n")?;
    Ok(text)
}

/// The report of a table: how many of how many runs break the claim. The only refusal is want of memory.
pub fn broken_report(alloc: Global, broken: u64, runs: u64) -> Result<String, AllocError>
    ensures { IfOk result (λ text. string_bytes text ≡ broken_report broken runs) }
{
    let mut text = format!(in alloc; "rtr: {broken} of {runs}")?;
    text.push_str(" runs break it\n")?;
    Ok(text)
}
