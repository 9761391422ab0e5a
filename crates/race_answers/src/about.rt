//! What a session was begun with, and how the run ends.
ghost use Rattle.std.specs.Prelude.{◌≡◌, ◌++◌, IfOk, OnOk, length, string_bytes};
ghost use Rattle.race_queries.specs.Ends.{log_ends};
ghost use Rattle.race_answers.specs.About.{info_text, log_name, log_text, params_text};

use gdb_commands::{Put, Told, bytes_of};
use race_queries::log_ends;
use replay_audit::Audited;
use rtr_types::{Params, Which};
use std::alloc::{AllocError, Global};
use what_if::put_recorded;

/// How the run was set up, the log by which it is looked at, and how each core ends.
pub fn info_told(alloc: Global, audited: &Audited) -> Told
    ensures { IfOk result (λ told. told ≡ info_text audited.now) }
{
    let edges = edge_count(alloc, audited)?;
    let mut text = String::new(alloc);
    put_params(&mut text, audited.recording().params)?;
    put_log(&mut text, audited.which(), edges)?;
    put_recorded(alloc, &mut text, audited)?;
    Ok(bytes_of(text))
}

/// How many edges the log has.
fn edge_count(alloc: Global, audited: &Audited) -> Result<usize, AllocError>
    ensures { IfOk result (λ count. count ≡ length (log_ends audited.now)) }
{
    Ok(log_ends(alloc, audited)?.len())
}

/// Puts how the run was set up.
fn put_params(text: &mut String, params: Params) -> Put
    ensures { OnOk result (string_bytes text.new ≡ string_bytes text.old ++ params_text params) }
{
    let cores = params.cores;
    let limit = params.limit;
    let words = params.words;
    write!(text, "cores {cores}, limit {limit}")?;
    writeln!(text, ", words {words}")
}

/// Puts the log by which the run is looked at.
fn put_log(text: &mut String, which: Which, edges: usize) -> Put
    ensures { OnOk result (string_bytes text.new ≡ string_bytes text.old ++ log_text which edges) }
{
    let name = log_name(which);
    writeln!(text, "log {name}, edges {edges}")
}

/// The name of a log.
fn log_name(which: Which) -> &'static str
    ensures { result.now ≡ log_name which }
{
    match which {
        Which::Reduced => "reduced",
        Which::Regulated => "regulated",
    }
}
