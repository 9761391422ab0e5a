//! `rtr`, a race recorder and replayer for a small multiprocessor: one call of `rtr_program`.
//!
//! Tested: its stored run has every option of `record`, and wants what the slow model makes of them.
#![tactic(auto)]

use rtr_program::run_program;
use std::process::ExitCode;

fn main(rt: HostRuntime) -> ExitCode {
    run_program(&rt, rt.stdin(), rt.stdout(), rt.stderr())
}
