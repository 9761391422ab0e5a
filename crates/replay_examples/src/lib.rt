//! Recordings whose logs were written by hand: their replays, audits and cuts, and recordings of cores with store
//! buffers. It has tests alone, and stands apart so that the crates above replays and audits don't wait for it.
//!
//! Tested: `replay_core`, `replay_audit`, `cut_replay`, `tso_codec` and `tso_replay`; cuts against a slow search.
#![tactic(auto)]

#[cfg(test)]
mod audits;
#[cfg(test)]
mod cuts;
#[cfg(test)]
mod replays;
#[cfg(test)]
mod slow_cuts;
#[cfg(test)]
mod tso_files;
#[cfg(test)]
mod tso_replays;
