//! Recordings, certificates and thinned recordings as bytes, worked out by hand, in both versions and damaged. Slow
//! programs by the definitions thin and judge beside the fast ones. It has tests alone, and stands apart so that the
//! crates above don't wait for it.
//!
//! Tested: `race_log`, `log_codec`, `certificate_codec`, `min_certificate` and `vector_reduce`. Each byte of a short
//! certificate and of a thin file gets each other value. What `check` says is compared with a slow judge that looks
//! through all edges, accesses and instructions; `vector_reduce` runs against a slow program by reachability.
#![tactic(auto)]

#[cfg(test)]
mod bytes;
#[cfg(test)]
mod certificates;
#[cfg(test)]
mod damaged;
#[cfg(test)]
mod judged;
#[cfg(test)]
mod logs;
#[cfg(test)]
mod slow_against_fast;
#[cfg(test)]
mod slow_judge;
#[cfg(test)]
mod slow_thinning;
#[cfg(test)]
mod spellings;
#[cfg(test)]
mod thin_bytes;
#[cfg(test)]
mod thin_files;
#[cfg(test)]
mod thin_limits;
#[cfg(test)]
mod worked;
