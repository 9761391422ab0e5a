//! Clocks, times, least sets and the online reduction on short lists of accesses; links, caches, home and memory system
//! by calls. It has tests alone, and stands apart so that the crates above those don't wait for it.
//!
//! Tested: `clock_core`, `conflict_edge`, `access_times` and `online_reduce`, by calls with values from outside;
//! `link_order`, `msi_cache`, `msi_directory` and `msi_memory`: each row of the two tables, and what few words of a
//! memory of one block go through.
#![tactic(auto)]

#[cfg(test)]
mod accesses;
#[cfg(test)]
mod bounds_tests;
#[cfg(test)]
mod cache_tests;
#[cfg(test)]
mod clock_tests;
#[cfg(test)]
mod home_tests;
#[cfg(test)]
mod least_tests;
#[cfg(test)]
mod link_tests;
#[cfg(test)]
mod memory_tests;
#[cfg(test)]
mod noter_tests;
#[cfg(test)]
mod reduce_tests;
#[cfg(test)]
mod times_tests;
#[cfg(test)]
mod trail;
