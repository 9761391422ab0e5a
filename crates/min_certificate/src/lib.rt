//! Certificates that a recording's reduced log is least: `certify` makes one, and `check` judges one, whoever made it.
//!
//! An entry is good if it has its own count at its own place, and elsewhere at least what the entry before it on its
//! core has. Everywhere it has at least what the entries of its logged sources have. So good entries are never too low.
//! One that is too high makes an edge look unneeded, and is refused.
//!
//! Proved: `check` says yes only where the recording is determinate and its reduced log is least, whoever made the
//! certificate. Else it names the first failure in the order of the tests, and it accepts what `certify` gave.
//! `certify` gives exact entries, or names the first edge that is implied or no conflict. `certificate_tests`: whether
//! a certificate's entries are good or exact and an edge is needed can be computed.
#![tactic(auto)]

mod answers;
mod certifying;
mod checking;
mod core_accesses;
mod entries;
mod exact_clocks;
pub mod laws;
mod places;

pub use answers::{CertFault, CheckFailure, CheckFault};
pub use certificate_codec::{CLOCKS, Certificate, END, read_certificate, spell_certificate};
pub use certifying::certify;
pub use checking::check;
