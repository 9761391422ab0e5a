//! Instrumentation traits: metadata on a block's copies (`Rider`) and on agents (`Carry`), and the observer of
//! retirements (`Clerk`). `Times` is the rider that records each word's last write and reads.
//!
//! A rider has places for the greatest number of cores, and most runs have few. So no rider is assigned: `copy_from`,
//! `renew`, `absorb` and `forget` cost what is there. A carry is joined and retired in place, and lent to the clerk.
//!
//! Proved: what riders, carries and clerks compute is what their ghost members say; `NoRider` and `NoCarry` hold
//! nothing. A rider is copied by a call whose clause is just that it is equal then. `Times` keeps each word's last
//! write and reads by its calls' clauses. `TimesClerk` is the bound of the clerks that note with clocks.
#![tactic(auto)]

mod carry;
mod clerk;
mod last_write;
mod reads;
mod rider;
mod times;
mod times_clerk;

pub use carry::{Carry, NoCarry};
pub use clerk::Clerk;
pub use rider::{NoRider, Rider, copied};
pub use times::Times;
pub use times_clerk::TimesClerk;
