//! Whether a recording is determinate by one of its logs: every replay order gives each load the same value and ends
//! alike. The audit decides it, and the laws hold with given values too.
//!
//! An audit keeps clocks only of instructions to which an edge leads. `Undetermined` names the earliest access in the
//! low order that has an earlier one in conflict which the log doesn't order, and of those the latest. Room is taken
//! beforehand only up to a bound, since totals may say anything before they are replayed.
//!
//! Proved: `audit` passes exactly where the recording is determinate by the log, and refuses with exactly the first
//! reason. `ordered` and `judge` decide the same from counts and from the accesses of any whole order. So do
//! `WholeOrder::of` and `WholeOrder::judge`, which go along one walk. Where some whole order decides, every order
//! plays, agrees and goes on (`every_order_agrees`, clause `agrees`). Two accesses that conflict are never both ready
//! (`never_both`). Clause `valued` is about a whole order that decides with the values that each order is given. Then
//! every replay order plays, and has its conflicts before by the log. It gives each core the first of its loads, goes
//! on until it is whole, and ends in the same outcome.
#![tactic(auto)]

mod audit_fault;
mod audited;
mod clock_of;
mod judgement;
pub mod laws;
mod log_clocks;
mod marks;
mod touch;
mod trail;
mod unordered;
mod whole_order;

pub use audit_fault::AuditFault;
pub use audited::{Audited, audit, replayed};
pub use judgement::judge;
pub use touch::Touch;
pub use whole_order::{WholeOrder, ordered};
