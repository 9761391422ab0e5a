//! The table that the workers of a replay share: a word for each word of memory, a done word and a seat for each core.
//!
//! The rule says that some order stands, and no history is kept of which. A store of a part of a word is a load and
//! then a compare-exchange, and so is an atomic memory operation. The exchange isn't tried again: if the recording is
//! determinate, it never fails. A seat looks up its next instruction and its logged sources once. A core that runs
//! local instructions takes no step: it goes on in one run, up to an access, a count or an edge (`locals`). So it does
//! behind a load and a store of a whole word, before what it needs next is looked up (`load_on`, `store_on`).
//!
//! Proved: each seat call names its one step of the table by a relation, and what the rule tells of it. `make` deals
//! each core a seat that has done, seen and holds nothing. The opening memory with done counts of 0 keeps the table's
//! rule, and as long as nothing was executed no other words do (`a_table_opens`). Rule and step give what is told of it
//! (`rule_and_step_tell`). Each of the eight kinds of step keeps the table's rule, by which some replay order of the
//! log stands for the words and views (`steps_keep_the_rule`). Whichever order stood before, that order with the step's
//! instructions at its end stands afterwards (`orders_go_on`, `orders_stay`). Where the recording is determinate by the
//! log, `load_word` answers the low order's value (`low`), and `store_word` is never refused (`sure`). `close` gives
//! what the play of a whole replay order leaves, and its accesses by core. It is refused for want of memory alone, with
//! table and seats as they were. No call waits, and the seat calls take no memory but for `make_room`.
#![tactic(auto)]

mod close;
mod closed;
mod gate;
mod job;
pub mod laws;
mod locals;
mod parts;
mod past;
mod raced;
mod rules;
mod seat;
mod table;
mod upcoming;
mod view;

pub use close::CloseFault;
pub use closed::Closed;
pub use gate::{Gate, OpenGate};
pub use job::Job;
pub use raced::Raced;
pub use rules::{
    ExchangeWord, HoldWord, LoadWord, PublishCount, RuleOf, SeeDone, StepKind, StoreWord,
    TakeFirst, TakeIn, Told,
};
pub use seat::CoreSeat;
pub use table::ReplayTable;
pub use view::{Own, View};
