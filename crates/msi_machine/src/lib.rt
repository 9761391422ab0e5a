//! The machine in code: cores of RV32I over private caches and one home that keeps them coherent. It holds for every
//! type of riders and carries. A run is made of single steps, each chosen by a number, and a clerk is told of each
//! instruction that retires.
//!
//! `Machine` keeps the invariant on which its moves rest, so a caller needs to know nothing of protocols. A step can be
//! made as long as some core isn't done.
//!
//! Proved: `step` takes the move that the choice numbers among those of the plain part (`taken`). It can be called
//! wherever some core isn't done, there is room, and the clerk accepts. It does what the definition does and tells the
//! clerk (`moved`, `retired`, `told`). It is paid for, and finds in each word what was last written there. It leaves at
//! most one cache that may write a block, and then no other that may read it (`keeps`). `new` is at the definition's
//! start. At `done` the links are empty, and `final_words` are what was last written. `step_timed` is `step` on riders
//! that record times, with what `machine_times` says of it. A machine as `new` makes it stands for nothing retired.
//! `moves` marks exactly the moves that can be made, in the order in which a choice numbers them. `need` is what a core's
//! next instruction needs.
//! `data_alone_retire`: a block's data retire the waiting core's instruction, and no other message retires one.
#![tactic(auto)]

mod machine;
mod marks;
mod moving;
mod parts;
mod standing;
mod stepped;
mod timed;

pub use machine::{Machine, Stepped};
pub use marks::Marks;
pub use msi_state::Move;
