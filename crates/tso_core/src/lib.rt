//! The machine with store buffers in code: cores of RV32I over private caches and one home that keeps them coherent.
//! Each core has a queue of the accesses that it has executed and that aren't ordered yet. It holds for every type of
//! riders and carries. A run is made of single steps, each chosen by a number, and a clerk is told of each instruction
//! in its core's program order.
//!
//! `BufferedMachine` keeps the invariant on which its moves rest, so a caller needs to know nothing of protocols. A
//! step can be made as long as some core hasn't ended.
//!
//! Proved: `step` takes the move that the choice numbers among those of the plain part (`taken`). It can be called
//! wherever some core hasn't ended, there is room, and the clerk accepts what the move tells. It does what the
//! definition does without taking memory (`moved`). It tells the clerk each instruction whose turn it is in program
//! order (`told`). It is paid for, and lets an ordered access find what was last written by an ordered one. It leaves
//! at most one cache that may write a block, and then no other that may read it (`keeps`). `new` is at the definition's
//! start. `done` is where no move can be made, and there the links are empty and `final_words` are what was last
//! written. `step_timed` is `step` on riders that record times, with what `tso_times` says of it. By the accesses
//! ordered so far, the rider that the clerk is handed with an ordered access has exactly the last write of its word.
//! For an access that writes it also has each core's last read since. The step leaves the riders with the times of
//! these and of that access, noted with the clerk's clock. A machine as `new` makes it has the times of no access.
//! `moves` marks exactly the moves that can be made, in the order in which a choice numbers them. `need`, `oldest` and
//! `stores` are what a core's next instruction needs, its oldest pending access and how many of these are stores.
#![tactic(auto)]

mod machine;
mod marking;
mod marks;
mod moving;
mod ordering;
mod parts;
mod queue;
mod receiving;
mod standing;
mod station;
mod stepped;
mod timed;
mod working;

pub use machine::BufferedMachine;
pub use marks::Marks;
pub use tso_state::Move;
