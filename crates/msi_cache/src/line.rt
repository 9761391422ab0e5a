//! One line of a cache: a block's copy and the state that it is in.
ghost use Rattle.std.specs.Prelude.{◌≡◌, IfOk, IsTrue, Some, false, true, is_some};
ghost use Rattle.msi_cache.specs.Lines.{answer, asks, can_read, can_write, empty_line, has_row, is_allowed, line_after};
ghost use Rattle.msi_cache.specs.Lines.{line_asking, wanted};
ghost use Rattle.msi_cache.specs.Messages.{answer_seen, message_seen, request_seen};
ghost use Rattle.msi_cache.specs.Table.{Signal, is_transient, row};
ghost use Rattle.msi_cache.specs.declared.line.State.{State};
ghost use Rattle.msi_cache.specs.declared.messages.FromHome.{FromHome};
ghost use Rattle.msi_cache.specs.declared.messages.Response.{Response};

use crate::held::Held;
use crate::messages::{FromHome, Request, Response};
use crate::slots::{FromHomeSlot, ResponseSlot};
use access_times::Rider;
use rtr_types::{BLOCK_WORDS, Kind};
use std::alloc::{AllocError, Global};

/// The state of a line, by the Primer's names: the stable `I` (invalid), `S` (shared) and `M`
/// (modified), and the transient ones, in which the line waits for a message. `IsD`, `ImD` and `SmD`
/// wait for data on their way from the first state to the second; `MiA`, `SiA` and `IiA` wait for the
/// acknowledgement of a Put.
#[derive(Clone, Copy, PartialEq, Eq)]
pub enum State {
    I,
    S,
    M,
    IsD,
    ImD,
    SmD,
    MiA,
    SiA,
    IiA,
}

impl State {
    /// Whether the line waits for a message from home.
    pub fn is_transient(self) -> bool
        ensures { result ≡ is_transient self }
    {
        !matches!(self, State::I | State::S | State::M)
    }
}

/// A line: its state, and the copy of the block that it is for. In `I` the copy means nothing.
#[derive(Drop)]
pub struct Line<R> {
    pub state: State,
    pub block: u32,
    pub words: [u32; BLOCK_WORDS],
    pub rider: Held<R>,
}

impl<R: Rider> Line<R> {
    /// A line that holds nothing.
    pub(crate) fn empty(alloc: Global) -> Result<Line<R>, AllocError>
        ensures { IfOk result (λ line. line ≡ empty_line R.riding.fresh) }
    {
        let rider = Held::fresh(alloc)?;
        Ok(Line {
            state: State::I,
            block: 0,
            words: [0; BLOCK_WORDS],
            rider,
        })
    }

    /// Holds nothing any more.
    pub(crate) fn clear(&mut self)
        ensures { self.new ≡ empty_line R.riding.fresh }
    {
        self.state = State::I;
        self.block = 0;
        self.words = [0; BLOCK_WORDS];
        self.rider.forget();
    }

    /// Whether the line has the block's copy and it may be read.
    pub(crate) fn can_read(&self, block: u32) -> bool
        ensures { result ≡ can_read self.now block }
    {
        self.block == block && matches!(self.state, State::S | State::M | State::SmD)
    }

    /// Whether the line has the block's copy and it may be written.
    pub(crate) fn can_write(&self, block: u32) -> bool
        ensures { result ≡ can_write self.now block }
    {
        self.block == block && matches!(self.state, State::M)
    }

    /// Whether an access of this kind may be made at the line now.
    pub(crate) fn allows(&self, block: u32, kind: Kind) -> bool
        ensures { result ≡ is_allowed self.now block kind }
    {
        if kind.is_write() {
            self.can_write(block)
        } else {
            self.can_read(block)
        }
    }

    /// Whether the message is about the line's block and the table has a row for it.
    pub(crate) fn expects(&self, message: &FromHome<R>) -> bool
        ensures { result ≡ has_row self.now message.now }
    {
        let has_row = match message {
            FromHome::BlockData { .. } => {
                matches!(self.state, State::IsD | State::ImD | State::SmD)
            }
            FromHome::PutAck { .. } => {
                matches!(self.state, State::MiA | State::SiA | State::IiA)
            }
            FromHome::Inv { .. } => matches!(self.state, State::S | State::SmD | State::SiA),
            FromHome::FwdGetS { .. } | FromHome::FwdGetM { .. } => {
                matches!(self.state, State::M | State::MiA)
            }
        };
        has_row && self.block == message.block()
    }

    /// What to ask home for, for an access that isn't allowed yet: the block, or first that another block's
    /// copy is taken back.
    pub(crate) fn wanted(&self, block: u32, kind: Kind) -> Request<&R>
        requires still { is_transient self.now.state ≡ false }
        requires needed { is_allowed self.now block kind ≡ false }
        ensures row { IsTrue (is_some (wanted self.now block kind)) }
        ensures asks { request_seen result ≡ asks self.now block kind }
    {
        let rider = self.rider.get();
        match self.state {
            State::S if self.block == block => Request::GetM { block },
            State::S => Request::PutS {
                block: self.block,
                rider,
            },
            State::M => Request::PutM {
                block: self.block,
                words: self.words,
                rider,
            },
            _ if kind.is_write() => Request::GetM { block },
            _ => Request::GetS { block },
        }
    }

    /// What is wanted was asked for: the line waits for it.
    pub(crate) fn ask(&mut self, block: u32, kind: Kind)
        requires still { is_transient self.old.state ≡ false }
        requires needed { is_allowed self.old block kind ≡ false }
        ensures line { self.new ≡ line_asking self.old block kind }
        ensures waits { is_transient self.new.state ≡ true }
    {
        self.state = match self.state {
            State::S if self.block == block => State::SmD,
            State::S => State::SiA,
            State::M => State::MiA,
            _ => {
                self.block = block;
                if kind.is_write() {
                    State::ImD
                } else {
                    State::IsD
                }
            }
        };
    }

    /// What home has to hear once the line has taken this message about its block: none where the table's
    /// row has no answer. It has the words and the rider that the line has before.
    pub(crate) fn answer(&self, message: FromHome<&R>) -> Option<Response<&R>>
        requires { IsTrue (has_row self.now (message_seen message)) }
        ensures { answer_seen result ≡ answer self.now (message_seen message.entry) }
    {
        let (block, rider) = (self.block, self.rider.get());
        match message {
            FromHome::BlockData { .. } | FromHome::PutAck { .. } => None,
            FromHome::Inv { .. } => Some(Response::InvAck { block, rider }),
            FromHome::FwdGetS { .. } | FromHome::FwdGetM { .. } => Some(Response::OwnerData {
                block,
                words: self.words,
                rider,
            }),
        }
    }

    /// Takes a message from home about this line's block.
    pub(crate) fn hear(&mut self, message: FromHome<&R>)
        requires { IsTrue (has_row self.old (message_seen message)) }
        ensures { self.new ≡ line_after R.riding self.old (message_seen message.entry) }
    {
        match message {
            FromHome::BlockData { words, rider, .. } => self.fill(words, rider),
            FromHome::PutAck { .. } => self.state = State::I,
            FromHome::FwdGetS { .. } => self.state = self.state_after(message),
            FromHome::Inv { .. } | FromHome::FwdGetM { .. } => {
                self.state = self.state_after(message);
                self.rider.forget();
            }
        }
    }

    /// Takes a message from home about this line's block, which the table answers, and puts the answer there. Where the
    /// copy ends, its rider is handed over to the answer.
    pub(crate) fn respond(&mut self, message: FromHome<&R>, reply: &mut ResponseSlot<R>)
        requires row { IsTrue (has_row self.old (message_seen message)) }
        requires answered { IsTrue (is_some (answer self.old (message_seen message))) }
        ensures line { self.new ≡ line_after R.riding self.old (message_seen message.entry) }
        ensures reply { Some reply.new ≡ answer self.old (message_seen message.entry) }
    {
        let (block, words) = (self.block, self.words);
        let next = self.state_after(message);
        match message {
            FromHome::Inv { .. } => {
                let ack = Response::InvAck { block, rider: () };
                reply.put_given(ack, &mut self.rider);
            }
            FromHome::FwdGetM { .. } => {
                let rider = ();
                let data = Response::OwnerData {
                    block,
                    words,
                    rider,
                };
                reply.put_given(data, &mut self.rider);
            }
            _ => {
                let rider = self.rider.get();
                reply.put(Response::OwnerData {
                    block,
                    words,
                    rider,
                });
            }
        }
        self.state = next;
    }

    /// The line's state once it has taken such a message about its block, which the table answers.
    fn state_after(&self, message: FromHome<&R>) -> State
        requires row { IsTrue (has_row self.now (message_seen message)) }
        requires answered { IsTrue (is_some (answer self.now (message_seen message))) }
        ensures { result ≡ (line_after R.riding self.now (message_seen message.entry)).state }
    {
        match (message, self.state) {
            (FromHome::FwdGetS { .. }, State::MiA) => State::SiA,
            (FromHome::FwdGetS { .. }, _) => State::S,
            (FromHome::Inv { .. }, State::SmD) => State::ImD,
            (_, State::SiA | State::MiA) => State::IiA,
            _ => State::I,
        }
    }

    /// Takes the message that lies here, about this line's block. Where the table has its rider replaced, the rider
    /// is handed over.
    pub(crate) fn take(&mut self, slot: &mut FromHomeSlot<R>)
        requires { IsTrue (has_row self.old slot.old) }
        ensures { self.new ≡ line_after R.riding self.old slot.old }
    {
        match self.state {
            State::IsD => {
                slot.hand_over(&mut self.words, &mut self.rider);
                self.state = State::S;
            }
            State::ImD => {
                slot.hand_over(&mut self.words, &mut self.rider);
                self.state = State::M;
            }
            State::SmD if matches!(slot.open(), FromHome::BlockData { .. }) => {
                slot.hand_over_absorbing(&mut self.words, &mut self.rider);
                self.state = State::M;
            }
            _ => self.hear(slot.open()),
        }
    }

    /// Takes the data that end a miss. A read copy that is upgraded has been read in the meantime,
    /// so the new rider absorbs the old one.
    fn fill(&mut self, words: [u32; BLOCK_WORDS], rider: &R)
        requires { IsTrue (is_some (row Signal.BlockData self.old.state)) }
        ensures { self.new ≡ line_after R.riding self.old (FromHome.BlockData self.old.block words rider.now) }
    {
        self.words = words;
        match self.state {
            State::SmD => {
                self.rider.renew(rider);
                self.state = State::M;
            }
            State::IsD => {
                self.rider.copy_from(rider);
                self.state = State::S;
            }
            _ => {
                self.rider.copy_from(rider);
                self.state = State::M;
            }
        }
    }
}
