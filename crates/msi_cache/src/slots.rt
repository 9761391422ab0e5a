//! The places in which messages lie while they are under way. A message is written where it is to lie, and
//! read where it lies: only a rider that it really has is copied.
ghost use Rattle.std.specs.Prelude.{◌≡◌};
ghost use Rattle.msi_cache.specs.Handing.{owner_rider, owner_words};
ghost use Rattle.msi_cache.specs.Lines.{rider_of, words_of};
ghost use Rattle.msi_cache.specs.Messages.{block_of, message_seen, message_with, request_block, request_seen};
ghost use Rattle.msi_cache.specs.Messages.{response_block, response_seen, response_with, signal};
ghost use Rattle.msi_cache.specs.Table.{Signal};

use crate::held::Held;
use crate::messages::{FromHome, Request, Response};
use access_times::Rider;
use rtr_types::BLOCK_WORDS;
use std::alloc::{AllocError, Global};
use std::marker::Model;
use std::mem;

/// A message without its rider, which lies apart from it.
pub trait Bare<R>: Drop {
    /// The message with its rider.
    type Whole;

    /// The message with this rider, where it has one.
    ghost with: { R → Self → Self.Whole };

    /// Some message, which nobody sent.
    fn blank() -> Self;
}

impl<R> Bare<R> for Request<()> {
    ghost use Rattle.msi_cache.specs.Messages.{request_with};

    type Whole = Request<R>;

    ghost with = { λ rider bare. request_with (λ u. rider) bare };

    fn blank() -> Self {
        Request::GetS { block: 0 }
    }
}

impl<R> Bare<R> for Response<()> {
    ghost use Rattle.msi_cache.specs.Messages.{response_with};

    type Whole = Response<R>;

    ghost with = { λ rider bare. response_with (λ u. rider) bare };

    fn blank() -> Self {
        Response::InvAck {
            block: 0,
            rider: (),
        }
    }
}

impl<R> Bare<R> for FromHome<()> {
    ghost use Rattle.msi_cache.specs.Messages.{message_with};

    type Whole = FromHome<R>;

    ghost with = { λ rider bare. message_with (λ u. rider) bare };

    fn blank() -> Self {
        FromHome::PutAck { block: 0 }
    }
}

/// A place for a message: the message without its rider, and the rider, which lies apart from it.
#[derive(Drop)]
pub struct Slot<M: Bare<R>, R> {
    bare: M,
    rider: Held<R>,
}

/// A place for a request.
pub type RequestSlot<R> = Slot<Request<()>, R>;

/// A place for a response.
pub type ResponseSlot<R> = Slot<Response<()>, R>;

/// A place for a message from home.
pub type FromHomeSlot<R> = Slot<FromHome<()>, R>;

impl<M: Bare<R>, R> Model for Slot<M, R> {
    ghost Value = { M.Whole };

    ghost view = { λ a. M.with a.rider a.bare };
}

impl<M: Bare<R>, R: Rider> Slot<M, R> {
    /// A place that was never written: contracts see some message in it, which nobody sent.
    pub fn blank(alloc: Global) -> Result<Slot<M, R>, AllocError> {
        let rider = Held::fresh(alloc)?;
        let bare = M::blank();
        Ok(Slot { bare, rider })
    }
}

impl<R: Rider> Slot<Request<()>, R> {
    /// Puts the request here.
    pub fn put(&mut self, request: Request<&R>)
        ensures { self.new ≡ request_seen request.entry }
    {
        match request {
            Request::GetS { block } => self.bare = Request::GetS { block },
            Request::GetM { block } => self.bare = Request::GetM { block },
            Request::PutS { block, rider } => {
                self.bare = Request::PutS { block, rider: () };
                self.rider.copy_from(rider);
            }
            Request::PutM {
                block,
                words,
                rider,
            } => {
                self.bare = Request::PutM {
                    block,
                    words,
                    rider: (),
                };
                self.rider.copy_from(rider);
            }
        }
    }

    /// The request that lies here, with its rider lent.
    pub fn open(&self) -> Request<&R>
        ensures { request_seen result ≡ self.now }
    {
        let rider = self.rider.get();
        match self.bare {
            Request::GetS { block } => Request::GetS { block },
            Request::GetM { block } => Request::GetM { block },
            Request::PutS { block, .. } => Request::PutS { block, rider },
            Request::PutM { block, words, .. } => Request::PutM {
                block,
                words,
                rider,
            },
        }
    }

    /// The block that the request is about.
    pub fn block(&self) -> u32
        ensures { result ≡ request_block self.now }
    {
        self.bare.block()
    }
}

impl<R: Rider> Slot<Response<()>, R> {
    /// Puts the response here.
    pub fn put(&mut self, response: Response<&R>)
        ensures { self.new ≡ response_seen response.entry }
    {
        let (bare, rider) = match response {
            Response::InvAck { block, rider } => (Response::InvAck { block, rider: () }, rider),
            Response::OwnerData {
                block,
                words,
                rider,
            } => {
                let bare = Response::OwnerData {
                    block,
                    words,
                    rider: (),
                };
                (bare, rider)
            }
        };
        self.bare = bare;
        self.rider.copy_from(rider);
    }

    /// Puts the response here with a rider that is handed over: the giver keeps one that holds nothing.
    pub fn put_given(&mut self, response: Response<()>, rider: &mut Held<R>)
        ensures place { self.new ≡ response_with (λ own. rider.old) response }
        ensures giver { rider.new ≡ R.riding.fresh }
    {
        self.bare = response;
        mem::swap(&mut self.rider, rider);
        rider.forget();
    }

    /// The block that the response is about.
    pub fn block(&self) -> u32
        ensures { result ≡ response_block self.now }
    {
        self.bare.block()
    }

    /// The response that lies here, with its rider lent.
    pub fn open(&self) -> Response<&R>
        ensures { response_seen result ≡ self.now }
    {
        let rider = self.rider.get();
        match self.bare {
            Response::InvAck { block, .. } => Response::InvAck { block, rider },
            Response::OwnerData { block, words, .. } => Response::OwnerData {
                block,
                words,
                rider,
            },
        }
    }

    /// Hands an owner's words and rider over, where the response has them. The place is to be dropped: contracts see
    /// some response in it afterwards.
    pub fn hand_over(&mut self, words: &mut [u32; BLOCK_WORDS], rider: &mut Held<R>)
        ensures words { words.new ≡ owner_words self.old words.old }
        ensures rider { rider.new ≡ owner_rider self.old rider.old }
    {
        if let Response::OwnerData { words: given, .. } = self.bare {
            *words = given;
            mem::swap(&mut self.rider, rider);
        }
    }
}

impl<R: Rider> Slot<FromHome<()>, R> {
    /// Puts the message here.
    pub fn put(&mut self, message: FromHome<&R>)
        ensures { self.new ≡ message_seen message.entry }
    {
        self.bare = message.riding(());
        if let FromHome::BlockData { rider, .. } = message {
            self.rider.copy_from(rider);
        }
    }

    /// Puts the message here with the rider that is in hand, where it has data. What is in hand afterwards means
    /// nothing.
    pub fn put_handed(&mut self, message: FromHome<()>, hand: &mut Held<R>)
        ensures { self.new ≡ message_with (λ own. hand.old) message }
    {
        self.bare = message;
        mem::swap(&mut self.rider, hand);
    }

    /// The message that lies here, with its rider lent.
    pub fn open(&self) -> FromHome<&R>
        ensures { message_seen result ≡ self.now }
    {
        self.bare.riding(self.rider.get())
    }

    /// The block that the message is about.
    pub fn block(&self) -> u32
        ensures { result ≡ block_of self.now }
    {
        self.bare.block()
    }

    /// Hands the message's words and its rider over, where it has data. The place is to be dropped: contracts see
    /// some message in it afterwards.
    pub fn hand_over(&mut self, words: &mut [u32; BLOCK_WORDS], rider: &mut Held<R>)
        ensures words { words.new ≡ words_of self.old words.old }
        ensures rider { rider.new ≡ rider_of self.old rider.old }
    {
        if let FromHome::BlockData { words: sent, .. } = self.bare {
            *words = sent;
            mem::swap(&mut self.rider, rider);
        }
    }

    /// Hands the data's words and rider over to a copy that has a rider of its own, which the new one absorbs. The
    /// place is to be dropped: contracts see some message in it afterwards.
    pub fn hand_over_absorbing(&mut self, words: &mut [u32; BLOCK_WORDS], rider: &mut Held<R>)
        requires { signal self.old ≡ Signal.BlockData }
        ensures words { words.new ≡ words_of self.old words.old }
        ensures rider { rider.new ≡ R.riding.absorbed (rider_of self.old rider.old) rider.old }
    {
        if let FromHome::BlockData { words: sent, .. } = self.bare {
            *words = sent;
            mem::swap(&mut self.rider, rider);
            rider.absorb(self.rider.get());
        }
    }
}
