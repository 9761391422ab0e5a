//! The messages between a cache and the home. Those that move a copy of a block have its four words
//! and what rides on the copy.
ghost use Rattle.std.specs.Prelude.{◌≡◌};
ghost use Rattle.msi_cache.specs.Messages.{block_of, message_seen, message_with, request_block, request_seen};
ghost use Rattle.msi_cache.specs.Messages.{response_block, response_seen};

use access_times::{Rider, copied};
use rtr_types::BLOCK_WORDS;

/// What a cache asks of the home: to share a block, to own it, or to give a shared or an owned copy
/// back.
#[derive(Clone, Copy, Drop, PartialEq, Eq)]
pub enum Request<R> {
    GetS {
        block: u32,
    },
    GetM {
        block: u32,
    },
    PutS {
        block: u32,
        rider: R,
    },
    PutM {
        block: u32,
        words: [u32; BLOCK_WORDS],
        rider: R,
    },
}

impl<R> Request<R> {
    /// The request with its rider lent.
    pub fn lent(&self) -> Request<&R>
        ensures { request_seen result ≡ self.now }
    {
        match self {
            Request::GetS { block } => Request::GetS { block: *block },
            Request::GetM { block } => Request::GetM { block: *block },
            Request::PutS { block, rider } => Request::PutS {
                block: *block,
                rider,
            },
            Request::PutM {
                block,
                words,
                rider,
            } => Request::PutM {
                block: *block,
                words: *words,
                rider,
            },
        }
    }

    /// The block that the request is about.
    pub fn block(&self) -> u32
        ensures { result ≡ request_block self.now }
    {
        match self {
            Request::GetS { block }
            | Request::GetM { block }
            | Request::PutS { block, .. }
            | Request::PutM { block, .. } => *block,
        }
    }
}

impl<'a, R: Rider> Request<&'a R> {
    /// The request with a copy of the rider that it was lent.
    pub fn owned(self) -> Request<R>
        ensures { result ≡ request_seen self.entry }
    {
        match self {
            Request::GetS { block } => Request::GetS { block },
            Request::GetM { block } => Request::GetM { block },
            Request::PutS { block, rider } => Request::PutS {
                block,
                rider: copied(rider),
            },
            Request::PutM {
                block,
                words,
                rider,
            } => Request::PutM {
                block,
                words,
                rider: copied(rider),
            },
        }
    }
}

/// What a cache answers to the home: that it has given up its shared copy, or the copy that it owns.
#[derive(Clone, Copy, Drop, PartialEq, Eq)]
pub enum Response<R> {
    InvAck {
        block: u32,
        rider: R,
    },
    OwnerData {
        block: u32,
        words: [u32; BLOCK_WORDS],
        rider: R,
    },
}

impl<R> Response<R> {
    /// The block that the response is about.
    pub fn block(&self) -> u32
        ensures { result ≡ response_block self.now }
    {
        match self {
            Response::InvAck { block, .. } | Response::OwnerData { block, .. } => *block,
        }
    }

    /// The response with its rider lent.
    pub fn lent(&self) -> Response<&R>
        ensures { response_seen result ≡ self.now }
    {
        match self {
            Response::InvAck { block, rider } => Response::InvAck {
                block: *block,
                rider,
            },
            Response::OwnerData {
                block,
                words,
                rider,
            } => Response::OwnerData {
                block: *block,
                words: *words,
                rider,
            },
        }
    }
}

impl<'a, R: Rider> Response<&'a R> {
    /// The response with a copy of the rider that it was lent.
    pub fn owned(self) -> Response<R>
        ensures { result ≡ response_seen self.entry }
    {
        match self {
            Response::InvAck { block, rider } => Response::InvAck {
                block,
                rider: copied(rider),
            },
            Response::OwnerData {
                block,
                words,
                rider,
            } => Response::OwnerData {
                block,
                words,
                rider: copied(rider),
            },
        }
    }
}

/// What the home sends to a cache: that the owned copy is to be shared or given up, that a shared copy
/// is to be given up, that a Put was taken, or the block's data, which end a miss.
#[derive(Clone, Copy, Drop, PartialEq, Eq)]
pub enum FromHome<R> {
    FwdGetS {
        block: u32,
    },
    FwdGetM {
        block: u32,
    },
    Inv {
        block: u32,
    },
    PutAck {
        block: u32,
    },
    BlockData {
        block: u32,
        words: [u32; BLOCK_WORDS],
        rider: R,
    },
}

impl<R: Copy> FromHome<R> {
    /// The message with this rider, where it has one, in place of its own.
    pub fn riding<T: Drop>(self, rider: T) -> FromHome<T>
        ensures { result ≡ message_with (λ own. rider) self }
    {
        match self {
            FromHome::FwdGetS { block } => FromHome::FwdGetS { block },
            FromHome::FwdGetM { block } => FromHome::FwdGetM { block },
            FromHome::Inv { block } => FromHome::Inv { block },
            FromHome::PutAck { block } => FromHome::PutAck { block },
            FromHome::BlockData { block, words, .. } => FromHome::BlockData {
                block,
                words,
                rider,
            },
        }
    }
}

impl<R> FromHome<R> {
    /// The block that the message is about.
    pub fn block(&self) -> u32
        ensures { result ≡ block_of self.now }
    {
        match self {
            FromHome::FwdGetS { block }
            | FromHome::FwdGetM { block }
            | FromHome::Inv { block }
            | FromHome::PutAck { block }
            | FromHome::BlockData { block, .. } => *block,
        }
    }

    /// The message with its rider lent.
    pub fn lent(&self) -> FromHome<&R>
        ensures { message_seen result ≡ self.now }
    {
        match self {
            FromHome::FwdGetS { block } => FromHome::FwdGetS { block: *block },
            FromHome::FwdGetM { block } => FromHome::FwdGetM { block: *block },
            FromHome::Inv { block } => FromHome::Inv { block: *block },
            FromHome::PutAck { block } => FromHome::PutAck { block: *block },
            FromHome::BlockData {
                block,
                words,
                rider,
            } => FromHome::BlockData {
                block: *block,
                words: *words,
                rider,
            },
        }
    }
}
