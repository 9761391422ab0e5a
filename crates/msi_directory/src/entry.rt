//! A block's entry at the home, and what the home answers.
ghost use Rattle.std.specs.Prelude.{◌≡◌, ◌<◌, IsTrue, None, Some, is_some};
ghost use Rattle.msi_cache.specs.Messages.{request_seen, response_seen};
ghost use Rattle.msi_cache.specs.Table.{Ask, Reply};
ghost use Rattle.msi_cache.specs.declared.messages.FromHome.{FromHome};
ghost use Rattle.msi_cache.specs.declared.messages.Request.{Request};
ghost use Rattle.msi_cache.specs.declared.messages.Response.{Response};
ghost use Rattle.msi_directory.specs.Entries.{answer_by, answer_riding, answer_to_request, answer_to_response};
ghost use Rattle.msi_directory.specs.Entries.{entry_after_request, entry_after_response, entry_by, has_request_row};
ghost use Rattle.msi_directory.specs.Entries.{has_response_row};
ghost use Rattle.msi_directory.specs.Fitting.{stage_fits};
ghost use Rattle.msi_directory.specs.Table.{is_free, own_from, owner_of, request_row, response_row, shared_by};
ghost use Rattle.rtr_types.specs.CoreSets.{no_cores};

use access_times::Rider;
use msi_cache::{FromHome, Request, Response};
use rtr_types::{BLOCK_WORDS, CORES_MAX, CoreSet};

/// Who holds a block, as the home knows it: no cache (the Primer's I), these caches in S, or an owner
/// in M. In `Acks` and `Data` the block is busy: the home waits for the acknowledgements of the cores
/// `of`, or for the data of the owner `of`, and then sends the block to the requester, who is to share
/// it or to own it alone.
#[derive(Clone, Copy, PartialEq, Eq)]
pub enum Stage {
    Unshared,
    Shared { by: CoreSet },
    Owned { owner: u8 },
    Acks { of: CoreSet, requester: u8 },
    Data { of: u8, requester: u8, share: bool },
}

impl Stage {
    /// Whether a request for the block can be taken: it isn't busy.
    pub fn is_free(self) -> bool
        ensures { result ≡ is_free self }
    {
        !matches!(self, Stage::Acks { .. } | Stage::Data { .. })
    }

    /// The core that owns the block: none where it isn't owned.
    pub fn owner(self) -> Option<u8>
        ensures { result ≡ owner_of self }
    {
        match self {
            Stage::Owned { owner } => Some(owner),
            _ => None,
        }
    }

    /// Whether the table has a row for the request.
    pub(crate) fn expects_request<R>(self, from: u8, request: &Request<R>) -> bool
        ensures { result ≡ has_request_row self from request.now }
    {
        match request {
            Request::PutS { .. } => self.is_free() && self.owner() != Some(from),
            _ => self.is_free(),
        }
    }

    /// Whether the table has a row for the response.
    pub(crate) fn expects_response<R>(self, from: u8, response: &Response<R>) -> bool
        requires { from < CORES_MAX }
        ensures { result ≡ has_response_row self from response.now }
    {
        match (self, response) {
            (Stage::Acks { of, .. }, Response::InvAck { .. }) => of.has(from),
            (Stage::Data { of, .. }, Response::OwnerData { .. }) => of == from,
            _ => false,
        }
    }

    /// The stage in which these cores share the block.
    pub(crate) fn shared_by(by: CoreSet) -> Stage
        ensures { result ≡ shared_by by }
    {
        if by.is_empty() {
            Stage::Unshared
        } else {
            Stage::Shared { by }
        }
    }
}

/// What the home answers: the cores to which it sends Inv, and the one other message that it sends,
/// with the core to which it goes. There is none exactly where the table's row sends no single message.
#[derive(Clone, Copy, Drop, PartialEq, Eq)]
pub struct HomeAnswer<R> {
    pub invalidate: CoreSet,
    pub send: Option<(u8, FromHome<R>)>,
}

impl HomeAnswer<()> {
    /// The answer that sends nothing.
    pub(crate) fn nothing() -> Self
        ensures { result ≡ record { invalidate = no_cores; send = None } }
    {
        HomeAnswer {
            invalidate: CoreSet::empty(),
            send: None,
        }
    }

    /// The answer that sends one message.
    pub(crate) fn one(to: u8, message: FromHome<()>) -> Self
        ensures { result ≡ record { invalidate = no_cores; send = Some (to, message) } }
    {
        HomeAnswer {
            invalidate: CoreSet::empty(),
            send: Some((to, message)),
        }
    }

    /// The answer with this rider on the message that it sends, where that message has data.
    pub fn riding<T: Drop>(self, rider: T) -> HomeAnswer<T>
        ensures { result ≡ answer_riding rider self }
    {
        let send = match self.send {
            Some((to, message)) => Some((to, message.riding(rider))),
            None => None,
        };
        HomeAnswer {
            invalidate: self.invalidate,
            send,
        }
    }
}

/// A block at the home: who holds it, and the home's own copy. While a cache owns the block the copy
/// is an old one.
#[derive(Drop)]
pub struct Entry<R> {
    pub stage: Stage,
    pub words: [u32; BLOCK_WORDS],
    pub rider: R,
}

/// The home's copy of a block's words, and the core whose cache owns the block: none exactly where no cache does.
/// Where a cache owns it the words are old ones.
#[derive(Clone, Copy, PartialEq, Eq)]
pub struct HomeWords {
    pub words: [u32; BLOCK_WORDS],
    pub owner: Option<u8>,
}

/// What the home answers to a message whose rider was lent: the rider of data which are sent is in hand. The message's
/// block is free where it isn't busy by then.
#[derive(Clone, Copy)]
pub struct Served {
    pub answer: HomeAnswer<()>,
    pub free: bool,
}
