//! The home's own copy of a block, and the table's rows on it and on the block's stage.
ghost use Rattle.std.specs.Prelude.{◌≡◌, ◌<◌, IsTrue, Some, if◌then◌else◌, is_some};
ghost use Rattle.msi_cache.specs.Messages.{request_seen};
ghost use Rattle.msi_cache.specs.Table.{Ask, Reply};
ghost use Rattle.msi_cache.specs.declared.messages.FromHome.{FromHome};
ghost use Rattle.msi_cache.specs.declared.messages.Request.{Request};
ghost use Rattle.msi_directory.specs.Deeds.{IsDoneTo, request_deed, response_deed, row_deed};
ghost use Rattle.msi_directory.specs.Entries.{answer_by, answer_riding, answer_to_request};
ghost use Rattle.msi_directory.specs.Entries.{entry_after_request, entry_by, entry_met, has_request_row};
ghost use Rattle.msi_directory.specs.Entries.{has_response_row};
ghost use Rattle.msi_directory.specs.Fitting.{stage_fits};
ghost use Rattle.msi_directory.specs.Kept.{entry_of};
ghost use Rattle.msi_directory.specs.Table.{own_from, request_row, response_row};
ghost use Rattle.msi_directory.specs.declared.entry.Stage.TheVariants.{Data};
ghost use Rattle.rtr_types.specs.CoreSets.{no_cores};

use crate::entry::{HomeAnswer, Stage};
use access_times::Rider;
use msi_cache::{FromHome, Held, Request, Response, ResponseSlot};
use rtr_types::{BLOCK_WORDS, CORES_MAX, CoreSet};
use std::mem;

/// The home's own copy of a block: its words, and what rides on it. While a cache owns the block the copy is
/// an old one. The block's stage lies apart, so that a look at a stage touches no copy.
#[derive(Drop)]
pub(crate) struct HomeCopy<R> {
    pub(crate) words: [u32; BLOCK_WORDS],
    pub(crate) rider: Held<R>,
}

/// Which core sent a message, and the block that it is about.
#[derive(Clone, Copy)]
struct About {
    from: u8,
    block: u32,
}

// Each row of the table, on a block's stage and copy. An answer has no rider: that of data which are sent is put in
// hand. An owner gets the copy's own, and the copy is left with none; a core that only reads gets an equal one.
impl<R: Rider> HomeCopy<R> {
    /// Takes a request for this block. The rider of data which are sent is in hand afterwards.
    pub(crate) fn serve(
        &mut self,
        stage: &mut Stage,
        from: u8,
        request: Request<&R>,
        hand: &mut Held<R>,
    ) -> HomeAnswer<()>
        requires from { from < CORES_MAX }
        requires row { IsTrue (has_request_row stage.old from (request_seen request)) }
        ensures { IsDoneTo (request_deed R.riding from (request_seen request.entry)) (entry_of stage.old self.old)
            (entry_of stage.new self.new) hand.new result }
    {
        match request {
            Request::GetS { block } => self.get(stage, About { from, block }, true, hand),
            Request::GetM { block } => self.get(stage, About { from, block }, false, hand),
            Request::PutS { block, rider } => self.put_shared(stage, from, block, rider),
            Request::PutM {
                block,
                words,
                rider,
            } => self.put_owned(stage, from, block, words, rider),
        }
    }

    /// Takes the response that lies here, about this block. An owner's rider is handed over, and that of data which
    /// are sent is in hand afterwards.
    pub(crate) fn receive(
        &mut self,
        stage: &mut Stage,
        from: u8,
        response: &mut ResponseSlot<R>,
        hand: &mut Held<R>,
    ) -> HomeAnswer<()>
        requires from { from < CORES_MAX }
        requires fits { IsTrue (stage_fits stage.old) }
        requires row { IsTrue (has_response_row stage.old from response.old) }
        ensures { IsDoneTo (response_deed R.riding from response.old) (entry_of stage.old self.old)
            (entry_of stage.new self.new) hand.new result }
    {
        match response.open() {
            Response::InvAck {
                block,
                rider: reads,
            } => {
                self.rider.absorb(reads);
                self.acknowledge(stage, About { from, block }, hand)
            }
            Response::OwnerData { block, .. } => {
                response.hand_over(&mut self.words, &mut self.rider);
                self.hand_over(stage, About { from, block }, hand)
            }
        }
    }

    /// A core wants to share the block, or to own it.
    fn get(
        &mut self,
        stage: &mut Stage,
        about: About,
        share: bool,
        hand: &mut Held<R>,
    ) -> HomeAnswer<()>
        requires from { about.from < CORES_MAX }
        requires row { IsTrue (is_some (request_row stage.old about.from (if share then Ask.GetS else Ask.GetM))) }
        ensures { IsDoneTo (request_deed R.riding about.from
            (if share then Request.GetS about.block else Request.GetM about.block))
            (entry_of stage.old self.old) (entry_of stage.new self.new) hand.new result }
    {
        match *stage {
            Stage::Owned { owner } => ask_owner(stage, owner, about, share),
            Stage::Shared { by } if share => {
                *stage = Stage::Shared {
                    by: by.with(about.from),
                };
                self.lend(about.from, about.block, hand)
            }
            Stage::Shared { by } => self.take_from(by.without(about.from), stage, about, hand),
            _ if share => {
                *stage = Stage::Shared {
                    by: CoreSet::empty().with(about.from),
                };
                self.lend(about.from, about.block, hand)
            }
            _ => {
                *stage = Stage::Owned { owner: about.from };
                self.give(about.from, about.block, hand)
            }
        }
    }

    /// A core is to own the block once the others no longer share it.
    fn take_from(
        &mut self,
        others: CoreSet,
        stage: &mut Stage,
        about: About,
        hand: &mut Held<R>,
    ) -> HomeAnswer<()>
        ensures entry { entry_of stage.new self.new ≡ entry_by R.riding (own_from others about.from)
            (entry_of stage.old self.old) self.old.words self.old.rider }
        ensures answer { answer_riding hand.new result ≡ answer_by (own_from others about.from) about.block
            (entry_met R.riding.absorbed (own_from others about.from) (entry_of stage.old self.old) self.old.words
            self.old.rider) }
    {
        if others.is_empty() {
            *stage = Stage::Owned { owner: about.from };
            return self.give(about.from, about.block, hand);
        }
        *stage = Stage::Acks {
            of: others,
            requester: about.from,
        };
        HomeAnswer {
            invalidate: others,
            send: None,
        }
    }

    /// A core gives up its shared copy. What it read goes with it, unless it no longer shares.
    fn put_shared(&mut self, stage: &mut Stage, from: u8, block: u32, rider: &R) -> HomeAnswer<()>
        requires from { from < CORES_MAX }
        requires row { IsTrue (has_request_row stage.old from (Request.PutS block rider.now)) }
        ensures entry { entry_of stage.new self.new
            ≡ entry_after_request R.riding (entry_of stage.old self.old) from
            (Request.PutS block rider.now) }
        ensures answer { (lent : R) → answer_riding lent result
            ≡ answer_to_request R.riding.absorbed (entry_of stage.old self.old) from
            (Request.PutS block rider.now) }
    {
        if let Stage::Shared { by } = *stage
            && by.has(from)
        {
            self.rider.absorb(rider);
            *stage = Stage::shared_by(by.without(from));
        }
        HomeAnswer::one(from, FromHome::PutAck { block })
    }

    /// A core gives back the copy that it owned. It is taken where the core still owns the block; a
    /// core that only shares it by now leaves the sharers.
    fn put_owned(
        &mut self,
        stage: &mut Stage,
        from: u8,
        block: u32,
        words: [u32; BLOCK_WORDS],
        rider: &R,
    ) -> HomeAnswer<()>
        requires from { from < CORES_MAX }
        requires row { IsTrue (has_request_row stage.old from (Request.PutM block words rider.now)) }
        ensures entry { entry_of stage.new self.new
            ≡ entry_after_request R.riding (entry_of stage.old self.old)
            from (Request.PutM block words rider.now) }
        ensures answer { (lent : R) → answer_riding lent result
            ≡ answer_to_request R.riding.absorbed (entry_of stage.old self.old)
            from (Request.PutM block words rider.now) }
    {
        match *stage {
            Stage::Shared { by } if by.has(from) => {
                *stage = Stage::shared_by(by.without(from));
            }
            Stage::Owned { owner } if owner == from => {
                *stage = Stage::Unshared;
                self.words = words;
                self.rider.copy_from(rider);
            }
            _ => {}
        }
        HomeAnswer::one(from, FromHome::PutAck { block })
    }

    /// A core has given up its shared copy. At the last one the requester owns the block.
    fn acknowledge(&mut self, stage: &mut Stage, about: About, hand: &mut Held<R>) -> HomeAnswer<()>
        requires from { about.from < CORES_MAX }
        requires row { IsTrue (is_some (response_row stage.old about.from Reply.InvAck)) }
        ensures { IsDoneTo (row_deed R.riding.fresh (λ at. response_row at about.from Reply.InvAck) about.block)
            (entry_of stage.old self.old) (entry_of stage.new self.new) hand.new result }
    {
        let Stage::Acks { of, requester } = *stage else {
            return HomeAnswer::nothing();
        };
        let left = of.without(about.from);
        if left.is_empty() {
            *stage = Stage::Owned { owner: requester };
            return self.give(requester, about.block, hand);
        }
        *stage = Stage::Acks {
            of: left,
            requester,
        };
        HomeAnswer::nothing()
    }

    /// The owner has given its data, which the entry has by now. The requester gets the block.
    fn hand_over(&mut self, stage: &mut Stage, about: About, hand: &mut Held<R>) -> HomeAnswer<()>
        requires from { about.from < CORES_MAX }
        requires fits { IsTrue (stage_fits stage.old) }
        requires row { IsTrue (is_some (response_row stage.old about.from Reply.OwnerData)) }
        ensures { IsDoneTo (row_deed R.riding.fresh (λ at. response_row at about.from Reply.OwnerData) about.block)
            (entry_of stage.old self.old) (entry_of stage.new self.new) hand.new result }
    {
        let Stage::Data {
            requester,
            share,
            ..
        } = *stage
        else {
            return HomeAnswer::nothing();
        };
        if share {
            *stage = Stage::Shared {
                by: CoreSet::empty().with(about.from).with(requester),
            };
            return self.lend(requester, about.block, hand);
        }
        *stage = Stage::Owned { owner: requester };
        self.give(requester, about.block, hand)
    }

    /// Sends the home's copy, as it is now, to a core that is to own the block. The rider goes with it: nothing rides
    /// on the home's copy from then on.
    fn give(&mut self, to: u8, block: u32, hand: &mut Held<R>) -> HomeAnswer<()>
        ensures copy { self.new ≡ record self.old { rider = R.riding.fresh } }
        ensures hand { hand.new ≡ self.old.rider }
        ensures answer { result
            ≡ record { invalidate = no_cores; send = Some (to, FromHome.BlockData block self.old.words tt) } }
    {
        mem::swap(&mut self.rider, hand);
        self.rider.forget();
        self.data(to, block)
    }

    /// Sends the home's copy, as it is now, to a core that only reads it. Both have its rider then.
    fn lend(&self, to: u8, block: u32, hand: &mut Held<R>) -> HomeAnswer<()>
        ensures hand { hand.new ≡ self.now.rider }
        ensures answer { result
            ≡ record { invalidate = no_cores; send = Some (to, FromHome.BlockData block self.now.words tt) } }
    {
        hand.copy_from(self.rider.get());
        self.data(to, block)
    }

    /// The words of the home's copy on their way, without a rider.
    fn data(&self, to: u8, block: u32) -> HomeAnswer<()>
        ensures { result
            ≡ record { invalidate = no_cores; send = Some (to, FromHome.BlockData block self.now.words tt) } }
    {
        HomeAnswer::one(
            to,
            FromHome::BlockData {
                block,
                words: self.words,
                rider: (),
            },
        )
    }
}

/// The owner is to send its copy, which the core is to share with it, or to own.
fn ask_owner(stage: &mut Stage, owner: u8, about: About, share: bool) -> HomeAnswer<()>
    ensures stage { stage.new ≡ Data owner about.from share }
    ensures answer { result ≡ record {
      invalidate = no_cores;
      send = Some (owner, if share then FromHome.FwdGetS about.block else FromHome.FwdGetM about.block);
    } }
{
    let About { from, block } = about;
    *stage = Stage::Data {
        of: owner,
        requester: from,
        share,
    };
    if share {
        HomeAnswer::one(owner, FromHome::FwdGetS { block })
    } else {
        HomeAnswer::one(owner, FromHome::FwdGetM { block })
    }
}
