//! The entries that a home keeps.
ghost use Rattle.std.specs.Prelude.{◌≡◌, ◌<◌, IfSome, IsTrue, None, OnErr, OnOk, length, slice_index_or};
ghost use Rattle.msi_cache.specs.Messages.{request_seen};
ghost use Rattle.msi_directory.specs.Deeds.{request_deed, response_deed};
ghost use Rattle.msi_directory.specs.KeptDeeds.{IsDoneAt};
ghost use Rattle.msi_directory.specs.Entries.{has_request_row, has_response_row};
ghost use Rattle.msi_directory.specs.Fitting.{stage_fits};
ghost use Rattle.msi_directory.specs.Kept.{IsAt, IsEven, is_kept, kept_more, nothing_kept, place_of};
ghost use Rattle.msi_directory.specs.declared.entry.Stage.{Stage};
ghost use Rattle.msi_directory.specs.declared.entry.Stage.TheVariants.{Unshared};
ghost use Rattle.msi_directory.specs.declared.home_copies.HomeCopy.{HomeCopy};

use crate::entry::{Entry, Served, Stage};
use crate::home_copies::HomeCopy;
use access_times::Rider;
use indexmap::IndexMap;
use msi_cache::{Held, Request, ResponseSlot};
use rtr_types::CORES_MAX;
use std::alloc::{AllocError, Global};
use std::marker::Model;

/// How many shortcuts there are.
const SHORTCUTS: usize = 64;

/// The entries of some blocks, in the order in which they came. The map goes from a block to its stage, and
/// copies lie apart in the map's order, so that a look for a block or a stage touches no copy.
///
/// Most looks are for few blocks again and again. So the place of the newest block of each remainder is at
/// hand, and the map is searched where another block has that place.
#[derive(Drop)]
pub(crate) struct KeptEntries<R> {
    stages: IndexMap<u32, Stage>,
    copies: Vec<HomeCopy<R>>,
    shortcuts: [usize; SHORTCUTS],
}

impl<R> Model for KeptEntries<R> {
    ghost use Rattle.std.specs.Prelude.{◌≡◌, length};
    ghost use Rattle.indexmap.specs.IndexMap.{keys, values};
    ghost use Rattle.msi_directory.specs.Kept.{Kept};

    ghost Value = { Kept R };

    ghost view = { λ a. record { blocks = keys a.stages; stages = values a.stages; copies = a.copies.items } };

    ghost invariant = { λ a. (length a.copies.items ≡ length a.stages.entries) × (length a.shortcuts ≡ 64) };
}

impl<R> KeptEntries<R> {
    /// No entries.
    pub(crate) fn new(alloc: Global) -> KeptEntries<R>
        ensures { result ≡ nothing_kept }
    {
        KeptEntries {
            stages: IndexMap::new(alloc),
            copies: Vec::new(alloc),
            shortcuts: [0; SHORTCUTS],
        }
    }

    /// Keeps no entry any more.
    pub(crate) fn clear(&mut self)
    where
        R: Drop,
        ensures { self.new ≡ nothing_kept }
    {
        self.stages.clear();
        self.copies.clear();
    }

    /// How many entries there are.
    pub(crate) fn len(&self) -> usize
        ensures { result ≡ length self.now.blocks }
    {
        self.stages.len()
    }

    /// The place of a block's entry: none exactly where there is no entry.
    pub(crate) fn place(&self, block: u32) -> Option<usize>
        ensures place { result ≡ place_of self.now.blocks block }
        ensures stage { IfSome result (λ place. place < length self.now.stages) }
        ensures copy { IfSome result (λ place. place < length self.now.copies) }
        ensures even { IsEven self.now }
    {
        // `len` says that no block has two entries
        let _count = self.stages.len();
        let near = self.shortcuts[block as usize % SHORTCUTS];
        match self.stages.get_index(near) {
            Some((kept, _)) if *kept == block => Some(near),
            _ => self.stages.get_index_of(&block),
        }
    }

    /// The place of a block that has an entry.
    pub(crate) fn find(&self, block: u32) -> usize
        requires { IsTrue (is_kept self.now.blocks block) }
        ensures { IsAt self.now block result }
    {
        self.place(block).unwrap()
    }

    /// The stage at a place.
    pub(crate) fn stage(&self, place: usize) -> Stage
        requires { place < length self.now.stages }
        ensures { (d : Stage) → result ≡ slice_index_or self.now.stages place d }
    {
        self.stages[place]
    }

    /// The copy at a place.
    pub(crate) fn copy(&self, place: usize) -> &HomeCopy<R>
        requires { place < length self.now.copies }
        ensures { (d : HomeCopy R) → result.now ≡ slice_index_or self.now.copies place d }
    {
        &self.copies[place]
    }

    /// Keeps one more block's entry, behind the others. After want of memory nothing has changed.
    pub(crate) fn add(&mut self, block: u32, entry: Entry<R>) -> Result<(), AllocError>
    where
        R: Drop,
        requires { place_of self.old.blocks block ≡ None }
        ensures ok { OnOk result (self.new ≡ kept_more self.old block entry) }
        ensures err { OnErr result (self.new ≡ self.old) }
    {
        let place = self.stages.len();
        let Entry {
            stage,
            words,
            rider,
        } = entry;
        let rider = Held::new(*self.copies.allocator(), rider)?;
        self.copies.reserve(1)?;
        self.stages.insert(block, stage)?;
        self.shortcuts[block as usize % SHORTCUTS] = place;
        self.copies.push_reserved(HomeCopy { words, rider });
        Ok(())
    }
}

// The table's rows, on the entry at a place.
impl<R: Rider> KeptEntries<R> {
    /// Takes a request for the block there. The rider of data which are sent is in hand afterwards.
    pub(crate) fn serve(
        &mut self,
        place: usize,
        from: u8,
        request: Request<&R>,
        hand: &mut Held<R>,
    ) -> Served
        requires from { from < CORES_MAX }
        requires stage { place < length self.old.stages }
        requires copy { place < length self.old.copies }
        requires row { IsTrue (has_request_row (slice_index_or self.old.stages place Unshared) from
            (request_seen request)) }
        ensures { IsDoneAt (request_deed R.riding from (request_seen request.entry)) self.old self.new place
            hand.new result }
    {
        let stage = &mut self.stages[place];
        let answer = self.copies[place].serve(stage, from, request, hand);
        let free = stage.is_free();
        Served { answer, free }
    }

    /// Takes the response that lies here, about the block there. An owner's rider is handed over.
    pub(crate) fn receive(
        &mut self,
        place: usize,
        from: u8,
        response: &mut ResponseSlot<R>,
        hand: &mut Held<R>,
    ) -> Served
        requires from { from < CORES_MAX }
        requires stage { place < length self.old.stages }
        requires copy { place < length self.old.copies }
        requires fits { IsTrue (stage_fits (slice_index_or self.old.stages place Unshared)) }
        requires row { IsTrue (has_response_row (slice_index_or self.old.stages place Unshared) from response.old) }
        ensures { IsDoneAt (response_deed R.riding from response.old) self.old self.new place hand.new result }
    {
        let stage = &mut self.stages[place];
        let answer = self.copies[place].receive(stage, from, response, hand);
        let free = stage.is_free();
        Served { answer, free }
    }
}
