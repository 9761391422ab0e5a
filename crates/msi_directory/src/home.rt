//! The home of all blocks.
ghost use Rattle.std.specs.Prelude.{◌≡◌, ◌<◌, ◌/◌, ◌%◌, ◌*◌, ◌+◌, ◌^◌, ℕ, List, IfOk, IsTrue, None};
ghost use Rattle.std.specs.Prelude.{if◌then◌else◌, OnErr, OnOk, length, slice_index, slice_set, true};
ghost use Rattle.msi_cache.specs.Messages.{request_block, request_seen, response_block};
ghost use Rattle.msi_cache.specs.declared.messages.Request.{Request};
ghost use Rattle.msi_cache.specs.declared.messages.Response.{Response};
ghost use Rattle.msi_directory.specs.Blocks.{block_count, entry_at, has_room, opening_entries, opening_entry, touched};
ghost use Rattle.msi_directory.specs.Deeds.{IsAnswered, IsServed, request_deed, response_deed};
ghost use Rattle.msi_directory.specs.Entries.{entry_after_request, entry_after_response, has_request_row};
ghost use Rattle.msi_directory.specs.Entries.{has_response_row};
ghost use Rattle.msi_directory.specs.Fitting.{stage_fits};
ghost use Rattle.msi_directory.specs.Kept.{kept_more, place_of};
ghost use Rattle.msi_directory.specs.PlainPart.{PlainRequest, PlainResponse};
ghost use Rattle.msi_directory.specs.Table.{is_free, owner_of};
ghost use Rattle.msi_directory.specs.declared.entry.Entry.{Entry};

use crate::entry::{Entry, HomeAnswer, HomeWords, Served, Stage};
use crate::kept_entries::KeptEntries;
use access_times::{Rider, copied};
use image_mem::Image;
use msi_cache::{Held, Request, Response, ResponseSlot};
use rtr_types::{BLOCK_WORDS, CORES_MAX};
use std::alloc::{AllocError, Global};
use std::marker::Model;

/// The home: an entry for each block that room was made for. A block without one is held by no cache, and has
/// its opening words and a fresh rider. Contracts see the entries of all blocks, and which blocks have room, so
/// that a request for them needs no memory. What lies in `mail` and `hand` means nothing: a response and a
/// rider of data are there on their way.
pub struct Home<R> {
    opening: Image,
    fresh: R,
    kept: KeptEntries<R>,
    mail: ResponseSlot<R>,
    hand: Held<R>,
}

impl<R: Drop> Drop for Home<R> {
    fn drop(self) {
        let Home {
            opening: _opening,
            fresh: _fresh,
            kept: _kept,
            mail: _mail,
            hand: _hand,
        } = self;
    }
}

impl<R> Model for Home<R> {
    ghost use Rattle.msi_directory.specs.Blocks.{Blocks};
    ghost use Rattle.msi_directory.specs.Kept.{HomeFits, blocks_in, home_of};

    ghost Value = { Blocks R };

    ghost view = { λ a. blocks_in (home_of a.opening a.fresh a.kept) };

    ghost invariant = { λ a. HomeFits (home_of a.opening a.fresh a.kept) };
}

impl<R: Rider> Home<R> {
    /// A home over the image: each block is held by no cache, and has its opening words and a fresh
    /// rider. A last block that the memory's words fill only in part is filled up with zeros.
    pub fn new(alloc: Global, image: &Image) -> Result<Home<R>, AllocError>
        ensures blocks { IfOk result (λ home. length home.entries ≡ block_count image.now.words) }
        ensures opening { IfOk result (λ home. home.entries ≡ opening_entries R.riding.fresh image.now) }
        ensures untouched { IfOk result (λ home. touched home.rooms ≡ 0) }
    {
        let bytes = image.bytes().to_vec(alloc)?;
        Ok(Home {
            opening: Image::flat(bytes, image.words()).unwrap(),
            fresh: R::fresh(),
            kept: KeptEntries::new(alloc),
            mail: ResponseSlot::blank(alloc)?,
            hand: Held::fresh(alloc)?,
        })
    }

    /// Becomes a home over the image, as a new one, with the memory that it has. After want of memory nothing has
    /// changed.
    pub fn restart(&mut self, alloc: Global, image: &Image) -> Result<(), AllocError>
        ensures opening { OnOk result (self.new.entries ≡ opening_entries R.riding.fresh image.now) }
        ensures untouched { OnOk result (touched self.new.rooms ≡ 0) }
        ensures err { OnErr result (self.new ≡ self.old) }
    {
        let bytes = image.bytes().to_vec(alloc)?;
        self.opening = Image::flat(bytes, image.words()).unwrap();
        self.fresh.forget();
        self.kept.clear();
        Ok(())
    }

    /// How many blocks the memory has. Blocks are numbered from 0.
    pub fn blocks(&self) -> usize
        ensures { result ≡ length self.now.entries }
    {
        self.opening.words().div_ceil(BLOCK_WORDS as u32) as usize
    }

    /// How many blocks room was made for: so many entries the home keeps.
    pub fn touched(&self) -> u32
        ensures { result ≡ touched self.now.rooms }
    {
        self.kept.len() as u32
    }

    /// Makes room for the block, one of the memory's: once it answers Ok, a request for the block needs
    /// no memory. The answer is whether a request for it can be taken now. No block's entry changes, and no
    /// other block's room. After want of memory nothing has changed.
    pub fn make_room(&mut self, block: u32) -> Result<bool, AllocError>
        requires { block < length self.old.entries }
        ensures ok { OnOk result (self.new ≡ record self.old { rooms = slice_set self.old.rooms block true }) }
        ensures room { OnOk result (has_room self.new.rooms block ≡ true) }
        ensures touched { OnOk result (touched self.new.rooms
            ≡ touched self.old.rooms + (if has_room self.old.rooms block then 0 else 1)) }
        ensures free { IfOk result (λ free. free ≡ is_free (entry_at R.riding.fresh self.old.entries block).stage) }
        ensures err { OnErr result (self.new ≡ self.old) }
    {
        if let Some(place) = self.kept.place(block) {
            return Ok(self.kept.stage(place).is_free());
        }
        open(&mut self.kept, &self.opening, block, &self.fresh)?;
        Ok(true)
    }

    /// Whether a request for the block, one of the memory's, needs no memory.
    pub fn has_room(&self, block: u32) -> bool
        requires { block < length self.now.entries }
        ensures { result ≡ has_room self.now.rooms block }
    {
        self.kept.place(block).is_some()
    }

    /// Whether the home can take the request now: exactly where its block isn't busy.
    pub fn can_take(&self, request: &Request<R>) -> bool
        requires { request_block request.now < length self.now.entries }
        ensures { result ≡ is_free (entry_at R.riding.fresh self.now.entries (request_block request.now)).stage }
    {
        self.is_free(request.block())
    }

    /// Whether a request for the block, one of the memory's, can be taken now: the block isn't busy.
    pub fn is_free(&self, block: u32) -> bool
        requires { block < length self.now.entries }
        ensures { result ≡ is_free (entry_at R.riding.fresh self.now.entries block).stage }
    {
        self.stage(block).is_free()
    }

    /// Whether the table has a row for the request, sent by core `from`.
    pub fn expects_request(&self, from: u8, request: &Request<R>) -> bool
        requires { request_block request.now < length self.now.entries }
        ensures { result ≡ has_request_row
            (entry_at R.riding.fresh self.now.entries (request_block request.now)).stage from request.now }
    {
        self.stage(request.block()).expects_request(from, request)
    }

    /// Whether the table has a row for the response, sent by core `from`.
    pub fn expects_response(&self, from: u8, response: &Response<R>) -> bool
        requires from { from < CORES_MAX }
        requires within { response_block response.now < length self.now.entries }
        ensures { result ≡ has_response_row
            (entry_at R.riding.fresh self.now.entries (response_block response.now)).stage from response.now }
    {
        self.stage(response.block())
            .expects_response(from, response)
    }

    /// Takes a request from core `from`, for a block that has room and at which the table has a row for
    /// it, so that it isn't busy. Only that block's entry changes.
    pub fn on_request(&mut self, from: u8, request: Request<R>) -> HomeAnswer<R>
        requires from { from < CORES_MAX }
        requires within { request_block request < length self.old.entries }
        requires room { IsTrue (has_room self.old.rooms (request_block request)) }
        requires row { IsTrue (has_request_row
            (entry_at R.riding.fresh self.old.entries (request_block request)).stage from request) }
        ensures { IsAnswered R.riding.fresh (request_deed R.riding from request) self.old self.new result }
    {
        let place = self.kept.find(request.block());
        let lent = request.lent();
        let Served { answer, .. } = self.kept.serve(place, from, lent, &mut self.hand);
        answer.riding(copied(self.hand.get()))
    }

    /// Takes a request as `on_request` does, with its rider lent. Where data are sent, their rider is in hand
    /// afterwards: so it goes to its place without being copied on the way.
    pub fn serve(&mut self, from: u8, request: Request<&R>, hand: &mut Held<R>) -> Served
        requires from { from < CORES_MAX }
        requires within { request_block (request_seen request) < length self.old.entries }
        requires room { IsTrue (has_room self.old.rooms (request_block (request_seen request))) }
        requires row { IsTrue (has_request_row
            (entry_at R.riding.fresh self.old.entries (request_block (request_seen request))).stage from
            (request_seen request)) }
        ensures { IsServed R.riding.fresh (request_deed R.riding from (request_seen request.entry))
            self.old self.new hand.new result }
    {
        let place = self.kept.find(request.block());
        self.kept.serve(place, from, request, hand)
    }

    /// Takes a response from core `from`, about a block at which the table has a row for it. Only that
    /// block's entry changes.
    pub fn on_response(&mut self, from: u8, response: Response<R>) -> HomeAnswer<R>
        requires from { from < CORES_MAX }
        requires within { response_block response < length self.old.entries }
        requires row { IsTrue (has_response_row
            (entry_at R.riding.fresh self.old.entries (response_block response)).stage from response) }
        ensures { IsAnswered R.riding.fresh (response_deed R.riding from response) self.old self.new result }
    {
        let place = self.kept.find(response.block());
        self.mail.put(response.lent());
        let Served { answer, .. } = self
            .kept
            .receive(place, from, &mut self.mail, &mut self.hand);
        answer.riding(copied(self.hand.get()))
    }

    /// Takes the response that lies here, as `on_response` does. What is left here means nothing: an owner's rider is
    /// handed over, not copied. Where data are sent, their rider is in hand afterwards.
    pub fn receive(
        &mut self,
        from: u8,
        response: &mut ResponseSlot<R>,
        hand: &mut Held<R>,
    ) -> Served
        requires from { from < CORES_MAX }
        requires within { response_block response.old < length self.old.entries }
        requires row { IsTrue (has_response_row
            (entry_at R.riding.fresh self.old.entries (response_block response.old)).stage from response.old) }
        ensures { IsServed R.riding.fresh (response_deed R.riding from response.old) self.old self.new hand.new result }
    {
        let place = self.kept.find(response.block());
        self.kept.receive(place, from, response, hand)
    }

    /// The rider on the home's copy of the block, one of the memory's.
    pub fn rider(&self, block: u32) -> &R
        requires { block < length self.now.entries }
        ensures { result.now ≡ (entry_at R.riding.fresh self.now.entries block).rider }
    {
        match self.kept.place(block) {
            Some(place) => self.kept.copy(place).rider.get(),
            None => &self.fresh,
        }
    }

    /// The home's copy of the words of the block, one of the memory's, and the core whose cache owns it. So the
    /// block is looked up once.
    pub fn words(&self, block: u32) -> HomeWords
        requires { block < length self.now.entries }
        ensures words { result.words ≡ (entry_at R.riding.fresh self.now.entries block).words }
        ensures owner { result.owner ≡ owner_of (entry_at R.riding.fresh self.now.entries block).stage }
    {
        match self.kept.place(block) {
            Some(place) => {
                let words = self.kept.copy(place).words;
                let owner = self.kept.stage(place).owner();
                HomeWords { words, owner }
            }
            None => {
                let words = opening_entry(&self.opening, block, ()).words;
                HomeWords { words, owner: None }
            }
        }
    }

    /// A word of the memory as the home's copy of its block has it, by the word's index, in one of the memory's
    /// blocks. Where a cache owns the block it is an old one.
    pub fn word(&self, word: u32) -> u32
        requires { word / BLOCK_WORDS < length self.now.entries }
        ensures { result ≡ slice_index (entry_at R.riding.fresh self.now.entries (word / BLOCK_WORDS)).words
            (word % BLOCK_WORDS) }
    {
        let found = self.words(word / BLOCK_WORDS as u32);
        found.words[word as usize % BLOCK_WORDS]
    }

    /// The core whose cache owns the block, one of the memory's: none exactly where no cache does.
    pub fn owner(&self, block: u32) -> Option<u8>
        requires { block < length self.now.entries }
        ensures { result ≡ owner_of (entry_at R.riding.fresh self.now.entries block).stage }
    {
        self.stage(block).owner()
    }

    /// Who holds the block, one of the memory's, as the home knows it.
    pub fn stage(&self, block: u32) -> Stage
        requires { block < length self.now.entries }
        ensures { result ≡ (entry_at R.riding.fresh self.now.entries block).stage }
    {
        match self.kept.place(block) {
            Some(place) => self.kept.stage(place),
            None => Stage::Unshared,
        }
    }
}

/// Keeps an entry of one more block, as the image has it.
#[cold]
#[inline(never)]
fn open<R: Rider>(
    kept: &mut KeptEntries<R>,
    image: &Image,
    block: u32,
    fresh: &R,
) -> Result<(), AllocError>
    requires within { block * BLOCK_WORDS + 3 < 2 ^ 32 }
    requires new { place_of kept.old.blocks block ≡ None }
    ensures ok { OnOk result (kept.new ≡ kept_more kept.old block (opening_entry fresh.now image.now block)) }
    ensures err { OnErr result (kept.new ≡ kept.old) }
{
    let entry = opening_entry(image, block, copied(fresh));
    kept.add(block, entry)
}

/// A block as the image has it, with this rider.
fn opening_entry<R>(image: &Image, block: u32, rider: R) -> Entry<R>
    requires { block * BLOCK_WORDS + 3 < 2 ^ 32 }
    ensures { result ≡ opening_entry rider image.now block }
{
    let first = block * BLOCK_WORDS as u32;
    Entry {
        stage: Stage::Unshared,
        words: [
            image.word(first),
            image.word(first + 1),
            image.word(first + 2),
            image.word(first + 3),
        ],
        rider,
    }
}

/// Each row of the table leaves a stage that fits: the cores that it names exist, and a set of cores
/// that it keeps has some core.
pub fn home_rows_fit<R: Rider>()
    ensures request { (e : Entry R) (c : ℕ) (request : Request R) → c < CORES_MAX → IsTrue (stage_fits e.stage) →
        IsTrue (stage_fits (entry_after_request R.riding e c request).stage) }
    ensures response { (e : Entry R) (c : ℕ) (response : Response R) → c < CORES_MAX → IsTrue (stage_fits e.stage) →
        IsTrue (stage_fits (entry_after_response R.riding e c response).stage) }
{}

/// What rides changes nothing else: with the riders forgotten, each call does to a home what it does
/// to the same home where nothing rides, needs the same of it, and answers the same.
pub fn riders_change_no_plain_part<R: Rider>()
    ensures on_request { (entries : List (Entry R)) (c : ℕ) (request : Request R) →
        PlainRequest R.riding entries c request }
    ensures on_response { (entries : List (Entry R)) (c : ℕ) (response : Response R) →
        PlainResponse R.riding entries c response }
{}
