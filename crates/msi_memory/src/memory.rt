//! The memory system and its acts.
ghost use Rattle.std.specs.Prelude.{◌≡◌, ◌<◌, ◌≤◌, ◌/◌, ◌%◌, ℕ, IfOk, IsTrue, OnErr, OnOk, false, length, not};
ghost use Rattle.std.specs.Prelude.{replicate, true};
ghost use Rattle.link_order.specs.Queue.{is_nil};
ghost use Rattle.rtr_types.specs.CoreSets.{has};
ghost use Rattle.rtr_types.specs.declared.TheConstants.{BLOCK_WORDS, CORES_MAX};
ghost use Rattle.msi_cache.specs.Lines.{can_read, line_for, waits};
ghost use Rattle.msi_directory.specs.Blocks.{touched};
ghost use Rattle.msi_memory.specs.Acts.{TakeMessage, TakeRequest, TakeResponse, allows, can, data_next, head_free};
ghost use Rattle.msi_memory.specs.Acts.{retire, take_message, touch, want};
ghost use Rattle.msi_memory.specs.Finals.{SameWords, at_hand, block_words};
ghost use Rattle.msi_memory.specs.Memories.{memory_start, port_at, port_start, rider_at, word_at};
ghost use Rattle.msi_memory.specs.Rests.{HasRoomFor, HeadsFit, OthersRoomy, RoomsMade, are_heads_roomy};
ghost use Rattle.msi_memory.specs.Rests.{has_row_for, head_is, head_roomy, requests_at};
ghost use Rattle.msi_memory.specs.Turns.{HomeActed, HomeCanAct};

use crate::answering::{collect, serve};
use crate::port::Port;
use crate::rooms::{are_roomy, make_room_for_head};
use crate::sending::deliver;
use crate::turn::Turn;
use access_times::{Carry, Clerk, Rider};
use image_mem::Image;
use msi_cache::{Cache, Held};
use msi_directory::Home;
use rtr_types::{Access, BLOCK_WORDS, CORES_MAX, CoreSet, Instr, Kind};
use std::alloc::{AllocError, Global};
use std::marker::Model;

/// The ports of some cores, the home, the home's carry, and a rider in hand, which goes from the home to the place of
/// its message and means nothing between two acts. Contracts see the memory system's state, and which of the home's
/// blocks have room for a request.
///
/// It has no invariant: what an act needs is a clause of its call, and holds in each state that acts lead to
/// from the start.
pub struct MemorySystem<R, K> {
    ports: Vec<Port<R, K>>,
    home: Home<R>,
    carry: K,
    hand: Held<R>,
}

impl<R: Drop, K: Drop> Drop for MemorySystem<R, K> {
    fn drop(self) {
        let MemorySystem {
            ports: _ports,
            home: _home,
            carry: _carry,
            hand: _hand,
        } = self;
    }
}

impl<R, K> Model for MemorySystem<R, K> {
    ghost use Rattle.msi_memory.specs.Memories.{System};

    ghost Value = { System R K };

    ghost view = { λ a. record {
      memory = record { ports = a.ports.items; home = a.home.entries; carry = a.carry };
      rooms = a.home.rooms;
    } };
}

impl<R: Rider, K: Carry> MemorySystem<R, K> {
    /// The memory system of so many cores at the start: no cache holds a block, nothing is under way, and the
    /// home has what the image has.
    pub fn new(alloc: Global, image: &Image, cores: u8) -> Result<MemorySystem<R, K>, AllocError>
        ensures memory { IfOk result (λ system. system.memory ≡ memory_start R.riding K.carrying image.now cores) }
        ensures untouched { IfOk result (λ system. touched system.rooms ≡ 0) }
    {
        let ports = first_ports(alloc, cores)?;
        let home = Home::new(alloc, image)?;
        let hand = Held::fresh(alloc)?;
        Ok(MemorySystem {
            ports,
            home,
            carry: K::none(),
            hand,
        })
    }

    /// Becomes the memory system of so many cores at the start, with the memory that it has: as `new` makes it, but if
    /// it has been used for so many cores, hardly any memory is taken.
    pub fn restart(&mut self, alloc: Global, image: &Image, cores: u8) -> Result<(), AllocError>
        ensures memory { OnOk result (self.new.memory ≡ memory_start R.riding K.carrying image.now cores) }
        ensures untouched { OnOk result (touched self.new.rooms ≡ 0) }
    {
        if self.ports.len() == cores as usize {
            restart_ports(alloc, self.ports.as_mut_slice())?;
        } else {
            self.ports = first_ports(alloc, cores)?;
        }
        self.home.restart(alloc, image)?;
        self.carry = K::none();
        Ok(())
    }

    /// Whether the core's cache allows an access of this kind to the block now.
    pub fn allows(&self, core: u8, block: u32, kind: Kind) -> bool
        requires { core < length self.now.memory.ports }
        ensures { result ≡ allows R.riding (port_at K.carrying self.now.memory.ports core) block kind }
    {
        self.ports[core as usize].cache.allows(block, kind)
    }

    /// The value that the core's copy has of a word, by the word's index, where the core may read its block.
    pub fn word(&self, core: u8, word: u32) -> u32
        requires here { core < length self.now.memory.ports }
        requires readable { let cache = (port_at K.carrying self.now.memory.ports core).cache in
            IsTrue (can_read (line_for R.riding.fresh cache (word / BLOCK_WORDS)) (word / BLOCK_WORDS)) }
        ensures { result ≡ word_at R.riding (port_at K.carrying self.now.memory.ports core) word }
    {
        let block = word / BLOCK_WORDS as u32;
        let slot = (word % BLOCK_WORDS as u32) as u8;
        self.ports[core as usize].cache.word(block, slot)
    }

    /// Whether there is a request of the core that the home can take.
    pub fn has_free_head(&self, core: u8) -> bool
        requires here { core < length self.now.memory.ports }
        requires heads { HeadsFit self.now.memory }
        ensures { result ≡ can R.riding K.carrying self.now.memory (TakeRequest core) }
    {
        match self.ports[core as usize].requests.head() {
            Some(mail) => self.home.is_free(mail.item.block()),
            None => false,
        }
    }

    /// Whether there is a response of the core.
    pub fn has_response(&self, core: u8) -> bool
        requires { core < length self.now.memory.ports }
        ensures { result ≡ can R.riding K.carrying self.now.memory (TakeResponse core) }
    {
        !self.ports[core as usize].responses.is_empty()
    }

    /// Whether there is a message from home to the core.
    pub fn has_message(&self, core: u8) -> bool
        requires { core < length self.now.memory.ports }
        ensures { result ≡ can R.riding K.carrying self.now.memory (TakeMessage core) }
    {
        !self.ports[core as usize].messages.is_empty()
    }

    /// The cores whose oldest request is for the block.
    pub fn askers(&self, block: u32) -> CoreSet
        requires few { length self.now.memory.ports ≤ CORES_MAX }
        ensures { (c : ℕ) → has result c ≡ head_is block (requests_at self.now.memory.ports c) }
    {
        askers(self.ports.as_slice(), block)
    }

    /// The core's carry.
    pub fn carry(&self, core: u8) -> &K
        requires { core < length self.now.memory.ports }
        ensures { result.now ≡ (port_at K.carrying self.now.memory.ports core).carry }
    {
        &self.ports[core as usize].carry
    }

    /// The words of a block of the memory, once they are at hand: the owner's where a cache owns the block, else
    /// the home's.
    pub fn final_words(&self, block: u32) -> [u32; BLOCK_WORDS]
        requires within { block < length self.now.memory.home }
        requires at_hand { IsTrue (at_hand R.riding K.carrying self.now.memory block) }
        ensures { SameWords result (block_words R.riding K.carrying self.now.memory block) }
    {
        let home = self.home.words(block);
        match home.owner {
            Some(owner) => words_in(&self.ports[owner as usize].cache, block),
            None => home.words,
        }
    }

    /// How many blocks the home made room for.
    pub fn touched(&self) -> u32
        ensures { result ≡ touched self.now.rooms }
    {
        self.home.touched()
    }

    /// Makes room in the home for the block of the core's oldest request, if there is one. The answer is whether
    /// there is one and the home can take it. The blocks of the other cores' oldest requests have room. After
    /// want of memory nothing has changed.
    pub fn make_room(&mut self, core: u8) -> Result<bool, AllocError>
        requires heads { HeadsFit self.old.memory }
        requires others { OthersRoomy self.old.memory.ports core self.old.rooms }
        ensures memory { self.new.memory ≡ self.old.memory }
        ensures rooms { RoomsMade self.old.memory.ports self.old.rooms self.new.rooms }
        ensures others { OthersRoomy self.old.memory.ports core self.new.rooms }
        ensures ok { OnOk result (are_heads_roomy self.new.memory.ports self.new.rooms ≡ true) }
        ensures free { IfOk result (λ free. free
            ≡ head_free (requests_at self.old.memory.ports core) R.riding self.old.memory.home) }
        ensures err { OnErr result (self.new ≡ self.old) }
    {
        make_room_for_head(&mut self.home, self.ports.as_slice(), core)
    }

    /// Whether the home has room for the block of each port's oldest request.
    pub fn has_room(&self) -> bool
        requires { HeadsFit self.now.memory }
        ensures { result ≡ are_heads_roomy self.now.memory.ports self.now.rooms }
    {
        are_roomy(&self.home, self.ports.as_slice())
    }
}

// The acts.
impl<R: Rider, K: Carry> MemorySystem<R, K> {
    /// The core, no line of whose cache waits, asks for what an access of this kind to the block needs, which
    /// its cache doesn't allow yet.
    pub fn want(&mut self, core: u8, block: u32, kind: Kind)
        requires here { core < length self.old.memory.ports }
        requires still { waits (port_at K.carrying self.old.memory.ports core).cache ≡ false }
        requires needed { allows R.riding (port_at K.carrying self.old.memory.ports core) block kind ≡ false }
        requires room { let port = port_at K.carrying self.old.memory.ports core in
            length port.requests.items < port.requests.room }
        ensures memory { self.new.memory ≡ want R.riding K.carrying self.old.memory core block kind }
        ensures rooms { self.new.rooms ≡ self.old.rooms }
        ensures waits { waits (port_at K.carrying self.new.memory.ports core).cache ≡ true }
    {
        let port = &mut self.ports[core as usize];
        let mail = port.requests.push_place();
        mail.item.put(port.cache.wanted(block, kind));
        mail.carry = port.carry;
        port.cache.ask(block, kind);
    }

    /// The core retires an instruction.
    pub fn retire(&mut self, core: u8, at: Instr)
        requires here { core < length self.old.memory.ports }
        ensures memory { self.new.memory ≡ retire K.carrying self.old.memory core at }
        ensures rooms { self.new.rooms ≡ self.old.rooms }
        ensures carry { (port_at K.carrying self.new.memory.ports core).carry
            ≡ K.carrying.retired (port_at K.carrying self.old.memory.ports core).carry at }
    {
        self.ports[core as usize].carry.retire(at);
    }

    /// The core makes an access that its cache allows, which leaves its value in the core's copy of the block
    /// if it writes. The clerk is told of it, with the copy's rider, which it may change, and with the core's
    /// carry.
    pub fn touch<C: Clerk<R, K>>(&mut self, core: u8, access: Access, clerk: &mut C)
        requires here { core < length self.old.memory.ports }
        requires allowed { IsTrue (allows R.riding (port_at K.carrying self.old.memory.ports core)
            (access.word / BLOCK_WORDS) access.kind) }
        requires accepts { C.accepts clerk.old access.at }
        ensures memory { self.new.memory ≡ touch R.riding K.carrying self.old.memory core (access.word / BLOCK_WORDS)
            (access.word % BLOCK_WORDS) access.kind access.after
            (rider_at R.riding (port_at K.carrying self.new.memory.ports core) access.word) }
        ensures rooms { self.new.rooms ≡ self.old.rooms }
        ensures told { C.told_touch clerk.old
            (rider_at R.riding (port_at K.carrying self.old.memory.ports core) access.word) access
            (port_at K.carrying self.old.memory.ports core).carry clerk.new
            (rider_at R.riding (port_at K.carrying self.new.memory.ports core) access.word) }
    {
        let block = access.word / BLOCK_WORDS as u32;
        let slot = (access.word % BLOCK_WORDS as u32) as u8;
        let port = &mut self.ports[core as usize];
        if access.kind.is_write() {
            port.cache.put_word(block, slot, access.after);
        }
        clerk.touched(access, port.cache.rider(block), &port.carry);
    }

    /// The core takes the oldest message that the home sent it, and answers it where the cache's table has an
    /// answer. Whether a line of its cache waits is kept beside the memory system and renewed. The answer is
    /// whether the message had a block's data.
    pub fn take_message(&mut self, core: u8, waiting: &mut bool) -> bool
        requires here { core < length self.old.memory.ports }
        requires row { IsTrue (has_row_for R.riding K.carrying self.old.memory (TakeMessage core)) }
        requires room { HasRoomFor R.riding K.carrying self.old.memory (TakeMessage core) }
        requires waits { waiting.old ≡ waits (port_at K.carrying self.old.memory.ports core).cache }
        ensures memory { self.new.memory ≡ take_message R.riding K.carrying self.old.memory core }
        ensures rooms { self.new.rooms ≡ self.old.rooms }
        ensures data { result ≡ data_next (port_at K.carrying self.old.memory.ports core).messages.items }
        ensures waits { waiting.new ≡ waits (port_at K.carrying self.new.memory.ports core).cache }
    {
        self.ports[core as usize].take(waiting)
    }

    /// The home takes the core's oldest request, whose block it isn't busy with and has room for, and answers
    /// it.
    pub fn take_request(&mut self, core: u8) -> Turn
        requires can { HomeCanAct R.riding K.carrying self.old.memory (TakeRequest core) }
        requires roomy { IsTrue (head_roomy (port_at K.carrying self.old.memory.ports core).requests.items
            self.old.rooms) }
        ensures { HomeActed R.riding K.carrying self.old self.new (TakeRequest core) result }
    {
        let link = &mut self.ports[core as usize].requests;
        let turn = serve(&mut self.home, core, link, &mut self.carry, &mut self.hand);
        deliver(self.ports.as_mut_slice(), turn, &mut self.hand, &self.carry);
        turn
    }

    /// The home takes the core's oldest response, and answers whom it was for.
    pub fn take_response(&mut self, core: u8) -> Turn
        requires { HomeCanAct R.riding K.carrying self.old.memory (TakeResponse core) }
        ensures { HomeActed R.riding K.carrying self.old self.new (TakeResponse core) result }
    {
        let link = &mut self.ports[core as usize].responses;
        let turn = collect(&mut self.home, core, link, &mut self.carry, &mut self.hand);
        deliver(self.ports.as_mut_slice(), turn, &mut self.hand, &self.carry);
        turn
    }
}

/// So many ports at the start.
fn first_ports<R: Rider, K: Carry>(alloc: Global, cores: u8) -> Result<Vec<Port<R, K>>, AllocError>
    ensures { IfOk result (λ made. made.items ≡ replicate cores (port_start R.riding K.carrying)) }
{
    let mut made = Vec::with_capacity(alloc, cores as usize)?;
    for core in 0..cores {
        made.push(Port::new(alloc)?)?;
    }
    Ok(made)
}

/// Each of these ports becomes one at the start.
fn restart_ports<R: Rider, K: Carry>(
    alloc: Global,
    ports: &mut [Port<R, K>],
) -> Result<(), AllocError>
    ensures { OnOk result (ports.new ≡ replicate (length ports.old) (port_start R.riding K.carrying)) }
{
    for place in 0..ports.len() {
        ports[place].restart(alloc)?;
    }
    Ok(())
}

/// The words that a cache's copy of the block has, where it may be read.
fn words_in<R: Rider>(cache: &Cache<R>, block: u32) -> [u32; BLOCK_WORDS]
    requires { IsTrue (can_read (line_for R.riding.fresh cache.now block) block) }
    ensures { SameWords result (line_for R.riding.fresh cache.now block).words }
{
    [
        cache.word(block, 0),
        cache.word(block, 1),
        cache.word(block, 2),
        cache.word(block, 3),
    ]
}

/// The cores whose oldest request is for the block.
fn askers<R: Rider, K: Carry>(ports: &[Port<R, K>], block: u32) -> CoreSet
    requires few { length ports.now ≤ CORES_MAX }
    ensures { (c : ℕ) → has result c ≡ head_is block (requests_at ports.now c) }
{
    let mut set = CoreSet::empty();
    for (n, port) in ports.iter().enumerate() {
        if asks(port, block) {
            set = set.with(n as u8);
        }
    }
    set
}

/// Whether the port's oldest request is for the block.
fn asks<R: Rider, K: Carry>(port: &Port<R, K>, block: u32) -> bool
    ensures { result ≡ head_is block port.now.requests.items }
{
    match port.requests.head() {
        Some(mail) => mail.item.block() == block,
        None => false,
    }
}
