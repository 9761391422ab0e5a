//! A core's cache.
ghost use Rattle.std.specs.Prelude.{◌≡◌, ◌<◌, ℕ, List, IfOk, IsTrue, false, true, length, replicate, slice_index};
ghost use Rattle.std.specs.Prelude.{Some, is_some, ◌≤◌, ◌+◌};
ghost use Rattle.std.specs.Borrow.{sem};
ghost use Rattle.msi_cache.specs.Lent.{LendsRider};
ghost use Rattle.msi_cache.specs.Lines.{answer, asks, can_read, can_write, empty_line, has_row, is_allowed, line_for};
ghost use Rattle.msi_cache.specs.Lines.{lines_after, lines_asking, lines_put, wanted, waits, SameElsewhere};
ghost use Rattle.msi_cache.specs.Messages.{answer_seen, block_of, message_seen, request_seen};
ghost use Rattle.msi_cache.specs.Waiting.{one_if};
ghost use Rattle.rtr_types.specs.declared.TheConstants.{LINES};
ghost use Rattle.msi_cache.specs.PlainPart.{PlainOnHome, PlainPut, PlainRider, PlainWant};
ghost use Rattle.msi_cache.specs.declared.line.Line.{Line};
ghost use Rattle.msi_cache.specs.declared.messages.FromHome.{FromHome};
ghost use Rattle.rtr_types.specs.declared.access.Kind.{Kind};

use crate::line::Line;
use crate::messages::{FromHome, Request, Response};
use crate::slots::{FromHomeSlot, ResponseSlot};
use access_times::Rider;
use rtr_types::{BLOCK_WORDS, Kind, LINES};
use std::alloc::{AllocError, Global};
use std::marker::Model;

/// The cache of one core: `LINES` lines, which contracts see as a list. The rider type is whatever
/// the machine hangs on copies; the cache moves riders and never looks into them.
#[derive(Drop)]
pub struct Cache<R> {
    lines: Vec<Line<R>>,
    // how many of them wait, so that no call has to look at all
    waiting: u32,
}

impl<R> Model for Cache<R> {
    ghost use Rattle.std.specs.Prelude.{◌≡◌, List, length};
    ghost use Rattle.msi_cache.specs.Waiting.{how_many_wait};
    ghost use Rattle.msi_cache.specs.declared.line.Line.{Line};
    ghost use Rattle.rtr_types.specs.declared.TheConstants.{LINES};

    ghost Value = { List (Line R) };

    ghost view = { λ a. a.lines.items };

    ghost invariant = { λ a. (length a.lines.items ≡ LINES) × (a.waiting ≡ how_many_wait a.lines.items) };
}

// How many lines wait after one of them heard a message, by whether that one waited before and waits now.
fn waiting_after(waiting: u32, waited: bool, waits: bool) -> u32
    requires counted { one_if waited ≤ waiting + one_if waits }
    requires few { waiting ≤ LINES }
    ensures { result + one_if waited ≡ waiting + one_if waits }
{
    if waited == waits {
        waiting
    } else if waits {
        waiting + 1
    } else {
        waiting - 1
    }
}

impl<R: Rider> Cache<R> {
    /// A cache that holds nothing.
    pub fn new(alloc: Global) -> Result<Cache<R>, AllocError>
        ensures { IfOk result (λ cache. cache ≡ replicate LINES (empty_line R.riding.fresh)) }
    {
        let mut lines = Vec::with_capacity(alloc, LINES)?;
        for made in 0..LINES {
            lines.push(Line::empty(alloc)?)?;
        }
        Ok(Cache { lines, waiting: 0 })
    }

    /// Holds nothing any more, as a new cache.
    pub fn clear(&mut self)
        ensures { self.new ≡ replicate LINES (empty_line R.riding.fresh) }
    {
        for place in 0..LINES {
            self.lines[place].clear();
        }
        self.waiting = 0;
    }

    /// Whether a core may read the block: its copy is held in S, M or on the way from S to M.
    pub fn can_read(&self, block: u32) -> bool
        ensures { result ≡ can_read (line_for R.riding.fresh self.now block) block }
    {
        self.lines[block as usize % LINES].can_read(block)
    }

    /// Whether a core may write the block: its copy is held in M.
    pub fn can_write(&self, block: u32) -> bool
        ensures { result ≡ can_write (line_for R.riding.fresh self.now block) block }
    {
        self.lines[block as usize % LINES].can_write(block)
    }

    /// Whether an access of this kind to the block may be made now: a write needs `can_write`, any
    /// other access `can_read`.
    pub fn allows(&self, block: u32, kind: Kind) -> bool
        ensures { result ≡ is_allowed (line_for R.riding.fresh self.now block) block kind }
    {
        self.lines[block as usize % LINES].allows(block, kind)
    }

    /// Whether the table has a row for the message at the line that holds its block.
    pub fn expects(&self, message: &FromHome<R>) -> bool
        ensures { result ≡ has_row (line_for R.riding.fresh self.now (block_of message.now)) message.now }
    {
        self.lines[message.block() as usize % LINES].expects(message)
    }

    /// Whether some line waits for a message from home.
    pub fn waits(&self) -> bool
        ensures { result ≡ waits self.now }
    {
        self.waiting > 0
    }

    /// The line where the block goes.
    pub fn line(&self, block: u32) -> &Line<R>
        ensures { result.now ≡ line_for R.riding.fresh self.now block }
    {
        &self.lines[block as usize % LINES]
    }

    /// A word of a block that may be read. `slot` is its place in the block.
    pub fn word(&self, block: u32, slot: u8) -> u32
        requires slot { slot < BLOCK_WORDS }
        requires readable { IsTrue (can_read (line_for R.riding.fresh self.now block) block) }
        ensures { result ≡ slice_index (line_for R.riding.fresh self.now block).words slot }
    {
        self.lines[block as usize % LINES].words[slot as usize]
    }

    /// Writes a word of a block that may be written. Nothing else changes.
    pub fn put_word(&mut self, block: u32, slot: u8, value: u32)
        requires slot { slot < BLOCK_WORDS }
        requires writable { IsTrue (can_write (line_for R.riding.fresh self.old block) block) }
        ensures lines { self.new ≡ lines_put R.riding.fresh self.old block slot value }
        ensures elsewhere { SameElsewhere R.riding.fresh self.old self.new block }
    {
        self.lines[block as usize % LINES].words[slot as usize] = value;
    }

    /// Lends the rider of a block that may be read. What is left behind the loan is the copy's rider
    /// from then on, and nothing else changes.
    pub fn rider(&mut self, block: u32) -> &mut R
        requires { IsTrue (can_read (line_for R.riding.fresh self.old block) block) }
        ensures* lends { sem 𝓛 (LendsRider R.row R.riding.fresh self.entry block result) }
        ensures value { result.now ≡ (line_for R.riding.fresh self.old block).rider }
    {
        self.lines[block as usize % LINES].rider.lend()
    }

    /// What to ask of home for an access that isn't allowed yet, while no line waits: the block, or
    /// first that home takes back the other block's copy whose line it needs. Only the line where the
    /// block goes changes: it waits from then on.
    pub fn want(&mut self, block: u32, kind: Kind) -> Request<R>
        requires still { waits self.old ≡ false }
        requires needed { is_allowed (line_for R.riding.fresh self.old block) block kind ≡ false }
        ensures row { IsTrue (is_some (wanted (line_for R.riding.fresh self.old block) block kind)) }
        ensures asks { result ≡ asks (line_for R.riding.fresh self.old block) block kind }
        ensures lines { self.new ≡ lines_asking R.riding self.old block kind }
        ensures elsewhere { SameElsewhere R.riding.fresh self.old self.new block }
    {
        let request = self.wanted(block, kind).owned();
        self.ask(block, kind);
        request
    }

    /// Takes a message for which the table has a row at the line that holds its block. Only that line
    /// changes. The answer is none exactly where the row has none.
    pub fn on_home(&mut self, message: FromHome<R>) -> Option<Response<R>>
        requires { IsTrue (has_row (line_for R.riding.fresh self.old (block_of message)) message) }
        ensures answer { result ≡ answer (line_for R.riding.fresh self.old (block_of message)) message }
        ensures lines { self.new ≡ lines_after R.riding self.old message }
        ensures elsewhere { SameElsewhere R.riding.fresh self.old self.new (block_of message) }
    {
        let answer = match self.answer(message.lent()) {
            Some(response) => Some(response.owned()),
            None => None,
        };
        self.hear(message.lent());
        answer
    }
}

// The same in two halves, so that a message goes to its place without being copied on the way.
impl<R: Rider> Cache<R> {
    /// What to ask of home for an access that isn't allowed yet, while no line waits, as `want` answers it.
    /// The rider is lent.
    pub fn wanted(&self, block: u32, kind: Kind) -> Request<&R>
        requires still { waits self.now ≡ false }
        requires needed { is_allowed (line_for R.riding.fresh self.now block) block kind ≡ false }
        ensures row { IsTrue (is_some (wanted (line_for R.riding.fresh self.now block) block kind)) }
        ensures asks { request_seen result ≡ asks (line_for R.riding.fresh self.now block) block kind }
    {
        self.lines[block as usize % LINES].wanted(block, kind)
    }

    /// What is wanted was asked for. Only the line where the block goes changes: it waits from then on.
    pub fn ask(&mut self, block: u32, kind: Kind)
        requires still { waits self.old ≡ false }
        requires needed { is_allowed (line_for R.riding.fresh self.old block) block kind ≡ false }
        ensures lines { self.new ≡ lines_asking R.riding self.old block kind }
        ensures waits { waits self.new ≡ true }
        ensures elsewhere { SameElsewhere R.riding.fresh self.old self.new block }
    {
        self.lines[block as usize % LINES].ask(block, kind);
        self.waiting = 1;
    }

    /// What home has to hear once the cache has taken this message, as `on_home` answers it. The rider is
    /// lent.
    pub fn answer(&self, message: FromHome<&R>) -> Option<Response<&R>>
        requires { let seen = message_seen message in
            IsTrue (has_row (line_for R.riding.fresh self.now (block_of seen)) seen) }
        ensures { let seen = message_seen message.entry in
            answer_seen result ≡ answer (line_for R.riding.fresh self.now (block_of seen)) seen }
    {
        self.lines[message.block() as usize % LINES].answer(message)
    }

    /// Takes a message for which the table has a row at the line that holds its block. Only that line
    /// changes.
    #[tactic(auto, using(crate::proofs::WaitCounts::counted_before))]
    pub fn hear(&mut self, message: FromHome<&R>)
        requires { let seen = message_seen message in
            IsTrue (has_row (line_for R.riding.fresh self.old (block_of seen)) seen) }
        ensures lines { self.new ≡ lines_after R.riding self.old (message_seen message.entry) }
        ensures elsewhere { SameElsewhere R.riding.fresh self.old self.new (block_of (message_seen message.entry)) }
    {
        let line = &mut self.lines[message.block() as usize % LINES];
        let waited = line.state.is_transient();
        line.hear(message);
        self.waiting = waiting_after(self.waiting, waited, line.state.is_transient());
    }

    /// Takes a message that the table answers, as `on_home` does, and puts the answer there. Where the copy ends, its
    /// rider is handed over to the answer.
    #[tactic(auto, using(crate::proofs::WaitCounts::counted_before))]
    pub fn respond(&mut self, message: FromHome<&R>, reply: &mut ResponseSlot<R>)
        requires row { let seen = message_seen message in
            IsTrue (has_row (line_for R.riding.fresh self.old (block_of seen)) seen) }
        requires answered { let seen = message_seen message in
            IsTrue (is_some (answer (line_for R.riding.fresh self.old (block_of seen)) seen)) }
        ensures lines { self.new ≡ lines_after R.riding self.old (message_seen message.entry) }
        ensures reply { let seen = message_seen message.entry in
            Some reply.new ≡ answer (line_for R.riding.fresh self.old (block_of seen)) seen }
    {
        let line = &mut self.lines[message.block() as usize % LINES];
        let waited = line.state.is_transient();
        line.respond(message, reply);
        self.waiting = waiting_after(self.waiting, waited, line.state.is_transient());
    }

    /// Takes the message that lies here as `hear` does. What is left here means nothing: a rider that the line takes
    /// is handed over, not copied.
    #[tactic(auto, using(crate::proofs::WaitCounts::counted_before))]
    pub fn take(&mut self, slot: &mut FromHomeSlot<R>)
        requires { IsTrue (has_row (line_for R.riding.fresh self.old (block_of slot.old)) slot.old) }
        ensures { self.new ≡ lines_after R.riding self.old slot.old }
    {
        let block = slot.block();
        let line = &mut self.lines[block as usize % LINES];
        let waited = line.state.is_transient();
        line.take(slot);
        self.waiting = waiting_after(self.waiting, waited, line.state.is_transient());
    }
}

/// What rides changes nothing else: with the riders forgotten, each call does to a cache what it does
/// to the same cache where nothing rides, needs the same of it, and answers the same.
pub fn riders_change_no_plain_part<R: Rider>()
    ensures on_home { (lines : List (Line R)) (m : FromHome R) → PlainOnHome R.riding lines m }
    ensures want { (lines : List (Line R)) (block : ℕ) (kind : Kind) → PlainWant R.riding lines block kind }
    ensures put_word { (lines : List (Line R)) (block slot value : ℕ) → PlainPut R.riding lines block slot value }
    ensures rider { (lines : List (Line R)) (block : ℕ) (rider : R) → PlainRider R.riding lines block rider }
{}
