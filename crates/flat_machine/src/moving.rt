//! How the flat machine makes a move.
ghost use Rattle.std.specs.Prelude.{◌≡◌, ◌≢◌, ◌<◌, ◌*◌, ◌^◌, ◌/◌, ◌%◌, IfOk, OnErr, Some, is_some, true};
ghost use Rattle.rtr_types.specs.CoreSets.{has};
ghost use Rattle.rtr_types.specs.declared.TheConstants.{BLOCK_WORDS, LINES};
ghost use Rattle.rv_core.specs.declared.core_state.Need.TheVariants.{Load};
ghost use Rattle.move_marks.specs.Kinds.{set_of};
ghost use Rattle.move_marks.specs.declared.marks.MoveKind.TheVariants.{FromHome, Own};
ghost use Rattle.msi_state.specs.declared.moves.Move.{Move};
ghost use Rattle.flat_state.specs.Shows.{IsSomewhere, line_at, node_at};
ghost use Rattle.flat_cores.specs.Needs.{looked, written};
ghost use Rattle.flat_messages.specs.Heard.{is_data};
ghost use Rattle.flat_machine.specs.Machines.{HasEntry, HasMade, IsKept, StandsStill, event_of, move_of};
ghost use Rattle.flat_machine.specs.Ways.{way_of};
ghost use Rattle.flat_machine.specs.declared.ways.Way.TheVariants.{Hit};

use crate::machine::{FlatMachine, Happened};
use crate::ways::{Way, way_of};
use flat_marks::{ask, give_back, hear, hear_data, load, local, receive, serve, upgrade, write};
use flat_start::make_entry;
use flat_state::Told;
use move_marks::MoveKind;
use rtr_types::{BLOCK_WORDS, LINES};
use rv_core::{Need, Program};
use std::alloc::AllocError;

impl FlatMachine {
    /// Makes the marked move of this kind at the core. The only refusal is want of memory.
    pub(crate) fn make(&mut self, kind: MoveKind, core: u8) -> Result<Happened, AllocError>
        requires stands { IsSomewhere self.old.flat }
        requires kept { IsKept self.old }
        requires can { has (set_of kind self.old.marks) core ≡ true }
        ensures made { IfOk result (λ happened. HasMade self.old self.new (move_of kind core) (event_of happened)) }
        ensures err { OnErr result (StandsStill self.old self.new) }
    {
        match kind {
            MoveKind::Own => self.move_core(core),
            MoveKind::Request => {
                serve(&mut self.flat, &mut self.marks, core);
                Ok(Happened::Moved)
            }
            MoveKind::Response => {
                receive(&mut self.flat, &mut self.marks, core);
                Ok(Happened::Moved)
            }
            MoveKind::FromHome => Ok(self.take_message(core)),
        }
    }

    /// The core takes its oldest message.
    fn take_message(&mut self, core: u8) -> Happened
        requires stands { IsSomewhere self.old.flat }
        requires kept { IsKept self.old }
        requires can { has (set_of FromHome self.old.marks) core ≡ true }
        ensures { HasMade self.old self.new (Move.FromHome core) (event_of result) }
    {
        let told = self.flat.nodes[core as usize].messages.first().told;
        if brings_data(told) {
            Happened::Accessed(hear_data(&mut self.flat, &mut self.marks, core))
        } else {
            hear(&mut self.flat, &mut self.marks, core, told);
            Happened::Moved
        }
    }

    /// The core moves by itself. The only refusal is want of memory for the entry of a block that it asks for.
    fn move_core(&mut self, core: u8) -> Result<Happened, AllocError>
        requires stands { IsSomewhere self.old.flat }
        requires kept { IsKept self.old }
        requires can { has (set_of Own self.old.marks) core ≡ true }
        ensures made { IfOk result (λ happened. HasMade self.old self.new (Move.Core core) (event_of happened)) }
        ensures err { OnErr result (StandsStill self.old self.new) }
    {
        match self.flat.nodes[core as usize].need {
            Need::Local => Ok(Happened::Retired(local(&mut self.flat, &mut self.marks, core))),
            Need::Load { word } => self.read(core, word),
            Need::Store { word, .. } | Need::Amo { word } => self.write(core, word),
            // a core whose program is done makes no move
            Need::Done(_) => Ok(Happened::Moved),
        }
    }

    /// The core is to load this word.
    fn read(&mut self, core: u8, word: u32) -> Result<Happened, AllocError>
        requires stands { IsSomewhere self.old.flat }
        requires kept { IsKept self.old }
        requires can { has (set_of Own self.old.marks) core ≡ true }
        requires need { (node_at self.old.flat.nodes.items core).need ≡ Load word }
        ensures made { IfOk result (λ happened. HasMade self.old self.new (Move.Core core) (event_of happened)) }
        ensures err { OnErr result (StandsStill self.old self.new) }
    {
        let line = self.flat.nodes[core as usize].lines[word as usize / BLOCK_WORDS % LINES];
        let way = way_of(line, word / BLOCK_WORDS as u32, false);
        if let Way::Hit = way {
            return Ok(Happened::Accessed(load(&mut self.flat, &mut self.marks, core, word)));
        }
        self.ask_by(way, core, word)
    }

    /// The core is to write this word.
    fn write(&mut self, core: u8, word: u32) -> Result<Happened, AllocError>
        requires stands { IsSomewhere self.old.flat }
        requires kept { IsKept self.old }
        requires can { has (set_of Own self.old.marks) core ≡ true }
        requires need { written (node_at self.old.flat.nodes.items core).need ≡ Some word }
        ensures made { IfOk result (λ happened. HasMade self.old self.new (Move.Core core) (event_of happened)) }
        ensures err { OnErr result (StandsStill self.old self.new) }
    {
        let line = self.flat.nodes[core as usize].lines[word as usize / BLOCK_WORDS % LINES];
        let way = way_of(line, word / BLOCK_WORDS as u32, true);
        if let Way::Hit = way {
            return Ok(Happened::Accessed(write(&mut self.flat, &mut self.marks, core, word)));
        }
        self.ask_by(way, core, word)
    }

    /// The core asks the home for what its instruction needs, which looks at this word.
    fn ask_by(&mut self, way: Way, core: u8, word: u32) -> Result<Happened, AllocError>
        requires stands { IsSomewhere self.old.flat }
        requires kept { IsKept self.old }
        requires can { has (set_of Own self.old.marks) core ≡ true }
        requires need { looked (node_at self.old.flat.nodes.items core).need ≡ Some word }
        requires way { way ≡ way_of (line_at (node_at self.old.flat.nodes.items core) (word / BLOCK_WORDS % LINES))
            (word / BLOCK_WORDS) (is_some (written (node_at self.old.flat.nodes.items core).need)) }
        requires missed { way ≢ Hit }
        ensures made { IfOk result (λ happened. HasMade self.old self.new (Move.Core core) (event_of happened)) }
        ensures err { OnErr result (StandsStill self.old self.new) }
    {
        match way {
            Way::Ask => {
                let place = self.entry_of(word / BLOCK_WORDS as u32)?;
                ask(&mut self.flat, &mut self.marks, core, word, place);
            }
            Way::Upgrade => upgrade(&mut self.flat, &mut self.marks, core, word),
            _ => give_back(&mut self.flat, &mut self.marks, core, word),
        }
        Ok(Happened::Moved)
    }

    /// The place of the entry of a block of the memory, which is made if there is none. The only refusal is want of
    /// memory.
    fn entry_of(&mut self, block: u32) -> Result<u32, AllocError>
        requires stands { IsSomewhere self.old.flat }
        requires kept { IsKept self.old }
        requires within { block * BLOCK_WORDS < self.old.flat.program.words }
        ensures entry { IfOk result (λ place. HasEntry self.old self.new block place) }
        ensures err { OnErr result (StandsStill self.old self.new) }
    {
        let noted = self.places[block as usize];
        if noted > 0 {
            return Ok(noted - 1);
        }
        count_words(&self.flat.program);
        let place = make_entry(&mut self.flat, block)?;
        self.places[block as usize] = place + 1;
        Ok(place)
    }
}

/// The words of a program's memory are counted by 32 bits.
fn count_words(program: &Program)
    ensures { program.now.words < 2 ^ 32 }
{
    let _words = program.image().words();
}

/// Whether a message brings data.
fn brings_data(told: Told) -> bool
    ensures { result ≡ is_data told }
{
    matches!(told, Told::Data)
}
