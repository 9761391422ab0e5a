//! The flat machine as a run steps it.
ghost use Rattle.std.specs.Prelude.{map};
ghost use Rattle.std.specs.List.{list_all};
ghost use Rattle.rv_core.specs.Steps.{is_done};
ghost use Rattle.flat_laws.specs.StepsLeft.{left_kept};
ghost use Rattle.flat_machine.specs.Machines.{words_noted};

use crate::machine::FlatMachine;
use flat_start::opening_entry;
use machine_ports::SteppedMachine;
use rtr_types::BLOCK_WORDS;
use rv_core::Core;

impl SteppedMachine for FlatMachine {
    ghost image = { λ m. m.flat.program };

    ghost cores = { λ m. map (λ n. n.core) m.flat.nodes.items };

    ghost words = { λ m block. words_noted m block };

    ghost ended = { λ m. list_all (λ n. is_done n.need) m.flat.nodes.items };

    ghost left = { λ m. left_kept m.flat.nodes.items };

    fn done(&self) -> bool {
        self.flat.nodes.iter().all(|n| n.need.is_done())
    }

    fn core(&self, core: u8) -> &Core {
        &self.flat.nodes[core as usize].core
    }

    fn final_words(&self, block: u32) -> [u32; BLOCK_WORDS] {
        let noted = match self.places.get(block as usize) {
            Some(noted) => *noted,
            None => 0,
        };
        if noted > 0 && noted as usize <= self.flat.home.len() {
            self.flat.home[noted as usize - 1].words
        } else {
            opening_entry(&self.flat.program, block).words
        }
    }
}
