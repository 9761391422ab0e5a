//! The random walk.
ghost use Rattle.std.specs.Prelude.{◌≡◌, ◌<◌, false, true};
ghost use Rattle.rand_pcg.specs.Lcg.{increment_of, started};
ghost use Rattle.rand_pcg.specs.Pcg.{multiplier_64, pcg32};
ghost use Rattle.turn_policies.specs.Listed.{is_listed, is_nobody};
ghost use Rattle.turn_policies.specs.Walks.{after_word, drawn, walk_policy, words_of};

use crate::actor_set::ActorSet;
use crate::policy::Policy;
use rand_core::utils::NextWord;
use rand_pcg::Lcg64Xsh32;
use std::marker::Model;
use turn_lists::Actor;

/// The random walk: each pick is drawn among those that may act.
#[derive(Drop)]
pub struct Walk {
    words: Lcg64Xsh32,
}

impl Model for Walk {
    ghost use Rattle.rand_pcg.specs.Lcg.{Lcg};

    ghost Value = { Lcg };

    ghost view = { λ w. w.words };
}

impl Walk {
    /// The walk of this number.
    pub fn new(number: u64) -> Walk
        ensures { result ≡ words_of number }
    {
        Walk {
            words: words_of(number),
        }
    }
}

impl Policy for Walk {
    ghost policy = { walk_policy };

    fn pick(&mut self, actors: ActorSet) -> Actor {
        let number = below(&mut self.words, actors.count() as usize);
        actors.nth(number as u32)
    }

    fn told(&mut self, _actor: Actor, _goes_round: bool) {}
}

/// The words of the run of this number: those of PCG's generator XSH RR 64/32 (O'Neill 2014) with this seed at stream
/// 2.
pub(crate) fn words_of(number: u64) -> Lcg64Xsh32
    ensures { result ≡ words_of number }
{
    Lcg64Xsh32::new(number, 2)
}

/// A number below another: the next word modulo it.
pub(crate) fn below(words: &mut Lcg64Xsh32, past: usize) -> usize
    requires { 0 < past }
    ensures value { result ≡ drawn past words.old }
    ensures within { result < past }
    ensures words { words.new ≡ after_word words.old }
{
    words.next_word() as usize % past
}
