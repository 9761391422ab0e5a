//! The rule of the table, and what it tells of each kind of step.
ghost use Rattle.std.specs.Prelude.{ℕ};
ghost use Rattle.atomic_table.specs.Table.{Step};
ghost use Rattle.replay_core.specs.Plans.{Plan};
ghost use Rattle.replay_table.specs.declared.view.View.{View};
ghost use Rattle.replay_table.specs.Told.{ToldDone, ToldLoad, ToldHold, ToldStore, ToldExchange, ToldPublish};

use crate::job::Job;
use crate::view::View;
use atomic_table::{Join, Play, Split, TableRule};
use std::marker::PhantomData;

/// The rule by the recording and log of a job.
pub struct RuleOf<J> {
    of: PhantomData<J>,
}

impl<J: Job> TableRule<u8, View, ()> for RuleOf<J> {
    ghost use Rattle.replay_core.specs.Plans.{plan_of};
    ghost use Rattle.replay_table.specs.Rule.{TableRule as KeepsRule};
    ghost use Rattle.replay_table.specs.Kinds.{first_view};

    ghost holds = { λ _. KeepsRule (plan_of J.which J.recording) };

    ghost first = { λ _. first_view (plan_of J.which J.recording) };
}

/// A kind of step: what the rule tells of one, by the plan, the view before, the step, the word found (at a store,
/// the word stored) and the view after.
pub trait StepKind {
    ghost tells: { Plan → View → Step ℕ → ℕ → View → Type 0 };
}

/// What a step of a kind tells its caller by the recording and log of a job. It moves no slot.
pub struct Told<J, K> {
    of: PhantomData<(J, K)>,
}

impl<J: Job, K: StepKind> Play<u8, View> for Told<J, K> {
    ghost use Rattle.std.specs.Prelude.{◌≡◌};
    ghost use Rattle.replay_core.specs.Plans.{plan_of};

    ghost then = { λ at before found after. K.tells (plan_of J.which J.recording) before.0 at found after.0
        × (after.1 ≡ before.1) };
}

/// A done word is loaded.
pub struct SeeDone;

impl StepKind for SeeDone {
    ghost tells = { λ p before at. ToldDone p before at.word };
}

/// A word is loaded for a load.
pub struct LoadWord;

impl StepKind for LoadWord {
    ghost tells = { λ p before at. ToldLoad p before at.word };
}

/// A word is loaded to be held.
pub struct HoldWord;

impl StepKind for HoldWord {
    ghost tells = { λ p before at. ToldHold p before at.word };
}

/// A whole word is stored.
pub struct StoreWord;

impl StepKind for StoreWord {
    ghost tells = { λ p before at. ToldStore p before at.word };
}

/// The held word is exchanged for the value after.
pub struct ExchangeWord;

impl StepKind for ExchangeWord {
    ghost tells = { λ p before at. ToldExchange p before at.word at.first at.second };
}

/// A count is published.
pub struct PublishCount;

impl StepKind for PublishCount {
    ghost tells = { λ p before at. ToldPublish p before at.word };
}

/// The first core of a view goes to a new one.
pub struct TakeFirst;

impl Split<View> for TakeFirst {
    ghost use Rattle.replay_table.specs.Kinds.{without_first, first_alone};

    ghost left = { without_first };

    ghost right = { first_alone };
}

/// A view takes in another.
pub struct TakeIn;

impl Join<View> for TakeIn {
    ghost use Rattle.replay_table.specs.Kinds.{both as both_views, spent as spent_view};

    ghost both = { both_views };

    ghost spent = { spent_view };
}
