//! What holds of each kind of step, for all words and views that keep the rule, and of the table's start and end.
ghost use Rattle.replay_table.specs.Laws.{SeeKeeps, LoadKeeps, HoldKeeps, StoreKeeps, ExchangeKeeps, FailKeeps};
ghost use Rattle.replay_table.specs.Laws.{PublishKeeps, SplitKeeps, JoinKeeps};
ghost use Rattle.replay_table.specs.Laws.{SeeTells, LoadTells, HoldTells, StoreTells, ExchangeTells, PublishTells};
ghost use Rattle.replay_table.specs.Laws.{LoadLaw, StoreLaw, ExchangeLaw, PublishLaw};
ghost use Rattle.replay_table.specs.Laws.{SeeLaw, HoldLaw, FailLaw, SplitLaw, JoinLaw};
ghost use Rattle.replay_table.specs.Laws.{LoadRises, StoreRises, ExchangeRises, PublishRises};
ghost use Rattle.replay_table.specs.Laws.{OpeningLaw, FreshLaw, EndPlayedLaw};

/// Each kind of step keeps the table's rule.
pub fn steps_keep_the_rule()
    ensures see { SeeKeeps }
    ensures load { LoadKeeps }
    ensures hold { HoldKeeps }
    ensures store { StoreKeeps }
    ensures exchange { ExchangeKeeps }
    ensures fail { FailKeeps }
    ensures publish { PublishKeeps }
    ensures split { SplitKeeps }
    ensures join { JoinKeeps }
{}

/// What the rule tells of each kind of step.
pub fn rule_and_step_tell()
    ensures see { SeeTells }
    ensures load { LoadTells }
    ensures hold { HoldTells }
    ensures store { StoreTells }
    ensures exchange { ExchangeTells }
    ensures publish { PublishTells }
{}

/// Whichever order stood before a step that retires instructions, that order followed by their places
/// stands afterwards.
pub fn orders_go_on()
    ensures load { LoadLaw }
    ensures store { StoreLaw }
    ensures exchange { ExchangeLaw }
    ensures publish { PublishLaw }
{}

/// The other steps keep each order that stood.
pub fn orders_stay()
    ensures see { SeeLaw }
    ensures hold { HoldLaw }
    ensures fail { FailLaw }
    ensures split { SplitLaw }
    ensures join { JoinLaw }
{}

/// A step that retires instructions raises its view's count by them.
pub fn counts_rise()
    ensures load { LoadRises }
    ensures store { StoreRises }
    ensures exchange { ExchangeRises }
    ensures publish { PublishRises }
{}

/// The opening memory and done counts of 0 keep the rule, and as long as no core has executed an instruction
/// there are no other words that do.
pub fn a_table_opens()
    ensures keeps { OpeningLaw }
    ensures alone { FreshLaw }
{}

/// What a closed table answers as accesses can be judged: they are those of the play of a whole order.
pub fn an_end_was_played()
    ensures { EndPlayedLaw }
{}
