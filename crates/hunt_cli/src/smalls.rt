//! Runs made small.
ghost use Rattle.std.specs.Prelude.{◌≡◌, ◌*◌, ◌≤◌, IfOk, OnOk, Some, None, [], length, string_bytes, true};
ghost use Rattle.rtr_types.specs.Parameters.{Fits};
ghost use Rattle.schedule_pick.specs.Choices.{choices_of};
ghost use Rattle.end_claims.specs.Demands.{is_demanded_within};
ghost use Rattle.turn_policies.specs.PickedTurns.{turns_of_picks};
ghost use Rattle.small_turns.specs.Small.{IsSmall};
ghost use Rattle.hunt_texts.specs.Reports.{whole_report};
ghost use Rattle.state_text.specs.declared.exit.Exit.TheVariants.{Done};
ghost use Rattle.hunt_cli.specs.Finds.{FindsSmall, IsMadeSmall, IsPut, IsShown, turns_break};
ghost use Rattle.hunt_cli.specs.Kinds.{image_in, kind_with, named_choices, numbered_choices, picks, setting_on};
ghost use Rattle.hunt_cli.specs.Kinds.{turns_choices};
ghost use Rattle.hunt_cli.specs.OwnTurns.{picks_made, turns_named, turns_numbered, turns_under};
ghost use Rattle.hunt_cli.specs.RunEnds.{IsRunUnder};
ghost use Rattle.hunt_cli.specs.declared.exits.HuntExit.TheVariants.{As, Whole};

use crate::acts::acts_of;
use crate::ends::RunEnd;
use crate::exits::{Answer, HuntExit};
use crate::images::machine;
use crate::runs::{by_turns, counted, picked_turns, run_by, run_named};
use crate::shows::put_run;
use end_claims::Demand;
use hunt_runs::{Counted, HuntedMachine};
use hunt_texts::whole_report;
use hunt_words::{RunName, Setup};
use rtr_types::{Items, Params};
use run_ranges::Asked;
use small_turns::{Tries, small, small_of_run};
use std::alloc::{AllocError, Global};
use std::marker::PhantomData;
use turn_lists::Turn;
use turn_policies::Numbered;

/// The runs of an image by turns, as one asks of them.
#[derive(Drop)]
pub(crate) struct TurnRuns<'a, M: HuntedMachine> {
    alloc: Global,
    /// The image's bytes.
    bytes: &'a [u8],
    params: Params,
    demand: &'a Demand,
    /// The values that the range's first run ends with at the places of `Same`.
    first: &'a [u32],
    machine: PhantomData<M>,
    ghost fits: { Fits params },
    ghost room: { length bytes.now ≤ 4 * params.words },
    ghost demanded: { is_demanded_within params.cores params.words demand.now ≡ true },
}

impl<M: HuntedMachine> Tries for TurnRuns<'_, M> {
    type Bench = M;

    ghost serves = { λ runs bench. M.image bench ≡ image_in runs.params runs.bytes.now };

    ghost breaks = { λ runs. turns_break (setting_on (kind_with M.seen_at M.changes_at M.outcome M.most_steps M.buffers)
        runs.params runs.bytes.now) runs.demand.now runs.first.now };

    fn ask(&self, bench: M, turns: &[Turn]) -> Result<Asked<M>, AllocError> {
        let run = by_turns::<M>(self.alloc, bench, self.params, turns)?;
        let breaks = run.breaks(Some(self.demand), self.first);
        Ok(Asked {
            breaks,
            bench: run.into_machine(),
        })
    }
}

/// An image with a demand on its runs, for which turns are made small.
#[derive(Clone, Copy)]
pub(crate) struct SmallOf<'a> {
    pub(crate) bytes: &'a [u8],
    pub(crate) setup: Setup,
    pub(crate) demand: &'a Demand,
    /// The values that the range's first run ends with at the places of `Same`.
    pub(crate) first: &'a [u32],
    ghost fits: { Fits setup.params },
    ghost room: { length bytes.now ≤ 4 * setup.params.words },
    ghost demanded: { is_demanded_within setup.params.cores setup.params.words demand.now ≡ true },
}

impl<'a> SmallOf<'a> {
    /// The runs by turns.
    fn tries<M: HuntedMachine>(self, alloc: Global) -> TurnRuns<'a, M>
        ensures bytes { result.bytes.now ≡ self.entry.bytes.now }
        ensures params { result.params ≡ self.entry.setup.params }
        ensures demand { result.demand.now ≡ self.entry.demand.now }
        ensures first { result.first.now ≡ self.entry.first.now }
    {
        TurnRuns {
            alloc,
            bytes: self.bytes,
            params: self.setup.params,
            demand: self.demand,
            first: self.first,
            machine: PhantomData,
        }
    }

    /// Turns that break the demand and are least in steps, where these break it. The only refusal is want of memory.
    fn from_turns<M: HuntedMachine>(
        self,
        alloc: Global,
        turns: &[Turn],
    ) -> Result<Option<Items<Turn>>, AllocError>
        ensures { IfOk result (λ found. IsSmall (turns_break (setting_on (kind_with M.seen_at M.changes_at M.outcome
            M.most_steps M.buffers)
            self.entry.setup.params self.entry.bytes.now) self.entry.demand.now self.entry.first.now) turns.now found) }
    {
        let bench = machine::<M>(alloc, self.bytes, self.setup.params)?;
        small(alloc, &self.tries::<M>(alloc), bench, turns)
    }

    /// Turns that break the demand and are least in steps, made of the acts of a run; `None` where these break nothing.
    /// The only refusal is want of memory.
    fn from_run<M: HuntedMachine>(
        self,
        alloc: Global,
        run: RunEnd<M>,
    ) -> Result<Option<Items<Turn>>, AllocError>
        ensures { IfOk result (λ found. let s = setting_on (kind_with M.seen_at M.changes_at M.outcome M.most_steps
            M.buffers) self.entry.setup.params self.entry.bytes.now in
            IsMadeSmall (turns_break s self.entry.demand.now self.entry.first.now)
            (turns_under s (choices_of run.choices run.seed)) found) }
    {
        let acts = acts_of(alloc, self.bytes, self.setup.params, run)?;
        let bench = machine::<M>(alloc, self.bytes, self.setup.params)?;
        match small_of_run(alloc, &self.tries::<M>(alloc), bench, acts.as_slice())? {
            Some(least) => Ok(Some(least)),
            None => Ok(None),
        }
    }

    /// Turns that break the demand and are least in steps, made of these turns; `None` where these break nothing. The
    /// only refusal is want of memory.
    fn least_of<M: HuntedMachine>(
        self,
        alloc: Global,
        turns: &[Turn],
    ) -> Result<Option<Items<Turn>>, AllocError>
        ensures { IfOk result (λ found. let s = setting_on (kind_with M.seen_at M.changes_at M.outcome M.most_steps
            M.buffers) self.entry.setup.params self.entry.bytes.now in
            IsMadeSmall (turns_break s self.entry.demand.now self.entry.first.now) turns.now found) }
    {
        match self.from_turns::<M>(alloc, turns)? {
            Some(least) => Ok(Some(least)),
            None => Ok(None),
        }
    }

    /// Turns that break the demand and are least in steps, made of the acts of the run of this number, or where these
    /// break nothing of its picks; `None` where neither do. The only refusal is want of memory.
    fn from_picks<M: HuntedMachine>(
        self,
        alloc: Global,
        counted: &Counted,
        number: Numbered,
        run: RunEnd<M>,
    ) -> Result<Option<Items<Turn>>, AllocError>
        requires counts { counted.now ≡ picks (setting_on (kind_with M.seen_at M.changes_at M.outcome M.most_steps
            M.buffers) self.setup.params self.bytes.now) }
        requires run { let s = setting_on (kind_with M.seen_at M.changes_at M.outcome M.most_steps M.buffers)
            self.setup.params self.bytes.now in IsRunUnder s (numbered_choices s number) run }
        ensures { IfOk result (λ found. let s = setting_on (kind_with M.seen_at M.changes_at M.outcome M.most_steps
            M.buffers) self.entry.setup.params self.entry.bytes.now in
            IsMadeSmall (turns_break s self.entry.demand.now self.entry.first.now)
            (turns_of_picks (picks_made s number)) found) }
    {
        let noted = run.noted();
        match self.from_run(alloc, run)? {
            Some(least) => Ok(Some(least)),
            None => {
                let (bytes, params) = (self.bytes, self.setup.params);
                let turns = picked_turns::<M>(alloc, bytes, params, counted, number, noted)?;
                self.least_of::<M>(alloc, turns.as_slice())
            }
        }
    }

    /// Turns that break the demand and are least in steps, made of the list of turns that the number means, or of the
    /// acts or the picks of another policy's run; `None` where these break nothing. The only refusal is want of memory.
    pub(crate) fn from_number<M: HuntedMachine>(
        self,
        alloc: Global,
        counted: &Counted,
        number: Numbered,
        run: RunEnd<M>,
    ) -> Result<Option<Items<Turn>>, AllocError>
        requires counts { counted.now ≡ picks (setting_on (kind_with M.seen_at M.changes_at M.outcome M.most_steps
            M.buffers) self.setup.params self.bytes.now) }
        requires run { let s = setting_on (kind_with M.seen_at M.changes_at M.outcome M.most_steps M.buffers)
            self.setup.params self.bytes.now in IsRunUnder s (numbered_choices s number) run }
        ensures { IfOk result (λ found. let s = setting_on (kind_with M.seen_at M.changes_at M.outcome M.most_steps
            M.buffers) self.entry.setup.params self.entry.bytes.now in
            IsMadeSmall (turns_break s self.entry.demand.now self.entry.first.now) (turns_numbered s number) found) }
    {
        match number {
            Numbered::Few(number) => {
                let turns = counted.turns(alloc, number)?;
                self.least_of::<M>(alloc, turns.as_slice())
            }
            Numbered::Seed(_) => self.from_run(alloc, run),
            Numbered::Walk(_) | Numbered::Ranked(..) => self.from_picks(
                alloc, counted, number, run,
            ),
        }
    }

    /// Turns that break the demand and are least in steps, made of those of the run of this name; `None` where these
    /// break nothing. The only refusal is want of memory.
    fn from_name<M: HuntedMachine>(
        self,
        alloc: Global,
        name: &RunName,
        run: RunEnd<M>,
    ) -> Result<Option<Items<Turn>>, AllocError>
        requires run { let s = setting_on (kind_with M.seen_at M.changes_at M.outcome M.most_steps M.buffers)
            self.setup.params self.bytes.now in IsRunUnder s (named_choices s name.now) run }
        ensures { IfOk result (λ found. let s = setting_on (kind_with M.seen_at M.changes_at M.outcome M.most_steps
            M.buffers) self.entry.setup.params self.entry.bytes.now in
            IsMadeSmall (turns_break s self.entry.demand.now self.entry.first.now) (turns_named s name.now) found) }
    {
        match name {
            RunName::Numbered { by, number } => {
                let counted = counted::<M>(alloc, self.bytes, self.setup.params)?;
                self.from_number(alloc, &counted, by.numbered(*number), run)
            }
            RunName::Turns(turns) => self.least_of::<M>(alloc, turns.as_slice()),
        }
    }

    /// Puts the run of these turns. The only refusal is want of memory.
    pub(crate) fn put_turns<M: HuntedMachine>(
        self,
        alloc: Global,
        text: &mut String,
        turns: &[Turn],
    ) -> Result<(), AllocError>
        ensures { OnOk result (let s = setting_on (kind_with M.seen_at M.changes_at M.outcome M.most_steps M.buffers)
            self.entry.setup.params self.entry.bytes.now in IsPut (string_bytes text.old) (string_bytes text.new)
            (IsShown self.entry.setup s self.entry.demand.now (Some turns.now) (turns_choices s turns.now))) }
    {
        let run = run_by::<M>(alloc, self.bytes, self.setup.params, turns)?;
        put_run(alloc, text, &self.setup, self.demand, Some(turns), run)
    }
}

/// The run of this name made small. The only refusal is want of memory.
pub(crate) fn small_of<M: HuntedMachine>(
    alloc: Global,
    asked: SmallOf<'_>,
    run: &RunName,
) -> Result<Answer, AllocError>
    requires { asked.first.now ≡ [] }
    ensures { IfOk result (λ a. FindsSmall asked.entry.setup (setting_on (kind_with M.seen_at M.changes_at M.outcome
        M.most_steps M.buffers) asked.entry.setup.params asked.entry.bytes.now) run.now asked.entry.demand.now
        a.out.items
        (string_bytes a.report) a.exit) }
{
    match run {
        RunName::Turns(turns) => match asked.from_turns::<M>(alloc, turns.as_slice())? {
            Some(least) => least_answer::<M>(alloc, asked, least.as_slice()),
            None => whole_answer(alloc),
        },
        RunName::Numbered { .. } => small_of_number::<M>(alloc, asked, run),
    }
}

/// The run of this name, which has a number, made small; as it is, where its turns break nothing.
fn small_of_number<M: HuntedMachine>(
    alloc: Global,
    asked: SmallOf<'_>,
    name: &RunName,
) -> Result<Answer, AllocError>
    requires { asked.first.now ≡ [] }
    ensures { IfOk result (λ a. FindsSmall asked.entry.setup (setting_on (kind_with M.seen_at M.changes_at M.outcome
        M.most_steps M.buffers) asked.entry.setup.params asked.entry.bytes.now) name.now asked.entry.demand.now
        a.out.items
        (string_bytes a.report) a.exit) }
{
    let run = run_named::<M>(alloc, asked.bytes, asked.setup.params, name)?;
    if !run.breaks(Some(asked.demand), asked.first) {
        return whole_answer(alloc);
    }
    match asked.from_name(alloc, name, run)? {
        Some(least) => least_answer::<M>(alloc, asked, least.as_slice()),
        None => plain_answer::<M>(alloc, asked, name),
    }
}

/// The answer that shows the run of these turns.
fn least_answer<M: HuntedMachine>(
    alloc: Global,
    asked: SmallOf<'_>,
    turns: &[Turn],
) -> Result<Answer, AllocError>
    ensures out { IfOk result (λ a. let s = setting_on (kind_with M.seen_at M.changes_at M.outcome M.most_steps
        M.buffers)
        asked.entry.setup.params asked.entry.bytes.now in
        IsShown asked.entry.setup s asked.entry.demand.now (Some turns.now) (turns_choices s turns.now) a.out.items) }
    ensures report { IfOk result (λ a. string_bytes a.report ≡ []) }
    ensures exit { IfOk result (λ a. a.exit ≡ As Done) }
{
    let mut text = String::new(alloc);
    asked.put_turns::<M>(alloc, &mut text, turns)?;
    Ok(Answer::done(alloc, text.into_bytes()))
}

/// The answer that shows the run of this name as it is.
fn plain_answer<M: HuntedMachine>(
    alloc: Global,
    asked: SmallOf<'_>,
    name: &RunName,
) -> Result<Answer, AllocError>
    ensures out { IfOk result (λ a. let s = setting_on (kind_with M.seen_at M.changes_at M.outcome M.most_steps
        M.buffers)
        asked.entry.setup.params asked.entry.bytes.now in
        IsShown asked.entry.setup s asked.entry.demand.now None (named_choices s name.now) a.out.items) }
    ensures report { IfOk result (λ a. string_bytes a.report ≡ []) }
    ensures exit { IfOk result (λ a. a.exit ≡ As Done) }
{
    let run = run_named::<M>(alloc, asked.bytes, asked.setup.params, name)?;
    let mut text = String::new(alloc);
    put_run(alloc, &mut text, &asked.setup, asked.demand, None, run)?;
    Ok(Answer::done(alloc, text.into_bytes()))
}

/// The answer of a run that doesn't break the demand.
fn whole_answer(alloc: Global) -> Result<Answer, AllocError>
    ensures out { IfOk result (λ a. a.out.items ≡ []) }
    ensures report { IfOk result (λ a. string_bytes a.report ≡ whole_report) }
    ensures exit { IfOk result (λ a. a.exit ≡ Whole) }
{
    Ok(Answer {
        out: Vec::new(alloc),
        report: whole_report(alloc)?,
        exit: HuntExit::Whole,
    })
}
