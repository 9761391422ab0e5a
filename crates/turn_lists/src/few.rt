//! The lists of few turns, by number.
ghost use Rattle.std.specs.Prelude.{◌≡◌, ◌<◌, ◌≤◌, ℕ, ◌+◌, ◌*◌, ◌/◌, ◌%◌, ◌^◌, suc, ◌∷◌, [], IfOk, length, map};
ghost use Rattle.std.specs.Prelude.{slice_index, slice_index_or};
ghost use Rattle.turn_lists.specs.Counts.{counted_on, many_of, row_of, rows_of};
ghost use Rattle.turn_lists.specs.Few.{few, had_last, lists_of};
ghost use Rattle.turn_lists.specs.declared.actor.Turn.{Turn};

use crate::actor::{Actor, Turn};
use rtr_types::Items;
use std::alloc::{AllocError, Global};
use std::marker::Model;

/// The most turns of a list that has a number.
pub const TURNS_MAX: usize = 6;

/// Above every number of a list: where there are more lists than this, they count as so many.
const MANY: u128 = 1 << 64;

/// The lists of up to `TURNS_MAX` turns by number. What is kept beside the greatest turns is, for each number of turns
/// below `TURNS_MAX` and for each actor, how many lists of so many turns follow a turn of that actor.
#[derive(Drop)]
pub struct FewLists {
    greatest: Vec<Turn>,
    rows: Vec<Items<u128>>,
}

impl Model for FewLists {
    ghost use Rattle.std.specs.Prelude.{◌≡◌, List};
    ghost use Rattle.turn_lists.specs.Counts.{rows_of};
    ghost use Rattle.turn_lists.specs.declared.actor.Turn.{Turn};
    ghost use Rattle.turn_lists.specs.declared.few.TheConstants.{TURNS_MAX};

    ghost Value = { List Turn };

    ghost view = { λ f. f.greatest.items };

    ghost invariant = { λ f. f.rows.items ≡ rows_of f.greatest.items TURNS_MAX };
}

impl FewLists {
    /// The lists of the actors of these turns, each with counts from 1 to that of its turn.
    pub fn new(alloc: Global, greatest: &[Turn]) -> Result<FewLists, AllocError>
        ensures { IfOk result (λ lists. lists ≡ greatest.now) }
    {
        let rows = rows_of(alloc, greatest)?;
        Ok(FewLists {
            greatest: greatest.to_vec(alloc)?,
            rows,
        })
    }

    /// The list numbered `number`, from 0; past the last one the list of no turn.
    pub fn list(&self, alloc: Global, number: u64) -> Result<Items<Turn>, AllocError>
        ensures { IfOk result (λ list. list ≡ few self.now number) }
    {
        let mut left = number as u128;
        for turns in 0..TURNS_MAX + 1 {
            let many = self.many(turns);
            if left < many {
                return self.list_of(alloc, turns, left);
            }
            left -= many;
        }
        Ok(Items::new(alloc))
    }

    /// How many lists of so many turns there are.
    fn many(&self, turns: usize) -> u128
        requires { turns ≤ TURNS_MAX }
        ensures { result ≡ many_of self.now turns None }
    {
        if turns == 0 {
            1
        } else {
            counted(self.greatest(), self.row(turns - 1), None)
        }
    }

    /// The greatest turns.
    fn greatest(&self) -> &[Turn]
        ensures { result.now ≡ self.now }
    {
        self.greatest.as_slice()
    }

    /// For each actor, how many lists of so many turns follow a turn of it.
    fn row(&self, turns: usize) -> &[u128]
        requires { turns < TURNS_MAX }
        ensures { result.now ≡ row_of self.now turns }
    {
        self.rows[turns].as_slice()
    }

    /// The list of this number among those of so many turns.
    fn list_of(&self, alloc: Global, turns: usize, number: u128) -> Result<Items<Turn>, AllocError>
        requires few { turns ≤ TURNS_MAX }
        requires small { number < 2 ^ 64 }
        requires within { number < length (lists_of self.now turns None) }
        ensures { IfOk result (λ list. list ≡ slice_index_or (lists_of self.now turns None) number []) }
    {
        let mut list = Items::new(alloc);
        let mut left = number;
        let mut last = None;
        for made in 0..turns {
            let (turn, rest) = self.first_turn(turns - 1 - made, last, left);
            list.push(turn)?;
            last = Some(turn.actor);
            left = rest;
        }
        Ok(list)
    }

    /// The first turn of the list of this number among those of one turn more than `after` that follow a turn of the
    /// last actor, and the number of the list's rest among those that follow this turn.
    fn first_turn(&self, after: usize, last: Option<Actor>, number: u128) -> (Turn, u128)
        requires few { after < TURNS_MAX }
        requires small { number < 2 ^ 64 }
        requires within { number < length (lists_of self.now (suc after) last) }
        ensures small { result.1 < 2 ^ 64 }
        ensures within { result.1 < length (lists_of self.now after (Some result.0.actor)) }
        ensures list { slice_index_or (lists_of self.now (suc after) last) number []
            ≡ result.0 ∷ slice_index_or (lists_of self.now after (Some result.0.actor)) result.1 [] }
    {
        let all = self.greatest();
        let row = self.row(after);
        let mut left = number;
        for (place, greatest) in all.iter().enumerate() {
            if !had_last(last, greatest.actor) {
                let each = row[place];
                let these = greatest.count as u128 * each;
                if left < these {
                    return turn_of(*greatest, each, left);
                }
                left -= these;
            }
        }
        (
            Turn {
                actor: Actor::Core(0),
                count: 0,
            },
            0,
        )
    }
}

/// The turn of the list of this number among those that the actor begins, `each` with each count; and the number of
/// the list's rest.
fn turn_of(greatest: Turn, each: u128, number: u128) -> (Turn, u128)
    requires within { number < greatest.count * each }
    ensures turn { result.0 ≡ record greatest { count = number / each + 1 } }
    ensures rest { result.1 ≡ number % each }
{
    let turn = Turn {
        actor: greatest.actor,
        count: (number / each) as u32 + 1,
    };
    (turn, number % each)
}

/// The rows of counts of `FewLists`.
fn rows_of(alloc: Global, greatest: &[Turn]) -> Result<Vec<Items<u128>>, AllocError>
    ensures { IfOk result (λ rows. rows.items ≡ rows_of greatest.now TURNS_MAX) }
{
    let mut rows = Vec::new(alloc);
    let mut row = first_row(alloc, greatest)?;
    for _made in 0..TURNS_MAX - 1 {
        let next = next_row(alloc, greatest, row.as_slice())?;
        rows.push(row)?;
        row = next;
    }
    rows.push(row)?;
    Ok(rows)
}

/// The row for no turn: after each actor's turn one list of no turn follows.
fn first_row(alloc: Global, greatest: &[Turn]) -> Result<Items<u128>, AllocError>
    ensures { IfOk result (λ row. row ≡ row_of greatest.now 0) }
{
    let mut row = Items::new(alloc);
    for _turn in greatest {
        row.push(1)?;
    }
    Ok(row)
}

/// The row after a row.
fn next_row(alloc: Global, greatest: &[Turn], row: &[u128]) -> Result<Items<u128>, AllocError>
    requires long { length row.now ≡ length greatest.now }
    requires small { (k : ℕ) → slice_index row.now k ≤ 2 ^ 64 }
    ensures { IfOk result
        (λ next. next ≡ map (λ (g : Turn). counted_on 0 greatest.now row.now (Some g.actor)) greatest.now) }
{
    let mut next = Items::new(alloc);
    for turn in greatest {
        next.push(counted(greatest, row, Some(turn.actor)))?;
    }
    Ok(next)
}

/// How many lists, each with one turn more than those that the row counts, follow a turn of the last actor.
fn counted(greatest: &[Turn], row: &[u128], last: Option<Actor>) -> u128
    requires long { length row.now ≡ length greatest.now }
    requires small { (k : ℕ) → slice_index row.now k ≤ 2 ^ 64 }
    ensures { result ≡ counted_on 0 greatest.now row.now last }
{
    let mut count = 0;
    for (place, turn) in greatest.iter().enumerate() {
        if !had_last(last, turn.actor) {
            count = (count + turn.count as u128 * row[place]).min(MANY);
        }
    }
    count
}

/// Whether the actor had the turn before.
fn had_last(last: Option<Actor>, actor: Actor) -> bool
    ensures { result ≡ had_last last actor }
{
    match last {
        Some(last) => last.is(actor),
        None => false,
    }
}
