//! What the texts of options mean.
ghost use Rattle.std.specs.Prelude.{◌≡◌, ◌≤◌, IfOk, IfSome, true};
ghost use Rattle.turn_policies.specs.declared.named.Named.{Named};
ghost use Rattle.hunt_words.specs.Fitting.{IsMemory, IsPolicy, IsRange};
ghost use Rattle.tool_words.specs.Options.{whole_blocks};
ghost use Rattle.turn_lists.specs.Texts.{are_turns};
ghost use Rattle.hunt_words.specs.Seen.{all_seen};
ghost use Rattle.hunt_words.specs.TurnTexts.{turns_named};
ghost use Rattle.hunt_words.specs.Values.{number_or, policy_named, policy_or, range_named, range_or, ranked_named};
ghost use Rattle.hunt_words.specs.Values.{words_or};

use crate::given::{Given, text_at};
use end_claims::{behind, parted};
use rtr_types::Items;
use std::alloc::{AllocError, Global};
use tool_words::{WORDS_DEFAULT, number_between, whole_blocks};
use turn_lists::{Turn, turns_of};
use turn_policies::Named;

/// The greatest number of a run in a range.
pub const RUN_MAX: u64 = u64::MAX - 1;

/// The number of the last run of a range, from 0, that no words name.
pub const LAST_DEFAULT: u64 = 9_999;

/// The greatest depth of bugs that a policy is for.
const DEPTH_MAX: u64 = 9;

/// The number that an option is set to, or this one where it isn't given.
pub(crate) fn number_or(
    given: &[Given<'_>],
    name: &str,
    least: u64,
    most: u64,
    default: u64,
) -> Option<u64>
    requires { (least ≤ default) × (default ≤ most) }
    ensures value { result ≡ number_or name.now least most default (all_seen given.now) }
    ensures within { IfSome result (λ n. (least ≤ n) × (n ≤ most)) }
{
    match text_at(given, name) {
        Some(text) => number_between(least, most, text),
        None => Some(default),
    }
}

/// The words of memory that the options name.
pub(crate) fn words_or(given: &[Given<'_>]) -> Option<u32>
    ensures value { result ≡ words_or (all_seen given.now) }
    ensures fits { IfSome result (λ n. IsMemory n) }
{
    match text_at(given, "--words") {
        Some(text) => memory_words(text),
        None => Some(WORDS_DEFAULT),
    }
}

/// The number of words of a memory.
#[tactic(auto, using(crate::proofs::Memories::whole_fits))]
fn memory_words(text: &str) -> Option<u32>
    ensures value { result ≡ whole_blocks text.now }
    ensures fits { IfSome result (λ n. IsMemory n) }
{
    whole_blocks(text)
}

/// The policy that the options name, or this one where they name none.
pub(crate) fn policy_or(given: &[Given<'_>], default: Named) -> Option<Named>
    requires { IsPolicy default }
    ensures value { result ≡ policy_or default (all_seen given.now) }
    ensures fits { IfSome result (λ by. IsPolicy by) }
{
    match text_at(given, "--by") {
        Some(text) => policy_named(text),
        None => Some(default),
    }
}

/// The policy of this name.
#[tactic(auto, unfolding(crate::specs::Values::policy_named))]
pub(crate) fn policy_named(text: &str) -> Option<Named>
    ensures value { result ≡ policy_named text.now }
    ensures fits { IfSome result (λ by. IsPolicy by) }
{
    match text {
        "seed" => Some(Named::Seed),
        "few" => Some(Named::Few),
        "walk" => Some(Named::Walk),
        "mixed" => Some(Named::Mixed),
        "all" => Some(Named::All),
        _ => ranked_named(text),
    }
}

/// The policy by ranks of this name: `pct` and the depth of bugs that it is for.
#[tactic(auto, unfolding(crate::specs::Values::ranked_named))]
fn ranked_named(text: &str) -> Option<Named>
    ensures value { result ≡ ranked_named text.now }
    ensures fits { IfSome result (λ by. IsPolicy by) }
{
    let depth = number_between(1, DEPTH_MAX, behind("pc", 't', text)?)?;
    Some(Named::Ranked(depth as u8))
}

/// The numbers of the first and the last run that the options name.
pub(crate) fn range_or(given: &[Given<'_>]) -> Option<(u64, u64)>
    ensures value { result ≡ range_or (all_seen given.now) }
    ensures fits { IfSome result (λ range. IsRange range.0 range.1) }
{
    match text_at(given, "--runs") {
        Some(text) => range_named(text),
        None => Some((0, LAST_DEFAULT)),
    }
}

/// The two ends of a range: `A..B`, where A is at most B.
#[tactic(auto, unfolding(crate::specs::Values::range_named))]
pub(crate) fn range_named(text: &str) -> Option<(u64, u64)>
    ensures value { result ≡ range_named text.now }
    ensures fits { IfSome result (λ range. IsRange range.0 range.1) }
{
    let (first, rest) = parted('.', text)?;
    let first = number_between(0, RUN_MAX, first)?;
    let last = number_between(0, RUN_MAX, behind("", '.', rest)?)?;
    if first <= last {
        Some((first, last))
    } else {
        None
    }
}

/// The turns that the text is, or `None`. The only refusal is want of memory.
pub(crate) fn turns_named(alloc: Global, text: &str) -> Result<Option<Items<Turn>>, AllocError>
    ensures value { IfOk result (λ turns. turns ≡ turns_named text.now) }
    ensures fit { IfOk result (λ turns. IfSome turns (λ ts. are_turns ts ≡ true)) }
{
    turns_of(alloc, text)
}
