//! The places that a text names.
ghost use Rattle.std.specs.Prelude.{◌≡◌, IfOk, Some, None, if◌then◌else◌};
ghost use Rattle.std.specs.List.{fold};
ghost use Rattle.std.specs.Option.{option_map};
ghost use Rattle.end_claims.specs.Reading.{core_of, ended_place, places_of, places_part, register_place, stop_named};
ghost use Rattle.end_claims.specs.Reading.{value_place, word_place};
ghost use Rattle.end_claims.specs.Named.{with_place};

use crate::claim::Place;
use crate::naming::{put_all_ended, put_place};
use crate::numbers::{before_last, behind, hex_number, parted};
use crate::reading::pieces;
use rtr_types::{CORES_MAX, Items};
use rv_core::{REGISTERS, Stop};
use std::alloc::{AllocError, Global};
use tool_words::number_between;

/// The number of a core, below `CORES_MAX`.
pub(crate) fn core_of(text: &str) -> Option<u8>
    ensures { result ≡ core_of text.now }
{
    Some(number_between(0, CORES_MAX as u64 - 1, text)? as u8)
}

/// The stop of this name.
pub(crate) fn stop_named(text: &str) -> Option<Stop>
    ensures { result ≡ stop_named text.now }
{
    match text {
        "exit" => Some(Stop::Exit),
        "break" => Some(Stop::Break),
        "limit" => Some(Stop::Limit),
        "fetch" => Some(Stop::Fetch),
        "illegal" => Some(Stop::Illegal),
        "jump" => Some(Stop::Jump),
        "align" => Some(Stop::Align),
        "address" => Some(Stop::Address),
        _ => None,
    }
}

/// The word or register that a text names.
#[tactic(auto, unfolding(crate::specs::Reading::value_place))]
pub(crate) fn value_place(text: &str) -> Option<Place>
    ensures { result ≡ value_place text.now }
{
    match word_place(text) {
        Some(place) => Some(place),
        None => register_place(text),
    }
}

/// The word of memory at the byte address in brackets.
#[tactic(auto, unfolding(crate::specs::Reading::word_place))]
fn word_place(text: &str) -> Option<Place>
    ensures { result ≡ word_place text.now }
{
    let inside = behind("", '[', text)?;
    let address = hex_number(before_last(']', inside)?)?;
    if address % 4 == 0 {
        Some(Place::Word(address / 4))
    } else {
        None
    }
}

/// The register of a core.
#[tactic(auto, unfolding(crate::specs::Reading::register_place))]
fn register_place(text: &str) -> Option<Place>
    ensures { result ≡ register_place text.now }
{
    let (core, register) = parted(':', text)?;
    let core = core_of(core)?;
    let number = number_between(0, REGISTERS as u64 - 1, behind("", 'x', register)?)? as u8;
    Some(Place::Register { core, number })
}

/// How a core ended, as a place.
#[tactic(auto, unfolding(crate::specs::Reading::ended_place))]
fn ended_place(text: &str) -> Option<Place>
    ensures { result ≡ ended_place text.now }
{
    let (core, stop) = parted(':', text)?;
    let core = core_of(core)?;
    if stop == "stop" {
        Some(Place::Ended(core))
    } else {
        None
    }
}

/// The places that the text lists, or `None`: words `[10ac]`, registers `1:x7`, how a core ended as `1:stop`, and
/// `stops` for how each of so many cores ended, joined by `,`. Each stands once, where it is first named. The only
/// refusal is want of memory.
#[tactic(auto, unfolding(crate::specs::Reading::places_of, crate::specs::Named::each_once))]
pub fn read_places(alloc: Global, cores: u8, text: &str) -> Result<Option<Items<Place>>, AllocError>
    ensures { IfOk result (λ places. places ≡ places_of cores text.now) }
{
    let pieces = pieces(alloc, ',', text)?;
    let mut places = Items::new(alloc);
    for k in 0..pieces.len() {
        if !put_part(&mut places, cores, pieces[k])? {
            return Ok(None);
        }
    }
    Ok(Some(places))
}

/// Puts the places that a piece of such a list names, each where it isn't there already; false where the piece names
/// none.
#[tactic(auto, unfolding(crate::specs::Reading::places_part))]
fn put_part(places: &mut Items<Place>, cores: u8, text: &str) -> Result<bool, AllocError>
    ensures { IfOk result (λ named. option_map (fold with_place places.old) (places_part cores text.now)
        ≡ (if named then Some places.new else None)) }
{
    if text == "stops" {
        put_all_ended(places, cores)?;
        return Ok(true);
    }
    match value_place(text).or(ended_place(text)) {
        Some(place) => {
            put_place(places, place)?;
            Ok(true)
        }
        None => Ok(false),
    }
}
