//! Entries as lists of counts, by core. A place past the end has nothing.
ghost use Rattle.std.specs.Prelude.{◌≡◌, ◌≢◌, ◌≤◌, ◌<◌, ◌↔◌, ℕ, IsTrue, List, length, slice_index};
ghost use Rattle.clock_entries.specs.Ends.{entry_at};
ghost use Rattle.min_certificate.specs.Places.{IsBelow, IsBelowBut};

use certificate_codec::CoreEntries;

/// The count at a place.
pub fn place(entry: &[u32], at: usize) -> u32
    ensures { result ≡ slice_index entry.now at }
{
    match entry.get(at) {
        Some(count) => *count,
        None => 0,
    }
}

/// Whether no place has more there than here.
pub fn is_below(there: &[u32], here: &[u32]) -> bool
    ensures { IsTrue result ↔ IsBelow there.now here.now }
{
    for at in 0..there.len() {
        if there[at] > place(here, at) {
            return false;
        }
    }
    true
}

/// Whether no place but the core's has more there than here.
pub fn is_below_but(core: u8, there: &[u32], here: &[u32]) -> bool
    ensures { IsTrue result ↔ IsBelowBut core there.now here.now }
{
    for at in 0..there.len() {
        if at != core as usize && there[at] > place(here, at) {
            return false;
        }
    }
    true
}

/// The entry of a core with this number, from 1; empty where there is none.
pub fn entry_at<'a>(clocks: &'a [CoreEntries], core: u8, number: usize) -> &'a [u32]
    ensures { result.now ≡ entry_at clocks.now core number }
{
    if number == 0 {
        return &[];
    }
    match clocks.get(core as usize) {
        Some(entries) => entries.entry(number - 1),
        None => &[],
    }
}
