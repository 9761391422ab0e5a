//! Sets of cores whose members are counted, and found by their numbers.
ghost use Rattle.std.specs.Prelude.{◌≡◌, ◌≢◌, ◌<◌, ◌≤◌, ◌&&◌, ℕ, length, nat_lt, slice_index_or, true};
ghost use Rattle.rtr_types.specs.CoreSets.{has};
ghost use Rattle.rtr_types.specs.declared.TheConstants.{CORES_MAX};
ghost use Rattle.move_marks.specs.Members.{members};

use rtr_types::{CORES_MAX, CoreSet};

/// The cores of the set that are among the first so many.
pub fn first_of(set: CoreSet, cores: u32) -> CoreSet
    requires { cores ≤ CORES_MAX }
    ensures { (c : ℕ) → has result c ≡ (has set c && nat_lt c cores) }
{
    CoreSet {
        bits: set.bits & ((1u32 << cores) - 1) as u16,
    }
}

/// The set with the core in it exactly where so is told.
pub fn set_to(set: CoreSet, core: u8, is_in: bool) -> CoreSet
    requires { core < CORES_MAX }
    ensures this { has result core ≡ is_in }
    ensures others { (c : ℕ) → c ≢ core → has result c ≡ has set c }
{
    if is_in {
        set.with(core)
    } else {
        set.without(core)
    }
}

/// How many cores are in the set.
pub fn count(set: CoreSet) -> u32
    ensures value { result ≡ length (members set) }
    ensures few { result ≤ CORES_MAX }
{
    set.bits.count_ones()
}

/// The number of a member, from 0: so many members are below it.
pub fn number_in(set: CoreSet, core: u8) -> u32
    requires core { core < CORES_MAX }
    requires member { has set core ≡ true }
    ensures within { result < length (members set) }
    ensures value { (d : ℕ) → slice_index_or (members set) result d ≡ core }
{
    count(first_of(set, core as u32))
}

/// The member of this number, from 0.
pub fn nth(set: CoreSet, number: u32) -> u8
    requires { number < length (members set) }
    ensures value { (d : ℕ) → result ≡ slice_index_or (members set) number d }
    ensures within { result < CORES_MAX }
{
    let mut rest = set.bits;
    for _passed in 0..number {
        // the lowest bit goes
        rest &= rest - 1;
    }
    rest.trailing_zeros() as u8
}
