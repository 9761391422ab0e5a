//! What holds of a core's steps whatever the instructions are. The layers above know a step by these
//! laws, and never open the instruction set.
ghost use Rattle.rv_core.specs.Laws.{StartLaw, CountLaw, NumberLaw, LimitLaw, RoomLaw, WithinLaw, LocalLaw, UnreadLaw};
ghost use Rattle.rv_core.specs.Laws.{WholeLaw, WholeStoreLaw, LocalValueLaw, UnwrittenLaw, ValueLaw, TotalLaw};
ghost use Rattle.rv_core.specs.StoreMask.{StoreMaskLaw, WithinMaskLaw};

/// A core starts with its number and limit, and with no retired instruction.
pub fn a_core_starts_at_0()
    ensures { StartLaw }
{}

/// A step counts one instruction more, and keeps the core's number and limit.
pub fn a_step_counts_one()
    ensures count { CountLaw }
    ensures number { NumberLaw }
    ensures limit { LimitLaw }
{}

/// A core that isn't done is below its limit, and a need never stops at the total.
pub fn a_need_leaves_room()
    ensures room { RoomLaw }
    ensures total { TotalLaw }
{}

/// The word of an access is one of the memory's.
pub fn words_are_within()
    ensures { WithinLaw }
{}

/// What a word held matters to the core after an access that reads alone, and to nothing that a store of
/// a whole word does, which writes and doesn't read.
pub fn what_a_word_held_matters_to()
    ensures local { LocalLaw }
    ensures unread { UnreadLaw }
    ensures whole { WholeLaw }
    ensures whole_store { WholeStoreLaw }
{}

/// What a word holds after a step: a local instruction answers 0, an access that doesn't write leaves its
/// word, and no value reaches 2^32.
pub fn values_are_words()
    ensures local { LocalValueLaw }
    ensures unwritten { UnwrittenLaw }
    ensures value { ValueLaw }
{}

/// A store writes the word in which the bits of its mask became its bits, which lie within the mask.
pub fn masks_give_what_stores_write()
    ensures writes { StoreMaskLaw }
    ensures within { WithinMaskLaw }
{}
