//! What the spellings and the readings have in common.
ghost use Rattle.log_codec.specs.Laws.{ReadIsSpelled, SpelledIsRead, SpelledIsFront, FrontIsSpelled, ReadAndSpelled};
ghost use Rattle.log_codec.specs.Laws.{PrefixFree, LimitsNest, IntoTheTarget};
ghost use Rattle.log_codec.specs.BadParts.{BadPart};

/// What is read is valid and is spelled so in a version whose limits it keeps, by all bytes or by those
/// before the rest. What is spelled in either version is read, also before a rest. What is read and
/// spelled anew is read the same.
pub fn spelling_laws()
    ensures read { ReadIsSpelled }
    ensures spelled { SpelledIsRead }
    ensures front_read { FrontIsSpelled }
    ensures front_spelled { SpelledIsFront }
    ensures again { ReadAndSpelled }
{}

/// No spelling of a recording begins that of another, nor its own in the other version.
pub fn prefix_free()
    ensures { PrefixFree }
{}

/// The part that a reading of bytes names: the parts below it are spelled by a front of the bytes, in either
/// version, and no valid part follows there.
pub fn bad_part_law()
    ensures { BadPart }
{}

/// The limits of version 1 lie within those of version 2, which are what a run may have. The edges into a
/// core, by which version 2 spells the reduced log, are in order and are those of the core's pairs.
pub fn version_laws()
    ensures limits { LimitsNest }
    ensures into { IntoTheTarget }
{}
