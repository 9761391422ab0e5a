//! Readings and spellings of certificates are the same, and which part a reading names.
ghost use Rattle.certificate_codec.specs.BadParts.{BadPart};
ghost use Rattle.certificate_codec.specs.Laws.{ReadIsSpelled, SpelledIsRead, WrittenSpells, PrefixFree};

/// What is read is valid and spelled so, what is spelled is read, and so what is written is read again.
/// No spelling of a certificate begins that of another.
pub fn certificate_spellings()
    ensures read { ReadIsSpelled }
    ensures spelled { SpelledIsRead }
    ensures written { WrittenSpells }
    ensures prefix { PrefixFree }
{}

/// The part that a reading of bytes names: the parts below it are spelled by a front of the bytes, in either
/// version, and no valid part follows there.
pub fn bad_part_law()
    ensures { BadPart }
{}
