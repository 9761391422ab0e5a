//! Laws of what words mean.
ghost use Rattle.words_laws.specs.Laws.{JoinedIsApart, SettingsCommute, TwiceIsNothing, WordsMean};

/// Words mean a command just where they are a command and settings that it takes, each spelled as a flag or as a
/// name and its value, joined by `=` or apart, each put in once with a value of its option, and together not too
/// many instructions. Every other list means nothing. Settings of different options may change places, a value may be
/// joined or apart, and words that set an option twice mean nothing.
pub fn words_by_their_grammar()
    ensures means { WordsMean }
    ensures joined { JoinedIsApart }
    ensures commute { SettingsCommute }
    ensures twice { TwiceIsNothing }
{}
